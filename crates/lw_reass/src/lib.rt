//! Reassembly of IPv4 datagrams from their fragments (RFC 791, section 3.2).
#![tactic(auto)]

mod datagram;
mod law;
mod outcome;
mod table;
#[cfg(test)]
mod tests;

pub use datagram::{Key, LONGEST};
pub use law::{a_whole_is_known_by_its_positions, fragments_in_any_order_give_the_datagram};
pub use lw_payload::NoMemory;
pub use outcome::{FragmentPlan, Outcome, Why};
pub use table::{MOST_OPEN, Reass};
