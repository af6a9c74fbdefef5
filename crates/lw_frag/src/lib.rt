//! The fragments of an IPv4 packet (RFC 791, 2.3 and 3.2).
#![tactic(auto)]

mod fault;
mod laws;
mod pieces;
#[cfg(test)]
mod tests;

pub use fault::SplitFault;
pub use laws::{each_fragment_is_of_the_packet, fragments_join, fragments_spell_the_data};
pub use pieces::{full_count, full_piece, last_piece, split};
