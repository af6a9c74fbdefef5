//! The ends of UDP (RFC 768): what each connection is bound and connected to, which end a datagram goes
//! to, and which ephemeral port comes next.
#![tactic(auto)]

mod delivery;
mod ends;
mod laws;
mod ports;
mod table;

pub use delivery::{Claim, Class};
pub use ends::UdpEnd;
pub use laws::{
    ephemeral_ports_rise, goes_to_the_first, live_port_is_not_given_again, removed_is_not_found,
};
pub use table::{NoMemory, UdpTable};
