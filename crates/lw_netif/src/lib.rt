//! The network interface of a stack: its address, the next hop of a datagram, and the frames that were sent.
//! And which addresses are those of one host.
#![tactic(auto)]

mod hosts;
mod netif;
mod sent;

pub use hosts::{is_broadcast, is_host};
pub use netif::Netif;
pub use sent::Sent;
