//! The heads of packets as octets: each is read from a slice, and written behind what a list holds.
#![tactic(auto)]

mod arp;
mod checksum;
mod eth;
mod fault;
mod fields;
mod icmp;
mod ip;
mod sums;
#[cfg(test)]
mod tests;
mod udp;

pub use arp::{arp_octets, read_arp, write_arp};
pub use checksum::sum16;
pub use eth::{eth_octets, read_eth, write_eth};
pub use fault::WireFault;
pub use icmp::{icmp_octets, read_icmp, write_icmp};
pub use ip::{ip_octets, read_ip, write_ip};
pub use std::alloc::AllocError as NoMemory;
pub use udp::{read_udp, udp_octets, write_udp};
