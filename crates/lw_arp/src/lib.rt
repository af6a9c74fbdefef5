//! The ARP table: which hardware address an IPv4 address has, and the packet that waits for one (RFC 826).
#![tactic(auto)]

mod entries;
mod places;
mod table;
#[cfg(test)]
mod tests;
mod ticks;

pub use entries::{ArpEntry, EntryState, LearnPlan, Lesson, Next};
pub use table::{ArpTable, ENTRIES, NoMemory, is_answered};
