//! Counts of the owners of pbufs, each an atomic word that threads share with no lock.
//! A `Holder` stands for one or two owners of one pbuf, or for none, and proofs keep the list of all holders.
//! A pbuf's count is the number of its owners in that list. A life of a pbuf begins with a claim and ends with the one `Last`.
#![tactic(auto)]

mod answers;
mod counts;
mod holder;
mod plays;
mod rule;
#[cfg(test)]
mod tests;

pub use answers::{Claim, Dropped, TooMany};
pub use counts::Counts;
pub use holder::Holder;
pub use std::alloc::AllocError as NoMemory;
