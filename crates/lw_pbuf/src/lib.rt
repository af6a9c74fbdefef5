//! Chains of pbufs: octets in spans, and an owner of each pbuf.
#![tactic(auto)]

mod chain;
mod copy;
mod cut;
mod free;
mod make;
mod parts;
mod payload;
mod share;
mod take;
#[cfg(test)]
mod tests;

pub use chain::Chain;
pub use free::pbuf_free;
pub use make::{AllocFault, pbuf_alloc};
pub use pbuf_seats::{Free, PoolSeat};
pub use share::pbuf_ref;
pub use std::alloc::AllocError as NoMemory;
