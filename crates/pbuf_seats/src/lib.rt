//! The pools of pbufs, and the seats from which they are taken and to which they come back.
//! A pbuf of a kept kind has its count of owners as a plain number in the first seat. The others, of POOL, have atomic counts that all seats share.
#![tactic(auto)]

mod hints;
mod kept;
mod makes;
mod owner;
mod pbuf;
mod seat;
mod spare;
#[cfg(test)]
mod tests;

pub use kept::Kept;
pub use makes::Makes;
pub use owner::{Owner, Row};
pub use pbuf::Pbuf;
pub use seat::{Free, PoolSeat};
pub use std::alloc::AllocError as NoMemory;
