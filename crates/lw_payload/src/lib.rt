//! Payloads: what the stack carries, seen as lists of octets, over whatever keeps them.
#![tactic(auto)]

mod copies;
pub mod fake;
mod kinds;
mod lists;
mod octet_vec;
mod payload;

pub use copies::octets_of;
pub use kinds::{Kind, MakeFault, ShareFault};
pub use lists::{spend, spend_all, spend_if};
pub use payload::Payload;
pub use std::alloc::AllocError as NoMemory;
