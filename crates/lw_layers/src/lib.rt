//! The layers of a stack, and all that an event does to them: it is looked at, planned, its memory is
//! claimed, and then it is carried out.
#![tactic(auto)]

mod calls;
mod change;
mod claim;
mod layers;
mod mail;
mod plan;
mod receive;
mod send;
mod tick;

pub use layers::{Layers, Words};
pub use receive::{Received, nothing, sent};
pub use std::alloc::AllocError as NoMemory;
