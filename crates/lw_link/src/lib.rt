//! The way out: datagrams and ARP's packets become frames, as one event plans and then carries out.
#![tactic(auto)]

mod body;
mod carry;
mod frames;
mod laws;
mod plan;
#[cfg(test)]
mod tests;

pub use body::Body;
pub use carry::carry_out;
pub use frames::sent_head;
pub use laws::{answer_alone, emit_both};
pub use plan::LinkPlan;
pub use std::alloc::AllocError as NoMemory;
