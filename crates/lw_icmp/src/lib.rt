//! ICMP messages of a stack: the answer to an echo request, and destination unreachable (RFC 792).
#![tactic(auto)]

mod messages;
#[cfg(test)]
mod tests;

pub use messages::{echo_answer, echo_reply, unreachable};
pub use std::alloc::AllocError as NoMemory;
