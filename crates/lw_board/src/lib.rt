//! Words that one writer stores and many lookers load, each with one atomic step and no lock.
//! What a looker has seen goes with its token, so that a later look is never older, also after the token went from thread to thread.
#![tactic(auto)]

mod board;
mod sight;
#[cfg(test)]
mod tests;

pub use board::{Board, Look, Writer};
pub use sight::Forms;
pub use std::alloc::AllocError as NoMemory;
