//! A caller's reply place. One side puts replies in, each the answer to the next question, and the other takes them out.
#![tactic(auto)]

mod answer;
mod place;
#[cfg(test)]
mod tests;

pub use answer::Answer;
pub use place::{Await, Pledge, ReplyBox};
pub use std::alloc::AllocError as NoMemory;
