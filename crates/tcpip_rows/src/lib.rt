//! Threads at an object that counts: one that serves, callers by message, and callers that take the lock themselves.
#![tactic(auto)]

mod counter;
mod shop;
#[cfg(test)]
mod tests;
mod threads;
mod worker;

pub use counter::{Addition, Counter};
pub use shop::{Shop, close, open};
pub use std::alloc::AllocError as NoMemory;
pub use threads::work;
pub use worker::{Clerk, Worker};
