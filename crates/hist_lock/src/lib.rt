//! A lock over any object whose steps stand in a history. Each call is one turn of the lock and adds one entry to the history.
#![tactic(auto)]

mod caller;
mod held;
mod lock;
mod plays;
mod serial;
mod table;
#[cfg(test)]
mod tests;
mod turn;

pub use caller::Caller;
pub use lock::HistLock;
pub use serial::Serial;
pub use std::alloc::AllocError as NoMemory;
