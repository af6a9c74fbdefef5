//! The core's side of connections: those that are live, the descriptors, the variables of the threads, and
//! the signals.
#![tactic(auto)]

mod connections;
mod descriptors;
mod signals;
mod variables;

pub use connections::{Connection, Conns};
pub use descriptors::{Descriptor, Descriptors};
pub use signals::Signals;
pub use std::alloc::AllocError as NoMemory;
pub use variables::{Variable, Variables};
