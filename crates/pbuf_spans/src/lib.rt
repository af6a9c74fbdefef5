//! Spans: pbufs whose octets stand behind one another in one body. What one make takes from a seat is a span, and so is its share.
#![tactic(auto)]

mod body;
mod cut;
mod owners;
mod share;
mod span;
mod twin;
mod window;

pub use body::Body;
pub use owners::give_up_all;
pub use span::Span;
pub use std::alloc::AllocError as NoMemory;
pub use twin::Twin;
pub use window::Window;
