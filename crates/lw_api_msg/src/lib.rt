//! What the core does for a call: connections are made, bound, connected and closed, descriptors and
//! variables name them, signals come; what it decides of a datagram that a call sends, and which connection
//! one that came goes to (lwIP's api_msg.c and sockets.c). All connections are of UDP.
#![tactic(auto)]

mod addresses;
mod delivery;
mod endpoints;
mod names;
mod sends;

pub use endpoints::Endpoints;
pub use sends::{LONGEST, SendPlan, Source};
pub use std::alloc::AllocError as NoMemory;
