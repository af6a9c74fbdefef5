//! The core of the stack: one event at a time, its answer, what it posts and the frames that it sends.
#![tactic(auto)]

mod laws;
mod request;
mod step;

pub use laws::{
    arp_request_is_answered, datagram_is_delivered, datagram_is_sent, echo_request_is_answered,
    fragments_end_at_sixty_ticks,
};
pub use std::alloc::AllocError as NoMemory;
pub use step::Core;
