//! What a frame brings, and what the stack makes of a whole datagram: what it answers, and which connection
//! it goes to. Nothing is changed here.
#![tactic(auto)]

mod arrival;
mod input;

pub use arrival::{Arrival, ETH_LEN, arrival_of, is_fragment};
pub use input::{PostPlan, UDP, ip_input};
pub use std::alloc::AllocError as NoMemory;
