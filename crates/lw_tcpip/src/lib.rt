//! The tcpip thread. Callers reach an object under a lock by messages too, and frames come to it by messages alone.
#![tactic(auto)]

mod desk;
mod gate;
mod line;
mod lines;
mod make;
mod message;
mod reply;
mod serve;
mod server;
mod tcpip;
mod turn;

pub use gate::{Gate, OpenGate, Place};
pub use line::Line;
pub use server::Server;
pub use std::alloc::AllocError as NoMemory;
pub use tcpip::{InputFault, Tcpip, Way};
