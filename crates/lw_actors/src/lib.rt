//! The calls of a script's actors, one after another, over any way in which they can be made.
#![tactic(auto)]

mod api;
mod progress;

pub use api::{Api, NoMemory, Step};
pub use progress::{DoneCall, DoneList, Progress};
