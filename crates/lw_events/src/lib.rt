//! Core events, the answers to them, and the entries of a history: what the core makes, what a
//! transcript prints and what a checker replays.
#![tactic(auto)]

mod entry;
mod event;

pub use entry::{Entry, ItemText, Post, PostList};
pub use event::{Event, EventText, FdOption, Handle, Proto, Reply, SendData, Which};
