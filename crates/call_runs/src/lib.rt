//! Calls of scripts over any stack that answers what they ask, and the calls of an actor one after
//! another.
#![tactic(auto)]

mod api;
mod calls;
mod done;

pub use api::Api;
pub use calls::{caller_of, go_on, make_call, run_actor};
pub use done::{DoneCall, DoneList};
