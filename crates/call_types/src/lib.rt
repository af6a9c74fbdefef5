//! What scripts ask and transcripts answer: the calls of actors, what a call sees of the stack, and what
//! it gives.
#![tactic(auto)]

mod call;
mod outcome;
mod sight;

pub use call::{Call, Data, Interface, SelectItem, SelectList, Side, Test};
pub use outcome::Outcome;
pub use sight::{DropCause, Sight};
