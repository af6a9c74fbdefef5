//! All actors of a script on one thread, turn by turn.
#![tactic(auto)]

mod rounds;

pub use rounds::{NoMemory, run_serial};
