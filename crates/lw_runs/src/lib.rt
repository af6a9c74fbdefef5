//! Payloads kept by the position of their octets until those before them are there.
#![tactic(auto)]

mod chunk;
mod chunks;
mod run;
mod runs;

pub use run::Run;
pub use runs::Runs;
