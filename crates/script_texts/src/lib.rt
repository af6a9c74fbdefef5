//! The text of a whole script, and the script of version 2 that says what one of version 1 says.
#![tactic(auto)]

mod laws;
#[cfg(test)]
mod tests;
mod text;
mod upgrades;

pub use laws::{a_script_stays_one, sizes_stay};
pub use text::write_script;
pub use upgrades::upgrade;
