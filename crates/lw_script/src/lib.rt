//! The grammar of a script, which says where a stack stands, how large it is and what is fed to it.
#![tactic(auto)]

mod addresses;
mod lines;
mod parts;
mod reader;

pub use parts::{Call, CallList, Profile, Script};
pub use reader::{ScriptFault, read_script};
