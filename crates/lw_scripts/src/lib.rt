//! The grammar of scripts: one stack with actors and a driver, or two stacks and the wire between them.
#![tactic(auto)]

mod begun;
mod faults;
mod kinds;
mod lines;
mod part;
mod parts;
mod place;
mod reader;
mod sizes;
mod stack;
mod wanted;

pub use part::{Part, parse_part};
pub use parts::{
    ActorList, ActorScript, Body, CallList, Change, Fault, FaultList, Pair, Profile, Script,
    Single, SizeName, Sizes, Stack, Way,
};
pub use reader::{ScriptFault, read_script};
pub use wanted::Wanted;
