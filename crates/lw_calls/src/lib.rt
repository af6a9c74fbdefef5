//! The calls of scripts as one machine: where a call begins, what it asks, and where an answer leads it
//! and which lines that writes.
#![tactic(auto)]

mod answers;
mod copies;
mod laws;
mod machine;
mod replies;
mod rounds;
mod uses;

pub use call_places::{
    Accepting, Answer, Ask, Awaiting, Caller, ConnList, Due, FdUse, FdWord, Feeding, Named,
    NoMemory, Piece, Place, Portion, ReadKind, Reading, RoundStage, Rounds, RoundsEnd, Scan,
    ScanTarget, Seen, SeenList, Selecting, Sending, Stage, Step, Target, TargetList, Then, Timing,
    Turn, Use, VarUse, Want,
};
pub use laws::a_look_makes_no_event;
pub use machine::{ask, is_resting, start, step};
