//! Where a call stands, what it asks, and what the answers to its tries lead to: signals, accepts,
//! receives, connects, sends and `select` wait by one rule.
#![tactic(auto)]

mod asks;
mod laws;
mod lines;
mod place;
mod reads;
mod scanning;
mod sends;
mod waits;

pub use asks::{Answer, Ask, ConnList, FdWord, Feeding, Named, Piece, Portion, Turn};
pub use laws::{
    a_recvall_keeps_what_it_has, a_scan_reports_what_holds, a_signal_came_so_often,
    a_timeout_is_never_early,
};
pub use lines::{
    NoMemory, added, ends, fails, makes, no_lines, one_core, one_sight, outcome_of, outcome_or,
    stray, to, with_core,
};
pub use place::{
    Accepting, Awaiting, Caller, Due, FdUse, Place, ReadKind, Reading, RoundStage, Rounds,
    RoundsEnd, Scan, ScanTarget, Seen, SeenList, Selecting, Sending, Stage, Step, Target,
    TargetList, Then, Timing, Use, VarUse, Want,
};
pub use reads::{after_accept, after_connect_look, after_count, after_read, read_more};
pub use scanning::{after_scan, see_next, selects, with_target};
pub use sends::{after_room, after_write};
pub use waits::{
    after_begin, after_now, after_pause, after_stop, due_of, limit_of, read_end, timed, waiting,
};
