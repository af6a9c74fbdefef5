use call_types::Outcome;
use lw_base::Series;
use lw_transcript::EvidenceList;

/// A call that ended: what it saw and did.
#[derive(Drop)]
pub struct DoneCall {
    pub seen: EvidenceList,
    pub result: Outcome,
}

/// Calls that ended, in their order.
pub type DoneList = Series<DoneCall>;

/// An actor's place in its script: how many of its calls have ended, whether the next one has begun,
/// what that one saw so far, and the calls that ended.
#[derive(Drop)]
pub struct Progress {
    pub next: u32,
    pub begun: bool,
    pub seen: EvidenceList,
    pub done: DoneList,
}
