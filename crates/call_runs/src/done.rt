use call_types::Outcome;
use lw_base::Series;
use lw_calls::SeenList;

/// A call that ended: what it saw and did.
#[derive(Drop)]
pub struct DoneCall {
    pub seen: SeenList,
    pub result: Outcome,
}

/// Calls that ended, in their order.
pub type DoneList = Series<DoneCall>;
