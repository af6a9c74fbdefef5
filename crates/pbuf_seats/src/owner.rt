//! One owner of one pbuf.
use lw_payload::Kind;
use pbuf_counts::Holder;

/// An owner of a kept pbuf: its kind, its place among those of that kind, and how many owners this one may still add. It has one of the pbuf's rows for itself, and one for each of
/// these.
#[derive(Clone, Copy, Debug, PartialEq, Eq)]
pub struct Row {
    pub kind: Kind,
    pub place: u32,
    pub adds: u32,
}

/// An owner of one pbuf. One that is dropped stays an owner for good: give it up to a seat.
#[derive(Drop)]
pub enum Owner {
    /// Of a pbuf whose count is a number in the first seat.
    Kept(Row),
    /// Of a pbuf of POOL whose count is atomic.
    Counted(Holder),
}
