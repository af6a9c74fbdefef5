//! What the calls of `Counts` answer.
use crate::holder::Holder;

/// What a claim answers.
#[derive(Drop)]
pub enum Claim {
    /// The pbuf had no owner. The new holder has one.
    Got(Holder),
    /// The pbuf has owners; their number as the claim found it.
    InUse(u32),
}

/// What the drop of an owner answers.
#[derive(Clone, Copy, Debug, PartialEq, Eq)]
pub enum Dropped {
    /// So many owners are left.
    Left(u32),
    /// It was the last owner.
    Last,
}

/// The holder has no add left.
#[derive(Clone, Copy, Debug, PartialEq, Eq)]
pub struct TooMany;
