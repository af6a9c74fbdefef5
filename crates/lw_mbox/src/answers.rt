//! What the calls of a mailbox answer.
use lw_base::Word;

/// Why there is no place.
#[derive(Clone, Copy, Debug, PartialEq, Eq)]
pub enum PostFault {
    /// The item whose place it is, posted so many tickets before as there are places, is not yet taken.
    Full,
    /// 2^28 - 1 items were posted, those ahead counted in.
    Worn,
}

/// What a Taker is after: connections to accept, or items to read.
#[derive(Clone, Copy, Debug, PartialEq, Eq)]
pub enum Side {
    Accepts,
    Reads,
}

/// What `try_fetch` answers. A word is one that the call met.
#[derive(Drop)]
pub enum Fetch<T> {
    /// The ticket, and the item posted as that ticket.
    Item(u32, T),
    /// The word has CLOSED.
    Closed(Word),
    /// It has not, and its LISTEN is not that of the side.
    Other(Word),
    /// Neither, and each item was claimed.
    Empty(Word),
    /// The word changed between its load and the claim, which changed nothing.
    Busy { loaded: Word, found: Word },
}

/// What `drain` answers. A word is one that the call met.
#[derive(Drop)]
pub enum Drain<T> {
    /// The ticket, and the item posted as that ticket.
    Item(u32, T),
    /// The word has CLOSED, and each item was claimed.
    Done(Word),
    /// The word does not have CLOSED.
    Alive(Word),
    /// The word changed between its load and the claim, which changed nothing.
    Busy { loaded: Word, found: Word },
}
