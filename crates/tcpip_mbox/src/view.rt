//! What a pass of the mailbox's queue knows. No value of a view is made: it exists in proofs alone.
use std::collections::LinkedList;

/// A message as it lies in the mailbox, with the number of the Put that put it in.
#[derive(Drop)]
pub struct Letter<M> {
    pub from: u32,
    pub message: M,
}

/// A Put that was taken back: its number, and what it had put in. No value of it is made.
pub struct Returned<M> {
    pub number: u64,
    pub sent: LinkedList<M>,
}

/// What a pass knows.
pub struct View<M, K> {
    /// What the messages must fit, where the pass knows it.
    pub key: Option<K>,
    /// Whether it puts messages in, and as which Put.
    pub puts: bool,
    pub number: u64,
    /// The number of the other Puts, where it is the first.
    pub others: u64,
    /// What it has put in.
    pub sent: LinkedList<M>,
    /// How many of these it knows as given.
    pub known: u64,
    /// Whether it takes messages out.
    pub gets: bool,
    /// A beginning of what was taken out. All of it, where this pass takes messages out.
    pub given: LinkedList<Letter<M>>,
    /// The Puts that it took back.
    pub back: LinkedList<Returned<M>>,
}
