//! What a seat at a mailbox's table knows. No value of a view is made: it exists in proofs alone.
ghost use Rattle.lw_mbox.specs.Trail.{Trail};
ghost use Rattle.lw_mbox.specs.Coded.{trail_coded};

use lw_base::Flag;
use std::collections::LinkedList;
use std::marker::Model;

/// One change that a Poster made.
pub enum Change<T> {
    Post(T),
    Set(Flag),
    Clear(Flag),
}

/// A ticket that a Taker got, with its item.
pub struct Got<T> {
    pub ticket: u64,
    pub item: T,
    /// Whether `drain` got it, and not `try_fetch`.
    pub drained: bool,
}

/// A trail of what a Taker has seen.
pub struct Steps {
    pub ghost met: { Trail } by { trail_coded },
}

impl Model for Steps {
    ghost use base.Fml.{ftrue};

    ghost also_owns = { λ _. ftrue };
}

/// What a seat knows.
pub struct View<T, K> {
    /// What the items must fit, where the seat knows it.
    pub key: Option<K>,
    /// Whether it is the Poster's.
    pub lead: bool,
    pub changes: LinkedList<Change<T>>,
    /// Whether the Poster has the slot of its next ticket.
    pub posting: bool,
    /// What the Poster's loads of places' words found, oldest first.
    pub marks: LinkedList<u64>,
    /// The trails of the Takers that came back.
    pub back: LinkedList<Steps>,
    pub parts: u64,
    /// How many parts it is about to hand on.
    pub asked: u64,
    /// How often it set REST.
    pub settings: u64,
    pub trail: Steps,
    pub got: LinkedList<Got<T>>,
    /// The ticket whose slot a Taker has.
    pub holds: Option<u64>,
}
