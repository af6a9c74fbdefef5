//! The table that the callers share.
//! Its first word is twice the number of entries, and 1 more while a caller has the lock. Its one slot holds the object and its history.
//! The other words keep the slot off the cache line of the first, at which callers look while they wait.
use crate::serial::Serial;
use atomic_table::{Seat, Shared, Table, TableRule};
use std::alloc::Global;
use std::collections::LinkedList;
use std::marker::PhantomData;
use std::snapshot::Snapshot;

/// The object, and the entries of all steps that it made.
#[derive(Drop)]
pub struct Held<O, E> {
    pub object: O,
    pub log: Vec<E>,
}

/// Whether a seat has the lock. No value of it is made.
pub enum Stage {
    Idle,
    Inside,
}

/// What is known of one caller. No value of it is made.
pub struct Part<E> {
    pub number: u64,
    /// How many callers it has split off.
    pub splits: u64,
    /// The beginning of the history that it has seen.
    pub seen: LinkedList<E>,
    /// The entries that it made.
    pub mine: LinkedList<E>,
}

/// What a seat at the table knows. No value of it is made.
pub struct View<O, E> {
    /// The object as it began.
    pub start: Option<O>,
    pub stage: Stage,
    /// A beginning of the history that another caller told.
    pub told: LinkedList<E>,
    /// The callers that the seat speaks for: one of its own, and at the end all.
    pub parts: LinkedList<Part<E>>,
}

/// The rule of the table.
pub struct Law<O> {
    object: PhantomData<O>,
}

impl<O: Serial> TableRule<Held<O, <O as Serial>::Entry>, View<O, <O as Serial>::Entry>, Snapshot<O>>
    for Law<O> {
    ghost use Rattle.hist_lock.specs.Rule.{Ruled};
    ghost use Rattle.hist_lock.specs.Views.{newcomer};

    ghost holds = { λ key. Ruled O.state O.tag O.by O.steps key.value };

    ghost first = { λ key. newcomer key.value };
}

pub type Board<O> = Table<
    Held<O, <O as Serial>::Entry>,
    View<O, <O as Serial>::Entry>,
    Snapshot<O>,
    Law<O>,
    Global,
>;

pub type Steps<O> = Shared<
    Held<O, <O as Serial>::Entry>,
    View<O, <O as Serial>::Entry>,
    Snapshot<O>,
    Law<O>,
>;

pub type Place<O> = Seat<Held<O, <O as Serial>::Entry>, View<O, <O as Serial>::Entry>>;
