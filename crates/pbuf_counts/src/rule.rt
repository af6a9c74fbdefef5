//! What a holder knows, and the rule of the table that holders share. Word i of it is the count of the pbuf i.
use atomic_table::{Seat, Shared, Table, TableRule};
use std::alloc::Global;
use std::collections::LinkedList;

/// What a holder knows. No value of it is made: it exists in proofs alone.
pub struct View {
    /// The pbuf that it owns; 0 where it owns none.
    pub place: u64,
    /// How many owners of that pbuf it stands for.
    pub owners: u64,
    /// How many owners it may still add.
    pub adds: u64,
    /// What it has of the weight that all holders share out among them.
    pub weight: u128,
    /// 1 where it has the right to claim, else 0.
    pub rights: u64,
    /// The pbufs that this right has claimed, newest first.
    pub got: LinkedList<u64>,
    /// The pbufs that it dropped as their last owner, newest first.
    pub ended: LinkedList<u64>,
    /// The pbufs at which a step of its own found a count, with that count, newest first.
    pub found: LinkedList<(u64, u64)>,
}

/// The rule of the table, which has as many words as its key says.
pub struct Law;

impl TableRule<(), View, u32> for Law {
    ghost use Rattle.std.specs.Prelude.{[]};
    ghost use Rattle.pbuf_counts.specs.Owners.{whole, idle};
    ghost use Rattle.pbuf_counts.specs.Rule.{Ruled};

    ghost holds = { Ruled };

    ghost first = { λ _. idle whole 1 [] };
}

pub(crate) type Words = Table<(), View, u32, Law, Global>;

pub(crate) type Steps = Shared<(), View, u32, Law>;

pub(crate) type HolderSeat = Seat<(), View>;
