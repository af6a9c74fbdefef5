//! The table that a mailbox's Poster and Takers share, and its rule.
use crate::view::View;
use atomic_table::{Seat, Table, TableRule};
use std::alloc::Global;

/// A kind of item. `K` is what a mailbox is told once, when it is made.
pub trait Mail<K> {
    /// What each item of a mailbox with this key meets.
    ghost fits: { K → Self → Type 0 };
}

/// The rule of a mailbox's table.
pub struct Ticketed;

impl<T: Mail<K>, K> TableRule<Option<T>, View<T, K>, K> for Ticketed {
    ghost use Rattle.lw_mbox.specs.Rule.{Ruled};
    ghost use Rattle.lw_mbox.specs.Plays.{leading};

    ghost holds = { λ key. Ruled T.fits key };

    ghost first = { leading };
}

pub(crate) type Ring<T, K> = Table<Option<T>, View<T, K>, K, Ticketed, Global>;

pub(crate) type Place<T, K> = Seat<Option<T>, View<T, K>>;
