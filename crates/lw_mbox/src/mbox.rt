//! A mailbox, and how it is made.
ghost use Rattle.std.specs.Prelude.{◌≡◌, ℕ, ◌+◌, ◌<◌, ◌≤◌, [], length, slice_index, IfOk, Some};
ghost use Rattle.lw_mbox.specs.Trail.{start};

use crate::plays::Hire;
use crate::poster::Poster;
use crate::rule::{Mail, Ring};
use crate::taker::Taker;
use atomic_table::Table;
use std::alloc::{AllocError, Global};
use std::marker::Model;

/// A mailbox of a number of places. Its Poster and its Takers share it. It is Drop where its items are;
/// one of other items stays until its end, with the items in it.
pub struct Mbox<T: Mail<K>, K> {
    pub(crate) table: Ring<T, K>,
    pub(crate) capacity: u32,
}

impl<T: Mail<K>, K> Model for Mbox<T, K> {
    ghost use Rattle.std.specs.Prelude.{◌≡◌, ◌+◌, ◌<◌, ◌≤◌};
    ghost use Rattle.std.specs.Coded.{codes};
    ghost use Rattle.atomic_table.specs.Seated.{table_id_coded};
    ghost use Rattle.lw_mbox.specs.Tokens.{Named};

    ghost Value = { Named K };

    ghost coded = { Prim.hlevel (codes, table_id_coded) };

    ghost view = { λ m. record { board = m.table.shared.table_id; capacity = m.capacity; key = m.table.shared.key } };

    ghost invariant = { λ m. (m.table.shared.table_id.words ≡ m.capacity + 1) × (m.table.shared.table_id.slots ≡ m.capacity) × (0 < m.capacity) × (m.capacity ≤ 1024) };
}

impl<T: Mail<K> + Drop, K> Drop for Mbox<T, K> {
    fn drop(self) {
        let Self {
            table: _table,
            capacity: _,
        } = self;
    }
}

// The event word at 0, and each place's first ticket.
fn first_words(alloc: Global, capacity: usize) -> Result<Vec<u64>, AllocError>
    requires { capacity ≤ 1024 }
    ensures { IfOk result (λ v. (length v.items ≡ capacity + 1) × (slice_index v.items 0 ≡ 0) × ((j : ℕ) → j < capacity → slice_index v.items (1 + j) ≡ j)) }
{
    let mut words = Vec::from_elem(alloc, 0u64, capacity + 1)?;
    for place in 0..capacity {
        words[1 + place] = place as u64;
    }
    Ok(words)
}

/// A mailbox of so many places for items that fit the key, with its Poster and its first Taker, which has all 256 parts.
pub fn make<T: Mail<K>, K>(
    alloc: Global,
    capacity: u32,
    key: &K,
) -> Result<(Mbox<T, K>, Poster<T, K>, Taker<T, K>), AllocError>
    requires { (0 < capacity) × (capacity ≤ 1024) }
    ensures mbox { IfOk result (λ r. (r.0.capacity ≡ capacity) × (r.0.key ≡ key.now)) }
    ensures poster { IfOk result (λ r. r.1 ≡ record { board = r.0.board; key = Some key.now; changes = []; refusals = 0; marks = []; trail = start; parts = 0; settings = 0; back = []; got = [] }) }
    ensures taker { IfOk result (λ r. r.2 ≡ record { board = r.0.board; key = Some key.now; parts = 256; settings = 0; trail = start; got = [] }) }
{
    let words = first_words(alloc, capacity as usize)?;
    let (table, mut seat): (Ring<T, K>, _) = Table::vacant(
        alloc,
        words.as_slice(),
        capacity as usize,
        key,
    )?;
    let first = table.shared.split_seat::<Hire>(&mut seat);
    let poster = Poster {
        next: 0,
        refusals: 0,
        seat,
    };
    Ok((Mbox { table, capacity }, poster, Taker { seat: first }))
}
