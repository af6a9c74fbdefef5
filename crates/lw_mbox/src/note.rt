//! A note of a Poster's changes.
ghost use Rattle.std.specs.Prelude.{◌≡◌, []};
ghost use Rattle.lw_mbox.specs.Trail.{start, met};
ghost use Rattle.lw_mbox.specs.Plays.{fresh};

use crate::rule::{Mail, Place};
use std::marker::Model;

/// What a Taker meets, to see no less than the Poster had done by then.
pub struct Note<T: Mail<K>, K> {
    pub(crate) seat: Place<T, K>,
}

impl<T: Mail<K>, K> Model for Note<T, K> {
    ghost use Rattle.std.specs.Prelude.{◌≡◌, []};
    ghost use Rattle.std.specs.Coded.{codes};
    ghost use Rattle.atomic_table.specs.Seated.{table_id_coded};
    ghost use Rattle.lw_mbox.specs.Trail.{start, met, noted};
    ghost use Rattle.lw_mbox.specs.Plays.{fresh};
    ghost use Rattle.lw_mbox.specs.Tokens.{Noted};

    ghost Value = { Noted K };

    ghost coded = { Prim.hlevel (codes, table_id_coded) };

    ghost view = { λ n. record { board = n.seat.table_id; key = n.seat.me.0.key; changes = (noted n.seat.me.0.trail.met).0; closed = (noted n.seat.me.0.trail.met).1 } };

    ghost invariant = { λ n. (n.seat.me.1 ≡ []) × (n.seat.me.0 ≡ fresh n.seat.me.0.key 0 (met start (noted n.seat.me.0.trail.met).0 (noted n.seat.me.0.trail.met).1)) };
}

impl<T: Mail<K>, K> Drop for Note<T, K> {
    fn drop(self) {
        let Self { seat: _seat } = self;
    }
}

impl<T: Mail<K>, K> Note<T, K> {
    // What a Taker takes in.
    pub(crate) fn into_seat(self) -> Place<T, K>
        ensures { (result.table_id ≡ self.board) × (result.me.1 ≡ []) × (result.me.0 ≡ fresh self.key 0 (met start self.changes self.closed)) }
    {
        let Note { seat } = self;
        seat
    }
}
