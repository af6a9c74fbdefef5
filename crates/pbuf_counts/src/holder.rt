//! A holder of owners of a pbuf.
use crate::rule::HolderSeat;
use std::marker::Model;

/// One or two owners of one pbuf, or none, and how many owners it may still add. It has no lifetime, may cross threads, and takes no memory.
/// One that is dropped keeps its owners for good.
#[derive(Drop)]
pub struct Holder {
    pub(crate) place: u32,
    pub(crate) owners: u32,
    pub(crate) adds: u32,
    pub(crate) seat: HolderSeat,
}

impl Model for Holder {
    ghost use Rattle.std.specs.Coded.{codes};
    ghost use Rattle.atomic_table.specs.Seated.{table_id_coded};
    ghost use Rattle.pbuf_counts.specs.Holders.{Known};

    ghost Value = { Known };

    ghost coded = { Prim.hlevel (codes, table_id_coded) };

    ghost use Rattle.pbuf_counts.specs.Holders.{known, IsHolder};

    ghost view = { λ h. known h.seat.table_id h.seat.me.0 };

    ghost invariant = { λ h. IsHolder h.seat h.place h.owners h.adds };
}

impl Holder {
    ghost use Rattle.std.specs.Prelude.{◌≡◌};

    /// How many owners it may still add.
    #[inline]
    pub fn adds(&self) -> u32
        ensures { result ≡ self.now.adds }
    {
        self.adds
    }
}
