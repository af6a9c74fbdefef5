ghost use Rattle.std.specs.Prelude.{◌≡◌, ◌+◌, ◌<◌, ◌≤◌, ◌^◌, replicate, IfOk, if◌then◌else◌, length};
ghost use Rattle.lw_payload.specs.declared.kinds.Kind.{Kind};
ghost use Rattle.lw_payload.specs.Views.{pbufs_of};
ghost use Rattle.lw_payload.specs.Fake.{same_kind, free_count};

use super::{MakeCounts, counts};
use crate::{Kind, NoMemory};
use std::alloc::Global;

/// A pool of one kept kind; payloads of the other kinds have no rows. A payload of any kind has at most `longest` octets.
#[derive(Drop)]
pub struct Slots {
    /// With the kept kind, this is the family.
    pub number: u32,
    pub kept: Kind,
    pub longest: u32,
    /// How many owners each pbuf has.
    pub counts: Vec<u32>,
    pub makes: MakeCounts,
    ghost small: { length counts.items < 2 ^ 32 },
    ghost taken: { kept ≡ Kind.Pool → length counts.items ≤ free_count counts.items + makes.asked },
}

impl Slots {
    /// A pool of `size` pbufs of the kind `kept`, none of which has an owner.
    pub fn new(
        alloc: Global,
        number: u32,
        kept: Kind,
        size: u32,
        longest: u32,
    ) -> Result<Slots, NoMemory>
        ensures counts { IfOk result (λ s. s.counts.items ≡ replicate size 0) }
        ensures kinds { IfOk result (λ s. (s.number ≡ number) × (s.kept ≡ kept) × (s.longest ≡ longest)) }
        ensures makes { IfOk result (λ s. s.makes ≡ record { made = 0; refused = 0; last_refused = 0; asked = 0 }) }
    {
        let makes = MakeCounts {
            made: 0,
            refused: 0,
            last_refused: 0,
            asked: 0,
        };
        Ok(Slots {
            number,
            kept,
            longest,
            counts: vec![in alloc; 0; size as usize]?,
            makes,
        })
    }

    /// How many pbufs have no owner.
    pub fn free(&self) -> usize
        ensures { result ≡ free_count self.now.counts.items }
    {
        counts::free(&self.counts)
    }

    /// How many pbufs with a count so many octets of this kind take.
    pub(crate) fn needed(&self, kind: Kind, octets: u32) -> usize
        ensures { result ≡ (if same_kind kind self.now.kept then pbufs_of kind octets else 0) }
    {
        if kind.is(self.kept) {
            kind.pbufs(octets) as usize
        } else {
            0
        }
    }
}
