//! The pool as the Home of its payloads.
ghost use Rattle.std.specs.Prelude.{◌≡◌, ℕ, ◌+◌, ◌-◌, ◌^◌, ◌<◌, ◌≤◌, [], length, min, take, drop, vec_len, vec_capacity, slice_index, IfOk};
ghost use Rattle.std.specs.List.{All};
ghost use Rattle.lw_payload.specs.Views.{IsShort};
ghost use Rattle.lw_payload.specs.Fake.{times, free_count, Hands};
ghost use Rattle.lw_payload.specs.FakeViews.{slots_view, slotted_view, FreesMore};

use super::{Slots, Slotted, counts};
use crate::octet_vec::cut_octets;
use crate::{Kind, MakeFault, NoMemory, Payload, ShareFault};
use std::alloc::Global;

/// How often a payload can be shared after it was made.
const SHARES: u32 = 65_533;

impl Payload for Slotted {
    type Home = Slots;

    ghost seen = { slotted_view };

    ghost home_seen = { slots_view };

    ghost may_refuse = { λ h _ kind n. IsShort (slots_view h) kind n };

    ghost must_refuse = { λ h kind n. IsShort (slots_view h) kind n };

    ghost frees = { λ _ h k n. FreesMore h k n };

    fn make(
        alloc: Global,
        home: &mut Slots,
        kind: Kind,
        octets: &[u8],
    ) -> Result<Slotted, MakeFault> {
        let count = octets.len() as u32;
        if count > home.longest {
            return Err(MakeFault::TooLong);
        }
        let needed = home.needed(kind, count);
        let octets = Vec::from_slice(alloc, octets)?;
        let mut places = Vec::with_capacity(alloc, needed)?;
        if counts::free(&home.counts) < needed {
            home.makes = home.makes.denied(kind, count);
            return Err(MakeFault::Empty(kind));
        }
        home.makes = home.makes.granted(kind, count);
        counts::take(&mut home.counts, needed, &mut places);
        Ok(Slotted {
            number: home.number,
            kept: home.kept,
            octets,
            places,
            shares: SHARES,
            fresh: true,
        })
    }

    fn refill(&mut self, home: &mut Slots, octets: &[u8]) {
        give_up(&mut home.counts, &mut self.places, octets.len());
        self.octets.truncate(octets.len());
        self.octets.copy_from_slice(octets);
        self.fresh = false;
    }

    fn len(&self) -> u32 {
        self.octets.len() as u32
    }

    fn parts(&self) -> u32 {
        self.octets.len() as u32
    }

    fn copy_at(&self, from: u32, out: &mut [u8]) {
        let from = from as usize;
        let to = from + out.len();
        out.copy_from_slice(&self.octets[from..to]);
    }

    fn cut_front(&mut self, home: &mut Slots, n: u32) {
        let n = n as usize;
        let left = self.octets.len() - n;
        give_up(&mut home.counts, &mut self.places, left);
        cut_octets(&mut self.octets, n);
        self.fresh = false;
    }

    fn cut_back(&mut self, home: &mut Slots, n: u32) {
        let left = self.octets.len() - n as usize;
        give_up(&mut home.counts, &mut self.places, left);
        self.octets.truncate(left);
        self.fresh = false;
    }

    fn room(&mut self, n: u32) -> Result<(), NoMemory> {
        self.octets.reserve(n as usize)?;
        self.places.reserve(n as usize)
    }

    fn join(&mut self, other: Slotted) {
        self.octets.extend_from_slice(&other.octets).unwrap();
        self.places.extend_from_slice(&other.places).unwrap();
        self.shares = self.shares.min(other.shares);
        self.fresh = false;
    }

    fn share(&mut self, home: &mut Slots) -> Result<Slotted, ShareFault> {
        if self.shares == 0 {
            return Err(ShareFault::TooMany);
        }
        let (octets, places) = self.copies()?;
        if !counts::can_grow(&home.counts, places.len()) {
            return Err(ShareFault::NoMemory);
        }
        counts::add_all(&mut home.counts, &places);
        self.shares -= 1;
        self.fresh = false;
        Ok(Slotted {
            number: self.number,
            kept: self.kept,
            octets,
            places,
            shares: 0,
            fresh: false,
        })
    }

    fn spend(self, home: &mut Slots) -> u32 {
        counts::give_all(&mut home.counts, &self.places)
    }
}

impl Slotted {
    /// Lets the payload be shared at most `most` times more.
    pub fn leave_shares(&mut self, most: u32)
        ensures { self.new ≡ record self.old { shares = min self.old.shares most } }
    {
        self.shares = self.shares.min(most);
    }

    /// Copies of the octets and of the places.
    fn copies(&self) -> Result<(Vec<u8>, Vec<u32>), NoMemory>
        ensures { IfOk result (λ copies. (copies.0.items ≡ self.now.octets.items) × (copies.1.items ≡ self.now.places.items)) }
    {
        Ok((self.octets.clone()?, self.places.clone()?))
    }
}

/// Gives the owners at all places but the first `left` up.
fn give_up(counts: &mut [u32], places: &mut Vec<u32>, left: usize)
    requires owned { (place : ℕ) → times place places.old.items ≤ slice_index counts.old place }
    requires few { vec_len places.old < 2 ^ 32 }
    ensures moves { Hands counts.old counts.new (drop left places.old.items) [] }
    ensures free { free_count counts.old ≤ free_count counts.new }
    ensures places { places.new.items ≡ take left places.old.items }
    ensures fewer { length places.new.items ≤ length places.old.items }
    ensures room { vec_capacity places.new ≡ vec_capacity places.old }
{
    let kept = left.min(places.len());
    let (_, gone) = places.split_at(kept);
    counts::give_all(counts, gone);
    places.truncate(kept);
}
