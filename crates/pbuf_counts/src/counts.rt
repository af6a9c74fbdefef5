//! The counts of all pbufs, and the steps on them.
ghost use Rattle.std.specs.Prelude.{◌≡◌, ◌+◌, ◌-◌, ◌<◌, ◌≤◌, ◌++◌, ◌∷◌, [], true, false, IfOk, OnOk, OnErr};
ghost use Rattle.pbuf_counts.specs.Owners.{whole, part_weight, claim_weight, first_adds, owner, times, living, IsCount};
ghost use Rattle.pbuf_counts.specs.Holders.{known, owner_of, idle_of, view_of, finds};
ghost use Rattle.pbuf_counts.specs.Answers.{IfGot, IfInUse, IfLeft, count_at, count_before, after_drop};
ghost use Rattle.pbuf_counts.specs.declared.answers.Dropped.TheVariants.{Last};

use crate::NoMemory;
use crate::answers::{Claim, Dropped, TooMany};
use crate::holder::Holder;
use crate::plays::{Add, Birth, Cut, Handed, Leave, Look, Part, PartRight, Try, Unite};
use crate::rule::{HolderSeat, Steps, Words};
use atomic_table::Table;
use std::alloc::Global;
use std::marker::{Brand, Model};

// The adds of a pbuf's first owner.
const FIRST_ADDS: u32 = 65_534;

/// The counts of so many pbufs, which threads share. Contracts see which table it is; `words` is how many.
/// A claim is one compare and exchange, an add one addition, a drop one subtraction, a look one load.
/// A claim that got its pbuf makes one load more, as do `split`, `part` and `join`. Only `new` takes memory.
#[derive(Drop)]
pub struct Counts {
    table: Words,
}

impl Model for Counts {
    ghost use Rattle.std.specs.Prelude.{◌≡◌, ◌<◌, ◌≤◌};
    ghost use Rattle.std.specs.Coded.{codes};
    ghost use Rattle.atomic_table.specs.Seated.{TableId, table_id_coded};

    ghost Value = { TableId };

    ghost coded = { table_id_coded };

    ghost view = { λ c. c.table.shared.table_id };

    ghost invariant = { λ c. (c.table.shared.key ≡ c.table.shared.table_id.words) × (0 < c.table.shared.table_id.words) × (c.table.shared.table_id.words ≤ 4096) };
}

impl Counts {
    /// The counts of n pbufs, each 0, and the first holder, which has the right to claim and the whole weight.
    pub fn new(alloc: Global, n: u32) -> Result<(Counts, Holder), NoMemory>
        requires some { 0 < n }
        requires few { n ≤ 4096 }
        ensures words { IfOk result (λ t. t.0.words ≡ n) }
        ensures first { IfOk result (λ t. t.1 ≡ idle_of t.0 whole 1 []) }
    {
        let zeros = Vec::from_elem(alloc, 0u64, n as usize)?;
        let (table, seat) = Table::of_words(alloc, zeros.as_slice(), &n)?;
        let first = Holder {
            place: 0,
            owners: 0,
            adds: 0,
            seat,
        };
        Ok((Counts { table }, first))
    }

    /// How many pbufs there are.
    #[inline]
    pub fn len(&self) -> u32
        ensures { result ≡ self.now.words }
    {
        self.table.word_count() as u32
    }

    /// Claims the pbuf i, where it has no owner.
    #[inline]
    pub fn claim(&self, h: &mut Holder, i: u32) -> Claim
        requires own { h.old.table ≡ self.now }
        requires within { i < self.now.words }
        requires idle { h.old.owners ≡ 0 }
        requires right { h.old.rights ≡ 1 }
        requires heavy { claim_weight < h.old.weight }
        ensures owner { IfGot result (λ o. o ≡ owner_of self.now i first_adds claim_weight) }
        ensures got { IfGot result (λ _. h.new ≡ record h.old { weight = h.old.weight - claim_weight; got = i ∷ h.old.got }) }
        ensures count { IsCount i (view_of h.old) (count_at result) }
        ensures in_use { IfInUse result (λ n. 0 < n) }
        ensures claimed { IfInUse result (λ _. 0 < times i h.old.got) }
        ensures found { IfInUse result (λ n. h.new ≡ finds i n h.old) }
    {
        let shared = &self.table.shared;
        let found = shared.compare_exchange::<Try>(&mut h.seat, i as usize, 0, 1);
        if found != 0 {
            return Claim::InUse(found as u32);
        }
        let seat = shared.split_seat::<Birth>(&mut h.seat);
        Claim::Got(Holder {
            place: i,
            owners: 1,
            adds: FIRST_ADDS,
            seat,
        })
    }

    /// Adds an owner of the holder's pbuf.
    #[inline]
    pub fn add(&self, h: &mut Holder) -> Result<(), TooMany>
        requires own { h.old.table ≡ self.now }
        requires one { h.old.owners ≡ 1 }
        ensures some { OnOk result (0 < h.old.adds) }
        ensures ok { OnOk result (h.new ≡ record h.old { owners = 2; adds = h.old.adds - 1 }) }
        ensures none { OnErr result (h.old.adds ≡ 0) }
        ensures same { OnErr result (h.new ≡ h.old) }
    {
        if h.adds == 0 {
            return Err(TooMany);
        }
        let shared = &self.table.shared;
        shared.fetch_add::<Add>(&mut h.seat, h.place as usize, 1);
        h.owners = 2;
        h.adds -= 1;
        Ok(())
    }

    /// Drops one owner of the holder's pbuf.
    #[inline]
    pub fn drop_one(&self, h: &mut Holder) -> Dropped
        requires own { h.old.table ≡ self.now }
        requires owner { 0 < h.old.owners }
        ensures left { IfLeft result (λ n. 0 < n) }
        ensures last { result ≡ Last → h.old.owners ≡ 1 }
        ensures count { IsCount h.old.place (view_of h.old) (count_before result) }
        ensures found { h.new ≡ finds h.old.place (count_before result) (after_drop result h.old) }
    {
        let shared = &self.table.shared;
        let found = shared.fetch_sub::<Leave>(&mut h.seat, h.place as usize, 1);
        h.owners -= 1;
        if h.owners == 0 {
            h.place = 0;
            h.adds = 0;
        }
        if found == 1 {
            Dropped::Last
        } else {
            Dropped::Left((found - 1) as u32)
        }
    }

    /// Hands one of two owners to a second holder, with so many of the adds.
    #[inline]
    pub fn split(&self, h: &mut Holder, adds: u32) -> Holder
        requires own { h.old.table ≡ self.now }
        requires two { h.old.owners ≡ 2 }
        requires enough { adds ≤ h.old.adds }
        ensures first { h.new ≡ record h.old { owners = 1; adds = h.old.adds - adds; weight = h.old.weight - (adds + 1) } }
        ensures second { result ≡ owner_of self.now h.old.place adds (adds + 1) }
        ensures sum { h.new.weight + result.weight ≡ h.old.weight }
    {
        let seat = cut::<Brand>(&self.table.shared, &mut h.seat, adds);
        h.owners = 1;
        h.adds -= adds;
        Holder {
            place: h.place,
            owners: 1,
            adds,
            seat,
        }
    }

    /// A second idle holder, with the right to claim and what it has claimed where `right` is true.
    #[inline]
    pub fn part(&self, h: &mut Holder, right: bool) -> Holder
        requires own { h.old.table ≡ self.now }
        requires idle { h.old.owners ≡ 0 }
        requires heavy { part_weight < h.old.weight }
        requires right { right ≡ true → h.old.rights ≡ 1 }
        ensures with_first { right ≡ true → h.new ≡ record h.old { weight = h.old.weight - part_weight; rights = 0; got = [] } }
        ensures with_second { right ≡ true → result ≡ idle_of self.now part_weight 1 h.old.got }
        ensures without_first { right ≡ false → h.new ≡ record h.old { weight = h.old.weight - part_weight } }
        ensures without_second { right ≡ false → result ≡ idle_of self.now part_weight 0 [] }
    {
        let shared = &self.table.shared;
        if right {
            return idle(shared.split_seat::<PartRight>(&mut h.seat));
        }
        idle(shared.split_seat::<Part>(&mut h.seat))
    }

    /// Takes in an idle holder, with all that it weighs and knows.
    #[inline]
    pub fn join(&self, h: &mut Holder, other: Holder)
        requires own { h.old.table ≡ self.now }
        requires theirs { other.table ≡ self.now }
        requires idle { other.owners ≡ 0 }
        ensures { h.new ≡ record h.old { weight = h.old.weight + other.weight; rights = h.old.rights + other.rights; got = other.got ++ h.old.got; ended = other.ended ++ h.old.ended; found = other.found ++ h.old.found } }
    {
        let Holder {
            place: _,
            owners: _,
            adds: _,
            seat,
        } = other;
        let shared = &self.table.shared;
        shared.join_seat::<Unite>(&mut h.seat, seat);
    }

    /// The count of the pbuf i.
    #[inline]
    pub fn look(&self, h: &mut Holder, i: u32) -> u32
        requires own { h.old.table ≡ self.now }
        requires within { i < self.now.words }
        ensures count { IsCount i (view_of h.old) result }
        ensures found { h.new ≡ finds i result h.old }
        ensures free { h.old.weight ≡ whole → h.old.owners ≡ 0 → result ≡ 0 }
        ensures lives { h.old.weight ≡ whole → times i h.old.got ≡ times i h.old.ended + living result }
    {
        let shared = &self.table.shared;
        shared.load::<Look>(&mut h.seat, i as usize) as u32
    }
}

// A holder of no owner.
fn idle(seat: HolderSeat) -> Holder
    requires none { (seat.me.0.place ≡ 0) × (seat.me.0.owners ≡ 0) × (seat.me.0.adds ≡ 0) }
    requires slotless { seat.me.1 ≡ [] }
    requires within { 0 < seat.table_id.words }
    ensures { result ≡ known seat.table_id seat.me.0 }
{
    Holder {
        place: 0,
        owners: 0,
        adds: 0,
        seat,
    }
}

// Cuts one of two owners off, with so many adds.
fn cut<H: Handed>(steps: &Steps, seat: &mut HolderSeat, adds: u32) -> HolderSeat
    requires own { seat.old.table_id ≡ steps.now.table_id }
    requires within { 0 < steps.now.table_id.words }
    requires two { seat.old.me.0.owners ≡ 2 }
    requires handed { adds ≡ H.adds }
    requires enough { adds ≤ seat.old.me.0.adds }
    ensures table { (seat.new.table_id ≡ seat.old.table_id) × (result.table_id ≡ seat.old.table_id) }
    ensures first { seat.new.me ≡ (record seat.old.me.0 { owners = 1; adds = seat.old.me.0.adds - adds; weight = seat.old.me.0.weight - (adds + 1) }, seat.old.me.1) }
    ensures second { result.me ≡ (owner seat.old.me.0.place adds (adds + 1), []) }
{
    steps.split_seat::<Cut<H>>(seat)
}
