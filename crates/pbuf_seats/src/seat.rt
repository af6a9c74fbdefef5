//! A seat: what pbufs are taken from, and given up to.
ghost use Rattle.std.specs.Prelude.{◌≡◌, ℕ, ◌+◌, ◌-◌, ◌^◌, ◌<◌, ◌≤◌, [], true, false, length, vec_capacity, replicate, ◌∷◌, ◌↔◌, min, if◌then◌else◌, All, IsTrue, IsSome, IsNone, IfSome, IfOk, OnOk, OnErr};
ghost use Rattle.std.specs.Arc.{arc_value};
ghost use Rattle.lw_payload.specs.Views.{Slot, pbufs_of, pool_one};
ghost use Rattle.lw_payload.specs.declared.kinds.Kind.{Kind};
ghost use Rattle.pbuf_counts.specs.Owners.{whole, claim_weight, first_adds};
ghost use Rattle.pbuf_counts.specs.Holders.{idle_of, owner_of};
ghost use Rattle.pbuf_seats.specs.Kept.{counts_of, rows_of, free_count};
ghost use Rattle.pbuf_seats.specs.Owners.{IsOwner, GaveUp, sharing, share_of, ended_at, row_of, weight_of, adds_of};
ghost use Rattle.pbuf_seats.specs.Seats.{IsParted, joined, IsLookedOver, IsInUse};
ghost use Rattle.pbuf_seats.specs.declared.owner.Owner.{Owner};

use crate::NoMemory;
use crate::hints::Hints;
use crate::kept::Kept;
use crate::makes::Makes;
use crate::owner::{Owner, Row};
use crate::pbuf::Pbuf;
use crate::spare::Spare;
use lw_base::Limits;
use lw_payload::Kind;
use pbuf_counts::{Claim, Counts, Dropped, Holder};
use std::alloc::Global;
use std::marker::Model;
use std::sync::Arc;

// The adds of a pbuf's first owner.
const FIRST_ADDS: u32 = 65_534;

// So often the first seat may split.
const SPLITS: u32 = 65_535;

// So many buffers, shared buffers and lists without a use a seat keeps at most.
const SPARE: u32 = 1_024;

// So many of the buffers may be long.
const LONG: u32 = 8;

/// How many pbufs of each kind have no owner.
#[derive(Clone, Copy, Debug, PartialEq, Eq)]
pub struct Free {
    pub ram: u32,
    pub pool: u32,
    pub rom: u32,
    pub reference: u32,
}

/// What pbufs are taken from, and given up to. The first seat has the counts of the kept pbufs.
#[derive(Drop)]
pub struct PoolSeat {
    counts: Arc<Counts>,
    spare_counts: Vec<Arc<Counts>>,
    holder: Holder,
    kept: Kept,
    makes: Makes,
    splits: u32,
    claimed: u32,
    spare: Spare,
    hints: Hints,
}

impl Model for PoolSeat {
    ghost use Rattle.std.specs.Coded.{codes};
    ghost use Rattle.atomic_table.specs.Seated.{table_id_coded};
    ghost use Rattle.pbuf_seats.specs.Seats.{SeatSeen};

    ghost Value = { SeatSeen };

    ghost coded = { Prim.hlevel (codes, table_id_coded) };

    ghost use Rattle.std.specs.Prelude.{◌≡◌, All};
    ghost use Rattle.std.specs.Arc.{arc_value};
    ghost use Rattle.pbuf_seats.specs.Seats.{IsSeat};

    ghost view = { λ s. record { holder = s.holder; kept = s.kept; makes = s.makes; splits = s.splits; claimed = s.claimed } };

    ghost invariant = { λ s. IsSeat (arc_value s.counts) (record { holder = s.holder; kept = s.kept; makes = s.makes; splits = s.splits; claimed = s.claimed })
        × All (λ c. arc_value c ≡ arc_value s.counts) s.spare_counts.items };
}

impl PoolSeat {
    /// The first seat. RAM, ROM and REF are kept, and POOL is where `alone` is true; else its counts are atomic.
    pub fn new(alloc: Global, l: &Limits, alone: bool) -> Result<PoolSeat, NoMemory>
        requires pool { (0 < l.now.pool) × (l.now.pool ≤ 4096) }
        ensures holder { IfOk result (λ s. s.holder ≡ idle_of s.holder.table whole 1 []) }
        ensures words { IfOk result (λ s. s.holder.table.words ≡ l.now.pool) }
        ensures ram { IfOk result (λ s. s.kept.ram.items ≡ replicate l.now.ram 0) }
        ensures rom { IfOk result (λ s. s.kept.rom.items ≡ replicate l.now.rom 0) }
        ensures reference { IfOk result (λ s. s.kept.reference.items ≡ replicate l.now.reference 0) }
        ensures alone { alone ≡ true → IfOk result (λ s. s.kept.pool.items ≡ replicate l.now.pool 0) }
        ensures shared { alone ≡ false → IfOk result (λ s. s.kept.pool.items ≡ []) }
        ensures makes { IfOk result (λ s. s.makes ≡ record { made = 0; refused = 0; last_refused = 0; asked = 0 }) }
        ensures splits { IfOk result (λ s. s.splits ≡ 65535) }
        ensures claimed { IfOk result (λ s. s.claimed ≡ 0) }
    {
        let pool = if alone { l.pool } else { 0 };
        let kept = Kept::new(alloc, l.ram, pool, l.rom, l.reference)?;
        let (counts, holder) = Counts::new(alloc, l.pool)?;
        Ok(PoolSeat {
            counts: Arc::new(alloc, counts)?,
            spare_counts: Vec::with_capacity(alloc, SPARE as usize)?,
            holder,
            kept,
            makes: Makes::NONE,
            splits: SPLITS,
            claimed: 0,
            spare: Spare::new(alloc, SPARE, LONG)?,
            hints: Hints::NONE,
        })
    }

    /// A second seat, with the right to claim POOL where `claims` is true. It keeps no pbufs, and splits no more.
    pub fn split(&mut self, alloc: Global, claims: bool) -> Result<PoolSeat, NoMemory>
        requires splits { 0 < self.old.splits }
        requires right { claims ≡ true → self.old.holder.rights ≡ 1 }
        ensures parted { IfOk result (λ s. IsParted claims self.old.holder self.new.holder s.holder) }
        ensures first { IfOk result (λ _. self.new ≡ record self.old { holder = self.new.holder; splits = self.old.splits - 1 }) }
        ensures none_kept { IfOk result (λ s. (k : Kind) → length (counts_of k s.kept) ≡ 0) }
        ensures makes { IfOk result (λ s. s.makes ≡ record { made = 0; refused = 0; last_refused = 0; asked = if claims then min (self.old.makes.asked + self.old.claimed) (2 ^ 64 - 1) else 0 }) }
        ensures no_splits { IfOk result (λ s. s.splits ≡ 0) }
        ensures none_claimed { IfOk result (λ s. s.claimed ≡ 0) }
        ensures err { OnErr result (self.new ≡ self.old) }
    {
        let kept = Kept::new(alloc, 0, 0, 0, 0)?;
        let counts = Arc::try_clone(&self.counts)?;
        let spare_counts = Vec::with_capacity(alloc, SPARE as usize)?;
        let spare = Spare::new(alloc, SPARE, LONG)?;
        let holder = self.counts.part(&mut self.holder, claims);
        self.splits -= 1;
        Ok(PoolSeat {
            counts,
            spare_counts,
            holder,
            kept,
            makes: Makes {
                asked: if claims { self.asked() } else { 0 },
                ..Makes::NONE
            },
            splits: 0,
            claimed: 0,
            spare,
            hints: Hints::NONE,
        })
    }

    // The pbufs of POOL asked for: those of makes that were counted, and those taken since.
    fn asked(&self) -> u64
        ensures { result ≡ min (self.now.makes.asked + self.now.claimed) (2 ^ 64 - 1) }
    {
        self.makes.asked.saturating_add(u64::from(self.claimed))
    }

    /// Takes in another seat, which keeps no pbufs. The numbers of makes stay, but for the pbufs asked for, which are added.
    pub fn join(&mut self, o: PoolSeat)
        requires table { o.holder.table ≡ self.old.holder.table }
        requires none_kept { (k : Kind) → length (counts_of k o.kept) ≡ 0 }
        ensures { self.new ≡ record self.old { holder = joined self.old.holder o.holder; makes = record self.old.makes { asked = min (self.old.makes.asked + min (o.makes.asked + o.claimed) (2 ^ 64 - 1)) (2 ^ 64 - 1) } } }
    {
        let asked = o.asked();
        let PoolSeat {
            counts: _counts,
            spare_counts: _spare_counts,
            holder,
            kept: _kept,
            makes: _,
            splits: _,
            claimed: _,
            spare: _spare,
            hints: _hints,
        } = o;
        self.counts.join(&mut self.holder, holder);
        self.makes.asked = self.makes.asked.saturating_add(asked);
    }

    /// How many pbufs have no owner. Where POOL is not kept it looks at each of its pbufs once.
    pub fn free(&mut self) -> Free
        ensures ram { result.ram ≡ free_count self.old.kept.ram.items }
        ensures rom { result.rom ≡ free_count self.old.kept.rom.items }
        ensures reference { result.reference ≡ free_count self.old.kept.reference.items }
        ensures pool_kept { 0 < length self.old.kept.pool.items → (result.pool ≡ free_count self.old.kept.pool.items) × (self.new ≡ self.old) }
        ensures pool_shared { self.old.kept.pool.items ≡ [] → IsLookedOver self.old.holder self.new.holder self.old.holder.table.words result.pool }
        ensures same { self.new ≡ record self.old { holder = self.new.holder } }
        ensures all { self.old.kept.pool.items ≡ [] → self.old.holder.weight ≡ whole → result.pool ≡ self.old.holder.table.words }
    {
        Free {
            ram: self.kept.free(Kind::Ram),
            pool: if self.kept.pool.is_empty() {
                look_over(&self.counts, &mut self.holder)
            } else {
                self.kept.free(Kind::Pool)
            },
            rom: self.kept.free(Kind::Rom),
            reference: self.kept.free(Kind::Ref),
        }
    }

    /// How many pbufs of the kind it keeps: none of POOL where the counts of POOL are atomic.
    #[inline(always)]
    pub fn kept(&self, kind: Kind) -> u32
        ensures { result ≡ length (counts_of kind self.now.kept) }
    {
        self.kept.of(kind).len() as u32
    }

    /// The atomic counts, which its chains keep alive: a spare owner of them where there is any, else a new one.
    #[inline(always)]
    pub fn counts(&mut self) -> Result<Arc<Counts>, NoMemory>
        ensures table { IfOk result (λ c. arc_value c ≡ self.old.holder.table) }
        ensures same { self.new ≡ self.old }
    {
        match self.spare_counts.pop() {
            Some(counts) => Ok(counts),
            None => Arc::try_clone(&self.counts),
        }
    }

    /// Keeps an owner of the atomic counts for `counts` where there is room for it. Takes no memory.
    #[inline(always)]
    pub fn keep_counts(&mut self, counts: Arc<Counts>)
        requires { arc_value counts ≡ self.old.holder.table }
        ensures { self.new ≡ self.old }
    {
        if self.spare_counts.len() < self.spare_counts.capacity() {
            self.spare_counts.push_reserved(counts);
        }
    }

    /// How many pbufs of POOL have atomic counts.
    #[inline(always)]
    pub fn counted(&self) -> u32
        ensures { result ≡ self.now.holder.table.words }
    {
        self.counts.len()
    }

    /// Takes the kept pbuf at this place, where it has no owner.
    #[inline(always)]
    pub fn take(&mut self, kind: Kind, place: u32) -> Option<Owner>
        requires there { place < length (counts_of kind self.old.kept) }
        requires few { kind ≡ Kind.Pool → self.old.claimed + 1 < 2 ^ 20 }
        ensures found { IsSome result ↔ (rows_of self.old.kept (record { kind = kind; place = place }) ≡ 0) }
        ensures owner { IfSome result (λ o. o ≡ Owner.Kept (record { kind = kind; place = place; adds = first_adds })) }
        ensures owned { IfSome result (λ o. IsOwner self.new o) }
        ensures rows { IfSome result (λ o. (s : Slot) → rows_of self.new.kept s ≡ rows_of self.old.kept s + row_of o s) }
        ensures free { IfSome result (λ _. free_count (counts_of kind self.new.kept) + 1 ≡ free_count (counts_of kind self.old.kept)) }
        ensures sizes { (k : Kind) → length (counts_of k self.new.kept) ≡ length (counts_of k self.old.kept) }
        ensures some { IsSome result → self.new ≡ record self.old { kept = self.new.kept; claimed = self.old.claimed + pool_one kind } }
        ensures none { IsNone result → self.new ≡ self.old }
    {
        if self.kept.of(kind)[place as usize] != 0 {
            return None;
        }
        self.kept.take(kind, place);
        self.claimed += pool_one(kind);
        Some(Owner::Kept(Row {
            kind,
            place,
            adds: FIRST_ADDS,
        }))
    }

    /// Claims the pbuf of POOL at this place, whose count is atomic, where it has no owner.
    #[inline(always)]
    pub fn claim(&mut self, place: u32) -> Option<Owner>
        requires there { place < self.old.holder.table.words }
        requires right { self.old.holder.rights ≡ 1 }
        requires countable { self.old.makes.made + self.old.makes.refused < 2 ^ 64 - 1 }
        requires few { self.old.claimed + 1 < 2 ^ 20 }
        ensures owner { IfSome result (λ o. o ≡ Owner.Counted (owner_of self.old.holder.table place first_adds claim_weight)) }
        ensures owned { IfSome result (λ o. IsOwner self.new o) }
        ensures some { IsSome result → self.new ≡ record self.old { holder = record self.old.holder { weight = self.old.holder.weight - claim_weight; got = place ∷ self.old.holder.got }; claimed = self.old.claimed + 1 } }
        ensures sum { IfSome result (λ o. self.new.holder.weight + weight_of o ≡ self.old.holder.weight) }
        ensures none { IsNone result → IsInUse self.old.holder place self.new.holder }
        ensures same { IsNone result → self.new ≡ record self.old { holder = self.new.holder } }
    {
        match self.counts.claim(&mut self.holder, place) {
            Claim::Got(holder) => {
                self.claimed += 1;
                Some(Owner::Counted(holder))
            }
            Claim::InUse(_) => None,
        }
    }

    /// Where to begin to look for a pbuf of the kind without an owner.
    #[inline(always)]
    pub fn first_place(&self, kind: Kind) -> u32 {
        self.hints.of(kind)
    }

    /// Tells where to begin next time: behind the pbuf that was taken last.
    #[inline(always)]
    pub fn set_first_place(&mut self, kind: Kind, place: u32)
        ensures { self.new ≡ self.old }
    {
        self.hints.set(kind, place);
    }

    /// A buffer of these octets: a spare one where there is any, else a new one.
    #[inline(always)]
    pub fn buffer(&mut self, alloc: Global, octets: &[u8]) -> Result<Vec<u8>, NoMemory>
        ensures octets { IfOk result (λ b. b.items ≡ octets.now) }
        ensures same { self.new ≡ self.old }
    {
        self.spare.buffer(alloc, octets)
    }

    /// Keeps a buffer for `buffer` where there is room for it. Takes no memory.
    #[inline(always)]
    pub fn keep_buffer(&mut self, buffer: Vec<u8>)
        ensures { self.new ≡ self.old }
    {
        self.spare.keep_buffer(buffer);
    }

    /// Puts the octets of a buffer where chains can share them. No octet is copied: the buffer gets other memory, with room for as many.
    #[inline(always)]
    pub fn share_buffer(
        &mut self,
        alloc: Global,
        buffer: &mut Vec<u8>,
    ) -> Result<Arc<Vec<u8>>, NoMemory>
        ensures octets { IfOk result (λ b. (arc_value b).items ≡ buffer.old.items) }
        ensures room { OnOk result (length buffer.old.items ≤ vec_capacity buffer.new) }
        ensures err { OnErr result (buffer.new ≡ buffer.old) }
        ensures same { self.new ≡ self.old }
    {
        self.spare.share(alloc, buffer)
    }

    /// A buffer of these octets that chains can share: a spare one where there is any, else a new one.
    #[inline(always)]
    pub fn shared_buffer(&mut self, alloc: Global, octets: &[u8]) -> Result<Arc<Vec<u8>>, NoMemory>
        ensures octets { IfOk result (λ b. (arc_value b).items ≡ octets.now) }
        ensures same { self.new ≡ self.old }
    {
        self.spare.shared(alloc, octets)
    }

    /// Keeps a shared buffer for `shared_buffer` where no other chain has it. Takes no memory.
    #[inline(always)]
    pub fn keep_shared_buffer(&mut self, buffer: Arc<Vec<u8>>)
        ensures { self.new ≡ self.old }
    {
        self.spare.keep_shared(buffer);
    }

    /// An empty list with room for so many pbufs, likewise.
    #[inline(always)]
    pub fn list(&mut self, alloc: Global, n: usize) -> Result<Vec<Pbuf>, NoMemory>
        ensures list { IfOk result (λ l. (l.items ≡ []) × (n ≤ vec_capacity l)) }
        ensures same { self.new ≡ self.old }
    {
        self.spare.list(alloc, n)
    }

    /// Keeps a list for `list` where there is room for it. Takes no memory.
    #[inline(always)]
    pub fn keep_list(&mut self, list: Vec<Pbuf>)
        ensures { self.new ≡ self.old }
    {
        self.spare.keep_list(list);
    }

    /// Counts a make of POOL of so many octets that is made.
    #[inline(always)]
    pub fn granted(&mut self, octets: u32)
        requires countable { self.old.makes.made + self.old.makes.refused < 2 ^ 64 - 1 }
        requires few { self.old.claimed ≤ pbufs_of Kind.Pool octets }
        ensures counted { self.new ≡ record self.old { makes = record self.old.makes { made = self.old.makes.made + 1; asked = min (self.old.makes.asked + pbufs_of Kind.Pool octets) (2 ^ 64 - 1) }; claimed = 0 } }
        ensures grows { self.old.makes.asked ≤ self.new.makes.asked }
    {
        self.makes.made += 1;
        self.makes.asked = self.makes.asked.saturating_add(pool_pbufs(octets));
        self.claimed = 0;
    }

    /// Counts one that is refused.
    #[inline(always)]
    pub fn denied(&mut self, octets: u32)
        requires countable { self.old.makes.made + self.old.makes.refused < 2 ^ 64 - 1 }
        requires few { self.old.claimed < pbufs_of Kind.Pool octets }
        ensures counted { self.new ≡ record self.old { makes = record self.old.makes { refused = self.old.makes.refused + 1; last_refused = octets; asked = min (self.old.makes.asked + pbufs_of Kind.Pool octets) (2 ^ 64 - 1) }; claimed = 0 } }
        ensures grows { self.old.makes.asked ≤ self.new.makes.asked }

        // More pbufs of POOL were asked for than the right to claim has claimed, or than are in use of those that are kept.
        ensures claims { self.new.makes.asked < 2 ^ 64 - 1 → length self.new.holder.got < self.new.makes.asked }
        ensures kept { self.new.makes.asked < 2 ^ 64 - 1 → length self.new.kept.pool.items < free_count self.new.kept.pool.items + self.new.makes.asked }
    {
        self.makes.refused += 1;
        self.makes.last_refused = octets;
        self.makes.asked = self.makes.asked.saturating_add(pool_pbufs(octets));
        self.claimed = 0;
    }

    /// A second owner of the same pbuf, with so many of the adds left.
    #[inline(always)]
    pub fn share(&self, owner: &mut Owner, adds: u32) -> Owner
        requires owner { IsOwner self.now owner.old }
        requires enough { adds < adds_of owner.old }
        ensures first { owner.new ≡ sharing adds owner.old }
        ensures second { result ≡ share_of adds owner.old }
        ensures sum { weight_of owner.new + weight_of result ≡ weight_of owner.old }
        ensures rows { (s : Slot) → row_of owner.new s + row_of result s ≡ row_of owner.old s }
    {
        match owner {
            Owner::Kept(row) => {
                row.adds -= adds;
                row.adds -= 1;
                Owner::Kept(Row { adds, ..*row })
            }
            Owner::Counted(holder) => {
                let Ok(()) = self.counts.add(holder) else {
                    unreachable!()
                };
                Owner::Counted(self.counts.split(holder, adds))
            }
        }
    }

    /// Gives an owner up, and tells whether it was the pbuf's last.
    #[inline(always)]
    pub fn give_up(&mut self, owner: Owner) -> bool
        requires owner { IsOwner self.old owner }
        ensures rows { (s : Slot) → rows_of self.new.kept s + row_of owner s ≡ rows_of self.old.kept s }
        ensures weight { self.new.holder.weight ≡ self.old.holder.weight + weight_of owner }
        ensures sizes { (k : Kind) → length (counts_of k self.new.kept) ≡ length (counts_of k self.old.kept) }
        ensures gave { GaveUp self.old owner result self.new }
        ensures ended { ended_at self.new ≡ ended_at self.old + (if result then 1 else 0) }
    {
        match owner {
            Owner::Kept(row) => self.kept.give(row.kind, row.place, row.adds),
            Owner::Counted(mut holder) => {
                let dropped = self.counts.drop_one(&mut holder);
                self.counts.join(&mut self.holder, holder);
                dropped == Dropped::Last
            }
        }
    }
}

// How many pbufs had no owner when each was looked at.
fn look_over(counts: &Counts, holder: &mut Holder) -> u32
    requires own { holder.old.table ≡ counts.now }
    ensures looks { IsLookedOver holder.old holder.new counts.now.words result }
    ensures all { holder.old.weight ≡ whole → holder.old.owners ≡ 0 → result ≡ counts.now.words }
{
    let mut free = 0;
    for i in 0..counts.len() {
        free += u32::from(counts.look(holder, i) == 0);
    }
    free
}

// 1 for POOL, whose pbufs are counted as they are taken, and 0 for the other kinds.
#[inline(always)]
fn pool_one(kind: Kind) -> u32
    ensures { result ≡ pool_one kind }
{
    match kind {
        Kind::Pool => 1,
        Kind::Ram | Kind::Rom | Kind::Ref => 0,
    }
}

// How many pbufs of POOL so many octets take.
#[inline(always)]
fn pool_pbufs(octets: u32) -> u64
    ensures { result ≡ pbufs_of Kind.Pool octets }
{
    (u64::from(octets) + 511) / 512
}
