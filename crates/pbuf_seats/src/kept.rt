//! The counts of kept pbufs, as plain numbers: how many of its rows were given out of each.
ghost use Rattle.std.specs.Prelude.{◌≡◌, ℕ, ◌+◌, ◌-◌, ◌^◌, ◌<◌, ◌≤◌, ◌↔◌, length, vec_len, replicate, slice_index, slice_set, count_by, ◌==◌, if◌then◌else◌, IsTrue, IfOk};
ghost use Rattle.lw_payload.specs.Views.{Slot, pool_one};
ghost use Rattle.lw_payload.specs.declared.kinds.Kind.{Kind};

use lw_payload::Kind;
use std::alloc::{AllocError, Global};

/// So many rows a pbuf has.
const PBUF_ROWS: u32 = 65_535;

/// How many rows of each pbuf of each kept kind its owners have, by its place. A kind that is not kept has no pbuf.
#[derive(Drop)]
pub struct Kept {
    pub ram: Vec<u32>,
    pub pool: Vec<u32>,
    pub rom: Vec<u32>,
    pub reference: Vec<u32>,
    ghost small: { (vec_len ram < 2 ^ 32) × (vec_len pool < 2 ^ 32) × (vec_len rom < 2 ^ 32) × (vec_len reference < 2 ^ 32) },
}

impl Kept {
    ghost use Rattle.pbuf_seats.specs.Kept.{counts_of, rows_of, rows_at, pbuf_rows, free_count, all_free};

    /// So many pbufs of each kind, none of which has an owner.
    pub fn new(
        alloc: Global,
        ram: u32,
        pool: u32,
        rom: u32,
        reference: u32,
    ) -> Result<Kept, AllocError>
        ensures ram { IfOk result (λ k. k.ram.items ≡ replicate ram 0) }
        ensures pool { IfOk result (λ k. k.pool.items ≡ replicate pool 0) }
        ensures rom { IfOk result (λ k. k.rom.items ≡ replicate rom 0) }
        ensures reference { IfOk result (λ k. k.reference.items ≡ replicate reference 0) }
    {
        Ok(Kept {
            ram: vec![in alloc; 0; ram as usize]?,
            pool: vec![in alloc; 0; pool as usize]?,
            rom: vec![in alloc; 0; rom as usize]?,
            reference: vec![in alloc; 0; reference as usize]?,
        })
    }

    /// The counts of one kind.
    #[inline(always)]
    pub fn of(&self, kind: Kind) -> &[u32]
        ensures counts { result.now ≡ counts_of kind self.now }
        ensures few { length result.now < 2 ^ 32 }
    {
        match kind {
            Kind::Ram => &self.ram,
            Kind::Pool => &self.pool,
            Kind::Rom => &self.rom,
            Kind::Ref => &self.reference,
        }
    }

    /// How many pbufs of the kind have no owner.
    pub fn free(&self, kind: Kind) -> u32
        ensures { result ≡ free_count (counts_of kind self.now) }
    {
        self.of(kind).iter().filter(|n| **n == 0).count() as u32
    }

    /// How many rows of the pbuf at this place its owners have; none where there is no such place.
    #[inline(always)]
    pub fn count(&self, kind: Kind, place: u32) -> u32
        ensures { result ≡ rows_of self.now (record { kind = kind; place = place }) }
    {
        self.of(kind).get(place as usize).copied().unwrap_or(0)
    }

    /// Takes the pbuf at this place, which has no owner, with all its rows.
    #[inline(always)]
    pub fn take(&mut self, kind: Kind, place: u32)
        requires there { place < length (counts_of kind self.old) }
        requires free { rows_of self.old (record { kind = kind; place = place }) ≡ 0 }
        ensures owned { rows_of self.new (record { kind = kind; place = place }) ≡ pbuf_rows }
        ensures rows { (s : Slot) → rows_of self.new s ≡ rows_of self.old s + rows_at kind place pbuf_rows s }
        ensures free { free_count (counts_of kind self.new) + 1 ≡ free_count (counts_of kind self.old) }
        ensures pool { free_count (counts_of Kind.Pool self.new) + pool_one kind ≡ free_count (counts_of Kind.Pool self.old) }
        ensures sizes { (k : Kind) → length (counts_of k self.new) ≡ length (counts_of k self.old) }
    {
        match kind {
            Kind::Ram => take(&mut self.ram, place),
            Kind::Pool => take(&mut self.pool, place),
            Kind::Rom => take(&mut self.rom, place),
            Kind::Ref => take(&mut self.reference, place),
        }
    }

    /// Takes the rows of an owner back that may add so many, and tells whether they were the last.
    #[inline(always)]
    pub fn give(&mut self, kind: Kind, place: u32, adds: u32) -> bool
        requires owned { adds + 1 ≤ rows_of self.old (record { kind = kind; place = place }) }
        ensures rows { (s : Slot) → rows_of self.new s + rows_at kind place (adds + 1) s ≡ rows_of self.old s }
        ensures last { IsTrue result ↔ (rows_of self.new (record { kind = kind; place = place }) ≡ 0) }
        ensures free { all_free self.new ≡ all_free self.old + (if result then 1 else 0) }
        ensures pool { free_count (counts_of Kind.Pool self.old) ≤ free_count (counts_of Kind.Pool self.new) }
        ensures sizes { (k : Kind) → length (counts_of k self.new) ≡ length (counts_of k self.old) }
    {
        match kind {
            Kind::Ram => give(&mut self.ram, place, adds),
            Kind::Pool => give(&mut self.pool, place, adds),
            Kind::Rom => give(&mut self.rom, place, adds),
            Kind::Ref => give(&mut self.reference, place, adds),
        }
    }
}

// The rows of an owner that may add so many fewer; whether they were the last.
#[inline(always)]
fn give(counts: &mut [u32], place: u32, adds: u32) -> bool
    requires owned { adds + 1 ≤ slice_index counts.old place }
    ensures counts { counts.new ≡ slice_set counts.old place (slice_index counts.old place - (adds + 1)) }
    ensures last { IsTrue result ↔ (slice_index counts.old place ≡ adds + 1) }
    ensures free { count_by (λ n. n == 0) counts.new ≡ count_by (λ n. n == 0) counts.old + (if result then 1 else 0) }
{
    let count = &mut counts[place as usize];
    *count -= adds;
    *count -= 1;
    *count == 0
}

// All rows of the pbuf at this place.
#[inline(always)]
fn take(counts: &mut [u32], place: u32)
    requires there { place < length counts.old }
    requires free { slice_index counts.old place ≡ 0 }
    ensures counts { counts.new ≡ slice_set counts.old place PBUF_ROWS }
    ensures free { count_by (λ n. n == 0) counts.new + 1 ≡ count_by (λ n. n == 0) counts.old }
{
    counts[place as usize] = PBUF_ROWS;
}
