//! How a chain is made.
ghost use Rattle.std.specs.Prelude.{◌≡◌, ◌+◌, ◌-◌, ◌^◌, ◌<◌, ◌≤◌, [], length, true, vec_capacity, IfOk, IfErr, IsOk};
ghost use Rattle.std.specs.Arc.{arc_value};
ghost use Rattle.lw_payload.specs.declared.kinds.Kind.{Kind};
ghost use Rattle.lw_payload.specs.Views.{pbufs_of};
ghost use Rattle.pbuf_seats.specs.Kept.{free_count};
ghost use Rattle.lw_pbuf.specs.declared.make.AllocFault.{AllocFault};
ghost use Rattle.lw_pbuf.specs.Chains.{IsOf};
ghost use Rattle.lw_pbuf.specs.Takes.{is_counted};
ghost use Rattle.lw_pbuf.specs.Makes.{longest_of, granted_of, denied_of, IsAlloc, IsDenied, KeepsSeat};

use crate::chain::Chain;
use crate::take::{fill, pbufs_for};
use lw_payload::Kind;
use pbuf_counts::Counts;
use pbuf_seats::{Pbuf, PoolSeat};
use pbuf_spans::{Span, give_up_all};
use std::alloc::{AllocError, Global};
use std::sync::Arc;

/// Why no chain was made.
#[derive(Clone, Copy, Debug, PartialEq, Eq)]
pub enum AllocFault {
    /// Fewer pbufs of this kind had no owner than it takes.
    PoolEmpty(Kind),
    /// More octets than a chain of the kind can have.
    TooLong,
    NoMemory,
}

impl From<AllocError> for AllocFault {
    ghost use Rattle.std.specs.Prelude.{◌≡◌};
    ghost use Rattle.lw_pbuf.specs.declared.make.AllocFault.{AllocFault};

    ghost from_gives = { λ _ fault. fault ≡ AllocFault.NoMemory };

    fn from(_error: AllocError) -> AllocFault {
        AllocFault::NoMemory
    }
}

// So many octets a chain of the kind has at most.
#[inline(always)]
fn longest(kind: Kind) -> usize
    ensures exact { result ≡ longest_of kind }
    ensures small { result ≤ 65535 }
{
    match kind {
        Kind::Ram => 1_600,
        Kind::Pool | Kind::Rom | Kind::Ref => 65_535,
    }
}

// Counts a make of POOL that is made.
#[inline(always)]
fn granted(seat: &mut PoolSeat, kind: Kind, octets: u32)
    requires countable { kind ≡ Kind.Pool → seat.old.makes.made + seat.old.makes.refused < 2 ^ 64 - 1 }
    requires few { kind ≡ Kind.Pool → seat.old.claimed ≤ pbufs_of Kind.Pool octets }
    ensures makes { seat.new.makes ≡ granted_of kind octets seat.old.makes }
    ensures same { seat.new ≡ record seat.old { makes = seat.new.makes; claimed = seat.new.claimed } }
    ensures settled { kind ≡ Kind.Pool → seat.new.claimed ≡ 0 }
    ensures claimed { ¬ (kind ≡ Kind.Pool) → seat.new.claimed ≡ seat.old.claimed }
    ensures grows { seat.old.makes.asked ≤ seat.new.makes.asked }
{
    match kind {
        Kind::Pool => seat.granted(octets),
        Kind::Ram | Kind::Rom | Kind::Ref => {}
    }
}

// Counts one that is refused.
#[inline(always)]
fn denied(seat: &mut PoolSeat, kind: Kind, octets: u32)
    requires countable { kind ≡ Kind.Pool → seat.old.makes.made + seat.old.makes.refused < 2 ^ 64 - 1 }
    requires few { kind ≡ Kind.Pool → seat.old.claimed < pbufs_of Kind.Pool octets }
    ensures makes { seat.new.makes ≡ denied_of kind octets seat.old.makes }
    ensures same { seat.new ≡ record seat.old { makes = seat.new.makes; claimed = seat.new.claimed } }
    ensures settled { kind ≡ Kind.Pool → seat.new.claimed ≡ 0 }
    ensures claimed { ¬ (kind ≡ Kind.Pool) → seat.new.claimed ≡ seat.old.claimed }
    ensures grows { seat.old.makes.asked ≤ seat.new.makes.asked }
    ensures claims { kind ≡ Kind.Pool → seat.new.makes.asked < 2 ^ 64 - 1 → length seat.new.holder.got < seat.new.makes.asked }
    ensures kept { kind ≡ Kind.Pool → seat.new.makes.asked < 2 ^ 64 - 1 → length seat.new.kept.pool.items < free_count seat.new.kept.pool.items + seat.new.makes.asked }
{
    match kind {
        Kind::Pool => seat.denied(octets),
        Kind::Ram | Kind::Rom | Kind::Ref => {}
    }
}

/// A chain of these octets in pbufs of the kind. It needs the right to claim where the kind is POOL and not kept.
/// `TooLong` is looked at first.
#[inline(always)]
pub fn pbuf_alloc(
    alloc: Global,
    seat: &mut PoolSeat,
    kind: Kind,
    octets: &[u8],
) -> Result<Chain, AllocFault>
    requires right { is_counted seat.old kind ≡ true → seat.old.holder.rights ≡ 1 }
    requires countable { kind ≡ Kind.Pool → seat.old.makes.made + seat.old.makes.refused < 2 ^ 64 - 1 }
    requires settled { kind ≡ Kind.Pool → seat.old.claimed ≡ 0 }
    ensures made { IfOk result (λ c. IsAlloc seat.old seat.new kind octets.now c) }
    ensures of { IfOk result (λ c. IsOf seat.new c) }
    ensures fits { IsOk result → length octets.now ≤ longest_of kind }
    ensures empty { (k : Kind) → result ≡ Err (AllocFault.PoolEmpty k) → (k ≡ kind) × IsDenied seat.old seat.new kind (length octets.now) }
    ensures empty_fits { (k : Kind) → result ≡ Err (AllocFault.PoolEmpty k) → length octets.now ≤ longest_of kind }
    ensures too_long { result ≡ Err AllocFault.TooLong → (longest_of kind < length octets.now) × (seat.new ≡ seat.old) }
    ensures no_memory { result ≡ Err AllocFault.NoMemory → seat.new ≡ seat.old }
    ensures keeps { KeepsSeat seat.old seat.new kind (length octets.now) }
{
    if octets.len() > longest(kind) {
        return Err(AllocFault::TooLong);
    }
    let counts = seat.counts()?;
    let body = seat.buffer(alloc, octets)?;
    let pbufs = seat.list(alloc, pbufs_for(kind, octets.len()))?;
    chain_of(seat, kind, counts, body, pbufs)
}

// A chain of these octets, with owners that are taken for it.
#[inline(always)]
fn chain_of(
    seat: &mut PoolSeat,
    kind: Kind,
    counts: Arc<Counts>,
    body: Vec<u8>,
    mut pbufs: Vec<Pbuf>,
) -> Result<Chain, AllocFault>
    requires table { arc_value counts ≡ seat.old.holder.table }
    requires small { length body.items ≤ 65535 }
    requires none { pbufs.items ≡ [] }
    requires room { pbufs_of kind (length body.items) ≤ vec_capacity pbufs }
    requires right { is_counted seat.old kind ≡ true → seat.old.holder.rights ≡ 1 }
    requires countable { kind ≡ Kind.Pool → seat.old.makes.made + seat.old.makes.refused < 2 ^ 64 - 1 }
    requires settled { kind ≡ Kind.Pool → seat.old.claimed ≡ 0 }
    ensures made { IfOk result (λ c. IsAlloc seat.old seat.new kind body.items c) }
    ensures of { IfOk result (λ c. IsOf seat.new c) }
    ensures empty { IfErr result (λ e. (e ≡ AllocFault.PoolEmpty kind) × IsDenied seat.old seat.new kind (length body.items)) }
    ensures keeps { KeepsSeat seat.old seat.new kind (length body.items) }
{
    let alloc = *pbufs.allocator();
    let octets = body.len() as u32;
    if fill(seat, kind, body.as_slice(), &mut pbufs) {
        granted(seat, kind, octets);
        return Ok(Chain::of(alloc, counts, Span::of(body, pbufs)));
    }
    denied(seat, kind, octets);
    give_up_all(pbufs, seat);
    seat.keep_buffer(body);
    seat.keep_counts(counts);
    Err(AllocFault::PoolEmpty(kind))
}
