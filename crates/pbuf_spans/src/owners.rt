//! The owners of pbufs in a list.
ghost use Rattle.std.specs.Prelude.{◌≡◌, ◌+◌, ◌^◌, ◌<◌, ◌≤◌, [], ◌∷◌, true, false, length, vec_capacity, All, if◌then◌else◌};
ghost use Rattle.lw_payload.specs.Views.{Slot};
ghost use Rattle.lw_payload.specs.declared.kinds.Kind.{Kind};
ghost use Rattle.pbuf_seats.specs.Kept.{rows_of, counts_of};
ghost use Rattle.pbuf_seats.specs.Owners.{IsOwner, adds_of, row_of, weight_of, ended_at};
ghost use Rattle.pbuf_spans.specs.Parts.{rows_in, least_adds, IsUnder, IsSpent, GivesBack};
ghost use Rattle.pbuf_spans.specs.Spans.{bare};
ghost use Rattle.pbuf_spans.specs.Shares.{handed, first_held, second_held, MayShare, OwnersShared};

use pbuf_seats::{Owner, Pbuf, PoolSeat};

/// Gives the owners of these pbufs up, the last first, and answers how many lives of pbufs ended by it.
/// The seat keeps the list. Takes no memory.
#[inline(always)]
pub fn give_up_all(mut pbufs: Vec<Pbuf>, seat: &mut PoolSeat) -> u32
    requires under { All (λ p. IsUnder seat.old.holder.table p.owner) pbufs.items }
    requires listed { (s : Slot) → rows_in (bare pbufs.items) s ≤ rows_of seat.old.kept s }
    requires few { length pbufs.items < 2 ^ 32 }
    ensures spent { IsSpent seat.old seat.new (bare pbufs.items) }
    ensures ended { ended_at seat.new ≡ ended_at seat.old + result }
    ensures few { result ≤ length pbufs.items }
    ensures back { GivesBack seat.old.holder seat.new.holder }
{
    let mut ended = 0;
    while let Some(pbuf) = pbufs.pop() {
        ended += u32::from(give_up(pbuf, seat));
    }
    seat.keep_list(pbufs);
    ended
}

/// Gives the owner of one pbuf up, and tells whether it was the last.
#[inline(always)]
pub(crate) fn give_up(pbuf: Pbuf, seat: &mut PoolSeat) -> bool
    requires { IsOwner seat.old pbuf.owner }
    ensures spent { IsSpent seat.old seat.new (bare (pbuf ∷ [])) }
    ensures ended { ended_at seat.new ≡ ended_at seat.old + (if result then 1 else 0) }
    ensures back { GivesBack seat.old.holder seat.new.holder }
{
    let Pbuf { owner, len: _ } = pbuf;
    seat.give_up(owner)
}

// How many owners the owner of a pbuf may still add.
#[inline(always)]
pub(crate) fn adds(pbuf: &Pbuf) -> u32
    ensures { result ≡ adds_of pbuf.now.owner }
{
    match &pbuf.owner {
        Owner::Kept(row) => row.adds,
        Owner::Counted(holder) => holder.adds(),
    }
}

/// Whether each owner may add one.
#[inline(always)]
pub(crate) fn has_adds(pbufs: &[Pbuf]) -> bool
    ensures some { result ≡ true → 0 < least_adds (bare pbufs.now) }
    ensures none { result ≡ false → least_adds (bare pbufs.now) ≡ 0 }
{
    for pbuf in pbufs {
        if adds(pbuf) == 0 {
            return false;
        }
    }
    true
}

/// Adds an owner of each pbuf, for a list that has room for all of them.
#[inline(always)]
pub(crate) fn add_owners(pbufs: &mut [Pbuf], others: &mut Vec<Pbuf>, seat: &PoolSeat, hands: bool)
    requires may { MayShare seat.now (bare pbufs.old) }
    requires none { others.old.items ≡ [] }
    requires room { length pbufs.old ≤ vec_capacity others.old }
    ensures { OwnersShared hands pbufs.old pbufs.new others.new.items }
{
    for pbuf in pbufs.iter_mut() {
        others.push_reserved(add_owner(pbuf, seat, hands));
    }
}

// Adds an owner of one pbuf.
#[inline(always)]
fn add_owner(pbuf: &mut Pbuf, seat: &PoolSeat, hands: bool) -> Pbuf
    requires owner { IsOwner seat.now pbuf.old.owner }
    requires some { 0 < adds_of pbuf.old.owner }
    ensures first { pbuf.new ≡ first_held hands pbuf.old }
    ensures second { result ≡ second_held hands pbuf.old }
    ensures sum { weight_of pbuf.new.owner + weight_of result.owner ≡ weight_of pbuf.old.owner }
    ensures rows { (s : Slot) → row_of pbuf.new.owner s + row_of result.owner s ≡ row_of pbuf.old.owner s }
{
    let adds = adds_to_hand(hands, adds(pbuf));
    Pbuf {
        owner: seat.share(&mut pbuf.owner, adds),
        len: pbuf.len,
    }
}

// How many of its adds an owner hands to the new one.
#[inline(always)]
fn adds_to_hand(hands: bool, adds: u32) -> u32
    requires { 0 < adds }
    ensures adds { result ≡ handed hands adds }
    ensures less { result < adds }
{
    if hands && adds > 15 { 15 } else { 0 }
}
