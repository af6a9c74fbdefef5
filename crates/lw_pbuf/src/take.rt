//! How the pbufs of a chain are taken.
ghost use Rattle.std.specs.Prelude.{◌≡◌, ℕ, ◌+◌, ◌-◌, ◌*◌, ◌^◌, ◌<◌, ◌≤◌, [], length, take, min, vec_capacity, All, IfSome, IsNone, true, false};
ghost use Rattle.lw_payload.specs.declared.kinds.Kind.{Kind};
ghost use Rattle.lw_payload.specs.Views.{pbufs_of};
ghost use Rattle.pbuf_spans.specs.Spans.{lens, parts_of};
ghost use Rattle.lw_pbuf.specs.Takes.{is_counted, places_of, IsTaken, AreTaken, GivesNone, IsTried, AreTried, AllTried};
ghost use Rattle.lw_pbuf.specs.Makes.{body_of};

use lw_payload::Kind;
use pbuf_seats::{Owner, Pbuf, PoolSeat};

// So many octets a pbuf of the kind has at most.
#[inline(always)]
fn body_size(kind: Kind) -> usize
    ensures size { result ≡ body_of kind }
    ensures some { 0 < result }
    ensures short { result < 2 ^ 32 }
{
    match kind {
        Kind::Pool => 512,
        Kind::Ram | Kind::Rom | Kind::Ref => 65_535,
    }
}

/// So many pbufs of the kind hold so many octets.
#[inline(always)]
pub(crate) fn pbufs_for(kind: Kind, octets: usize) -> usize
    ensures { result ≡ pbufs_of kind octets }
{
    match kind {
        Kind::Pool => octets.div_ceil(512),
        Kind::Ram | Kind::Rom | Kind::Ref => octets.min(1),
    }
}

// Whether the counts of this kind are atomic for the seat.
#[inline(always)]
fn counted(seat: &PoolSeat, kind: Kind) -> bool
    ensures { result ≡ is_counted seat.now kind }
{
    match kind {
        Kind::Pool => seat.kept(Kind::Pool) == 0,
        Kind::Ram | Kind::Rom | Kind::Ref => false,
    }
}

// How many pbufs of the kind there are to take.
#[inline(always)]
fn places(seat: &PoolSeat, kind: Kind) -> u32
    ensures { result ≡ places_of seat.now kind }
{
    if counted(seat, kind) {
        return seat.counted();
    }
    seat.kept(kind)
}

// The pbuf at this place, where it has no owner.
#[inline(always)]
fn take_at(seat: &mut PoolSeat, kind: Kind, counted: bool, place: u32) -> Option<Owner>
    requires counted { counted ≡ is_counted seat.old kind }
    requires there { place < places_of seat.old kind }
    requires right { is_counted seat.old kind ≡ true → seat.old.holder.rights ≡ 1 }
    requires countable { kind ≡ Kind.Pool → seat.old.makes.made + seat.old.makes.refused < 2 ^ 64 - 1 }
    requires few { kind ≡ Kind.Pool → seat.old.claimed + 1 < 2 ^ 20 }
    ensures some { IfSome result (λ o. IsTaken seat.old seat.new kind o) }
    ensures none { IsNone result → GivesNone seat.old seat.new }
    ensures tried { IsTried seat.old seat.new kind place }
{
    if counted {
        return seat.claim(place);
    }
    seat.take(kind, place)
}

// The place whose turn it is: those from `places` on are the places from 0 on.
#[inline(always)]
fn place_of(turn: u64, places: u64) -> u32
    requires within { turn < places + places }
    requires small { places < 2 ^ 32 }
    ensures there { result < places }
    ensures first { turn < places → result ≡ turn }
    ensures again { places ≤ turn → result + places ≡ turn }
{
    if turn < places {
        return turn as u32;
    }
    (turn - places) as u32
}

// The place with which the next search begins, after this turn.
#[inline(always)]
fn first_place(turn: u64, places: u64) -> u32
    requires within { turn ≤ places + places }
    requires small { places < 2 ^ 32 }
{
    if turn < places {
        return turn as u32;
    }
    (turn - places) as u32
}

// The turn with which a search begins.
#[inline(always)]
fn first_turn(seat: &PoolSeat, kind: Kind, places: u64) -> u64
    ensures { result ≤ places }
{
    u64::from(seat.first_place(kind)).min(places)
}

// The first pbuf without an owner at the turns from `turn` on and below `end`.
#[inline(always)]
fn take_from(
    seat: &mut PoolSeat,
    kind: Kind,
    counted: bool,
    places: u64,
    turn: &mut u64,
    end: u64,
) -> Option<Owner>
    requires counted { counted ≡ is_counted seat.old kind }
    requires places { places ≡ places_of seat.old kind }
    requires small { places < 2 ^ 32 }
    requires within { end ≤ places_of seat.old kind + places_of seat.old kind }
    requires below { turn.old ≤ end }
    requires right { is_counted seat.old kind ≡ true → seat.old.holder.rights ≡ 1 }
    requires countable { kind ≡ Kind.Pool → seat.old.makes.made + seat.old.makes.refused < 2 ^ 64 - 1 }
    requires few { kind ≡ Kind.Pool → seat.old.claimed + 1 < 2 ^ 20 }
    ensures some { IfSome result (λ o. IsTaken seat.old seat.new kind o) }
    ensures none { IsNone result → GivesNone seat.old seat.new }
    ensures tried { AreTried seat.old seat.new kind (places_of seat.old kind) turn.old turn.new }
    ensures below { turn.new ≤ end }
    ensures all { IsNone result → turn.new ≡ end }
{
    while *turn < end {
        let place = place_of(*turn, places);
        *turn += 1;
        if let Some(owner) = take_at(seat, kind, counted, place) {
            return Some(owner);
        }
    }
    None
}

/// Takes an owner for each of the pbufs that these octets need, and puts them with their lengths in a list, as long as there are pbufs of the
/// kind without an owner; whether these were enough.
#[inline(always)]
pub(crate) fn fill(seat: &mut PoolSeat, kind: Kind, octets: &[u8], pbufs: &mut Vec<Pbuf>) -> bool
    requires none { pbufs.old.items ≡ [] }
    requires room { pbufs_of kind (length octets.now) ≤ vec_capacity pbufs.old }
    requires small { length octets.now ≤ 65535 }
    requires right { is_counted seat.old kind ≡ true → seat.old.holder.rights ≡ 1 }
    requires countable { kind ≡ Kind.Pool → seat.old.makes.made + seat.old.makes.refused < 2 ^ 64 - 1 }
    requires few { kind ≡ Kind.Pool → seat.old.claimed + pbufs_of kind (length octets.now) < 2 ^ 20 }
    ensures taken { AreTaken seat.old seat.new kind (parts_of true octets.now pbufs.new.items) }
    ensures some { All (λ p. 0 < p.len) pbufs.new.items }
    ensures all { result ≡ true → (lens pbufs.new.items ≡ length octets.now) × (length pbufs.new.items ≡ pbufs_of kind (length octets.now)) }
    ensures full { result ≡ true → (i : ℕ) → lens (take i pbufs.new.items) ≡ min (i * body_of kind) (length octets.now) }
    ensures tried { result ≡ false → AllTried seat.old seat.new kind × (length pbufs.new.items < pbufs_of kind (length octets.now)) }
    ensures places { places_of seat.old kind < 2 ^ 32 }
{
    let size = body_size(kind);
    let counted = counted(seat, kind);
    let places = u64::from(places(seat, kind));
    let mut turn = first_turn(seat, kind, places);
    let end = turn + places;
    let mut left = octets.len();
    while left > 0 {
        let Some(owner) = take_from(seat, kind, counted, places, &mut turn, end) else {
            return false;
        };
        let len = left.min(size);
        pbufs.push_reserved(Pbuf {
            owner,
            len: len as u32,
        });
        left -= len;
    }
    seat.set_first_place(kind, first_place(turn, places));
    true
}
