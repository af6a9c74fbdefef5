//! How the owners of pbufs are given up.
ghost use Rattle.std.specs.Prelude.{◌≡◌, ◌+◌, ◌^◌, ◌<◌, ◌≤◌, length};
ghost use Rattle.lw_payload.specs.Views.{Slot};
ghost use Rattle.pbuf_seats.specs.Kept.{rows_of};
ghost use Rattle.pbuf_seats.specs.Owners.{ended_at};
ghost use Rattle.pbuf_spans.specs.Parts.{joined, rows_in, IsChain, IsSpent};
ghost use Rattle.lw_pbuf.specs.Chains.{all_parts, IsOf};

use crate::chain::Chain;
use pbuf_seats::PoolSeat;
use pbuf_spans::Span;
use smallvec::SmallVec;

/// Gives the owners of all pbufs up, and answers how many lives of pbufs ended by it. Takes no memory.
#[inline(always)]
pub fn pbuf_free(c: Chain, seat: &mut PoolSeat) -> u32
    requires { IsOf seat.old c }
    ensures spent { IsSpent seat.old seat.new c.parts }
    ensures ended { ended_at seat.new ≡ ended_at seat.old + result }
{
    let Chain { counts, spans } = c;
    let ended = give_up_spans(spans, seat);
    seat.keep_counts(counts);
    ended
}

// The same for spans.
#[inline(always)]
fn give_up_spans(spans: SmallVec<Span, 1>, seat: &mut PoolSeat) -> u32
    requires chain { IsChain seat.old.holder.table (all_parts spans.items) }
    requires listed { (s : Slot) → rows_in (all_parts spans.items) s ≤ rows_of seat.old.kept s }
    ensures spent { IsSpent seat.old seat.new (all_parts spans.items) }
    ensures ended { ended_at seat.new ≡ ended_at seat.old + result }
    ensures few { result ≤ length (all_parts spans.items) }
{
    match spans.into_inner() {
        Ok([span]) => span.give_up(seat),
        Err(spans) => give_up_each(spans, seat),
    }
}

// The same, the last first.
fn give_up_each(mut spans: SmallVec<Span, 1>, seat: &mut PoolSeat) -> u32
    requires chain { IsChain seat.old.holder.table (all_parts spans.items) }
    requires listed { (s : Slot) → rows_in (all_parts spans.items) s ≤ rows_of seat.old.kept s }
    ensures spent { IsSpent seat.old seat.new (all_parts spans.items) }
    ensures ended { ended_at seat.new ≡ ended_at seat.old + result }
    ensures few { result ≤ length (all_parts spans.items) }
{
    let mut ended = 0;
    while let Some(span) = spans.pop() {
        ended += span.give_up(seat);
    }
    ended
}
