//! Pbufs in one body.
ghost use Rattle.std.specs.Prelude.{◌≡◌, ◌+◌, ◌^◌, ◌<◌, ◌≤◌, true, length, take, drop, All, IfOk, OnOk, OnErr};
ghost use Rattle.lw_payload.specs.Views.{Slot};
ghost use Rattle.pbuf_seats.specs.Kept.{rows_of};
ghost use Rattle.pbuf_seats.specs.Owners.{ended_at};
ghost use Rattle.pbuf_spans.specs.Parts.{joined, rows_in, IsUnder, IsSpent, GivesBack};
ghost use Rattle.pbuf_spans.specs.Spans.{lens, parts_of};

use crate::NoMemory;
use crate::body::Body;
use crate::owners::give_up_all;
use pbuf_seats::{Pbuf, PoolSeat};
use std::alloc::Global;
use std::default::MadeWith;
use std::marker::Model;
use std::mem;

/// Pbufs whose octets stand behind one another in one body: those from `from` on and below `to`.
/// One that is dropped keeps its owners for good: give it up to a seat.
#[derive(Drop)]
pub struct Span {
    pub(crate) body: Body,
    pub(crate) from: u32,
    pub(crate) to: u32,
    pub(crate) pbufs: Vec<Pbuf>,
}

impl Model for Span {
    ghost use Rattle.std.specs.Prelude.{List};
    ghost use Rattle.std.specs.Coded.{codes};
    ghost use Rattle.atomic_table.specs.Seated.{table_id_coded};
    ghost use Rattle.pbuf_spans.specs.Parts.{Part};

    ghost Value = { List Part };

    ghost coded = { Prim.hlevel (codes, table_id_coded) };

    ghost use Rattle.std.specs.Prelude.{slice_range};
    ghost use Rattle.pbuf_spans.specs.Spans.{octets_of, is_own, parts_of, IsSpan};

    ghost view = { λ s. parts_of (is_own s.body) (slice_range (octets_of s.body) s.from s.to) s.pbufs.items };

    ghost invariant = { λ s. IsSpan s.body s.from s.to s.pbufs.items };
}

/// What stands in a place of a `SmallVec` that has no span: one without pbufs.
impl MadeWith<Global> for Span {
    ghost use Rattle.std.specs.Prelude.{◌≡◌, []};

    ghost is_made_with = { λ s. s ≡ [] };

    fn made_with(alloc: Global) -> Span {
        Span {
            body: Body::Own(Vec::new(alloc)),
            from: 0,
            to: 0,
            pbufs: Vec::new(alloc),
        }
    }
}

impl Span {
    /// These octets, in pbufs that have as many together.
    #[inline(always)]
    pub fn of(body: Vec<u8>, pbufs: Vec<Pbuf>) -> Span
        requires exact { lens pbufs.items ≡ length body.items }
        requires short { length body.items < 2 ^ 32 }
        ensures { result ≡ parts_of true body.items pbufs.items }
    {
        let to = body.len() as u32;
        Span {
            body: Body::Own(body),
            from: 0,
            to,
            pbufs,
        }
    }

    /// How many pbufs it has.
    #[inline(always)]
    pub fn clen(&self) -> usize
        ensures { result ≡ length self.now }
    {
        self.pbufs.len()
    }

    /// How many octets it has.
    #[inline(always)]
    pub fn len(&self) -> u32
        ensures { result ≡ length (joined self.now) }
    {
        self.to - self.from
    }

    /// Those octets.
    #[inline(always)]
    pub fn octets(&self) -> &[u8]
        ensures { result.now ≡ joined self.now }
    {
        &self.body.octets()[self.from as usize..self.to as usize]
    }

    /// How many octets stand in the pbufs from the i-th on.
    pub fn tot_len(&self, i: usize) -> u32
        ensures { result ≡ length (joined (drop i self.now)) }
    {
        let mut total = self.len();
        for pbuf in &self.pbufs[..i.min(self.pbufs.len())] {
            total -= pbuf.len;
        }
        total
    }

    /// Gives the owners of all pbufs up, and answers how many lives of pbufs ended by it. Takes no memory.
    #[inline(always)]
    pub fn give_up(self, seat: &mut PoolSeat) -> u32
        requires under { All (λ p. IsUnder seat.old.holder.table p.owner) self }
        requires listed { (s : Slot) → rows_in self s ≤ rows_of seat.old.kept s }
        requires few { length self < 2 ^ 32 }
        ensures spent { IsSpent seat.old seat.new self }
        ensures ended { ended_at seat.new ≡ ended_at seat.old + result }
        ensures few { result ≤ length self }
    {
        let Span {
            body,
            from: _,
            to: _,
            pbufs,
        } = self;
        let ended = give_up_all(pbufs, seat);
        body.give_up(seat);
        ended
    }

    /// Takes all but the first pbuf off, which are a span then. The octets of the first are copied where the body is one chain's alone.
    pub fn split_first(&mut self) -> Result<Span, NoMemory>
        requires { 0 < length self.old }
        ensures first { OnOk result (self.new ≡ take 1 self.old) }
        ensures rest { IfOk result (λ r. r ≡ drop 1 self.old) }
        ensures err { OnErr result (self.new ≡ self.old) }
    {
        let alloc = *self.pbufs.allocator();
        let middle = self.from + self.pbufs[0].len;
        let mut firsts = Vec::with_capacity(alloc, 1)?;
        let (body, from) = self.body.part(alloc, self.from, middle)?;
        firsts.push_reserved(self.pbufs.remove(0));
        let rest = Span {
            body: mem::replace(&mut self.body, body),
            from: middle,
            to: self.to,
            pbufs: mem::replace(&mut self.pbufs, firsts),
        };
        self.to = from + (middle - self.from);
        self.from = from;
        Ok(rest)
    }
}
