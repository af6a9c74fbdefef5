//! A chain of pbufs.
ghost use Rattle.std.specs.Prelude.{◌≡◌, ◌+◌, ◌-◌, ◌^◌, ◌<◌, ◌≤◌, ◌++◌, length, drop, OnOk};
ghost use Rattle.std.specs.Arc.{arc_value};
ghost use Rattle.pbuf_spans.specs.Parts.{joined, IsChain};
ghost use Rattle.lw_pbuf.specs.Chains.{all_parts, NoneEmpty};

use crate::NoMemory;
use pbuf_counts::Counts;
use pbuf_spans::Span;
use smallvec::SmallVec;
use std::alloc::Global;
use std::marker::Model;
use std::sync::Arc;

/// A list of pbufs, of each of which the chain has an owner. Those that one make took stand in one span; chains that were put together have several.
/// One that is dropped keeps its owners for good: free it.
#[derive(Drop)]
pub struct Chain {
    pub(crate) counts: Arc<Counts>,
    pub(crate) spans: SmallVec<Span, 1>,
}

impl Model for Chain {
    ghost use Rattle.std.specs.Coded.{codes};
    ghost use Rattle.atomic_table.specs.Seated.{table_id_coded};
    ghost use Rattle.lw_pbuf.specs.Chains.{ChainSeen};

    ghost Value = { ChainSeen };

    ghost coded = { Prim.hlevel (codes, table_id_coded) };

    ghost use Rattle.std.specs.Prelude.{◌-◌, length};
    ghost use Rattle.std.specs.Arc.{arc_value};
    ghost use Rattle.pbuf_spans.specs.Parts.{IsChain};
    ghost use Rattle.lw_pbuf.specs.Chains.{all_parts, NoneEmpty};

    ghost view = { λ c. record { table = arc_value c.counts; parts = all_parts c.spans.items; room = c.spans.capacity - length c.spans.items } };

    ghost invariant = { λ c. IsChain (arc_value c.counts) (all_parts c.spans.items) × NoneEmpty c.spans.items };
}

impl Chain {
    /// A chain of pbufs that were just made.
    #[inline(always)]
    pub(crate) fn of(alloc: Global, counts: Arc<Counts>, first: Span) -> Chain
        requires chain { IsChain (arc_value counts) first }
        ensures table { result.table ≡ arc_value counts }
        ensures parts { result.parts ≡ first }
    {
        if first.clen() == 0 {
            return Chain {
                counts,
                spans: SmallVec::new(alloc),
            };
        }
        Chain {
            counts,
            spans: SmallVec::from_buf(alloc, [first]),
        }
    }

    /// How many pbufs it has; each has an octet.
    pub fn clen(&self) -> u32
        ensures exact { result ≡ length self.now.parts }
        ensures few { length self.now.parts ≤ length (joined self.now.parts) }
        ensures short { length (joined self.now.parts) < 2 ^ 32 }
    {
        let mut count = 0;
        for span in self.spans.as_slice() {
            count += span.clen();
        }
        count as u32
    }

    /// How many octets stand in the pbufs from the i-th on.
    pub fn tot_len(&self, i: u32) -> u32
        ensures { result ≡ length (joined (drop i self.now.parts)) }
    {
        let mut skip = i as usize;
        let mut total = 0;
        for span in self.spans.as_slice() {
            total += span.tot_len(skip);
            skip = skip.saturating_sub(span.clen());
        }
        total
    }

    /// How many octets it has.
    pub fn len(&self) -> u32
        ensures { result ≡ length (joined self.now.parts) }
    {
        let mut total = 0;
        for span in self.spans.as_slice() {
            total += span.len();
        }
        total
    }

    /// Makes room for so many pbufs of others.
    pub fn room(&mut self, n: u32) -> Result<(), NoMemory>
        ensures same { self.new ≡ record self.old { room = self.new.room } }
        ensures ok { OnOk result (n ≤ self.new.room) }
    {
        self.spans.reserve(n as usize)
    }

    /// Puts the pbufs of another chain behind these, with their owners. It needs room for them.
    pub fn cat(&mut self, tail: Chain)
        requires table { tail.table ≡ self.old.table }
        requires room { length tail.parts ≤ self.old.room }
        requires short { length (joined self.old.parts) + length (joined tail.parts) < 2 ^ 32 }
        ensures parts { self.new.parts ≡ self.old.parts ++ tail.parts }
        ensures table { self.new.table ≡ self.old.table }
        ensures room { self.old.room ≤ self.new.room + length tail.parts }
    {
        let Chain {
            counts: _counts,
            mut spans,
        } = tail;
        if spans.is_empty() {
            return;
        }
        self.spans.append(&mut spans).unwrap();
    }
}
