//! Shares: a second chain of the same octets, with owners of its own.
ghost use Rattle.std.specs.Prelude.{◌≡◌, ◌+◌, ◌^◌, ◌<◌, ◌≤◌, ◌↔◌, [], ◌++◌, Bool, true, false, length, IfOk, OnOk, OnErr};
ghost use Rattle.std.specs.Arc.{arc_value};
ghost use Rattle.std.specs.List.{AllZip};
ghost use Rattle.lw_payload.specs.declared.kinds.ShareFault.{ShareFault};
ghost use Rattle.pbuf_spans.specs.Parts.{joined, least_adds};
ghost use Rattle.pbuf_spans.specs.Shares.{MayShare, AllShared, IsTwin};
ghost use Rattle.lw_pbuf.specs.Chains.{all_parts, NoneEmpty, IsOf};
ghost use Rattle.lw_pbuf.specs.Shares.{IsSharedTo, IsChained};

use crate::NoMemory;
use crate::chain::Chain;
use lw_payload::ShareFault;
use pbuf_counts::Counts;
use pbuf_seats::PoolSeat;
use pbuf_spans::{Span, Twin};
use smallvec::SmallVec;
use std::alloc::Global;
use std::sync::Arc;

/// A second chain of the same octets. Each of its owners gets 15 of the adds left, where there are so many.
pub fn pbuf_ref(c: &mut Chain, seat: &mut PoolSeat) -> Result<Chain, ShareFault>
    requires { IsOf seat.old c.old }
    ensures shared { IfOk result (λ o. IsSharedTo true c.old c.new o) }
    ensures first { OnOk result (IsOf seat.new c.new) }
    ensures second { IfOk result (λ o. IsOf seat.new o) }
    ensures too_many { (result ≡ Err ShareFault.TooMany) ↔ (least_adds c.old.parts ≡ 0) }
    ensures err { OnErr result (c.new ≡ c.old) }
    ensures same { seat.new ≡ seat.old }
{
    c.share_with(seat, true)
}

impl Chain {
    /// A second chain of the same octets, whose owners may add none.
    #[inline(always)]
    pub fn share(&mut self, seat: &mut PoolSeat) -> Result<Chain, ShareFault>
        requires { IsOf seat.old self.old }
        ensures shared { IfOk result (λ o. IsSharedTo false self.old self.new o) }
        ensures first { OnOk result (IsOf seat.new self.new) }
        ensures second { IfOk result (λ o. IsOf seat.new o) }
        ensures too_many { (result ≡ Err ShareFault.TooMany) ↔ (least_adds self.old.parts ≡ 0) }
        ensures err { OnErr result (self.new ≡ self.old) }
        ensures same { seat.new ≡ seat.old }
    {
        self.share_with(seat, false)
    }

    /// Puts the pbufs of `tail` behind these, with an owner more of each; `tail` stays. It needs room for them.
    pub fn chain(&mut self, tail: &mut Chain, seat: &mut PoolSeat) -> Result<(), ShareFault>
        requires of_seat { IsOf seat.old tail.old }
        requires table { self.old.table ≡ tail.old.table }
        requires room { length tail.old.parts ≤ self.old.room }
        requires short { length (joined self.old.parts) + length (joined tail.old.parts) < 2 ^ 32 }
        ensures chained { OnOk result (IsChained self.old self.new tail.old tail.new) }
        ensures too_many { (result ≡ Err ShareFault.TooMany) ↔ (least_adds tail.old.parts ≡ 0) }
        ensures err { OnErr result ((self.new ≡ self.old) × (tail.new ≡ tail.old)) }
        ensures same { seat.new ≡ seat.old }
    {
        let other = tail.share_with(seat, false)?;
        self.cat(other);
        Ok(())
    }

    // Memory first, then the owners.
    #[inline(always)]
    fn share_with(&mut self, seat: &mut PoolSeat, hands: bool) -> Result<Chain, ShareFault>
        requires { IsOf seat.old self.old }
        ensures shared { IfOk result (λ o. IsSharedTo hands self.old self.new o) }
        ensures too_many { (result ≡ Err ShareFault.TooMany) ↔ (least_adds self.old.parts ≡ 0) }
        ensures err { OnErr result (self.new ≡ self.old) }
        ensures same { seat.new ≡ seat.old }
    {
        if !have_adds(self.spans.as_slice()) {
            return Err(ShareFault::TooMany);
        }
        let counts = seat.counts()?;
        if self.spans.len() != 1 {
            return self.share_all(seat, hands, counts);
        }
        let alloc = *self.spans.allocator();
        let span = share_one(self.spans.as_mut_slice(), seat, hands)?;
        Ok(Chain {
            counts,
            spans: SmallVec::from_buf(alloc, [span]),
        })
    }

    // A second chain of the same octets, where there are several spans or none.
    #[inline(never)]
    fn share_all(
        &mut self,
        seat: &mut PoolSeat,
        hands: bool,
        counts: Arc<Counts>,
    ) -> Result<Chain, ShareFault>
        requires table { arc_value counts ≡ self.old.table }
        requires may { MayShare seat.old self.old.parts }
        ensures shared { IfOk result (λ o. IsSharedTo hands self.old self.new o) }
        ensures err { OnErr result ((result ≡ Err ShareFault.NoMemory) × (self.new ≡ self.old)) }
        ensures same { seat.new ≡ seat.old }
    {
        let alloc = *self.spans.allocator();
        let mut spans = SmallVec::with_capacity(alloc, self.spans.len())?;
        let twins = twins(alloc, self.spans.as_slice(), seat)?;
        share_spans(self.spans.as_mut_slice(), twins, &mut spans, seat, hands);
        Ok(Chain { counts, spans })
    }
}

// Whether each owner may add one.
#[inline(always)]
fn have_adds(spans: &[Span]) -> bool
    ensures some { result ≡ true → 0 < least_adds (all_parts spans.now) }
    ensures none { result ≡ false → least_adds (all_parts spans.now) ≡ 0 }
{
    for span in spans {
        if !span.has_adds() {
            return false;
        }
    }
    true
}

// A second span for the one span of a chain.
#[inline(always)]
fn share_one(spans: &mut [Span], seat: &mut PoolSeat, hands: bool) -> Result<Span, NoMemory>
    requires one { length spans.old ≡ 1 }
    requires may { MayShare seat.old (all_parts spans.old) }
    ensures shared { IfOk result (λ o. AllShared hands (all_parts spans.old) (all_parts spans.new) o) }
    ensures full { NoneEmpty spans.old → NoneEmpty spans.new }
    ensures some { IfOk result (λ o. NoneEmpty spans.old → 0 < length o) }
    ensures err { OnErr result (spans.new ≡ spans.old) }
    ensures same { seat.new ≡ seat.old }
{
    spans[0].share(seat, hands)
}

// Memory for shares of these spans, one for each.
fn twins(alloc: Global, spans: &[Span], seat: &mut PoolSeat) -> Result<Vec<Twin>, NoMemory>
    ensures twins { IfOk result (λ ts. AllZip IsTwin spans.now ts.items) }
    ensures same { seat.new ≡ seat.old }
{
    let mut twins = Vec::with_capacity(alloc, spans.len())?;
    for span in spans {
        twins.push_reserved(span.twin(seat)?);
    }
    Ok(twins)
}

// A second span for each of these.
fn share_spans(
    spans: &mut [Span],
    twins: Vec<Twin>,
    others: &mut SmallVec<Span, 1>,
    seat: &mut PoolSeat,
    hands: bool,
)
    requires twins { AllZip IsTwin spans.old twins.items }
    requires may { MayShare seat.old (all_parts spans.old) }
    requires none { others.old.items ≡ [] }
    requires room { length spans.old ≤ others.old.capacity }
    ensures shared { AllShared hands (all_parts spans.old) (all_parts spans.new) (all_parts others.new.items) }
    ensures full { NoneEmpty spans.old → NoneEmpty spans.new × NoneEmpty others.new.items }
    ensures capacity { others.new.capacity ≡ others.old.capacity }
    ensures same { seat.new ≡ seat.old }
{
    let mut i = 0;
    for twin in twins {
        others.push_reserved(spans[i].share_with(twin, seat, hands));
        i += 1;
    }
}
