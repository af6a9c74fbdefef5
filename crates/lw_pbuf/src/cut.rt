//! Cuts: octets that leave a chain, and the pbufs that go with them.
ghost use Rattle.std.specs.Prelude.{◌≡◌, ◌+◌, ◌-◌, ◌<◌, ◌≤◌, ◌↔◌, ◌++◌, length, drop, take, true, IsSome, OnSome};
ghost use Rattle.std.specs.Option.{option_to_list};
ghost use Rattle.lw_payload.specs.Views.{Slot};
ghost use Rattle.pbuf_seats.specs.Kept.{rows_of};
ghost use Rattle.pbuf_spans.specs.Parts.{joined, rows_in, all_own, IsChain};
ghost use Rattle.pbuf_spans.specs.Cuts.{without_front, with_front, IsCutTo, IsRewritten};
ghost use Rattle.lw_pbuf.specs.Chains.{all_parts, NoneEmpty, IsOf};

use crate::chain::Chain;
use pbuf_seats::PoolSeat;
use pbuf_spans::Span;
use smallvec::SmallVec;

impl Chain {
    /// Cuts the first n octets off. A pbuf of which no octet is left is given up. It takes no memory.
    #[inline(always)]
    pub fn cut_front(&mut self, seat: &mut PoolSeat, n: u32)
        requires of_seat { IsOf seat.old self.old }
        requires within { n ≤ length (joined self.old.parts) }
        ensures octets { joined self.new.parts ≡ drop n (joined self.old.parts) }
        ensures left { self.new.parts ≡ without_front n self.old.parts }
        ensures cut { IsCutTo seat.old seat.new self.old.parts self.new.parts }
        ensures room { self.old.room ≤ self.new.room }
        ensures few { length self.new.parts ≤ length (joined self.new.parts) }
        ensures of_seat { IsOf seat.new self.new }
    {
        front_off(&mut self.spans, seat, n);
    }

    /// Cuts the last n octets off, likewise.
    pub fn cut_back(&mut self, seat: &mut PoolSeat, n: u32)
        requires of_seat { IsOf seat.old self.old }
        requires within { n ≤ length (joined self.old.parts) }
        ensures octets { joined self.new.parts ≡ take (length (joined self.old.parts) - n) (joined self.old.parts) }
        ensures left { self.new.parts ≡ with_front (length (joined self.old.parts) - n) self.old.parts }
        ensures cut { IsCutTo seat.old seat.new self.old.parts self.new.parts }
        ensures room { self.old.room ≤ self.new.room }
        ensures few { length self.new.parts ≤ length (joined self.new.parts) }
        ensures of_seat { IsOf seat.new self.new }
    {
        back_off(&mut self.spans, seat, n);
    }

    /// Leaves a header of so many octets out, so that the chain begins with what is behind it.
    pub fn header(&mut self, seat: &mut PoolSeat, cut: u32)
        requires of_seat { IsOf seat.old self.old }
        requires within { cut ≤ length (joined self.old.parts) }
        ensures behind { take cut (joined self.old.parts) ++ joined self.new.parts ≡ joined self.old.parts }
        ensures length { length (joined self.new.parts) + cut ≡ length (joined self.old.parts) }
        ensures left { self.new.parts ≡ without_front cut self.old.parts }
        ensures cut { IsCutTo seat.old seat.new self.old.parts self.new.parts }
        ensures room { self.old.room ≤ self.new.room }
        ensures few { length self.new.parts ≤ length (joined self.new.parts) }
        ensures of_seat { IsOf seat.new self.new }
    {
        self.cut_front(seat, cut);
    }

    /// Puts these octets in the place of the old ones, and gives up the pbufs that are not needed. It takes no memory.
    pub fn refill(&mut self, seat: &mut PoolSeat, octets: &[u8])
        requires of_seat { IsOf seat.old self.old }
        requires own { all_own self.old.parts ≡ true }
        requires within { length octets.now ≤ length (joined self.old.parts) }
        ensures octets { joined self.new.parts ≡ octets.now }
        ensures left { IsRewritten (with_front (length octets.now) self.old.parts) self.new.parts }
        ensures cut { IsCutTo seat.old seat.new self.old.parts self.new.parts }
        ensures room { self.old.room ≤ self.new.room }
        ensures few { length self.new.parts ≤ length (joined self.new.parts) }
        ensures of_seat { IsOf seat.new self.new }
    {
        let surplus = self.len() - octets.len() as u32;
        self.cut_back(seat, surplus);
        write_over(self.spans.as_mut_slice(), octets);
    }
}

// Cuts the first n octets off. Spans of which nothing is left go.
#[inline(always)]
fn front_off(spans: &mut SmallVec<Span, 1>, seat: &mut PoolSeat, n: u32)
    requires within { n ≤ length (joined (all_parts spans.old.items)) }
    requires chain { IsChain seat.old.holder.table (all_parts spans.old.items) }
    requires full { NoneEmpty spans.old.items }
    requires listed { (s : Slot) → rows_in (all_parts spans.old.items) s ≤ rows_of seat.old.kept s }
    ensures octets { joined (all_parts spans.new.items) ≡ drop n (joined (all_parts spans.old.items)) }
    ensures left_parts { all_parts spans.new.items ≡ without_front n (all_parts spans.old.items) }
    ensures chain { IsChain seat.new.holder.table (all_parts spans.new.items) }
    ensures full { NoneEmpty spans.new.items }
    ensures listed { (s : Slot) → rows_in (all_parts spans.new.items) s ≤ rows_of seat.new.kept s }
    ensures cut { IsCutTo seat.old seat.new (all_parts spans.old.items) (all_parts spans.new.items) }
    ensures capacity { spans.new.capacity ≡ spans.old.capacity }
    ensures fewer { length spans.new.items ≤ length spans.old.items }
{
    let mut left = n;
    while left > 0 {
        left = cut_first(spans, seat, left);
    }
}

// Cuts n octets or the first span off the front; how many octets are still to be cut.
#[inline(always)]
fn cut_first(spans: &mut SmallVec<Span, 1>, seat: &mut PoolSeat, n: u32) -> u32
    requires some { 0 < n }
    requires within { n ≤ length (joined (all_parts spans.old.items)) }
    requires chain { IsChain seat.old.holder.table (all_parts spans.old.items) }
    requires full { NoneEmpty spans.old.items }
    requires listed { (s : Slot) → rows_in (all_parts spans.old.items) s ≤ rows_of seat.old.kept s }
    ensures octets { drop result (joined (all_parts spans.new.items)) ≡ drop n (joined (all_parts spans.old.items)) }
    ensures left_parts { without_front result (all_parts spans.new.items) ≡ without_front n (all_parts spans.old.items) }
    ensures within { result ≤ length (joined (all_parts spans.new.items)) }
    ensures less { result < n }
    ensures chain { IsChain seat.new.holder.table (all_parts spans.new.items) }
    ensures full { NoneEmpty spans.new.items }
    ensures cut { IsCutTo seat.old seat.new (all_parts spans.old.items) (all_parts spans.new.items) }
    ensures capacity { spans.new.capacity ≡ spans.old.capacity }
    ensures fewer { length spans.new.items ≤ length spans.old.items }
{
    let len = spans.as_slice()[0].len();
    if n < len {
        spans.as_mut_slice()[0].cut_front(seat, n);
        return 0;
    }
    let first = spans.remove(0);
    first.give_up(seat);
    n - len
}

// Cuts the last n octets off, as far as there are any; how many are still to be cut.
fn back_off(spans: &mut SmallVec<Span, 1>, seat: &mut PoolSeat, n: u32) -> u32
    requires chain { IsChain seat.old.holder.table (all_parts spans.old.items) }
    requires full { NoneEmpty spans.old.items }
    requires listed { (s : Slot) → rows_in (all_parts spans.old.items) s ≤ rows_of seat.old.kept s }
    ensures left { result ≡ n - length (joined (all_parts spans.old.items)) }
    ensures octets { joined (all_parts spans.new.items) ≡ take (length (joined (all_parts spans.old.items)) - n) (joined (all_parts spans.old.items)) }
    ensures left_parts { all_parts spans.new.items ≡ with_front (length (joined (all_parts spans.old.items)) - n) (all_parts spans.old.items) }
    ensures chain { IsChain seat.new.holder.table (all_parts spans.new.items) }
    ensures full { NoneEmpty spans.new.items }
    ensures listed { (s : Slot) → rows_in (all_parts spans.new.items) s ≤ rows_of seat.new.kept s }
    ensures cut { IsCutTo seat.old seat.new (all_parts spans.old.items) (all_parts spans.new.items) }
    ensures capacity { spans.new.capacity ≡ spans.old.capacity }
    ensures fewer { length spans.new.items ≤ length spans.old.items }
{
    let mut left = n;
    while left > 0 {
        let Some(last) = pop_last(spans) else {
            return left;
        };
        left = cut_last(spans, last, seat, left);
    }
    left
}

// Takes the last span off. There is a place for it then.
fn pop_last(spans: &mut SmallVec<Span, 1>) -> Option<Span>
    ensures items { spans.old.items ≡ spans.new.items ++ option_to_list result }
    ensures variant { IsSome result ↔ (0 < length spans.old.items) }
    ensures room { OnSome result (length spans.new.items < spans.new.capacity) }
    ensures capacity { spans.new.capacity ≡ spans.old.capacity }
{
    if spans.len() == 0 {
        return None;
    }
    spans.pop()
}

// Cuts n octets off a span that stood behind these, and puts it back where any are left; how many octets are still to be cut.
fn cut_last(spans: &mut SmallVec<Span, 1>, mut last: Span, seat: &mut PoolSeat, n: u32) -> u32
    requires some { (0 < n) × (0 < length last) }
    requires chain { IsChain seat.old.holder.table (all_parts spans.old.items ++ last) }
    requires full { NoneEmpty spans.old.items }
    requires room { length spans.old.items < spans.old.capacity }
    requires listed { (s : Slot) → rows_in (all_parts spans.old.items ++ last) s ≤ rows_of seat.old.kept s }
    ensures left { result ≡ n - length (joined last) }
    ensures octets { result ≡ 0 → joined (all_parts spans.new.items) ≡ take (length (joined (all_parts spans.old.items ++ last)) - n) (joined (all_parts spans.old.items ++ last)) }
    ensures left_parts { result ≡ 0 → all_parts spans.new.items ≡ with_front (length (joined (all_parts spans.old.items ++ last)) - n) (all_parts spans.old.items ++ last) }
    ensures same { 0 < result → spans.new ≡ spans.old }
    ensures chain { IsChain seat.new.holder.table (all_parts spans.new.items) }
    ensures full { NoneEmpty spans.new.items }
    ensures listed { (s : Slot) → rows_in (all_parts spans.new.items) s ≤ rows_of seat.new.kept s }
    ensures cut { IsCutTo seat.old seat.new (all_parts spans.old.items ++ last) (all_parts spans.new.items) }
    ensures capacity { spans.new.capacity ≡ spans.old.capacity }
    ensures fewer { length spans.new.items ≤ length spans.old.items + 1 }
{
    let len = last.len();
    if n < len {
        last.cut_back(seat, n);
        spans.push_reserved(last);
        return 0;
    }
    last.give_up(seat);
    n - len
}

// Writes these octets over those of the spans, of which there are as many.
fn write_over(spans: &mut [Span], octets: &[u8])
    requires own { all_own (all_parts spans.old) ≡ true }
    requires exact { length octets.now ≡ length (joined (all_parts spans.old)) }
    ensures octets { joined (all_parts spans.new) ≡ octets.now }
    ensures same { IsRewritten (all_parts spans.old) (all_parts spans.new) }
    ensures full { NoneEmpty spans.old → NoneEmpty spans.new }
{
    let mut rest = octets;
    for span in spans.iter_mut() {
        let (front, back) = rest.split_at(span.len() as usize);
        span.write(front);
        rest = back;
    }
}
