//! Cuts: octets that leave a span, and the pbufs that go with them.
ghost use Rattle.std.specs.Prelude.{◌≡◌, ◌+◌, ◌-◌, ◌<◌, ◌≤◌, length, drop, take, true};
ghost use Rattle.lw_payload.specs.Views.{Slot};
ghost use Rattle.pbuf_seats.specs.Kept.{rows_of};
ghost use Rattle.pbuf_spans.specs.Parts.{joined, rows_in, all_own, IsChain};
ghost use Rattle.pbuf_spans.specs.Cuts.{without_front, with_front, IsCutTo, IsRewritten};

use crate::body::Body;
use crate::owners::give_up;
use crate::span::Span;
use pbuf_seats::PoolSeat;

impl Span {
    /// Cuts the first n octets off. A pbuf of which no octet is left is given up. Takes no memory.
    #[inline(always)]
    pub fn cut_front(&mut self, seat: &mut PoolSeat, n: u32)
        requires within { n ≤ length (joined self.old) }
        requires chain { IsChain seat.old.holder.table self.old }
        requires listed { (s : Slot) → rows_in self.old s ≤ rows_of seat.old.kept s }
        ensures octets { joined self.new ≡ drop n (joined self.old) }
        ensures left { self.new ≡ without_front n self.old }
        ensures chain { IsChain seat.new.holder.table self.new }
        ensures listed { (s : Slot) → rows_in self.new s ≤ rows_of seat.new.kept s }
        ensures cut { IsCutTo seat.old seat.new self.old self.new }
    {
        let mut left = n;
        while left > 0 {
            left = self.cut_first(seat, left);
        }
    }

    /// Cuts the last n octets off, likewise.
    #[inline(always)]
    pub fn cut_back(&mut self, seat: &mut PoolSeat, n: u32)
        requires within { n ≤ length (joined self.old) }
        requires chain { IsChain seat.old.holder.table self.old }
        requires listed { (s : Slot) → rows_in self.old s ≤ rows_of seat.old.kept s }
        ensures octets { joined self.new ≡ take (length (joined self.old) - n) (joined self.old) }
        ensures left { self.new ≡ with_front (length (joined self.old) - n) self.old }
        ensures chain { IsChain seat.new.holder.table self.new }
        ensures listed { (s : Slot) → rows_in self.new s ≤ rows_of seat.new.kept s }
        ensures cut { IsCutTo seat.old seat.new self.old self.new }
    {
        let mut left = n;
        while left > 0 {
            left = self.cut_last(seat, left);
        }
    }

    /// Writes octets over all of these, which are in a body of the chain's own.
    pub fn write(&mut self, octets: &[u8])
        requires own { all_own self.old ≡ true }
        requires exact { length octets.now ≡ length (joined self.old) }
        ensures octets { joined self.new ≡ octets.now }
        ensures same { IsRewritten self.old self.new }
    {
        if let Body::Own(body) = &mut self.body {
            body[self.from as usize..self.to as usize].copy_from_slice(octets);
        }
    }

    // Cuts n octets or the first pbuf off the front; how many octets are still to be cut.
    #[inline(always)]
    fn cut_first(&mut self, seat: &mut PoolSeat, n: u32) -> u32
        requires some { 0 < n }
        requires within { n ≤ length (joined self.old) }
        requires chain { IsChain seat.old.holder.table self.old }
        requires listed { (s : Slot) → rows_in self.old s ≤ rows_of seat.old.kept s }
        ensures octets { drop result (joined self.new) ≡ drop n (joined self.old) }
        ensures left { without_front result self.new ≡ without_front n self.old }
        ensures within { result ≤ length (joined self.new) }
        ensures less { result < n }
        ensures chain { IsChain seat.new.holder.table self.new }
        ensures cut { IsCutTo seat.old seat.new self.old self.new }
    {
        let len = self.pbufs[0].len;
        if n < len {
            self.pbufs[0].len -= n;
            self.from += n;
            return 0;
        }
        self.from += len;
        let first = self.pbufs.remove(0);
        give_up(first, seat);
        n - len
    }

    // Cuts n octets or the last pbuf off the back; how many octets are still to be cut.
    #[inline(always)]
    fn cut_last(&mut self, seat: &mut PoolSeat, n: u32) -> u32
        requires some { 0 < n }
        requires within { n ≤ length (joined self.old) }
        requires chain { IsChain seat.old.holder.table self.old }
        requires listed { (s : Slot) → rows_in self.old s ≤ rows_of seat.old.kept s }
        ensures octets { take (length (joined self.new) - result) (joined self.new) ≡ take (length (joined self.old) - n) (joined self.old) }
        ensures left { with_front (length (joined self.new) - result) self.new ≡ with_front (length (joined self.old) - n) self.old }
        ensures count { length (joined self.new) + n ≡ length (joined self.old) + result }
        ensures less { result < n }
        ensures chain { IsChain seat.new.holder.table self.new }
        ensures cut { IsCutTo seat.old seat.new self.old self.new }
    {
        let Some(mut last) = self.pbufs.pop() else {
            return 0;
        };
        let len = last.len;
        if n < len {
            last.len -= n;
            self.to -= n;
            self.pbufs.push_reserved(last);
            return 0;
        }
        self.to -= len;
        give_up(last, seat);
        n - len
    }
}
