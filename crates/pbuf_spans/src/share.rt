//! Shares: a second span of the same octets, with owners of its own.
ghost use Rattle.std.specs.Prelude.{◌≡◌, ◌<◌, ◌≤◌, [], true, false, length, map, vec_capacity, All, IfOk, OnOk, OnErr};
ghost use Rattle.std.specs.Arc.{arc_value};
ghost use Rattle.pbuf_spans.specs.Parts.{joined, least_adds};
ghost use Rattle.pbuf_spans.specs.Shares.{as_shared, MayShare, AllShared, IsTwin};

use crate::NoMemory;
use crate::body::Body;
use crate::owners::{add_owners, has_adds};
use crate::span::Span;
use crate::twin::Twin;
use crate::window::Window;
use pbuf_seats::{Pbuf, PoolSeat};
use std::mem;
use std::sync::Arc;

impl Span {
    /// Whether each owner may add one.
    #[inline(always)]
    pub fn has_adds(&self) -> bool
        ensures some { result ≡ true → 0 < least_adds self.now }
        ensures none { result ≡ false → least_adds self.now ≡ 0 }
    {
        has_adds(self.pbufs.as_slice())
    }

    /// A second span of the same octets. None of them is copied: a body that was one chain's alone is shared from then on.
    #[inline(always)]
    pub fn share(&mut self, seat: &mut PoolSeat, hands: bool) -> Result<Span, NoMemory>
        requires { MayShare seat.old self.old }
        ensures shared { IfOk result (λ o. AllShared hands self.old self.new o) }
        ensures err { OnErr result (self.new ≡ self.old) }
        ensures same { seat.new ≡ seat.old }
    {
        let pbufs = seat.list(*self.pbufs.allocator(), self.pbufs.len())?;
        let window = self.second_window(seat)?;
        Ok(self.second(window, pbufs, seat, hands))
    }

    /// Memory for a share: windows on one body of these octets, and an empty list for the owners. Nothing is shared yet.
    pub fn twin(&self, seat: &mut PoolSeat) -> Result<Twin, NoMemory>
        ensures twin { IfOk result (λ t. IsTwin self.now t) }
        ensures same { seat.new ≡ seat.old }
    {
        let alloc = *self.pbufs.allocator();
        let pbufs = seat.list(alloc, self.pbufs.len())?;
        let first = match &self.body {
            Body::Own(_) => Window::of(seat.shared_buffer(alloc, self.octets())?, 0, self.len()),
            Body::Shared(body) => Window::of(Arc::try_clone(body)?, self.from, self.to),
        };
        let second = first.another()?;
        Ok(Twin {
            first,
            second,
            pbufs,
        })
    }

    /// A second span of the same octets, in the memory of a twin.
    pub fn share_with(&mut self, twin: Twin, seat: &mut PoolSeat, hands: bool) -> Span
        requires twin { IsTwin self.old twin }
        requires may { MayShare seat.old self.old }
        ensures shared { AllShared hands self.old self.new result }
        ensures same { seat.new ≡ seat.old }
    {
        let Twin {
            first,
            second,
            pbufs,
        } = twin;
        self.look_through(first, seat);
        self.second(second, pbufs, seat, hands)
    }

    // Puts a window of the same octets in the place of the body.
    fn look_through(&mut self, window: Window, seat: &mut PoolSeat)
        requires { window.octets ≡ joined self.old }
        ensures shared { self.new ≡ map as_shared self.old }
        ensures same { seat.new ≡ seat.old }
    {
        let Window { body, from, to } = window;
        let old = mem::replace(&mut self.body, Body::Shared(body));
        self.from = from;
        self.to = to;
        old.give_up(seat);
    }

    // A window of the same octets, on the body of this span, which is shared then.
    #[inline(always)]
    fn second_window(&mut self, seat: &mut PoolSeat) -> Result<Window, NoMemory>
        ensures window { IfOk result (λ w. w.octets ≡ joined self.old) }
        ensures shared { OnOk result (self.new ≡ map as_shared self.old) }
        ensures err { OnErr result (self.new ≡ self.old) }
        ensures same { seat.new ≡ seat.old }
    {
        let second = match &mut self.body {
            Body::Shared(body) => Arc::try_clone(body)?,
            Body::Own(buffer) => {
                let (first, second) = share_buffer(buffer, seat)?;
                let old = mem::replace(&mut self.body, Body::Shared(first));
                old.give_up(seat);
                second
            }
        };
        Ok(Window::of(second, self.from, self.to))
    }

    // The second span, which gets this window: its owners are added.
    #[inline(always)]
    fn second(&mut self, window: Window, mut pbufs: Vec<Pbuf>, seat: &PoolSeat, hands: bool) -> Span
        requires window { window.octets ≡ joined self.old }
        requires shared { All (λ p. p.own ≡ false) self.old }
        requires may { MayShare seat.now self.old }
        requires none { pbufs.items ≡ [] }
        requires room { length self.old ≤ vec_capacity pbufs }
        ensures { AllShared hands self.old self.new result }
    {
        add_owners(self.pbufs.as_mut_slice(), &mut pbufs, seat, hands);
        let Window { body, from, to } = window;
        Span {
            body: Body::Shared(body),
            from,
            to,
            pbufs,
        }
    }
}

// Two owners of a shared buffer with the octets of this one, which has other memory then. Where it fails they are in it again.
#[inline(always)]
fn share_buffer(
    buffer: &mut Vec<u8>,
    seat: &mut PoolSeat,
) -> Result<(Arc<Vec<u8>>, Arc<Vec<u8>>), NoMemory>
    ensures first { IfOk result (λ r. (arc_value r.0).items ≡ buffer.old.items) }
    ensures second { IfOk result (λ r. (arc_value r.1).items ≡ buffer.old.items) }
    ensures err { OnErr result (buffer.new.items ≡ buffer.old.items) }
    ensures same { seat.new ≡ seat.old }
{
    let alloc = *buffer.allocator();
    let first = seat.share_buffer(alloc, buffer)?;
    match Arc::try_clone(&first) {
        Ok(second) => Ok((first, second)),
        Err(error) => {
            buffer.clear();
            buffer.extend_from_slice(first.as_slice()).unwrap();
            Err(error)
        }
    }
}
