//! What the octets of pbufs stand in.
ghost use Rattle.std.specs.Prelude.{◌≡◌, ◌+◌, ◌-◌, ◌<◌, ◌≤◌, length, slice_range, IfOk};
ghost use Rattle.pbuf_spans.specs.Spans.{octets_of, is_own};

use crate::NoMemory;
use pbuf_seats::PoolSeat;
use std::alloc::Global;
use std::sync::Arc;

/// A buffer: of one chain alone, or shared since.
#[derive(Drop)]
pub enum Body {
    Own(Vec<u8>),
    Shared(Arc<Vec<u8>>),
}

impl Body {
    /// All its octets.
    #[inline(always)]
    pub fn octets(&self) -> &[u8]
        ensures { result.now ≡ octets_of self.now }
    {
        match self {
            Body::Own(body) => body.as_slice(),
            Body::Shared(body) => body.as_slice(),
        }
    }

    /// A second body with these octets, and where they begin in it: it has copies of them where the first is one chain's alone.
    pub(crate) fn part(&self, alloc: Global, from: u32, to: u32) -> Result<(Body, u32), NoMemory>
        requires within { (from ≤ to) × (to ≤ length (octets_of self.now)) }
        ensures octets { IfOk result (λ r. slice_range (octets_of r.0) r.1 (r.1 + (to - from)) ≡ slice_range (octets_of self.now) from to) }
        ensures long { IfOk result (λ r. r.1 + (to - from) ≤ length (octets_of r.0)) }
        ensures own { IfOk result (λ r. is_own r.0 ≡ is_own self.now) }
        ensures small { IfOk result (λ r. r.1 ≤ from) }
    {
        match self {
            Body::Own(body) => {
                let octets = &body[from as usize..to as usize];
                Ok((Body::Own(Vec::from_slice(alloc, octets)?), 0))
            }
            Body::Shared(body) => Ok((Body::Shared(Arc::try_clone(body)?), from)),
        }
    }

    /// Gives it up: the seat keeps the buffer, where no other chain has it. Takes no memory.
    #[inline(always)]
    pub fn give_up(self, seat: &mut PoolSeat)
        ensures { seat.new ≡ seat.old }
    {
        match self {
            Body::Own(buffer) => seat.keep_buffer(buffer),
            Body::Shared(buffer) => seat.keep_shared_buffer(buffer),
        }
    }
}
