//! A chain as a payload, and a seat as its Home.
ghost use Rattle.std.specs.Prelude.{ℕ, ◌≡◌, ◌+◌};
ghost use Rattle.pbuf_seats.specs.Owners.{ended_at};
ghost use Rattle.lw_pbuf.specs.Homes.{home_of, payload_of};
ghost use Rattle.lw_pbuf.specs.Makes.{IsDenied};

use crate::NoMemory;
use crate::chain::Chain;
use crate::free::pbuf_free;
use crate::make::{AllocFault, pbuf_alloc};
use lw_payload::{Kind, MakeFault, Payload, ShareFault};
use pbuf_seats::PoolSeat;
use std::alloc::Global;

/// Parts are pbufs. A make of POOL that isn't kept is refused where each of its pbufs was tried and too few were free.
impl Payload for Chain {
    type Home = PoolSeat;

    ghost seen = { payload_of };

    ghost home_seen = { home_of };

    ghost may_refuse = { IsDenied };

    ghost must_refuse = { λ _ _ _. ⊥ };

    ghost frees = { λ _ h k n. ended_at k ≡ ended_at h + n };

    #[inline(always)]
    fn make(
        alloc: Global,
        home: &mut PoolSeat,
        kind: Kind,
        octets: &[u8],
    ) -> Result<Chain, MakeFault> {
        match pbuf_alloc(alloc, home, kind, octets) {
            Ok(chain) => Ok(chain),
            Err(AllocFault::PoolEmpty(kind)) => Err(MakeFault::Empty(kind)),
            Err(AllocFault::TooLong) => Err(MakeFault::TooLong),
            Err(AllocFault::NoMemory) => Err(MakeFault::NoMemory),
        }
    }

    fn refill(&mut self, home: &mut PoolSeat, octets: &[u8]) {
        Chain::refill(self, home, octets);
    }

    fn len(&self) -> u32 {
        Chain::len(self)
    }

    fn parts(&self) -> u32 {
        self.clen()
    }

    fn copy_at(&self, from: u32, out: &mut [u8]) {
        Chain::copy_at(self, from, out);
    }

    #[inline(always)]
    fn cut_front(&mut self, home: &mut PoolSeat, n: u32) {
        Chain::cut_front(self, home, n);
    }

    fn cut_back(&mut self, home: &mut PoolSeat, n: u32) {
        Chain::cut_back(self, home, n);
    }

    fn room(&mut self, n: u32) -> Result<(), NoMemory> {
        Chain::room(self, n)
    }

    fn join(&mut self, other: Chain) {
        self.cat(other);
    }

    #[inline(always)]
    fn share(&mut self, home: &mut PoolSeat) -> Result<Chain, ShareFault> {
        Chain::share(self, home)
    }

    #[inline(always)]
    fn spend(self, home: &mut PoolSeat) -> u32 {
        pbuf_free(self, home)
    }
}
