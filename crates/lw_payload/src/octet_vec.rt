ghost use Rattle.std.specs.Prelude.{◌≡◌, ◌-◌, ◌≤◌, length, drop, vec_capacity};
ghost use Rattle.lw_payload.specs.Views.{plain_home, plain_view};

use crate::{Kind, MakeFault, NoMemory, Payload, ShareFault};
use std::alloc::Global;

/// Octets that nobody counts: a part for each octet, shares without end, no Home.
impl Payload for Vec<u8> {
    type Home = ();

    ghost seen = { λ v. plain_view v.items (vec_capacity v - length v.items) };

    ghost home_seen = { λ _. plain_home };

    ghost may_refuse = { λ _ _ _ _. ⊥ };

    ghost must_refuse = { λ _ _ _. ⊥ };

    ghost frees = { λ _ _ _ n. n ≡ 0 };

    fn make(
        alloc: Global,
        _home: &mut (),
        _kind: Kind,
        octets: &[u8],
    ) -> Result<Vec<u8>, MakeFault> {
        Ok(Vec::from_slice(alloc, octets)?)
    }

    fn refill(&mut self, _home: &mut (), octets: &[u8]) {
        self.truncate(octets.len());
        self.copy_from_slice(octets);
    }

    fn len(&self) -> u32 {
        self.as_slice().len() as u32
    }

    fn parts(&self) -> u32 {
        self.as_slice().len() as u32
    }

    fn copy_at(&self, from: u32, out: &mut [u8]) {
        let from = from as usize;
        let to = from + out.len();
        out.copy_from_slice(&self[from..to]);
    }

    fn cut_front(&mut self, _home: &mut (), n: u32) {
        cut_octets(self, n as usize);
    }

    fn cut_back(&mut self, _home: &mut (), n: u32) {
        self.truncate(self.as_slice().len() - n as usize);
    }

    fn room(&mut self, n: u32) -> Result<(), NoMemory> {
        self.reserve(n as usize)
    }

    fn join(&mut self, other: Vec<u8>) {
        self.extend_from_slice(&other).unwrap();
    }

    fn share(&mut self, _home: &mut ()) -> Result<Vec<u8>, ShareFault> {
        Ok(self.clone()?)
    }

    fn spend(self, _home: &mut ()) -> u32 {
        0
    }
}

/// Cuts the first `n` octets off.
pub(crate) fn cut_octets(octets: &mut Vec<u8>, n: usize)
    requires { n ≤ length octets.old.items }
    ensures items { octets.new.items ≡ drop n octets.old.items }
    ensures room { vec_capacity octets.new ≡ vec_capacity octets.old }
{
    let left = octets.len() - n;
    octets.rotate_left(n);
    octets.truncate(left);
}
