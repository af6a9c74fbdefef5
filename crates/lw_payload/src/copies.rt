ghost use Rattle.std.specs.Prelude.{◌≡◌, ◌^◌, ◌<◌, length, IfOk};

use crate::{NoMemory, Payload};
use lw_base::Octets;
use std::alloc::Global;

/// A copy of all octets of a payload.
pub fn octets_of<P: Payload>(alloc: Global, payload: &P) -> Result<Octets, NoMemory>
    requires { length (P.seen payload.now).octets < 2 ^ 32 }
    ensures { IfOk result (λ octets. octets ≡ (P.seen payload.now).octets) }
{
    let mut octets = vec![in alloc; 0; payload.len() as usize]?;
    payload.copy_at(0, &mut octets);
    Ok(Octets::from_vec(octets))
}
