//! Payloads that are made and given up again.
ghost use Rattle.std.specs.Prelude.{◌≡◌, ◌+◌, ◌-◌, ◌^◌, ◌<◌, ◌≤◌, length, IsTrue, OnSome};
ghost use Rattle.lw_payload.specs.declared.kinds.Kind.{Kind};

use lw_payload::{Kind, Payload};
use std::alloc::Global;

// So many octets are cut off: the heads of IPv4 and TCP.
const HEADS: u32 = 40;

// Makes a payload of POOL, shares it, cuts one of the two, and gives both up. How many pbufs ended; none where it was refused.
fn one_round<P: Payload>(alloc: Global, home: &mut P::Home, octets: &[u8]) -> Option<u32>
    requires makes { IsTrue ((P.home_seen home.old).pools.makes Kind.Pool) }
    requires countable { (P.home_seen home.old).counts.made + (P.home_seen home.old).counts.refused < 2 ^ 64 - 1 }
    requires heads { 40 ≤ length octets.now }
    requires short { length octets.now < 2 ^ 32 }
    ensures pools { OnSome result ((P.home_seen home.new).pools ≡ (P.home_seen home.old).pools) }
    ensures counts { OnSome result ((P.home_seen home.new).counts.made + (P.home_seen home.new).counts.refused
        ≤ (P.home_seen home.old).counts.made + (P.home_seen home.old).counts.refused + 1) }
{
    let Ok(mut first) = P::make(alloc, home, Kind::Pool, octets) else {
        return None;
    };
    let Ok(second) = first.share(home) else {
        return None;
    };
    first.cut_front(home, HEADS);
    let some = second.spend(home);
    let others = first.spend(home);
    Some(some.saturating_add(others))
}

/// Makes so many payloads of POOL, and gives each up before the next. How many pbufs ended.
pub fn rounds<P: Payload>(alloc: Global, home: &mut P::Home, octets: &[u8], n: u32) -> u64
    requires makes { IsTrue ((P.home_seen home.old).pools.makes Kind.Pool) }
    requires countable { (P.home_seen home.old).counts.made + (P.home_seen home.old).counts.refused + n < 2 ^ 64 - 1 }
    requires heads { 40 ≤ length octets.now }
    requires short { length octets.now < 2 ^ 32 }
{
    let mut ended = 0u64;
    for _round in 0..n {
        match one_round::<P>(alloc, home, octets) {
            Some(pbufs) => ended = ended.saturating_add(u64::from(pbufs)),
            None => return ended,
        }
    }
    ended
}
