ghost use Rattle.std.specs.Prelude.{◌≡◌, ◌+◌, ◌<◌, IfOk, OnOk};
ghost use Rattle.pbuf_counts.specs.Holders.{owner_of};
ghost use Rattle.pbuf_counts.specs.Owners.{whole, claim_weight, first_adds};

use crate::{Claim, Counts, Dropped, Holder};
use std::test::Fail;
use std::thread::{Threads, join};

const ROUNDS: u32 = 300;

#[test]
fn a_holder_has_twelve_octets(rt: HostRuntime) {
    assert_eq!(rt; size_of::<Holder>(), 12);
}

// The holder of a claim that must get its pbuf.
fn claimed(counts: &Counts, first: &mut Holder, i: u32) -> Result<Holder, Fail>
    requires own { first.old.table ≡ counts.now }
    requires within { i < counts.now.words }
    requires idle { first.old.owners ≡ 0 }
    requires right { first.old.rights ≡ 1 }
    requires heavy { claim_weight < first.old.weight }
    ensures own { first.new.table ≡ counts.now }
    ensures idle { first.new.owners ≡ 0 }
    ensures right { first.new.rights ≡ 1 }
    ensures weight { IfOk result (λ o. first.new.weight + o.weight ≡ first.old.weight) }
    ensures got { IfOk result (λ o. o ≡ owner_of counts.now i first_adds claim_weight) }
{
    match counts.claim(first, i) {
        Claim::Got(holder) => Ok(holder),
        Claim::InUse(n) => Err(Fail::new(n)),
    }
}

// Drops the holder's one owner, and tells whether it was the pbuf's last.
fn give_up(mut h: Holder, counts: &Counts) -> (Holder, bool)
    requires own { h.table ≡ counts.now }
    requires one { h.owners ≡ 1 }
    ensures own { result.0.table ≡ counts.now }
    ensures idle { result.0.owners ≡ 0 }
    ensures weight { result.0.weight ≡ h.weight }
    ensures rights { result.0.rights ≡ h.rights }
{
    let last = counts.drop_one(&mut h) == Dropped::Last;
    (h, last)
}

// A life of the pbuf 0, whose two owners are dropped by two threads at once. It answers how many found that theirs was the last.
fn live_once(rt: &impl Threads, counts: &Counts, first: &mut Holder) -> Result<u32, Fail>
    requires own { first.old.table ≡ counts.now }
    requires some { 0 < counts.now.words }
    requires idle { first.old.owners ≡ 0 }
    requires right { first.old.rights ≡ 1 }
    requires heavy { first.old.weight ≡ whole }
    ensures own { first.new.table ≡ counts.now }
    ensures idle { first.new.owners ≡ 0 }
    ensures right { OnOk result (first.new.rights ≡ 1) }
    ensures heavy { OnOk result (first.new.weight ≡ whole) }
{
    let mut one = claimed(counts, first, 0)?;
    counts.add(&mut one)?;
    let other = counts.split(&mut one, 0);
    let ((one, a), (other, b)) = join(rt, || give_up(one, counts), || give_up(other, counts));
    counts.join(first, one);
    counts.join(first, other);
    Ok(a as u32 + b as u32)
}

#[test]
fn of_two_drops_at_once_one_is_the_last(rt: HostRuntime) -> Result<(), Fail> {
    let (counts, mut first) = Counts::new(rt.alloc(), 1)?;
    for _ in 0..ROUNDS {
        let lasts = live_once(&rt, &counts, &mut first)?;
        assert!(rt; lasts == 1);
    }
    Ok(())
}
