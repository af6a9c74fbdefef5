//! A chain from its make to its end, and chains that two threads give up at once.
ghost use Rattle.std.specs.Prelude.{◌≡◌, ◌+◌, ◌-◌, ◌<◌, ◌^◌, length, IfOk, OnOk};
ghost use Rattle.lw_pbuf.specs.Chains.{IsOf};
ghost use Rattle.pbuf_seats.specs.Kept.{counts_of};
ghost use Rattle.lw_payload.specs.declared.kinds.Kind.{Kind};

use crate::{Chain, PoolSeat, pbuf_alloc, pbuf_free, pbuf_ref};
use lw_base::Limits;
use lw_payload::Kind;
use std::alloc::Global;
use std::test::Fail;
use std::thread::join;

const ROUNDS: u32 = 100;

const LIMITS: Limits = Limits {
    ram: 4,
    pool: 8,
    rom: 4,
    reference: 4,
    mailbox: 8,
    tcpip: 64,
    descriptors: 32,
    window: 5840,
    live: 64,
    ends: 128,
    variables: 64,
};

// Frees a chain, and answers how many lives of pbufs ended by it.
fn give_up(mut seat: PoolSeat, c: Chain) -> (PoolSeat, u32)
    requires { IsOf seat c }
    ensures table { result.0.holder.table ≡ seat.holder.table }
    ensures none_kept { ((k : Kind) → length (counts_of k seat.kept) ≡ 0) → (k : Kind) → length (counts_of k result.0.kept) ≡ 0 }
{
    let ended = pbuf_free(c, &mut seat);
    (seat, ended)
}

// Makes a chain of POOL and shares it. Each seat may give up either of the two.
fn make_two(
    alloc: Global,
    core: &PoolSeat,
    feeder: &mut PoolSeat,
    octets: &[u8],
) -> Result<(Chain, Chain), Fail>
    requires table { core.now.holder.table ≡ feeder.old.holder.table }
    requires right { feeder.old.holder.rights ≡ 1 }
    requires none_kept { (k : Kind) → length (counts_of k feeder.old.kept) ≡ 0 }
    requires countable { feeder.old.makes.made + feeder.old.makes.refused < 2 ^ 64 - 1 }
    requires settled { feeder.old.claimed ≡ 0 }
    ensures first { IfOk result (λ r. IsOf feeder.new r.0) }
    ensures second { IfOk result (λ r. IsOf core.now r.1) }
    ensures table { OnOk result (feeder.new.holder.table ≡ feeder.old.holder.table) }
    ensures none_kept { OnOk result ((k : Kind) → length (counts_of k feeder.new.kept) ≡ 0) }
{
    let mut first = pbuf_alloc(alloc, feeder, Kind::Pool, octets)?;
    let second = pbuf_ref(&mut first, feeder)?;
    Ok((first, second))
}

#[test]
fn each_life_ends_in_one_of_two_threads(rt: HostRuntime) -> Result<(), Fail> {
    let octets = vec![in rt.alloc(); 7u8; 1_200]?;
    for _ in 0..ROUNDS {
        let mut core = PoolSeat::new(rt.alloc(), &LIMITS, false)?;
        let mut feeder = core.split(rt.alloc(), true)?;
        let (first, second) = make_two(rt.alloc(), &core, &mut feeder, &octets)?;
        let ((mut core, a), (feeder, b)) = join(
            &rt,
            || give_up(core, second),
            || give_up(feeder, first),
        );
        assert!(rt; a.saturating_add(b) == 3);
        core.join(feeder);
        assert!(rt; core.free().pool == 8);
    }
    Ok(())
}

#[test]
fn a_chain_is_made_cut_read_and_given_up(rt: HostRuntime) -> Result<(), Fail> {
    let mut seat = PoolSeat::new(rt.alloc(), &LIMITS, true)?;
    let mut chain = pbuf_alloc(rt.alloc(), &mut seat, Kind::Ram, b"octets")?;
    chain.header(&mut seat, 2);
    chain.cut_back(&mut seat, 1);
    let mut out = [0u8; 2];
    chain.copy_at(1, &mut out);
    assert!(rt; out[0] == b'e');
    assert!(rt; out[1] == b't');
    assert!(rt; pbuf_free(chain, &mut seat) == 1);
    Ok(())
}
