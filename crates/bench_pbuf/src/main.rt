//! Times chains of three pbufs of POOL: each is made, shared, cut and given up. The words are `kept` or `atomic`, for the counts of POOL, and how many
//! chains; it prints the nanoseconds, and how many pbufs ended. Without words it makes one chain with each kind of counts, and prints `ok` where all its pbufs ended.
#![tactic(auto)]

ghost use Rattle.std.specs.Prelude.{◌≡◌, ◌+◌, IsTrue, IfOk};
ghost use Rattle.lw_payload.specs.declared.kinds.Kind.{Kind};
ghost use Rattle.lw_pbuf.specs.Homes.{home_of};

mod rounds;

use lw_base::Limits;
use lw_pbuf::{Chain, PoolSeat};
use rounds::rounds;
use std::alloc::{AllocError, Global};
use std::rt::Clock;
use std::time::Instant;
use std::{env, io};

// So many octets a chain has.
const OCTETS: usize = 1_500;

// So many pbufs these octets take.
const PBUFS: u64 = 3;

const LIMITS: Limits = Limits {
    ram: 256,
    pool: 256,
    rom: 16,
    reference: 64,
    mailbox: 8,
    tcpip: 64,
    descriptors: 32,
    window: 5_840,
    live: 64,
    ends: 128,
    variables: 64,
};

// A seat that keeps POOL.
fn kept_seat(alloc: Global) -> Result<PoolSeat, AllocError>
    ensures makes { IfOk result (λ s. IsTrue ((home_of s).pools.makes Kind.Pool)) }
    ensures none { IfOk result (λ s. s.makes.made + s.makes.refused ≡ 0) }
{
    PoolSeat::new(alloc, &LIMITS, true)
}

// A seat whose counts of POOL are atomic, with the right to claim.
fn atomic_seat(alloc: Global) -> Result<PoolSeat, AllocError>
    ensures makes { IfOk result (λ s. IsTrue ((home_of s).pools.makes Kind.Pool)) }
    ensures none { IfOk result (λ s. s.makes.made + s.makes.refused ≡ 0) }
{
    PoolSeat::new(alloc, &LIMITS, false)
}

/// The nanoseconds that so many chains of the seat took, and how many pbufs ended.
fn time_chains<R: Clock>(
    rt: &R,
    alloc: Global,
    mut seat: PoolSeat,
    chains: u32,
) -> io::Result<(u128, u64)>
    requires makes { IsTrue ((home_of seat).pools.makes Kind.Pool) }
    requires none { seat.makes.made + seat.makes.refused ≡ 0 }
{
    let octets = vec![in alloc; 0xa5u8; OCTETS]?;
    let start = Instant::now(rt)?;
    let ended = rounds::<Chain>(alloc, &mut seat, &octets, chains);
    Ok((start.elapsed(rt)?.as_nanos(), ended))
}

fn main(rt: HostRuntime) -> io::Result<()> {
    let words: Vec<String> = env::args(&rt)?.collect(rt.alloc())?;
    match words.as_slice() {
        [_, counts, chains] => match (counts.as_str(), chains.as_str().parse::<u32>()) {
            ("kept", Ok(chains)) => {
                let seat = kept_seat(rt.alloc())?;
                let (nanos, ended) = time_chains(&rt, rt.alloc(), seat, chains)?;
                println!(rt; "{nanos} {ended}")
            }
            ("atomic", Ok(chains)) => {
                let seat = atomic_seat(rt.alloc())?;
                let (nanos, ended) = time_chains(&rt, rt.alloc(), seat, chains)?;
                println!(rt; "{nanos} {ended}")
            }
            _ => println!(rt; "`kept` or `atomic`, and a number"),
        },
        _ => {
            let kept = time_chains(&rt, rt.alloc(), kept_seat(rt.alloc())?, 1)?;
            let atomic = time_chains(&rt, rt.alloc(), atomic_seat(rt.alloc())?, 1)?;
            let said = if kept.1 == PBUFS && atomic.1 == PBUFS {
                "ok"
            } else {
                "pbufs are left"
            };
            println!(rt; "{said}")
        }
    }
}
