//! Times steps of the stack alone: the frames of a capture are fed to it one after another, round after round, and what a step
//! gives is dropped. The words are `octets` or `chains`, for what the payloads are, the capture's name, and how many frames are
//! fed; it prints the nanoseconds, and how many frames went out. Without words it feeds one ARP request of each, and prints `ok`
//! where each was answered.
#![tactic(auto)]

ghost use Rattle.std.specs.Prelude.{◌≡◌, ◌+◌, [], IfOk, IsTrue};
ghost use Rattle.lw_payload.specs.declared.kinds.Kind.{Kind};
ghost use Rattle.lw_pbuf.specs.Homes.{home_of};
ghost use Rattle.lw_layers.specs.Claims.{MakesPayloads};
ghost use Rattle.lw_core.specs.Held.{held_by};

mod rounds;

use lw_base::{Ip, Limits, Mac, Octets};
use lw_boxes::ListBoxes;
use lw_core::Core;
use lw_netif::Netif;
use lw_payload::Payload;
use lw_pbuf::{Chain, PoolSeat};
use lw_pcap::read_capture;
use rounds::rounds;
use std::alloc::{AllocError, Global};
use std::rt::Clock;
use std::time::Instant;
use std::{env, fs, io};

const LIMITS: Limits = Limits {
    ram: 256,
    pool: 256,
    rom: 16,
    reference: 64,
    mailbox: 8,
    tcpip: 64,
    descriptors: 32,
    window: 5_840,
    live: 64,
    ends: 128,
    variables: 64,
};

/// An ARP request for the stack's address (RFC 826).
const REQUEST: [u8; 42] = [
    0xff, 0xff, 0xff, 0xff, 0xff, 0xff, 0x02, 0, 0, 0, 0, 2, 0x08, 0x06, 0, 1, 0x08, 0, 6, 4, 0, 1,
    0x02, 0, 0, 0, 0, 2, 10, 0, 0, 2, 0, 0, 0, 0, 0, 0, 10, 0, 0, 1,
];

/// A stack at 10.0.0.1.
fn stack<P: Payload>(alloc: Global) -> Result<Core<P>, AllocError>
    ensures held { IfOk result (λ c. held_by c ≡ []) }
    ensures none { IfOk result (λ c. c.state.endpoints.conns ≡ []) }
{
    let netif = Netif::new(
        Ip(0x0a00_0001),
        Ip(0xffff_ff00),
        Ip(0x0a00_00fe),
        Mac([0x02, 0, 0, 0, 0, 1]),
    );
    Core::new(alloc, netif, LIMITS)
}

/// A seat that keeps the pbufs of POOL.
fn seat(alloc: Global) -> Result<PoolSeat, AllocError>
    ensures makes { IfOk result (λ s. MakesPayloads (home_of s)) }
    ensures pool { IfOk result (λ s. IsTrue ((home_of s).pools.makes Kind.Pool)) }
    ensures none { IfOk result (λ s. s.makes.made + s.makes.refused ≡ 0) }
{
    PoolSeat::new(alloc, &LIMITS, true)
}

/// The nanoseconds that so many frames took, and how many went out.
fn time_frames<P: Payload, R: Clock>(
    rt: &R,
    alloc: Global,
    home: &mut P::Home,
    frames: &[Octets],
    count: u32,
) -> io::Result<(u128, u64)>
    requires makes { MakesPayloads (P.home_seen home.old) }
    requires pool { IsTrue ((P.home_seen home.old).pools.makes Kind.Pool) }
    requires none { (P.home_seen home.old).counts.made + (P.home_seen home.old).counts.refused ≡ 0 }
{
    let mut core = stack::<P>(alloc)?;
    let mut boxes = ListBoxes::<P>::new(alloc, LIMITS.mailbox);
    let start = Instant::now(rt)?;
    let sent = rounds(alloc, &mut core, home, &mut boxes, frames, count);
    Ok((start.elapsed(rt)?.as_nanos(), sent))
}

/// The frames of a capture; none where it can't be read.
fn frames_of(alloc: Global, capture: &[u8]) -> Vec<Octets> {
    match read_capture(alloc, capture) {
        Ok(capture) => capture.frames.into_vec(),
        Err(_) => Vec::new(alloc),
    }
}

fn main(rt: HostRuntime) -> io::Result<()> {
    let alloc = rt.alloc();
    let words: Vec<String> = env::args(&rt)?.collect(alloc)?;
    match words.as_slice() {
        [_, payloads, name, count] => {
            let capture = fs::read(&rt, name.as_str())?;
            let frames = frames_of(alloc, &capture);
            let count = count.as_str().parse::<u32>().unwrap_or(0);
            let (nanos, sent) = if payloads.as_str() == "chains" {
                time_frames::<Chain, _>(&rt, alloc, &mut seat(alloc)?, &frames, count)?
            } else {
                time_frames::<Vec<u8>, _>(&rt, alloc, &mut (), &frames, count)?
            };
            println!(rt; "{nanos} {sent}")
        }
        _ => {
            let frames = vec![in alloc; Octets::from_vec(Vec::from_slice(alloc, &REQUEST)?)]?;
            let octets = time_frames::<Vec<u8>, _>(&rt, alloc, &mut (), &frames, 1)?;
            let chains = time_frames::<Chain, _>(&rt, alloc, &mut seat(alloc)?, &frames, 1)?;
            let said = if octets.1 == 1 && chains.1 == 1 {
                "ok"
            } else {
                "a request isn't answered"
            };
            println!(rt; "{said}")
        }
    }
}
