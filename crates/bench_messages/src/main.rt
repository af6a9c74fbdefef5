//! Times round trips by message: callers in threads send their events to the tcpip thread and wait for its replies. The words are how many callers, and how many
//! calls each makes; it prints nanoseconds. Without words it makes a small run, and prints `ok`. Where the history does not have an entry for each call, it prints `no memory` in place of either.
#![tactic(auto)]

ghost use Rattle.std.specs.Prelude.{◌<◌, ◌^◌};

use std::alloc::Global;
use std::rt::Clock;
use std::sync::Wait;
use std::thread::Threads;
use std::time::Instant;
use std::{env, io};
use tcpip_rows::{close, open, work};

// So many messages wait at most.
const PLACES: u32 = 64;

/// The nanoseconds that the calls took, where the history then has as many entries as there were calls.
fn time_calls<R: Threads + Wait + Clock + Sync>(
    rt: &R,
    alloc: Global,
    callers: u32,
    calls: u64,
) -> io::Result<Option<u128>>
    requires { (0 < callers) × (callers < 2 ^ 16) }
{
    let (shop, first, clerk, workers) = open(alloc, PLACES, callers, 0)?;
    let start = Instant::now(rt)?;
    let (clerk, workers) = work(rt, &shop, calls, clerk, workers);
    let spent = start.elapsed(rt)?;
    let (_, history) = close(alloc, shop, first, clerk, workers?)?;
    match u64::from(callers).checked_mul(calls) {
        Some(all) if all == history.len() as u64 => Ok(Some(spent.as_nanos())),
        _ => Ok(None),
    }
}

fn main(rt: HostRuntime) -> io::Result<()> {
    let words: Vec<String> = env::args(&rt)?.collect(rt.alloc())?;
    match words.as_slice() {
        [_, callers, calls] => match (
            callers.as_str().parse::<u32>(),
            calls.as_str().parse::<u64>(),
        ) {
            (Ok(callers), Ok(calls)) if callers > 0 && callers < 65_536 => {
                match time_calls(&rt, rt.alloc(), callers, calls)? {
                    Some(nanoseconds) => println!(rt; "{nanoseconds}"),
                    None => println!(rt; "no memory"),
                }
            }
            _ => println!(rt; "two numbers, the first from 1 to 65535"),
        },
        _ => match time_calls(&rt, rt.alloc(), 2, 500)? {
            Some(_) => println!(rt; "ok"),
            None => println!(rt; "no memory"),
        },
    }
}
