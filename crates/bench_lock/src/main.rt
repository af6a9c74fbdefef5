//! Times the calls of threads at one lock with a history. The words are how many threads, and how many calls each makes; it prints nanoseconds.
//! Without words it makes a small run, and prints `ok`. Where the history does not have an entry for each call, it prints `no memory` in place of either.
#![tactic(auto)]

ghost use Rattle.std.specs.Prelude.{◌≡◌, ◌<◌, All, IfOk};
ghost use Rattle.std.specs.Thread.{IsSync};
ghost use Rattle.hist_lock.specs.Callers.{IsCallerOf};

mod counter;

use counter::Counter;
use hist_lock::{Caller, HistLock};
use std::alloc::{AllocError, Global};
use std::rt::Clock;
use std::sync::Wait;
use std::thread::{Threads, for_each_mut};
use std::time::Instant;
use std::{env, io};

/// The first caller, and one more for each thread.
fn line_up(
    alloc: Global,
    lock: &HistLock<Counter>,
    mut first: Caller<Counter>,
    threads: u32,
) -> Result<(Caller<Counter>, Vec<Caller<Counter>>), AllocError>
    requires own { IsCallerOf lock.now first }
    requires first { (first.number ≡ 0) × (first.splits ≡ 0) }
    ensures { IfOk result (λ r. IsCallerOf lock.now r.0 × All (IsCallerOf lock.now) r.1.items) }
{
    let mut workers = Vec::new(alloc);
    for index in 0..threads {
        let (again, worker) = lock.split(first);
        first = again;
        workers.push(worker)?;
    }
    Ok((first, workers))
}

/// Makes so many calls, each of which adds 1 to the counter.
fn call_often<R: Wait>(rt: &R, lock: &HistLock<Counter>, who: &mut Caller<Counter>, calls: u64)
    requires { IsCallerOf lock.now who.old }
{
    for _ in 0..calls {
        let _ = lock.call(rt, who, 1);
    }
}

/// The nanoseconds that the calls took, where the history then has as many entries as there were calls.
fn time_calls<R: Threads + Wait + Clock + Sync>(
    rt: &R,
    alloc: Global,
    threads: u32,
    calls: u64,
) -> io::Result<Option<u128>>
    requires { 0 < threads }
{
    let Ok((lock, first)) = HistLock::new(alloc, Counter { total: 0 }) else {
        return Err(AllocError.into());
    };
    let (mut first, mut workers) = line_up(alloc, &lock, first, threads)?;
    let start = Instant::now(rt)?;
    for_each_mut(
        rt,
        workers.as_mut_slice(),
        threads as usize,
        &|_: usize, who: &mut Caller<Counter>|
            requires { IsSync R.row × IsCallerOf lock who.old }
        { call_often(rt, &lock, who, calls) },
    );
    let spent = start.elapsed(rt)?;
    match u64::from(threads).checked_mul(calls) {
        Some(all) if all == lock.front(&mut first) => Ok(Some(spent.as_nanos())),
        _ => Ok(None),
    }
}

fn main(rt: HostRuntime) -> io::Result<()> {
    let words: Vec<String> = env::args(&rt)?.collect(rt.alloc())?;
    match words.as_slice() {
        [_, threads, calls] => match (
            threads.as_str().parse::<u32>(),
            calls.as_str().parse::<u64>(),
        ) {
            (Ok(threads), Ok(calls)) if threads > 0 => {
                match time_calls(&rt, rt.alloc(), threads, calls)? {
                    Some(nanoseconds) => println!(rt; "{nanoseconds}"),
                    None => println!(rt; "no memory"),
                }
            }
            _ => println!(rt; "two numbers, the first above 0"),
        },
        _ => match time_calls(&rt, rt.alloc(), 2, 500)? {
            Some(_) => println!(rt; "ok"),
            None => println!(rt; "no memory"),
        },
    }
}
