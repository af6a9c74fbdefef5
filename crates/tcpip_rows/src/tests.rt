//! A history that callers of both ways made, and a mailbox that is full.
ghost use Rattle.std.specs.Prelude.{◌≡◌, false};
ghost use Rattle.hist_lock.specs.Callers.{IsCallerOf};
ghost use Rattle.lw_tcpip.specs.Tokens.{IsLineOf};
ghost use Rattle.tcpip_rows.specs.Workers.{IsReady};

use crate::{Addition, Counter, Shop, Worker, close, open, work};
use lw_tcpip::Line;
use std::alloc::{AllocError, Global};
use std::sync::Wait;
use std::test::Fail;
use std::thread::Threads;

const CALLS: u64 = 1_000;

// Four callers by message, the numbers 2 to 5, and one that calls itself, the number 6.
fn both_ways<R: Threads + Wait + Sync>(
    rt: &R,
    alloc: Global,
) -> Result<(u64, Vec<Addition>), AllocError> {
    let (shop, first, clerk, workers) = open(alloc, 64, 4, 1)?;
    let (clerk, workers) = work(rt, &shop, CALLS, clerk, workers);
    close(alloc, shop, first, clerk, workers?)
}

// Whether this caller added 0, 1, 2 and so on, so many times.
fn is_in_order(log: &[Addition], by: u32, calls: u64) -> bool {
    let mut next = 0u64;
    for entry in log {
        if entry.by == by {
            if entry.amount != next {
                return false;
            }
            next = next.saturating_add(1);
        }
    }
    next == calls
}

#[test]
fn each_call_of_both_ways_is_in_the_history(rt: HostRuntime) -> Result<(), Fail> {
    let (total, log) = both_ways(&rt, rt.alloc())?;
    assert_eq!(rt; (total, log.len()), (5 * 499_500, 5_000));
    for by in 2..7 {
        assert!(rt; is_in_order(log.as_slice(), by, CALLS));
    }
    Ok(())
}

// The code of the refusal of a frame, and which frame came back.
fn input<R: Wait>(rt: &R, shop: &Shop, line: &mut Line<Counter>, frame: u64) -> Option<(u32, u64)>
    requires lock { shop.now.tcpip.key.lock.value ≡ shop.now.lock }
    requires line { IsLineOf shop.now.tcpip line.old × (line.old.left ≡ false) × (line.old.number ≡ 0) }
    ensures line { IsLineOf shop.now.tcpip line.new × (line.new.left ≡ false) × (line.new.number ≡ 0) }
{
    match shop.tcpip.input(rt, line, frame) {
        Ok(()) => None,
        Err((fault, back)) => Some((fault.code(), back)),
    }
}

// What three frames of the first line brought.
fn input_three<R: Wait>(rt: &R, shop: &Shop, worker: Worker) -> (Worker, [Option<(u32, u64)>; 3])
    requires lock { shop.now.tcpip.key.lock.value ≡ shop.now.lock }
    requires ready { IsReady shop.now.tcpip worker }
    ensures { IsReady shop.now.tcpip result.0 }
{
    match worker {
        Worker::Asks(mut line, who) => {
            let mut refused = [None; 3];
            if line.number() == 0 {
                for index in 0..3 {
                    refused[index] = input(rt, shop, &mut line, 10 + index as u64);
                }
            }
            (Worker::Asks(line, who), refused)
        }
        Worker::Calls(who) => (Worker::Calls(who), [None; 3]),
    }
}

// Three frames at a mailbox of two places, before anyone serves; and the history of these and of one call by message.
fn past_two_places<R: Threads + Wait + Sync>(
    rt: &R,
    alloc: Global,
) -> Result<([Option<(u32, u64)>; 3], Vec<Addition>), AllocError> {
    let (shop, first, clerk, mut workers) = open(alloc, 2, 1, 0)?;
    let Some(worker) = workers.pop() else {
        return Err(AllocError);
    };
    let (worker, refused) = input_three(rt, &shop, worker);
    workers.push(worker)?;
    let (clerk, workers) = work(rt, &shop, 1, clerk, workers);
    let (_, log) = close(alloc, shop, first, clerk, workers?)?;
    Ok((refused, log))
}

#[test]
fn a_full_mailbox_loses_no_frame(rt: HostRuntime) -> Result<(), Fail> {
    let (refused, log) = past_two_places(&rt, rt.alloc())?;
    assert_eq!(rt; refused, [None, None, Some((1, 12))]);
    let made: Vec<(u32, u64)> = log.iter().map(|e| (e.by, e.amount)).collect(rt.alloc())?;
    assert_eq!(rt; made.as_slice(), [(1, 10), (1, 11), (2, 0)].as_slice());
    Ok(())
}
