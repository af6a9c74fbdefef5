//! One poster and its takers at an `ArrayQueue`.
ghost use Rattle.std.specs.Prelude.{◌<◌};
ghost use Rattle.std.specs.Thread.{IsSync};

use crate::PLACES;
use crossbeam_queue::ArrayQueue;
use std::alloc::Global;
use std::io;
use std::rt::Clock;
use std::sync::Wait;
use std::thread::{Threads, for_each_mut, yield_now};
use std::time::Instant;

// What tells one taker that it is done.
const END: u32 = u32::MAX;

// Pushes the item as soon as there is room.
fn push_soon<R: Wait>(rt: &R, queue: &ArrayQueue<u32>, item: u32) {
    for _ in rt.forever() {
        if queue.push(rt, item).is_ok() {
            return;
        }
        yield_now();
    }
}

// Pushes so many items, and an end for each taker.
fn push_all<R: Wait>(rt: &R, queue: &ArrayQueue<u32>, takers: u32, items: u32) {
    for item in 0..items {
        push_soon(rt, queue, item);
    }
    for _ in 0..takers {
        push_soon(rt, queue, END);
    }
}

// How many items were popped before an end.
fn pop_all<R: Wait>(rt: &R, queue: &ArrayQueue<u32>) -> u32 {
    let mut taken = 0u32;
    for _ in rt.forever() {
        match queue.pop(rt) {
            Some(END) => return taken,
            Some(_) => taken = taken.saturating_add(1),
            None => yield_now(),
        }
    }
    taken
}

/// The nanoseconds until all items were popped, and how many that were.
pub fn time_items<R: Threads + Wait + Clock + Sync>(
    rt: &R,
    alloc: Global,
    takers: u32,
    items: u32,
) -> io::Result<(u128, u32)>
    requires { takers < 256 }
{
    let queue = ArrayQueue::new(alloc, PLACES as usize)?;
    let mut taken = Vec::from_elem(alloc, 0u32, takers as usize + 1)?;
    let start = Instant::now(rt)?;
    for_each_mut(
        rt,
        taken.as_mut_slice(),
        takers as usize + 1,
        &|index: usize, taken: &mut u32|
            requires { IsSync R.row }
        {
            match index {
                0 => push_all(rt, &queue, takers, items),
                _ => *taken = pop_all(rt, &queue),
            }
        },
    );
    let spent = start.elapsed(rt)?;
    let sum = taken.iter().fold(0u32, |sum, n| sum.saturating_add(*n));
    Ok((spent.as_nanos(), sum))
}
