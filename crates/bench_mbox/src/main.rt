//! Times one poster and its takers at a ticketed mailbox, and at an `ArrayQueue`. The words are how many takers, and how many items;
//! it prints the nanoseconds at the mailbox and those at the queue. Without words it makes a small run of each, and prints `ok` where each item came once.
#![tactic(auto)]

mod queue;
mod ticketed;

use std::{env, io};

// So many items wait at most.
const PLACES: u32 = 256;

fn main(rt: HostRuntime) -> io::Result<()> {
    let words: Vec<String> = env::args(&rt)?.collect(rt.alloc())?;
    match words.as_slice() {
        [_, takers, items] => match (
            takers.as_str().parse::<u32>(),
            items.as_str().parse::<u32>(),
        ) {
            (Ok(takers), Ok(items)) if takers > 0 && takers < 256 => {
                let ours = ticketed::time_items(&rt, rt.alloc(), takers, items)?;
                let theirs = queue::time_items(&rt, rt.alloc(), takers, items)?;
                println!(rt; "{} {}", ours.0, theirs.0)
            }
            _ => println!(rt; "two numbers, the first from 1 to 255"),
        },
        _ => {
            let ours = ticketed::time_items(&rt, rt.alloc(), 2, 5_000)?;
            let theirs = queue::time_items(&rt, rt.alloc(), 2, 5_000)?;
            let said = if ours.1 == 5_000 && theirs.1 == 5_000 {
                "ok"
            } else {
                "items are missing"
            };
            println!(rt; "{said}")
        }
    }
}
