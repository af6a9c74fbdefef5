//! Two threads at one lock.
ghost use Rattle.std.specs.Prelude.{◌≡◌, ℕ, ◌+◌, ◌%◌, ◌^◌, refl};
ghost use Rattle.std.specs.Thread.{IsSync};
ghost use Rattle.hist_lock.specs.Callers.{IsCallerOf, IsSameCaller};

use crate::{Caller, HistLock, Serial};
use std::alloc::{AllocError, Global};
use std::sync::Wait;
use std::test::Fail;
use std::thread::{Threads, join};

const CALLS: u64 = 1_000;

#[derive(Drop)]
struct Counter {
    total: u64,
}

#[derive(Drop)]
struct Addition {
    by: u32,
    amount: u64,
}

impl Serial for Counter {
    type Ev = u64;

    type Reply = u64;

    type Entry = Addition;

    ghost State = { ℕ };

    ghost Tag = { Unit {0} };

    ghost state = { λ c. c.total };

    ghost tag = { λ _. tt };

    ghost fits = { λ _ _. Unit {0} };

    ghost by = { λ e. e.by };

    ghost same = { λ amount back. back ≡ amount };

    ghost tells = { λ _ e amount _. e.amount ≡ amount };

    ghost steps = { λ before e after. after ≡ (before + e.amount) % 2 ^ 64 };

    ghost itself = { λ _. refl };

    fn step(&mut self, actor: u32, ev: u64) -> Result<(Addition, u64), (AllocError, u64)> {
        self.total = self.total.wrapping_add(ev);
        let entry = Addition {
            by: actor,
            amount: ev,
        };
        Ok((entry, self.total))
    }
}

// Adds 1 as often as is said, but for calls that find no memory.
fn add<R: Wait>(
    rt: &R,
    lock: &HistLock<Counter>,
    mut who: Caller<Counter>,
    calls: u64,
) -> Caller<Counter>
    requires { IsCallerOf lock.now who }
    ensures { IsSameCaller who result }
{
    for _ in 0..calls {
        let _ = lock.call(rt, &mut who, 1);
    }
    who
}

fn add_in_two_threads<R: Threads + Wait + Sync>(
    rt: &R,
    alloc: Global,
) -> Result<(u64, usize), AllocError> {
    let Ok((lock, first)) = HistLock::new(alloc, Counter { total: 0 }) else {
        return Err(AllocError);
    };
    let (first, second) = lock.split(first);
    let mut callers = Vec::with_capacity(alloc, 2)?;
    let (first, second) = join(
        rt,
        || -> Caller<Counter>
            requires { IsSync R.row × IsCallerOf lock first }
            ensures { IsSameCaller first result }
        { add(rt, &lock, first, CALLS) },
        || -> Caller<Counter>
            requires { IsSync R.row × IsCallerOf lock second }
            ensures { IsSameCaller second result }
        { add(rt, &lock, second, CALLS) },
    );
    callers.push(first)?;
    callers.push(second)?;
    let (counter, history) = lock.close(callers);
    Ok((counter.total, history.len()))
}

#[test]
fn each_call_of_two_threads_is_in_the_history(rt: HostRuntime) -> Result<(), Fail> {
    assert_eq!(rt; add_in_two_threads(&rt, rt.alloc())?, (2 * CALLS, 2_000));
    Ok(())
}
