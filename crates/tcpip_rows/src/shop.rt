//! What the threads share, how it is opened and how it is closed.
ghost use Rattle.std.specs.Prelude.{◌≡◌, ◌+◌, ◌<◌, ◌^◌, [], All, true, false, length, IfOk};
ghost use Rattle.hist_lock.specs.Histories.{Legal};
ghost use Rattle.hist_lock.specs.Callers.{IsCallerOf, IsAll};
ghost use Rattle.lw_tcpip.specs.Tokens.{IsLineOf, IsServerOf};
ghost use Rattle.tcpip_rows.specs.Additions.{IsAddition};
ghost use Rattle.tcpip_rows.specs.Workers.{IsServing, HasServed, IsReady, IsDone};

use crate::counter::{Addition, Counter};
use crate::worker::{Clerk, Worker};
use hist_lock::{Caller, HistLock};
use lw_tcpip::{Line, Server, Tcpip};
use std::alloc::{AllocError, Global};
use std::sync::atomic::AtomicBool;

/// What the threads share.
#[derive(Drop)]
pub struct Shop {
    pub lock: HistLock<Counter>,
    pub tcpip: Tcpip<Counter>,
    pub quit: AtomicBool,
}

// The workers that call by message, one for each line, and then so many that call themselves.
fn line_up(
    alloc: Global,
    shop: &Shop,
    mut first: Caller<Counter>,
    lines: Vec<Line<Counter>>,
    callers: u32,
) -> Result<(Caller<Counter>, Vec<Worker>), AllocError>
    requires lock { shop.now.tcpip.key.lock.value ≡ shop.now.lock }
    requires first { IsCallerOf shop.now.lock first × (first.number ≡ 0) × (first.splits ≡ 1) }
    requires lines { All (λ l. IsLineOf shop.now.tcpip l × (l.left ≡ false)) lines.items }
    requires few { length lines.items + callers + 1 < 2 ^ 32 }
    ensures first { IfOk result (λ r. IsCallerOf shop.now.lock r.0 × (r.0.number ≡ 0) × (r.0.splits ≡ length r.1.items + 1)) }
    ensures workers { IfOk result (λ r. All (IsReady shop.now.tcpip) r.1.items) }
{
    let mut workers = Vec::new(alloc);
    for line in lines {
        let (again, who) = shop.lock.split(first);
        first = again;
        workers.push(Worker::Asks(line, who))?;
    }
    for index in 0..callers {
        let (again, who) = shop.lock.split(first);
        first = again;
        workers.push(Worker::Calls(who))?;
    }
    Ok((first, workers))
}

/// A shop with its first caller, who serves, and the workers: so many that call by message, through a mailbox of so many places, and so many that call themselves.
pub fn open(
    alloc: Global,
    places: u32,
    askers: u32,
    callers: u32,
) -> Result<(Shop, Caller<Counter>, Clerk, Vec<Worker>), AllocError>
    requires some { (0 < places) × (0 < askers) }
    requires few { askers + callers + 1 < 2 ^ 32 }
    ensures lock { IfOk result (λ r. r.0.tcpip.key.lock.value ≡ r.0.lock) }
    ensures first { IfOk result (λ r. IsCallerOf r.0.lock r.1 × (r.1.number ≡ 0) × (r.1.splits ≡ length r.3.items + 1)) }
    ensures clerk { IfOk result (λ r. IsServing r.0.tcpip r.2) }
    ensures workers { IfOk result (λ r. All (IsReady r.0.tcpip) r.3.items) }
{
    let Ok((lock, first)) = HistLock::new(alloc, Counter { total: 0 }) else {
        return Err(AllocError);
    };
    let (tcpip, server, lines) = Tcpip::new(alloc, &lock, 1, places, askers)?;
    let (first, who) = lock.split(first);
    let shop = Shop {
        lock,
        tcpip,
        quit: AtomicBool::new(false),
    };
    let (first, workers) = line_up(alloc, &shop, first, lines, callers)?;
    Ok((shop, first, Clerk { server, who }, workers))
}

// The caller of a worker, whose line is gathered.
fn put_back(tcpip: &Tcpip<Counter>, server: &mut Server<Counter>, worker: Worker) -> Caller<Counter>
    requires server { IsServerOf tcpip.now server.old × (server.old.ended ≡ true) }
    requires worker { IsDone tcpip.now worker }
    ensures server { server.new ≡ server.old }
    ensures own { IsCallerOf tcpip.now.key.lock.value result }
{
    match worker {
        Worker::Asks(line, who) => {
            tcpip.gather(server, line);
            who
        }
        Worker::Calls(who) => who,
    }
}

/// The number and its history, once the work is done.
pub fn close(
    alloc: Global,
    shop: Shop,
    first: Caller<Counter>,
    clerk: Clerk,
    workers: Vec<Worker>,
) -> Result<(u64, Vec<Addition>), AllocError>
    requires lock { shop.tcpip.key.lock.value ≡ shop.lock }
    requires first { IsCallerOf shop.lock first × (first.number ≡ 0) × (first.splits ≡ length workers.items + 1) }
    requires clerk { HasServed shop.tcpip clerk }
    requires workers { All (IsDone shop.tcpip) workers.items }
    ensures legal { IfOk result (λ r. Legal IsAddition shop.lock.start.total r.1.items r.0) }
    ensures entries { IfOk result (λ r. All (λ e. e.by < length workers.items + 2) r.1.items) }
{
    let Clerk { mut server, who } = clerk;
    let mut callers = Vec::new(alloc);
    callers.push(first)?;
    callers.push(who)?;
    for worker in workers {
        callers.push(put_back(&shop.tcpip, &mut server, worker))?;
    }
    let Shop {
        lock,
        tcpip: _,
        quit: _,
    } = shop;
    let (counter, history) = lock.close(callers);
    Ok((counter.total, history))
}
