//! What each thread does.
ghost use Rattle.std.specs.Prelude.{◌≡◌, [], false, true};
ghost use Rattle.hist_lock.specs.Callers.{IsCallerOf};
ghost use Rattle.lw_tcpip.specs.Tokens.{IsLineOf, IsServerOf};
ghost use Rattle.tcpip_rows.specs.Workers.{IsServing, HasServed, IsReady, IsDone};

use crate::counter::Counter;
use crate::shop::Shop;
use hist_lock::{Caller, HistLock};
use lw_tcpip::{Line, OpenGate, Server, Tcpip};
use std::sync::Wait;

/// Who serves, before the work and after it.
#[derive(Drop)]
pub struct Clerk {
    pub server: Server<Counter>,
    pub who: Caller<Counter>,
}

/// One of those who call, before the work and after it.
#[derive(Drop)]
pub enum Worker {
    /// By message.
    Asks(Line<Counter>, Caller<Counter>),
    /// Under the lock, itself.
    Calls(Caller<Counter>),
}

/// Serves until every line has left.
pub(crate) fn serve<R: Wait>(rt: &R, shop: &Shop, clerk: Clerk) -> Clerk
    requires lock { shop.now.tcpip.key.lock.value ≡ shop.now.lock }
    requires ready { IsServing shop.now.tcpip clerk }
    ensures { HasServed shop.now.tcpip result }
{
    let Clerk { mut server, who } = clerk;
    let (who, _outcome) = shop
        .tcpip
        .serve(rt, &shop.lock, &mut server, who, &shop.quit, &OpenGate);
    Clerk { server, who }
}

// Adds 0, 1, 2 and so on by message, but for calls that find no memory, and leaves.
fn ask<R: Wait>(
    rt: &R,
    tcpip: &Tcpip<Counter>,
    line: &mut Line<Counter>,
    mut who: Caller<Counter>,
    calls: u64,
) -> Caller<Counter>
    requires line { IsLineOf tcpip.now line.old × (line.old.left ≡ false) }
    requires own { IsCallerOf tcpip.now.key.lock.value who }
    ensures line { IsLineOf tcpip.now line.new }
    ensures own { IsCallerOf tcpip.now.key.lock.value result }
{
    for amount in 0..calls {
        let (again, _sum) = tcpip.apimsg(rt, line, who, amount);
        who = again;
    }
    tcpip.leave(rt, line);
    who
}

// Adds the same under the lock.
fn call<R: Wait>(rt: &R, lock: &HistLock<Counter>, who: &mut Caller<Counter>, calls: u64)
    requires { IsCallerOf lock.now who.old }
    ensures { IsCallerOf lock.now who.new }
{
    for amount in 0..calls {
        let _sum = lock.call(rt, who, amount);
    }
}

/// Makes so many calls.
pub(crate) fn make_calls<R: Wait>(rt: &R, shop: &Shop, calls: u64, worker: Worker) -> Worker
    requires lock { shop.now.tcpip.key.lock.value ≡ shop.now.lock }
    requires ready { IsReady shop.now.tcpip worker }
    ensures { IsDone shop.now.tcpip result }
{
    match worker {
        Worker::Asks(mut line, who) => {
            let who = ask(rt, &shop.tcpip, &mut line, who, calls);
            Worker::Asks(line, who)
        }
        Worker::Calls(mut who) => {
            call(rt, &shop.lock, &mut who, calls);
            Worker::Calls(who)
        }
    }
}
