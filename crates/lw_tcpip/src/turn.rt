//! The events of one turn of the tcpip thread.
ghost use Rattle.std.specs.Prelude.{◌≡◌, MatchBool};
ghost use Rattle.hist_lock.specs.Histories.{made_by};
ghost use Rattle.hist_lock.specs.Callers.{IsCallerOf, IsSameCaller};
ghost use Rattle.lw_tcpip.specs.Replies.{AddsEntry, IsAnswer};

use hist_lock::{Caller, HistLock, Serial};
use std::alloc::AllocError;
use std::sync::Wait;
use std::sync::atomic::{AtomicBool, Ordering};

/// Makes the event of a frame. It says whether there was memory for it; else the frame is given up and `quit` set.
pub(crate) fn make_frame<O: Serial, R: Wait>(
    rt: &R,
    lock: &HistLock<O>,
    who: &mut Caller<O>,
    quit: &AtomicBool,
    frame: O::Ev,
) -> bool
where
    O::Ev: Drop,
    O::Reply: Drop,
    requires own { IsCallerOf lock.now who.old }
    requires fits { O.fits (O.tag lock.now.start) frame }
    ensures same { IsSameCaller who.old who.new }
    ensures made { MatchBool result (AddsEntry (O.tells (O.tag lock.now.start)) who.old.mine frame who.new.mine) (who.new.mine ≡ who.old.mine) }
{
    match lock.call(rt, who, frame) {
        Ok(_reply) => true,
        Err((AllocError, _frame)) => {
            quit.store(true, Ordering::SeqCst);
            false
        }
    }
}

/// Makes an event for its caller. The caller first learns what the server has seen, and then the server what the caller has.
pub(crate) fn make_call<O: Serial, R: Wait>(
    rt: &R,
    lock: &HistLock<O>,
    server: &mut Caller<O>,
    mut caller: Caller<O>,
    event: O::Ev,
) -> (Caller<O>, Result<O::Reply, (AllocError, O::Ev)>)
    requires own { IsCallerOf lock.now server.old }
    requires caller { IsCallerOf lock.now caller }
    requires fits { O.fits (O.tag lock.now.start) event }
    ensures server { IsSameCaller server.old server.new × (server.new.mine ≡ server.old.mine) }
    ensures answer { IsAnswer O.state O.tag O.by O.same O.tells O.steps lock.now.start caller event result.0 result.1 }
    ensures heard { made_by O.by server.old.number result.0.seen ≡ server.old.mine }
{
    lock.learn(&mut caller, server);
    let result = lock.call(rt, &mut caller, event);
    lock.learn(server, &mut caller);
    (caller, result)
}
