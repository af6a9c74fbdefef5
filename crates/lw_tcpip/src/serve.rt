//! The tcpip thread.
ghost use Rattle.std.specs.Prelude.{◌≡◌, ◌+◌, ◌<◌, ◌≤◌, ◌++◌, ◌∷◌, [], true, false, not, ◌||◌, length, IfOk, IfErr, OnOk, OnErr};
ghost use Rattle.hist_lock.specs.Callers.{IsCallerOf, IsSameCaller};
ghost use Rattle.tcpip_mbox.specs.Tokens.{letter, IsOf};
ghost use Rattle.lw_tcpip.specs.Tasks.{frames_of};
ghost use Rattle.lw_tcpip.specs.Replies.{Each, IsMadeOf};
ghost use Rattle.lw_tcpip.specs.Tokens.{IsServerOf};

use crate::desk::{all_left, give, leave};
use crate::gate::{Gate, Place};
use crate::message::Task;
use crate::reply::Reply;
use crate::server::Server;
use crate::tcpip::Tcpip;
use crate::turn::{make_call, make_frame};
use hist_lock::{Caller, HistLock, Serial};
use std::alloc::AllocError;
use std::sync::Wait;
use std::sync::atomic::{AtomicBool, Ordering};

impl<O: Serial> Tcpip<O>
where
    O::Ev: Drop,
    O::Reply: Drop,
{
    /// The tcpip thread: makes the events of frames with its own caller and those of questions with theirs, in the order in which the mailbox gives them,
    /// until every line has left. A frame for which there is no memory is given up, `quit` is set, and the answer at the end is want of memory.
    pub fn serve<R: Wait, G: Gate>(
        &self,
        rt: &R,
        lock: &HistLock<O>,
        server: &mut Server<O>,
        mut who: Caller<O>,
        quit: &AtomicBool,
        gate: &G,
    ) -> (Caller<O>, Result<(), AllocError>)
        requires lock { self.now.key.lock.value ≡ lock.now }
        requires server { IsServerOf self.now server.old }
        requires own { IsCallerOf lock.now who × (who.number ≡ self.now.key.server) }
        requires fresh { (who.mine ≡ []) × (server.old.taken ≡ []) × (server.old.lost ≡ false) }
        ensures server { IsServerOf self.now server.new }
        ensures back { IsSameCaller who result.0 }
        ensures frames { IfOk result.1 (λ _. Each (O.tells (O.tag lock.now.start)) result.0.mine server.new.taken) }
        ensures lost { IfErr result.1 (λ _. length result.0.mine < length server.new.taken) }
        ensures ended { server.new.ended ≡ true }
    {
        for _ in rt.forever() {
            if server.ended {
                return (who, outcome(server.lost));
            }
            self.turn(rt, lock, server, &mut who, quit, gate);
        }
        unreachable!()
    }

    // Waits for a message, takes it, and makes its event.
    fn turn<R: Wait, G: Gate>(
        &self,
        rt: &R,
        lock: &HistLock<O>,
        server: &mut Server<O>,
        who: &mut Caller<O>,
        quit: &AtomicBool,
        gate: &G,
    )
        requires lock { self.now.key.lock.value ≡ lock.now }
        requires server { IsServerOf self.now server.old }
        requires own { IsCallerOf lock.now who.old × (who.old.number ≡ self.now.key.server) }
        requires made { IsMadeOf (O.tells (O.tag lock.now.start)) who.old.mine server.old.taken server.old.lost }
        ensures server { IsServerOf self.now server.new }
        ensures same { IsSameCaller who.old who.new }
        ensures made { IsMadeOf (O.tells (O.tag lock.now.start)) who.new.mine server.new.taken server.new.lost }
    {
        match self.mbox.fetch(rt, &mut server.get) {
            Task::Frame(frame) => {
                gate.pass(who.number(), 0, Place::Served);
                let made = make_frame(rt, lock, who, quit, frame);
                server.lost = server.lost | !made;
            }
            Task::Call(line, caller, event) => {
                gate.pass(caller.number(), 0, Place::Served);
                let (caller, result) = make_call(rt, lock, who, caller, event);
                let note = self.mbox.note(&mut server.get);
                let lost = server.lost;
                let reply = Reply {
                    caller,
                    result,
                    lost,
                    note,
                };
                give(rt, &mut server.seats, line, reply);
            }
            Task::Leave(line) => {
                leave(&mut server.seats, line);
                server.ended = all_left(&server.seats);
            }
        }
    }
}

// What the thread answers at its end.
fn outcome(lost: bool) -> Result<(), AllocError>
    ensures ok { OnOk result (lost ≡ false) }
    ensures err { OnErr result (lost ≡ true) }
{
    if lost { Err(AllocError) } else { Ok(()) }
}
