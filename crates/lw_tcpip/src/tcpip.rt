//! Both ways to the object.
ghost use Rattle.std.specs.Prelude.{◌≡◌, ◌-◌, ◌+◌, ◌<◌, ◌≤◌, [], ◌∷◌, ◌++◌, true, false, length, Some, IfOk, IfErr, OnOk};
ghost use mathlib.Core.List.{IsPrefix};
ghost use Rattle.hist_lock.specs.Histories.{made_by};
ghost use Rattle.hist_lock.specs.Callers.{IsCallerOf, IsSameCaller, Extends, HasHistory};
ghost use Rattle.lw_tcpip.specs.Results.{counted, raised};
ghost use Rattle.lw_tcpip.specs.Replies.{IsMadeOf};
ghost use Rattle.lw_tcpip.specs.Tokens.{IsLineOf, IsServerOf};
ghost use Rattle.lw_tcpip.specs.declared.tcpip.InputFault.TheVariants.{MboxFull};

use crate::line::{Line, counted_after};
use crate::message::{Queue, Task};
use crate::reply::Reply;
use crate::server::Server;
use hist_lock::{Caller, HistLock, Serial};
use std::alloc::AllocError;
use std::marker::Model;
use std::sync::Wait;

/// How a caller makes its events.
#[derive(Clone, Copy, Debug, PartialEq, Eq)]
pub enum Way {
    /// Under the lock, itself.
    Direct,
    /// By a message to the tcpip thread.
    Message,
}

/// Why a frame was refused.
#[derive(Clone, Copy, Debug, PartialEq, Eq)]
pub enum InputFault {
    /// The mailbox was full at a moment of the call.
    MboxFull,
}

impl InputFault {
    /// Its number.
    pub fn code(self) -> u32
        ensures { result ≡ 1 }
    {
        match self {
            InputFault::MboxFull => 1,
        }
    }
}

/// The way to the object under a lock by messages, which threads share by reference. Contracts see the mailbox: which one it is, how many places it has,
/// the lock that is served, and the number of the caller that serves.
#[derive(Drop)]
pub struct Tcpip<O: Serial> {
    pub(crate) mbox: Queue<O>,
}

impl<O: Serial> Model for Tcpip<O> {
    ghost use Rattle.hist_lock.specs.Callers.{Begun};
    ghost use Rattle.tcpip_mbox.specs.Tokens.{Named};
    ghost use Rattle.lw_tcpip.specs.declared.message.Service.{Service};

    ghost Value = { Named (Service (Begun O)) };

    ghost view = { λ t. t.mbox };
}

impl<O: Serial> Tcpip<O> {
    /// Sends the caller and the event to the tcpip thread, waits for the answer, and hands both back. Where the mailbox is full it waits for a place.
    pub fn apimsg<R: Wait>(
        &self,
        rt: &R,
        line: &mut Line<O>,
        who: Caller<O>,
        ev: O::Ev,
    ) -> (Caller<O>, Result<O::Reply, (AllocError, O::Ev)>)
        requires line { IsLineOf self.now line.old }
        requires stays { line.old.left ≡ false }
        requires own { IsCallerOf self.now.key.lock.value who }
        requires fits { O.fits (O.tag self.now.key.lock.value.start) ev }
        ensures back { IsSameCaller who result.0 }
        ensures ok { IfOk result.1 (λ r. Extends O.by (O.tells (O.tag self.now.key.lock.value.start)) who ev r result.0) }
        ensures err { IfErr result.1 (λ r. O.same ev r.1 × IsPrefix who.seen result.0.seen × (result.0.mine ≡ who.mine)) }
        ensures history { HasHistory O.state O.by O.steps self.now.key.lock.value.start result.0 }
        ensures entries { line.new ≡ record line.old { entries = counted line.old.entries result.1; lost = line.new.lost } }
        ensures fed { line.old.number ≡ 0 → IsMadeOf (O.tells (O.tag self.now.key.lock.value.start)) (made_by O.by self.now.key.server result.0.seen) line.old.frames line.new.lost }
    {
        let number = line.put.number();
        self.mbox
            .post(rt, &mut line.put, Task::Call(number, who, ev));
        let reply = line.place.get(rt, &mut line.waits);
        let Reply {
            caller,
            result,
            lost,
            note,
        } = reply;
        self.mbox.meet(&mut line.put, note);
        line.lost = lost;
        line.entries = counted_after(line.entries, &result);
        (caller, result)
    }

    /// Puts a frame in, which comes back only where the mailbox was full at a moment of the call.
    pub fn input<R: Wait>(
        &self,
        rt: &R,
        line: &mut Line<O>,
        frame: O::Ev,
    ) -> Result<(), (InputFault, O::Ev)>
        requires line { IsLineOf self.now line.old }
        requires first { line.old.number ≡ 0 }
        requires stays { line.old.left ≡ false }
        requires fits { O.fits (O.tag self.now.key.lock.value.start) frame }
        ensures ok { OnOk result (line.new ≡ record line.old { frames = line.old.frames ++ frame ∷ [] }) }
        ensures err { IfErr result (λ r. (r.0 ≡ MboxFull) × (r.1 ≡ frame) × (line.new ≡ record line.old { refusals = raised line.old.refusals })) }
        ensures full { IfErr result (λ _. self.now.places ≤ length line.old.frames + line.old.others) }
    {
        match self.mbox.put(rt, &mut line.put, Task::Frame(frame)) {
            Ok(()) => Ok(()),
            Err(Task::Frame(frame)) => {
                line.refusals = line.refusals.saturating_add(1);
                Err((InputFault::MboxFull, frame))
            }
            Err(_) => unreachable!(),
        }
    }

    /// The last message of a line. Where the mailbox is full it waits for a place.
    pub fn leave<R: Wait>(&self, rt: &R, line: &mut Line<O>)
        requires line { IsLineOf self.now line.old }
        requires stays { line.old.left ≡ false }
        ensures { line.new ≡ record line.old { left = true } }
    {
        let number = line.put.number();
        self.mbox.post(rt, &mut line.put, Task::Leave(number));
    }

    /// Takes a line back, once the server has ended. The first line has left then, and the frames that it put in are those that the server took, in their order.
    pub fn gather(&self, server: &mut Server<O>, line: Line<O>)
    where
        O::Ev: Drop,
        O::Reply: Drop,
        requires server { IsServerOf self.now server.old }
        requires ended { server.old.ended ≡ true }
        requires line { IsLineOf self.now line }
        ensures same { server.new ≡ server.old }
        ensures left { line.number ≡ 0 → line.left ≡ true }
        ensures frames { line.number ≡ 0 → server.new.taken ≡ line.frames }
    {
        let Line {
            put,
            place: _place,
            waits: _waits,
            places: _,
            entries: _,
            refusals: _,
            lost: _,
        } = line;
        self.mbox.gather(&mut server.get, put);
    }
}
