//! One line's way to the tcpip thread.
ghost use Rattle.std.specs.Prelude.{◌≡◌, ◌+◌, ◌<◌, ◌≤◌, length};
ghost use Rattle.lw_tcpip.specs.Results.{counted};

use crate::message::Entry;
use crate::reply::{Counter, Waiting};
use hist_lock::Serial;
use std::marker::Model;
use std::sync::Arc;

/// A line: its owner's ways into the mailbox and out of its own reply place. Contracts see its number and what went through it.
#[derive(Drop)]
pub struct Line<O: Serial> {
    pub(crate) put: Entry<O>,
    pub(crate) place: Arc<Counter<O>>,
    pub(crate) waits: Waiting<O>,
    pub(crate) places: u32,
    pub(crate) entries: u64,
    pub(crate) refusals: u64,
    pub(crate) lost: bool,
}

impl<O: Serial> Model for Line<O> {
    ghost use Rattle.std.specs.Arc.{arc_value};
    ghost use Rattle.hist_lock.specs.Callers.{Begun};
    ghost use Rattle.lw_tcpip.specs.Tasks.{frames_of, has_left};
    ghost use Rattle.lw_tcpip.specs.Tokens.{LineSeen, IsLine};

    ghost Value = { LineSeen (Begun O) O.Ev };

    ghost view = { λ l. record { mbox = l.put.table; terms = l.put.key; places = l.places; number = l.put.number; others = l.put.others; frames = frames_of l.put.sent; entries = l.entries; refusals = l.refusals; left = has_left l.put.sent; lost = l.lost } };

    ghost invariant = { λ l. IsLine l.put (arc_value l.place) l.waits l.places l.refusals };
}

impl<O: Serial> Line<O> {
    /// Its number, from 0 on. The first line alone gives frames.
    pub fn number(&self) -> u32
        ensures { result ≡ self.now.number }
    {
        self.put.number()
    }

    /// How many entries its questions made, up to the last number of 64 bits.
    pub fn entries(&self) -> u64
        ensures { result ≡ self.now.entries }
    {
        self.entries
    }

    /// How many of its frames were refused. Where there is one, the frames that it has put in and the other lines are together at least the places.
    pub fn refusals(&self) -> u64
        ensures count { result ≡ self.now.refusals }
        ensures full { 0 < result → self.now.places ≤ length self.now.frames + self.now.others }
    {
        self.refusals
    }

    /// Whether, at the last reply, a frame had been given up for want of memory.
    pub fn lost(&self) -> bool
        ensures { result ≡ self.now.lost }
    {
        self.lost
    }
}

/// The number of entries after a reply: one more where the event was made.
pub(crate) fn counted_after<T, E>(entries: u64, answer: &Result<T, E>) -> u64
    ensures { result ≡ counted entries answer.now }
{
    match answer {
        Ok(_) => entries.saturating_add(1),
        Err(_) => entries,
    }
}
