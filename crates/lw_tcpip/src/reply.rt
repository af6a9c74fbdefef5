//! What the tcpip thread answers.
ghost use Rattle.lw_tcpip.specs.Replies.{Answers};

use crate::message::{Note, Queue};
use hist_lock::{Caller, Serial};
use reply_box::{Answer, Await, Pledge, ReplyBox};
use std::alloc::AllocError;
use std::snapshot::Snapshot;

/// A reply: the caller that went along with the question, what its event gave, whether a frame was given up before,
/// and a note of the messages that had been taken when it was made.
#[derive(Drop)]
pub struct Reply<C, R, V, N> {
    pub caller: C,
    pub result: Result<R, (AllocError, V)>,
    pub lost: bool,
    pub note: N,
}

/// What the replies of a place answer: the questions of which line of which mailbox.
#[derive(Drop)]
pub struct LineKey<M> {
    pub mbox: Snapshot<M>,
    pub line: u32,
}

pub(crate) type Answered<O> = Reply<Caller<O>, <O as Serial>::Reply, <O as Serial>::Ev, Note<O>>;

pub(crate) type Questions<O> = LineKey<Queue<O>>;

impl<O: Serial> Answer<Questions<O>> for Answered<O> {
    ghost answers = { Answers O.state O.tag O.by O.same O.tells O.steps };
}

pub(crate) type Counter<O> = ReplyBox<Answered<O>, Questions<O>>;

pub(crate) type Clerk<O> = Pledge<Answered<O>, Questions<O>>;

pub(crate) type Waiting<O> = Await<Answered<O>, Questions<O>>;
