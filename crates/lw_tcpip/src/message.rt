//! What lines send to the tcpip thread.
ghost use Rattle.lw_tcpip.specs.Tasks.{Fits};

use hist_lock::{Caller, HistLock, Serial};
use std::snapshot::Snapshot;
use tcpip_mbox::{Get, Given, Message, Put, TcpipMbox};

/// A message of a line.
#[derive(Drop)]
pub enum Task<C, V> {
    /// A frame, which only the first line gives.
    Frame(V),
    /// A question: the line's number, its caller and an event, which the caller is to make.
    Call(u32, C, V),
    /// The last message of the line of this number.
    Leave(u32),
}

/// What the messages are for: which lock is served, and by the caller of which number.
#[derive(Drop)]
pub struct Service<L> {
    pub lock: Snapshot<L>,
    pub server: u32,
}

/// A message to the thread that serves this object's lock.
pub(crate) type Errand<O> = Task<Caller<O>, <O as Serial>::Ev>;

/// What such messages fit.
pub(crate) type Terms<O> = Service<HistLock<O>>;

impl<O: Serial> Message<Terms<O>> for Errand<O> {
    ghost fits = { Fits O.fits O.tag };
}

pub(crate) type Queue<O> = TcpipMbox<Errand<O>, Terms<O>>;

pub(crate) type Entry<O> = Put<Errand<O>, Terms<O>>;

pub(crate) type Exit<O> = Get<Errand<O>, Terms<O>>;

pub(crate) type Note<O> = Given<Errand<O>, Terms<O>>;
