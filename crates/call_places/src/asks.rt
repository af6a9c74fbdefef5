use call_types::DropCause;
use lw_base::{Ip, Octets, Port, Series, Word};
use lw_events::{EventText, Handle, Proto, Reply};

/// Numbers of connections.
pub type ConnList = Series<u32>;

/// How much of what was posted to a connection a call takes.
#[derive(Clone, Copy)]
pub enum Portion {
    /// The next accepted connection.
    Accepted,
    /// A whole item.
    Item,
    /// At most so many octets, those that an earlier take left over first.
    Octets(u32),
}

/// What a call asks of the stack around it.
#[derive(Drop)]
pub enum Ask {
    /// The core makes this event.
    Core(EventText),
    /// What a variable names.
    Var(u32),
    /// What a descriptor is of.
    Fd(u32),
    /// How many ticks there were.
    Ticks,
    /// Whether the stop word is set.
    Stop,
    /// How often a signal came.
    Signal(u32),
    /// A connection's event word.
    See(u32),
    /// Something that was posted to a connection.
    Take(u32, Portion),
    /// All that was posted to a connection and isn't taken yet.
    Empty(u32),
    /// The next frame of the capture: so many are left to be fed, or all; a burst doesn't wait for the
    /// core to have each.
    Feed { left: Option<u32>, burst: bool },
    /// The frames that were sent since this was asked last go out on the wire.
    Sent,
    /// Whether the rounds of a wire are at their end on the other side.
    Over,
    /// The others have their turn.
    Pause,
    /// Nothing: the call has ended.
    Nothing,
}

/// What a variable names, and the transport of that connection.
#[derive(Clone, Copy)]
pub struct Named {
    pub handle: Handle,
    pub proto: Proto,
}

/// What a descriptor is of: connection 0 where it is free.
#[derive(Clone, Copy)]
pub struct FdWord {
    pub conn: u32,
    pub nonblock: bool,
    pub timeout: u32,
    pub proto: Proto,
}

/// What a take found: octets of TCP from its octet `from` on, a datagram of UDP cut to what was asked
/// for, a connection that was accepted, or nothing under this event word.
#[derive(Drop)]
pub enum Piece {
    Segment {
        ticket: u32,
        from: u32,
        octets: Octets,
    },
    Datagram {
        ticket: u32,
        ip: Ip,
        port: Port,
        octets: Octets,
    },
    Accepted {
        ticket: u32,
        fresh: u32,
    },
    Nothing(Word),
}

/// What became of the next frame of the capture.
#[derive(Clone, Copy)]
pub enum Feeding {
    /// The core had it.
    Fed,
    /// It is number so-and-so of the capture, and the core never had it.
    Dropped(u32, DropCause),
    /// There is no further one.
    NoMore,
}

/// What a call that would wait is told.
#[derive(Clone, Copy)]
pub enum Turn {
    /// It is its turn again.
    GoOn,
    /// Nobody else can go on, so that waiting is in vain.
    GiveUp,
}

/// What the stack around a call answers.
#[derive(Drop)]
pub enum Answer {
    Reply(Reply),
    Var(Option<Named>),
    Fd(FdWord),
    Number(u32),
    /// Whether what was asked is so.
    Whether(bool),
    Word(Word),
    Took(Piece),
    /// The accepted connections among what was emptied, in the order of their tickets.
    Emptied(ConnList),
    Feeding(Feeding),
    Turn(Turn),
}
