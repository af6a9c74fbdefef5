use crate::ConnList;
use call_types::{Data, Interface, Outcome, SelectItem, SelectList, Side, Sight};
use lw_base::{Ip, Octets, Port, Series};
use lw_events::{EventText, FdOption, Proto, Which};

/// What a step of a call writes: that the core made an event of it, or what it saw. Event k of a call is
/// its k-th core line.
#[derive(Drop)]
pub enum Seen {
    Core,
    Sight(Sight),
}

/// What calls write, in its order.
pub type SeenList = Series<Seen>;

/// A connection as a call found it: what its descriptor says of waiting, and its transport.
#[derive(Clone, Copy)]
pub struct Target {
    pub conn: u32,
    pub nonblock: bool,
    pub timeout: u32,
    pub proto: Proto,
}

/// Which receive: once, again until all is there, one datagram with its sender, or a whole item.
#[derive(Clone, Copy)]
pub enum ReadKind {
    Once,
    All,
    From,
    Item,
}

/// What a call does with a connection once it has it.
#[derive(Drop)]
pub enum Use {
    Bind(Ip, Port),
    Connect(Ip, Port),
    Listen,
    /// The next accepted connection, which this variable is to name.
    Accept(Interface, u32),
    Send(Data),
    SendTo(Ip, Port, Data),
    /// At most so many octets.
    Read(ReadKind, u32),
    /// A whole item, without waiting.
    TryItem,
    Shutdown,
    Close,
    NoDelay(bool),
    GetAddr(Which),
}

/// What a call does with a descriptor once it has it.
#[derive(Drop)]
pub enum FdUse {
    OfConn(Use),
    Close,
    Set(FdOption),
    /// One more item of a `select`.
    Select(Selecting, SelectItem),
}

/// What a call does with a variable's word.
#[derive(Drop)]
pub enum VarUse {
    OfConn(Use),
    OfFd(FdUse),
}

/// An item of a `select` with its connection.
#[derive(Clone, Copy)]
pub struct ScanTarget {
    pub item: SelectItem,
    pub conn: u32,
}

/// Items with their connections.
pub type TargetList = Series<ScanTarget>;

/// A `select` that looks its items up: how many ticks it may wait, its items, and the first of them with
/// their connections.
#[derive(Drop)]
pub struct Selecting {
    pub limit: Option<u32>,
    pub items: SelectList,
    pub targets: TargetList,
}

/// A scan of a `select`: its targets, the looks at the first of them, and the items of those that hold.
#[derive(Drop)]
pub struct Scan {
    pub targets: TargetList,
    pub shown: SeenList,
    pub ready: SelectList,
}

/// Who makes a call: an actor, whose waits the stop word ends; the driver, which gives up where nobody
/// else can go on; or one side of a wire.
#[derive(Clone, Copy)]
pub enum Caller {
    Actor,
    Driver,
    Wire(Side),
}

/// A wait for a signal that is to come so often.
#[derive(Clone, Copy)]
pub struct Awaiting {
    pub signal: u32,
    pub count: u32,
    pub caller: Caller,
}

/// A wait for the next accepted connection of a listening one, which a variable is to name.
#[derive(Clone, Copy)]
pub struct Accepting {
    pub conn: u32,
    pub var: u32,
    pub interface: Interface,
}

/// A receive: how many octets are asked for, and how many were got so far.
#[derive(Clone, Copy)]
pub struct Reading {
    pub conn: u32,
    pub kind: ReadKind,
    pub count: u32,
    pub got: u32,
}

/// A send on a stream: the octets that weren't accepted yet, and how many were.
#[derive(Drop)]
pub struct Sending {
    pub conn: u32,
    pub rest: Octets,
    pub sent: u32,
}

/// What a wait tries.
#[derive(Drop)]
pub enum Want {
    Signal(Awaiting),
    Accept(Accepting),
    Read(Reading),
    /// The end of a connect.
    Connected(u32),
    /// Room for more octets.
    Room(Sending),
    Scan(Scan),
}

/// Why the next try that finds nothing is the last.
#[derive(Clone, Copy)]
pub enum Due {
    /// The call doesn't wait.
    AtOnce,
    /// The stop word is set.
    Stopped,
    /// So many ticks came, and the wait's limit is over.
    Time(u32),
    /// Nobody else can go on.
    GivenUp,
}

/// How long a wait goes on: its limit in ticks, the ticks at its begin, and why it is due to end.
#[derive(Clone, Copy)]
pub struct Timing {
    pub limit: Option<u32>,
    pub begun: Option<u32>,
    pub due: Option<Due>,
}

/// Where a wait stands: it tries, or looks at the ticks to begin, at the stop word, at the ticks again,
/// or lets the others have their turn.
#[derive(Clone, Copy)]
pub enum Stage {
    Try,
    Begin,
    Stop,
    Now,
    Pause,
}

/// What the reply to an event leads to.
#[derive(Drop)]
pub enum Then {
    /// The reply is the result.
    Answer,
    /// This is the result where the reply is `ok`.
    Gives(Outcome),
    /// This is the result, whatever the reply is.
    Ends(Outcome),
    /// So many more ticks.
    Ticks(u32),
    /// The new connection gets its descriptor and its variable.
    Made(Interface, u32),
    /// The descriptor of this connection gets its variable.
    Opened { var: u32, conn: u32 },
    /// The connection of the descriptor that was freed is closed.
    Freed,
    /// What was posted to the closed connection is emptied.
    Closed(u32),
    /// These connections are closed, from this place of the list on.
    Each(ConnList, usize),
    /// The connect waits where it is in progress, unless its descriptor doesn't wait.
    Connecting { conn: u32, nonblock: bool },
    /// So many octets were taken.
    Taken(Reading, Timing, u32),
    /// The fault ends the call, which had so many octets before.
    Failed(u32),
}

/// When the rounds of a wire are at their end: after so many, as a signal came so often on this side, or
/// as the other side says.
#[derive(Clone, Copy)]
pub enum RoundsEnd {
    After(u32),
    Signal(u32, u32),
    Other,
}

/// Rounds of a wire as one of its sides has them: when they end, and how many were made.
#[derive(Clone, Copy)]
pub struct Rounds {
    pub side: Side,
    pub end: RoundsEnd,
    pub made: u32,
}

/// Where a side stands in a round: it looks for the end, its frames go out, the other side's come in, or
/// there is a tick.
#[derive(Clone, Copy)]
pub enum RoundStage {
    Come,
    Sent,
    Feed,
    Tick,
}

/// Where a call stands.
#[derive(Drop)]
pub enum Place {
    /// It looks at a variable.
    Var(u32, VarUse),
    /// It looks at the descriptor that a variable names.
    Fd {
        var: u32,
        fd: u32,
        used: FdUse,
    },
    /// The core makes an event of it; the lines that are held stand together with that event's.
    Make {
        event: EventText,
        after: Then,
        held: SeenList,
    },
    /// It writes octets on a stream.
    Write {
        sending: Sending,
        due: Option<Due>,
        held: SeenList,
    },
    /// It empties a closed connection's mailbox.
    Empty(u32),
    Waits(Stage, Want, Timing),
    /// It makes rounds on a wire.
    Round(RoundStage, Rounds),
    /// It feeds frames of the capture: how many are left, or all, and how many were fed.
    Feed {
        left: Option<u32>,
        burst: bool,
        fed: u32,
    },
    Done(Outcome),
}

/// Where an answer leads a call, and the lines that this writes.
#[derive(Drop)]
pub struct Step {
    pub next: Place,
    pub wrote: SeenList,
}
