use lw_base::{Ip, Octets, Port, Series};
use lw_events::{Proto, Which};

/// By which interface a call is made: sockets with descriptors, or netconns.
#[derive(Clone, Copy, Debug, PartialEq, Eq)]
pub enum Interface {
    Socket,
    Netconn,
}

/// The octets that a call sends, as a script gives them: spelled, or by a rule, by which octet i of
/// `count` is `first` + i modulo 256.
#[derive(Drop)]
pub enum Data {
    Spelled(Octets),
    Fill { count: u32, first: u8 },
}

/// What `select` asks of a connection's event word.
#[derive(Clone, Copy, Debug, PartialEq, Eq)]
pub enum Test {
    /// An item is untaken, or REST, ENDED, FAULT or CLOSED is set.
    Readable,
    /// WRITABLE is set.
    Writable,
    /// FAULT is set.
    Except,
}

/// One test of the connection that a variable names.
#[derive(Clone, Copy, Debug, PartialEq, Eq)]
pub struct SelectItem {
    pub test: Test,
    pub var: u32,
}

/// The tests of one `select`, in their order.
pub type SelectList = Series<SelectItem>;

/// One of the two stacks on a wire.
#[derive(Clone, Copy, Debug, PartialEq, Eq)]
pub enum Side {
    A,
    B,
}

/// A call of an actor, or a command of the driver or of the wire. Variables and signals stand by their
/// numbers.
#[derive(Drop)]
pub enum Call {
    /// `socket`, `nnew`: a new connection, which the variable names then.
    New(Interface, u32, Proto),
    Bind(Interface, u32, Ip, Port),
    Connect(Interface, u32, Ip, Port),
    Listen(Interface, u32),
    /// The next accepted connection of the first variable's, which the second names then.
    Accept(Interface, u32, u32),
    /// `send`, `nwrite`
    Send(Interface, u32, Data),
    /// `sendto`, `nsend`
    SendTo(Interface, u32, Ip, Port, Data),
    /// `recv`: at most so many octets
    Recv(u32, u32),
    /// `recvall`: so many octets, from as many items as are needed
    RecvAll(u32, u32),
    /// `recvfrom`: at most so many octets of a datagram, and who sent it
    RecvFrom(u32, u32),
    /// `nrecv`: a whole item
    RecvItem(u32),
    /// `ntry`: a whole item, if there is one
    TryItem(u32),
    Shutdown(Interface, u32),
    Close(Interface, u32),
    /// `nonblock`
    NonBlock(u32, bool),
    /// `nodelay`
    NoDelay(u32, bool),
    /// `timeout`: how many ticks a receive waits at most, 0 for no end
    Timeout(u32, u32),
    /// `local`, `remote`
    GetAddr(u32, Which),
    /// Which of these tests hold, once one does or so many ticks are over; no limit is `inf`.
    Select(Option<u32>, SelectList),
    Signal(u32),
    /// Waits until the signal came so often.
    Await(u32, u32),
    /// The next frames of the capture, so many or all.
    Feed(Option<u32>),
    /// The next frames of the capture, without waiting for each.
    Burst(u32),
    /// So many ticks.
    Tick(u32),
    /// The end of the run.
    Stop,
    /// On the wire: waits until the side's signal came so often.
    AwaitSide(Side, u32, u32),
    /// On the wire: so many rounds.
    Pump(u32),
    /// On the wire: rounds until the side's signal came so often.
    Until(Side, u32, u32),
}
