use lw_base::{Err, Ip, Octets, Port};

/// The transport of a connection.
#[derive(Clone, Copy, Debug, PartialEq, Eq)]
pub enum Proto {
    Tcp,
    Udp,
}

/// Which end of a connection.
#[derive(Clone, Copy, Debug, PartialEq, Eq)]
pub enum Which {
    Local,
    Remote,
}

/// What a descriptor is told: not to wait, or how many ticks to wait at most (0 for no end).
#[derive(Clone, Copy, Debug, PartialEq, Eq)]
pub enum FdOption {
    NonBlock(bool),
    Timeout(u32),
}

/// What a variable names: a connection, or a descriptor.
#[derive(Clone, Copy, Debug, PartialEq, Eq)]
pub enum Handle {
    Conn(u32),
    Fd(u32),
}

/// The octets of a datagram: given as they are, which ROM describes while they are sent, or made by a
/// rule, which REF describes.
#[derive(Drop)]
pub enum SendData {
    Literal(Octets),
    Fill(Octets),
}

/// A core event. Numbers are those of connections, descriptors, variables and signals.
#[derive(Drop)]
pub enum Event<P> {
    /// A frame arrived.
    Frame(P),
    /// A quarter of a second went by.
    Tick,
    /// A new connection.
    New(Proto),
    Bind(u32, Ip, Port),
    Connect(u32, Ip, Port),
    Listen(u32),
    /// Octets to be sent on a stream.
    Write(u32, Octets),
    /// A datagram to be sent; 0.0.0.0 with port 0 is the connected peer.
    SendTo(u32, Ip, Port, SendData),
    /// So many octets were taken.
    Recved(u32, u32),
    /// No more is written on a stream.
    Shutdown(u32),
    Close(u32),
    GetError(u32),
    GetAddr(u32, Which),
    /// Whether small pieces of a stream go out at once.
    NoDelay(u32, bool),
    /// A descriptor for a connection.
    OpenFd(u32),
    SetFd(u32, FdOption),
    CloseFd(u32),
    /// A variable is to name a connection or a descriptor.
    SetVar(u32, Handle),
    Signal(u32),
    /// How many frames were sent after so many.
    Sent(u32),
    /// The end of the run.
    Stop,
}

/// An event as it is kept, its payload as octets.
pub type EventText = Event<Octets>;

/// The answer to an event.
#[derive(Clone, Copy, Debug, PartialEq, Eq)]
pub enum Reply {
    Done,
    Conn(u32),
    Fd(u32),
    /// So many octets were accepted.
    Wrote(u32),
    /// How often a signal came.
    Count(u32),
    /// How many ticks there were.
    Ticks(u32),
    Addr(Ip, Port),
    /// How many frames were sent.
    Frames(u32),
    Fail(Err),
}
