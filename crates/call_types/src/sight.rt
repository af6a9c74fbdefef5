use lw_base::{Ip, Octets, Port, Word};
use lw_events::Handle;

/// Why a frame never reached the core: no pbufs of POOL for it, or a full mailbox.
#[derive(Clone, Copy, Debug, PartialEq, Eq)]
pub enum DropCause {
    Short,
    Full,
}

/// What a call saw of the stack besides its own core events.
#[derive(Drop)]
pub enum Sight {
    /// Octets of a posted segment, the first of them its octet `from`.
    Take {
        conn: u32,
        ticket: u32,
        from: u32,
        octets: Octets,
    },
    /// The first octets of a posted datagram, and who sent it.
    Datagram {
        conn: u32,
        ticket: u32,
        ip: Ip,
        port: Port,
        octets: Octets,
    },
    /// The number of an accepted connection.
    Accepted {
        conn: u32,
        ticket: u32,
        fresh: u32,
    },
    /// A connection's event word.
    Saw(u32, Word),
    /// How many ticks there were.
    Ticks(u32),
    /// The stop word was set.
    Stopped,
    /// How often a signal came.
    Count(u32, u32),
    /// What a variable names.
    Var(u32, Option<Handle>),
    /// What a descriptor is of: connection 0 where it is free.
    Fdw {
        fd: u32,
        conn: u32,
        nonblock: bool,
        timeout: u32,
    },
    /// Frame so-and-so of the capture, counted from 1, never reached the core.
    Dropped(u32, DropCause),
}
