ghost use Rattle.std.specs.Prelude.{◌≡◌, ◌<◌, ◌^◌, ◌-◌, [], IsTrue, is_some, Some, length, slice_set, option_copied, OnErr, OnOk, IfSome};
ghost use Rattle.lw_base.specs.declared.event_word.Flag.{Flag};
ghost use Rattle.lw_conn.specs.Connections.{added, changed, closed, connection, fresh, next_number, with_fault, with_flag, with_post, without_flag};

use crate::NoMemory;
use lw_base::{Err, Flag};
use lw_events::Proto;
use std::alloc::Global;
use std::marker::Model;

/// How many numbers connections have, from 1 on.
const NUMBERS: usize = 4_096;

/// A live connection: its transport, the flags of its event word but REST, its fault, and how many items
/// were posted to it.
#[derive(Clone, Copy, Debug, PartialEq, Eq)]
pub struct Connection {
    pub proto: Proto,
    pub flags: u8,
    pub fault: Option<Err>,
    pub posted: u32,
}

impl Connection {
    // A new one: octets of a datagram can be sent at once, a stream has neither a state nor a fault.
    fn fresh(proto: Proto) -> Connection
        ensures { result ≡ fresh proto }
    {
        let flag = match proto {
            Proto::Udp => Flag::Writable,
            Proto::Tcp => Flag::Idle,
        };
        Connection {
            proto,
            flags: flag.bit(),
            fault: None,
            posted: 0,
        }
    }
}

/// The connections. Contracts see them as the list of all that were made, by their numbers from 1; one
/// that was closed is none.
#[derive(Drop)]
pub struct Conns {
    places: Vec<Option<Connection>>,
    live: usize,
}

impl Model for Conns {
    ghost use Rattle.std.specs.Prelude.{◌≡◌, ◌≤◌, List, Option, length};
    ghost use Rattle.lw_conn.specs.declared.connections.Connection.{Connection as OfConnection};
    ghost use Rattle.lw_conn.specs.Connections.{live_count};

    ghost Value = { List (Option OfConnection) };

    ghost view = { λ c. c.places.items };

    ghost invariant = { λ c. (c.live ≡ live_count c.places.items) × (length c.places.items ≤ 4096) };
}

impl Conns {
    /// No connection was made.
    pub fn new(alloc: Global) -> Conns
        ensures { result ≡ [] }
    {
        Conns {
            places: Vec::new(alloc),
            live: 0,
        }
    }

    /// A live connection by its number.
    pub fn get(&self, conn: u32) -> Option<&Connection>
        ensures { option_copied result ≡ connection self.now conn }
    {
        let place = conn.checked_sub(1)?;
        self.places.get(place as usize)?.as_ref()
    }

    /// The number of the next connection: none where as many as `most` are live, or no number is left.
    pub fn next(&self, most: u32) -> Option<u32>
        ensures { result ≡ next_number most self.now }
    {
        if self.live < most as usize && self.places.len() < NUMBERS {
            Some(self.places.len() as u32 + 1)
        } else {
            None
        }
    }

    /// Makes the connection of the next number.
    pub fn add(&mut self, proto: Proto) -> Result<(), NoMemory>
        requires number { length self.old < 4096 }
        ensures ok { OnOk result (self.new ≡ added self.old proto) }
        ensures err { OnErr result (self.new ≡ self.old) }
    {
        self.places.push(Some(Connection::fresh(proto)))?;
        self.live += 1;
        Ok(())
    }

    /// Closes a live connection: its number isn't given again.
    pub fn close(&mut self, conn: u32)
        requires live { IsTrue (is_some (connection self.old conn)) }
        ensures { self.new ≡ closed self.old conn }
    {
        self.places[conn as usize - 1] = None;
        self.live -= 1;
    }

    // Puts a live connection in place of what it was.
    fn put(&mut self, conn: u32, after: Connection)
        requires live { IsTrue (is_some (connection self.old conn)) }
        ensures { self.new ≡ slice_set self.old (conn - 1) (Some after) }
    {
        self.places[conn as usize - 1] = Some(after);
    }

    /// Sets a flag of a live connection.
    pub fn set(&mut self, conn: u32, flag: Flag)
        requires live { IsTrue (is_some (connection self.old conn)) }
        ensures { self.new ≡ changed self.old conn (with_flag flag) }
    {
        let Some(connection) = self.get(conn).copied() else {
            unreachable!()
        };
        let flags = connection.flags | flag.bit();
        self.put(
            conn,
            Connection {
                flags,
                ..connection
            },
        );
    }

    /// Clears a flag of a live connection.
    pub fn clear(&mut self, conn: u32, flag: Flag)
        requires live { IsTrue (is_some (connection self.old conn)) }
        ensures { self.new ≡ changed self.old conn (without_flag flag) }
    {
        let Some(connection) = self.get(conn).copied() else {
            unreachable!()
        };
        let flags = connection.flags & (u8::MAX - flag.bit());
        self.put(
            conn,
            Connection {
                flags,
                ..connection
            },
        );
    }

    /// Gives a live connection its fault.
    pub fn fail(&mut self, conn: u32, fault: Err)
        requires live { IsTrue (is_some (connection self.old conn)) }
        ensures { self.new ≡ changed self.old conn (with_fault fault) }
    {
        let Some(connection) = self.get(conn).copied() else {
            unreachable!()
        };
        let fault = Some(fault);
        self.put(
            conn,
            Connection {
                fault,
                ..connection
            },
        );
    }

    /// Counts an item that was posted to a live connection.
    pub fn count_post(&mut self, conn: u32)
        requires few { IfSome (connection self.old conn) (λ c. c.posted < 2 ^ 32 - 1) }
        requires live { IsTrue (is_some (connection self.old conn)) }
        ensures { self.new ≡ changed self.old conn with_post }
    {
        let Some(connection) = self.get(conn).copied() else {
            unreachable!()
        };
        let posted = connection.posted + 1;
        self.put(
            conn,
            Connection {
                posted,
                ..connection
            },
        );
    }
}
