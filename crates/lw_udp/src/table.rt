ghost use Rattle.std.specs.Prelude.{◌≡◌, IfOk, IsErr, IsTrue, is_some, OnErr, OnOk};
ghost use Rattle.lw_udp.specs.Ends.{Table, empty, end_of, local_of, remote_of, added, removed};
ghost use Rattle.lw_udp.specs.Delivery.{best};
ghost use Rattle.lw_udp.specs.Ports.{free_port, wanted, granted, bind_port, with_port, with_ephemeral, bind, bound, connect, answer_of, table_after};

use crate::UdpEnd;
use crate::delivery::best;
use crate::ends::{end_of, set_local, set_remote, take_off, unbound};
use crate::ports::{EPHEMERAL, first_free, granted};
use lw_base::{Err, Ip, Port};
pub use std::alloc::AllocError as NoMemory;
use std::alloc::Global;
use std::marker::Model;

/// The ends of UDP. Contracts see them as a list, in the order of their making, and the last ephemeral
/// port that was given.
#[derive(Drop)]
pub struct UdpTable {
    ends: Vec<UdpEnd>,
    given: Port,
}

impl Model for UdpTable {
    ghost use Rattle.lw_udp.specs.Ends.{Table};

    ghost Value = { Table };

    ghost view = { λ t. record { ends = t.ends.items; given = t.given } };
}

impl UdpTable {
    /// A table without an end.
    pub fn new(alloc: Global) -> Result<UdpTable, NoMemory>
        ensures { IfOk result (λ t. t ≡ empty) }
    {
        Ok(UdpTable {
            ends: Vec::new(alloc),
            given: Port(u16::MAX),
        })
    }

    /// Makes an end that isn't bound.
    pub fn add(&mut self, conn: u32) -> Result<(), NoMemory>
        requires { end_of self.old.ends conn ≡ None }
        ensures table { OnOk result (self.new ≡ added self.old conn) }
        ensures same { OnErr result (self.new ≡ self.old) }
    {
        self.ends.push(unbound(conn))?;
        Ok(())
    }

    /// Takes the end of a connection off.
    pub fn remove(&mut self, conn: u32)
        ensures { self.new ≡ removed self.old conn }
    {
        take_off(&mut self.ends, conn);
    }

    /// What a connection is bound to.
    pub fn local(&self, conn: u32) -> Option<(Ip, Port)>
        ensures { result ≡ local_of self.now.ends conn }
    {
        end_of(&self.ends, conn)?.local
    }

    /// What a connection is connected to.
    pub fn remote(&self, conn: u32) -> Option<(Ip, Port)>
        ensures { result ≡ remote_of self.now.ends conn }
    {
        end_of(&self.ends, conn)?.remote
    }

    /// The connection that a datagram from `src` to `dst` goes to.
    pub fn best(&self, src: (Ip, Port), dst: (Ip, Port)) -> Option<u32>
        ensures { result ≡ best src dst self.now.ends }
    {
        best(&self.ends, src, dst)
    }

    /// The ephemeral port that comes next.
    pub fn free_port(&self) -> Option<Port>
        ensures { result ≡ free_port self.now }
    {
        first_free(&self.ends, self.given, EPHEMERAL)
    }

    /// Binds a connection to an address, 0.0.0.0 for any, and a port, 0 for the ephemeral one that comes
    /// next; `own` is the stack's address.
    pub fn bind(&mut self, conn: u32, own: Ip, ip: Ip, port: Port) -> Result<(), Err>
        requires { IsTrue (is_some (end_of self.old.ends conn)) }
        ensures answer { result ≡ answer_of (bind self.old conn own ip port) }
        ensures table { self.new ≡ table_after self.old (bind self.old conn own ip port) }
    {
        match self.bind_port(conn, own, ip, port) {
            Ok(given) => {
                self.give(conn, ip, port, given);
                Ok(())
            }
            Err(fault) => Err(fault),
        }
    }

    /// Binds a connection to 0.0.0.0 and an ephemeral port, which is the last one given then.
    pub fn bind_ephemeral(&mut self, conn: u32, port: Port)
        ensures { self.new ≡ with_ephemeral self.old conn port }
    {
        self.give(conn, Ip(0), Port(0), port);
    }

    /// Connects a connection to a peer, also in place of another one. One that isn't bound is bound to
    /// 0.0.0.0 and the ephemeral port that comes next.
    pub fn connect(&mut self, conn: u32, to: (Ip, Port)) -> Result<(), Err>
        requires { IsTrue (is_some (end_of self.old.ends conn)) }
        ensures answer { result ≡ answer_of (connect self.old conn to) }
        ensures table { self.new ≡ table_after self.old (connect self.old conn to) }
    {
        match self.bind_any(conn) {
            Ok(()) => {
                set_remote(&mut self.ends, conn, to);
                Ok(())
            }
            Err(fault) => Err(fault),
        }
    }

    /// Binds a connection that isn't bound to 0.0.0.0 and the ephemeral port that comes next.
    fn bind_any(&mut self, conn: u32) -> Result<(), Err>
        ensures answer { result ≡ answer_of (bound self.old conn) }
        ensures table { self.new ≡ table_after self.old (bound self.old conn) }
    {
        match (self.local(conn), self.free_port()) {
            (Some(_), _) => Ok(()),
            (None, Some(port)) => {
                self.bind_ephemeral(conn, port);
                Ok(())
            }
            (None, None) => Err(Err::Buf),
        }
    }

    /// Gives a connection a port that it asked for.
    fn give(&mut self, conn: u32, ip: Ip, asked: Port, port: Port)
        ensures { self.new ≡ with_port self.old conn ip asked port }
    {
        set_local(&mut self.ends, conn, (ip, port));
        self.given = if asked.0 == 0 { port } else { self.given };
    }

    /// The port that Bind gives, or its refusal.
    fn bind_port(&self, conn: u32, own: Ip, ip: Ip, port: Port) -> Result<Port, Err>
        ensures { result ≡ bind_port self.now conn own ip port }
    {
        if self.local(conn).is_some() {
            return Err(Err::Val);
        }
        if !(ip.0 == 0 || ip.0 == own.0) {
            return Err(Err::Val);
        }
        granted(&self.ends, ip, self.wanted(port))
    }

    /// The port that is asked for.
    fn wanted(&self, port: Port) -> Option<Port>
        ensures { result ≡ wanted self.now port }
    {
        if port.0 == 0 {
            self.free_port()
        } else {
            Some(port)
        }
    }
}
