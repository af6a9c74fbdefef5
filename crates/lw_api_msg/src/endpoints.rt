ghost use Rattle.std.specs.Prelude.{◌≡◌, IfOk, OnErr, option_copied};
ghost use Rattle.lw_conn.specs.Connections.{connection, next_number};
ghost use Rattle.lw_api_msg.specs.Endpoints.{close, getaddr, geterror, new_udp, of_streams, opening, recved};

use crate::NoMemory;
use lw_base::{Err, Ip, Limits, Port};
use lw_conn::{Connection, Conns, Descriptors, Signals, Variables};
use lw_events::{Proto, Reply, Which};
use lw_udp::UdpTable;
use std::alloc::Global;
use std::marker::Model;

/// The connections of a stack with their ends, and what names them: descriptors and variables. And the
/// signals.
#[derive(Drop)]
pub struct Endpoints {
    pub(crate) udp: UdpTable,
    pub(crate) conns: Conns,
    pub(crate) fds: Descriptors,
    pub(crate) vars: Variables,
    pub(crate) signals: Signals,
}

impl Model for Endpoints {
    ghost use Rattle.lw_api_msg.specs.Endpoints.{Table, HaveEnds};

    ghost Value = { Table };

    ghost view = { λ e. record { udp = e.udp; conns = e.conns; fds = e.fds; vars = e.vars; signals = e.signals } };

    ghost invariant = { λ e. HaveEnds (record { udp = e.udp; conns = e.conns; fds = e.fds; vars = e.vars; signals = e.signals }) };
}

impl Endpoints {
    /// No connection was made, and nothing is named.
    pub fn new(alloc: Global, limits: &Limits) -> Result<Endpoints, NoMemory>
        ensures { IfOk result (λ e. e ≡ opening limits.now) }
    {
        Ok(Endpoints {
            udp: UdpTable::new(alloc)?,
            conns: Conns::new(alloc),
            fds: Descriptors::new(alloc, limits.descriptors)?,
            vars: Variables::new(alloc, limits.variables)?,
            signals: Signals::new(),
        })
    }

    /// A live connection by its number.
    pub fn connection(&self, conn: u32) -> Option<&Connection>
        ensures { option_copied result ≡ connection self.now.conns conn }
    {
        self.conns.get(conn)
    }

    /// The number of the next connection: none where as many are live as the limits allow, or no number
    /// is left.
    pub fn next(&self, limits: &Limits) -> Option<u32>
        ensures { result ≡ next_number limits.now.live self.now.conns }
    {
        self.conns.next(limits.live)
    }

    /// Makes a connection of UDP.
    pub fn new_udp(&mut self, limits: &Limits) -> Result<Reply, NoMemory>
        ensures ok { IfOk result (λ r. (r, self.new) ≡ new_udp limits.now self.old) }
        ensures err { OnErr result (self.new ≡ self.old) }
    {
        let Some(conn) = self.conns.next(limits.live) else {
            return Ok(Reply::Fail(Err::Mem));
        };
        self.udp.add(conn)?;
        if let Err(none) = self.conns.add(Proto::Udp) {
            self.udp.remove(conn);
            return Err(none);
        }
        Ok(Reply::Conn(conn))
    }

    /// Closes a connection.
    pub fn close(&mut self, conn: u32) -> Reply
        ensures { (result, self.new) ≡ close self.old conn }
    {
        if self.conns.get(conn).is_none() {
            return Reply::Fail(Err::Conn);
        }
        self.udp.remove(conn);
        self.conns.close(conn);
        Reply::Done
    }

    /// The fault of a connection.
    pub fn get_error(&self, conn: u32) -> Reply
        ensures { result ≡ geterror self.now conn }
    {
        match self.conns.get(conn) {
            None => Reply::Fail(Err::Conn),
            Some(connection) => match connection.fault {
                None => Reply::Done,
                Some(fault) => Reply::Fail(fault),
            },
        }
    }

    /// The addresses of a connection.
    pub fn get_addr(&self, conn: u32, which: Which) -> Reply
        ensures { result ≡ getaddr self.now conn which }
    {
        if self.conns.get(conn).is_none() {
            return Reply::Fail(Err::Conn);
        }
        match which {
            Which::Local => {
                let (ip, port) = self.udp.local(conn).unwrap_or((Ip(0), Port(0)));
                Reply::Addr(ip, port)
            }
            Which::Remote => match self.udp.remote(conn) {
                Some((ip, port)) => Reply::Addr(ip, port),
                None => Reply::Fail(Err::Conn),
            },
        }
    }

    /// What an event for streams alone answers: its refusal of a connection of UDP, VAL for Listen, Write
    /// and NoDelay, CONN for Shutdown.
    pub fn refuse(&self, conn: u32, refusal: Err) -> Reply
        ensures { result ≡ of_streams self.now conn refusal }
    {
        match self.conns.get(conn) {
            None => Reply::Fail(Err::Conn),
            Some(_) => Reply::Fail(refusal),
        }
    }

    /// Octets of a connection were taken: one of UDP has no window to give them back to.
    pub fn recved(&self, conn: u32) -> Reply
        ensures { result ≡ recved self.now conn }
    {
        match self.conns.get(conn) {
            None => Reply::Fail(Err::Conn),
            Some(_) => Reply::Done,
        }
    }
}
