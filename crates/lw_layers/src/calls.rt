//! The events of calls that send nothing: connections are made and closed, the others are answered from
//! what the stack has of them.
ghost use Rattle.std.specs.Prelude.{◌≡◌, length, Some, IfOk, OnErr};
ghost use Rattle.lw_api_msg.specs.Endpoints.{close, new_udp};
ghost use Rattle.lw_boxes.specs.declared.item.Item.{Item};
ghost use Rattle.lw_layers.specs.Boxes.{AreBoxesOf, AreSameBoxes, KeepItems};
ghost use Rattle.lw_layers.specs.Calls.{call_answer, sent_after, IsAsking};
ghost use Rattle.lw_layers.specs.Layers.{state_of};

use crate::NoMemory;
use crate::layers::Layers;
use lw_base::{Err, Flag};
use lw_boxes::Boxes;
use lw_events::{Event, EventText, Reply};
use lw_payload::Payload;

impl<P: Payload> Layers<P> {
    /// Makes a connection of UDP: its mailbox, then the connection, and last its mailbox shows that
    /// octets can be sent.
    pub fn new_udp<B: Boxes<P>>(&mut self, boxes: &mut B) -> Result<Reply, NoMemory>
        requires boxes { AreBoxesOf self.old.endpoints.conns (B.seen boxes.old) }
        ensures exact { IfOk result (λ r. (r, self.new.endpoints) ≡ new_udp self.old.limits self.old.endpoints) }
        ensures rest { self.new ≡ record self.old { endpoints = self.new.endpoints } }
        ensures err { OnErr result ((self.new.endpoints ≡ self.old.endpoints) × AreSameBoxes (B.seen boxes.old) (B.seen boxes.new)) }
        ensures boxes { AreBoxesOf self.new.endpoints.conns (B.seen boxes.new) }
        ensures items { KeepItems (B.seen boxes.old) (B.seen boxes.new) }
        ensures terms { B.terms boxes.new ≡ B.terms boxes.old }
    {
        let Some(conn) = self.endpoints.next(&self.limits) else {
            return Ok(Reply::Fail(Err::Mem));
        };
        boxes.make(conn)?;
        let reply = self.endpoints.new_udp(&self.limits)?;
        boxes.set(conn, Flag::Writable);
        Ok(reply)
    }

    /// Closes a connection, and its mailbox.
    pub fn close<B: Boxes<P>>(&mut self, conn: u32, boxes: &mut B) -> Reply
        requires boxes { AreBoxesOf self.old.endpoints.conns (B.seen boxes.old) }
        ensures exact { (result, self.new.endpoints) ≡ close self.old.endpoints conn }
        ensures rest { self.new ≡ record self.old { endpoints = self.new.endpoints } }
        ensures boxes { AreBoxesOf self.new.endpoints.conns (B.seen boxes.new) }
        ensures items { KeepItems (B.seen boxes.old) (B.seen boxes.new) }
        ensures terms { B.terms boxes.new ≡ B.terms boxes.old }
    {
        if self.endpoints.connection(conn).is_none() {
            return Reply::Fail(Err::Conn);
        }
        boxes.set(conn, Flag::Closed);
        self.endpoints.close(conn)
    }

    /// Answers an event that asks for no more.
    pub fn answer(&mut self, event: &EventText) -> Reply
        requires asking { IsAsking self.old.limits event.now }
        requires variables { length self.old.endpoints.vars ≡ self.old.limits.variables }
        ensures exact { call_answer (state_of P.seen self.old) event.now ≡ Some (result, self.new.endpoints) }
        ensures rest { self.new ≡ record self.old { endpoints = self.new.endpoints } }
    {
        match event {
            Event::Bind(conn, ip, port) => {
                let own = self.netif.net().ip;
                self.endpoints.bind(own, *conn, *ip, *port)
            }
            Event::Connect(conn, ip, port) => {
                self.endpoints.connect(&self.netif, *conn, *ip, *port)
            }
            Event::Listen(conn) | Event::Write(conn, _) | Event::NoDelay(conn, _) => {
                self.endpoints.refuse(*conn, Err::Val)
            }
            Event::Shutdown(conn) => self.endpoints.refuse(*conn, Err::Conn),
            Event::Recved(conn, _) => self.endpoints.recved(*conn),
            Event::GetError(conn) => self.endpoints.get_error(*conn),
            Event::GetAddr(conn, which) => self.endpoints.get_addr(*conn, *which),
            Event::OpenFd(conn) => self.endpoints.open_fd(*conn),
            Event::SetFd(fd, option) => self.endpoints.set_fd(*fd, *option),
            Event::CloseFd(fd) => self.endpoints.close_fd(*fd),
            Event::SetVar(var, handle) => self.endpoints.set_var(*var, *handle),
            Event::Signal(signal) => self.endpoints.signal(*signal),
            Event::Sent(count) => Reply::Frames(self.sent_after(*count)),
            Event::Frame(_)
            | Event::Tick
            | Event::New(_)
            | Event::SendTo(..)
            | Event::Close(_)
            | Event::Stop => unreachable!(),
        }
    }

    /// How many frames were sent after the first `count`.
    fn sent_after(&self, count: u32) -> u32
        ensures { result ≡ sent_after count self.now.sent }
    {
        self.sent.len().saturating_sub(count)
    }
}
