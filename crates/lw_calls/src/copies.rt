//! Copies of events, which own their octets.
ghost use Rattle.std.specs.Prelude.{◌≡◌, IfOk};

use call_places::NoMemory;
use lw_base::{Octets, Series};
use lw_events::{Event, EventText, SendData};
use std::alloc::Global;

/// The same octets.
pub(crate) fn copy_octets(alloc: Global, octets: &Octets) -> Result<Octets, NoMemory>
    ensures { IfOk result (λ copy. copy ≡ octets.now) }
{
    Ok(Series::from_vec(octets.as_slice().to_vec(alloc)?))
}

/// The same octets of a datagram.
fn copy_data(alloc: Global, octets: &SendData) -> Result<SendData, NoMemory>
    ensures { IfOk result (λ copy. copy ≡ octets.now) }
{
    match octets {
        SendData::Literal(octets) => Ok(SendData::Literal(copy_octets(alloc, octets)?)),
        SendData::Fill(octets) => Ok(SendData::Fill(copy_octets(alloc, octets)?)),
    }
}

/// The same event.
pub(crate) fn copy_event(alloc: Global, event: &EventText) -> Result<EventText, NoMemory>
    ensures { IfOk result (λ copy. copy ≡ event.now) }
{
    match event {
        Event::Frame(octets) => Ok(Event::Frame(copy_octets(alloc, octets)?)),
        Event::Tick => Ok(Event::Tick),
        Event::New(proto) => Ok(Event::New(*proto)),
        Event::Bind(conn, ip, port) => Ok(Event::Bind(*conn, *ip, *port)),
        Event::Connect(conn, ip, port) => Ok(Event::Connect(*conn, *ip, *port)),
        Event::Listen(conn) => Ok(Event::Listen(*conn)),
        Event::Write(conn, octets) => Ok(Event::Write(*conn, copy_octets(alloc, octets)?)),
        Event::SendTo(conn, ip, port, octets) => Ok(Event::SendTo(
            *conn,
            *ip,
            *port,
            copy_data(alloc, octets)?,
        )),
        Event::Recved(conn, n) => Ok(Event::Recved(*conn, *n)),
        Event::Shutdown(conn) => Ok(Event::Shutdown(*conn)),
        Event::Close(conn) => Ok(Event::Close(*conn)),
        Event::GetError(conn) => Ok(Event::GetError(*conn)),
        Event::GetAddr(conn, which) => Ok(Event::GetAddr(*conn, *which)),
        Event::NoDelay(conn, on) => Ok(Event::NoDelay(*conn, *on)),
        Event::OpenFd(conn) => Ok(Event::OpenFd(*conn)),
        Event::SetFd(fd, option) => Ok(Event::SetFd(*fd, *option)),
        Event::CloseFd(fd) => Ok(Event::CloseFd(*fd)),
        Event::SetVar(var, handle) => Ok(Event::SetVar(*var, *handle)),
        Event::Signal(signal) => Ok(Event::Signal(*signal)),
        Event::Sent(n) => Ok(Event::Sent(*n)),
        Event::Stop => Ok(Event::Stop),
    }
}
