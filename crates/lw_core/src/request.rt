//! What an event asks of a stack.
ghost use Rattle.std.specs.Prelude.{◌≡◌};
ghost use Rattle.lw_events.specs.Events.{text_of};
ghost use Rattle.lw_core.specs.Requests.{request_of};

use lw_base::{Ip, Port};
use lw_events::{Event, EventText, Proto, SendData};
use lw_payload::Payload;

/// What an event asks of a stack: to take a frame in, to let a tick pass, to send a datagram, to make a
/// connection of UDP, to close one, to end the run, or an answer to the event, whose text this is.
#[derive(Drop)]
pub enum Request<P> {
    Feed(P),
    Tick,
    Send(u32, Ip, Port, SendData),
    Make,
    Close(u32),
    End,
    Answer(EventText),
}

/// What an event asks for.
pub fn request_of<P: Payload>(event: Event<P>) -> Request<P>
    ensures { result ≡ request_of P.seen event }
{
    match event {
        Event::Frame(frame) => Request::Feed(frame),
        Event::Tick => Request::Tick,
        Event::SendTo(conn, ip, port, data) => Request::Send(conn, ip, port, data),
        Event::New(Proto::Udp) => Request::Make,
        Event::New(Proto::Tcp) => Request::Answer(Event::New(Proto::Tcp)),
        Event::Close(conn) => Request::Close(conn),
        Event::Stop => Request::End,
        Event::Bind(conn, ip, port) => Request::Answer(Event::Bind(conn, ip, port)),
        Event::Connect(conn, ip, port) => Request::Answer(Event::Connect(conn, ip, port)),
        Event::Listen(conn) => Request::Answer(Event::Listen(conn)),
        Event::Write(conn, octets) => Request::Answer(Event::Write(conn, octets)),
        Event::Recved(conn, count) => Request::Answer(Event::Recved(conn, count)),
        Event::Shutdown(conn) => Request::Answer(Event::Shutdown(conn)),
        Event::GetError(conn) => Request::Answer(Event::GetError(conn)),
        Event::GetAddr(conn, which) => Request::Answer(Event::GetAddr(conn, which)),
        Event::NoDelay(conn, on) => Request::Answer(Event::NoDelay(conn, on)),
        Event::OpenFd(conn) => Request::Answer(Event::OpenFd(conn)),
        Event::SetFd(fd, option) => Request::Answer(Event::SetFd(fd, option)),
        Event::CloseFd(fd) => Request::Answer(Event::CloseFd(fd)),
        Event::SetVar(var, handle) => Request::Answer(Event::SetVar(var, handle)),
        Event::Signal(signal) => Request::Answer(Event::Signal(signal)),
        Event::Sent(count) => Request::Answer(Event::Sent(count)),
    }
}
