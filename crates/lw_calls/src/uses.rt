//! What a call does with the connection or the descriptor that its variable names.
ghost use Rattle.std.specs.Prelude.{◌≡◌, ◌∷◌, [], IfOk};
ghost use Rattle.lw_calls.specs.Uses.{filled, octets_of, count_of, send_data, sends_to, sends, fd_timing, has_kind, reads_by, reads, does, netconn_target, fd_target, var_line, conn_handle, fd_handle, var_handle, after_var, fd_does, fd_lines, fd_place, after_fd};

use call_places::{
    Accepting, Due, FdUse, FdWord, Named, NoMemory, Place, ReadKind, Reading, Seen, SeenList,
    Sending, Step, Target, Then, Timing, Use, VarUse, Want, added, due_of, fails, limit_of, makes,
    no_lines, one_sight, selects, timed, to, waiting, with_target,
};
use call_types::{Data, Outcome, Sight};
use lw_base::{Err, Ip, Octets, Port, Series};
use lw_events::{Event, Handle, Proto, SendData};
use std::alloc::{AllocError, Global};

/// The octets of a rule: octet i is its first octet and i, modulo 256.
fn filled_octets(alloc: Global, count: u32, first: u8) -> Result<Vec<u8>, NoMemory>
    ensures { IfOk result (λ octets. octets.items ≡ filled count first) }
{
    (0..count)
        .map(|i| ((u64::from(first) + u64::from(i)) % 256) as u8)
        .collect(alloc)
}

/// The octets of a rule.
fn filled(alloc: Global, count: u32, first: u8) -> Result<Octets, NoMemory>
    ensures { IfOk result (λ octets. octets ≡ filled count first) }
{
    Ok(Series::from_vec(filled_octets(alloc, count, first)?))
}

/// The octets that a call sends.
fn octets_of(alloc: Global, given: Data) -> Result<Octets, NoMemory>
    ensures { IfOk result (λ octets. octets ≡ octets_of given) }
{
    match given {
        Data::Spelled(octets) => Ok(octets),
        Data::Fill { count, first } => filled(alloc, count, first),
    }
}

/// How many octets a call sends.
fn count_of(given: &Data) -> Result<u32, NoMemory>
    ensures { IfOk result (λ n. n ≡ count_of given.now) }
{
    match given {
        Data::Spelled(octets) => u32::try_from(octets.len()).map_err(|_| AllocError),
        Data::Fill { count, .. } => Ok(*count),
    }
}

/// What the event of a datagram has of them.
fn send_data(alloc: Global, given: Data) -> Result<SendData, NoMemory>
    ensures { IfOk result (λ octets. octets ≡ send_data given) }
{
    match given {
        Data::Spelled(octets) => Ok(SendData::Literal(octets)),
        Data::Fill { count, first } => Ok(SendData::Fill(filled(alloc, count, first)?)),
    }
}

/// One datagram, to this address.
fn sends_to(alloc: Global, conn: u32, ip: Ip, port: Port, given: Data) -> Result<Place, NoMemory>
    ensures { IfOk result (λ p. p ≡ sends_to conn ip port given) }
{
    let count = count_of(&given)?;
    let octets = send_data(alloc, given)?;
    Ok(makes(
        alloc,
        Event::SendTo(conn, ip, port, octets),
        Then::Gives(Outcome::Sent(count)),
    ))
}

/// A send writes a stream's octets; of UDP it is one datagram to the connected peer.
fn sends(alloc: Global, target: Target, given: Data) -> Result<Place, NoMemory>
    ensures { IfOk result (λ p. p ≡ sends target.proto target given) }
{
    match target.proto {
        Proto::Tcp => Ok(Place::Write {
            sending: Sending {
                conn: target.conn,
                rest: octets_of(alloc, given)?,
                sent: 0,
            },
            due: due_of(target.nonblock),
            held: no_lines(alloc),
        }),
        Proto::Udp => sends_to(alloc, target.conn, Ip(0), Port(0), given),
    }
}

/// Accepts and receives wait as their descriptor says.
fn fd_timing(target: Target) -> Timing
    ensures { result ≡ fd_timing target }
{
    timed(limit_of(target.timeout), due_of(target.nonblock))
}

/// Whether a connection of this transport has this receive: TCP has no sender to tell.
fn has_kind(proto: Proto, kind: ReadKind) -> bool
    ensures { result ≡ has_kind proto kind }
{
    match (proto, kind) {
        (Proto::Tcp, ReadKind::Once) => true,
        (Proto::Tcp, ReadKind::All) => true,
        (Proto::Tcp, ReadKind::From) => false,
        (Proto::Tcp, ReadKind::Item) => true,
        (Proto::Udp, _) => true,
    }
}

/// A receive begins, or ends at once.
fn reads(target: Target, kind: ReadKind, count: u32, timing: Timing) -> Place
    ensures { result ≡ reads target kind count timing }
{
    match has_kind(target.proto, kind) {
        true => waiting(
            Want::Read(Reading {
                conn: target.conn,
                kind,
                count,
                got: 0,
            }),
            timing,
        ),
        false => Place::Done(Outcome::Fail(Err::Val)),
    }
}

/// What a call does with its connection.
fn does(alloc: Global, used: Use, target: Target) -> Result<Place, NoMemory>
    ensures { IfOk result (λ p. p ≡ does used target) }
{
    let conn = target.conn;
    match used {
        Use::Bind(ip, port) => Ok(makes(alloc, Event::Bind(conn, ip, port), Then::Answer)),
        Use::Connect(ip, port) => Ok(makes(
            alloc,
            Event::Connect(conn, ip, port),
            Then::Connecting {
                conn,
                nonblock: target.nonblock,
            },
        )),
        Use::Listen => Ok(makes(alloc, Event::Listen(conn), Then::Answer)),
        Use::Accept(interface, var) => Ok(waiting(
            Want::Accept(Accepting {
                conn,
                var,
                interface,
            }),
            fd_timing(target),
        )),
        Use::Send(given) => sends(alloc, target, given),
        Use::SendTo(ip, port, given) => sends_to(alloc, conn, ip, port, given),
        Use::Read(kind, count) => Ok(reads(target, kind, count, fd_timing(target))),
        Use::TryItem => Ok(reads(target, ReadKind::Item, 0, timed(None, Some(Due::AtOnce)))),
        Use::Shutdown => Ok(makes(alloc, Event::Shutdown(conn), Then::Answer)),
        Use::Close => Ok(makes(alloc, Event::Close(conn), Then::Closed(conn))),
        Use::NoDelay(on) => Ok(makes(alloc, Event::NoDelay(conn, on), Then::Answer)),
        Use::GetAddr(which) => Ok(makes(alloc, Event::GetAddr(conn, which), Then::Answer)),
    }
}

/// A connection of a netconn call, which waits without end.
fn netconn_target(conn: u32, proto: Proto) -> Target
    ensures { result ≡ netconn_target conn proto }
{
    Target {
        conn,
        nonblock: false,
        timeout: 0,
        proto,
    }
}

/// A connection as its descriptor's word says.
fn fd_target(word: FdWord) -> Target
    ensures { result ≡ fd_target word }
{
    Target {
        conn: word.conn,
        nonblock: word.nonblock,
        timeout: word.timeout,
        proto: word.proto,
    }
}

/// The line of a variable's word.
fn var_line(alloc: Global, var: u32, handle: Option<Handle>) -> Result<SeenList, NoMemory>
    ensures { IfOk result (λ lines. lines ≡ var_line var handle) }
{
    one_sight(alloc, Sight::Var(var, handle))
}

/// A netconn call wants a connection.
fn conn_handle(alloc: Global, var: u32, named: Named, used: Use) -> Result<Step, NoMemory>
    ensures { IfOk result (λ s. s ≡ conn_handle named.handle var named.proto used) }
{
    match named.handle {
        Handle::Conn(conn) => {
            let next = does(alloc, used, netconn_target(conn, named.proto))?;
            Ok(to(next, var_line(alloc, var, Some(Handle::Conn(conn)))?))
        }
        Handle::Fd(fd) => Ok(fails(Err::Val, var_line(alloc, var, Some(Handle::Fd(fd)))?)),
    }
}

/// A socket call wants a descriptor, whose word is looked at next.
fn fd_handle(alloc: Global, var: u32, handle: Handle, used: FdUse) -> Result<Step, NoMemory>
    ensures { IfOk result (λ s. s ≡ fd_handle handle var used) }
{
    match handle {
        Handle::Conn(conn) => Ok(fails(Err::Val, var_line(alloc, var, Some(Handle::Conn(conn)))?)),
        Handle::Fd(fd) => Ok(to(Place::Fd { var, fd, used }, no_lines(alloc))),
    }
}

/// What the name in a variable leads to.
fn var_handle(alloc: Global, var: u32, used: VarUse, named: Named) -> Result<Step, NoMemory>
    ensures { IfOk result (λ s. s ≡ var_handle used var named) }
{
    match used {
        VarUse::OfConn(used) => conn_handle(alloc, var, named, used),
        VarUse::OfFd(used) => fd_handle(alloc, var, named.handle, used),
    }
}

/// What a variable's word leads to.
pub(crate) fn after_var(
    alloc: Global,
    var: u32,
    used: VarUse,
    named: Option<Named>,
) -> Result<Step, NoMemory>
    ensures { IfOk result (λ s. s ≡ after_var var used named) }
{
    match named {
        None => Ok(fails(Err::Conn, var_line(alloc, var, None)?)),
        Some(named) => var_handle(alloc, var, used, named),
    }
}

/// What a call does with its descriptor.
fn fd_does(alloc: Global, used: FdUse, fd: u32, word: FdWord) -> Result<Place, NoMemory>
    ensures { IfOk result (λ p. p ≡ fd_does used fd word) }
{
    match used {
        FdUse::OfConn(used) => does(alloc, used, fd_target(word)),
        FdUse::Close => Ok(makes(alloc, Event::CloseFd(fd), Then::Freed)),
        FdUse::Set(option) => Ok(makes(alloc, Event::SetFd(fd, option), Then::Answer)),
        FdUse::Select(selecting, item) => {
            Ok(selects(alloc, with_target(selecting, item, word.conn)?))
        }
    }
}

/// The lines of a variable's word and its descriptor's.
fn fd_lines(alloc: Global, var: u32, fd: u32, word: FdWord) -> Result<SeenList, NoMemory>
    ensures { IfOk result (λ lines. lines ≡ fd_lines var fd word) }
{
    let line = var_line(alloc, var, Some(Handle::Fd(fd)))?;
    added(
        line,
        Seen::Sight(Sight::Fdw {
            fd,
            conn: word.conn,
            nonblock: word.nonblock,
            timeout: word.timeout,
        }),
    )
}

/// Where a descriptor's word leads: nowhere where the descriptor is free.
fn fd_place(
    alloc: Global,
    free: bool,
    fd: u32,
    used: FdUse,
    word: FdWord,
) -> Result<Place, NoMemory>
    ensures { IfOk result (λ p. p ≡ fd_place free fd used word) }
{
    match free {
        true => Ok(Place::Done(Outcome::Fail(Err::Conn))),
        false => fd_does(alloc, used, fd, word),
    }
}

/// What a descriptor's word leads to.
pub(crate) fn after_fd(
    alloc: Global,
    var: u32,
    fd: u32,
    used: FdUse,
    word: FdWord,
) -> Result<Step, NoMemory>
    ensures { IfOk result (λ s. s ≡ after_fd var fd used word) }
{
    let next = fd_place(alloc, word.conn == 0, fd, used, word)?;
    Ok(to(next, fd_lines(alloc, var, fd, word)?))
}
