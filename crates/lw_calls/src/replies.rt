//! What the reply to a call's event leads to.
ghost use Rattle.std.specs.Prelude.{◌≡◌, ◌==◌, ◌∷◌, [], IfOk, slice_get};
ghost use Rattle.lw_calls.specs.Replies.{ticks_on, names_new, after_new, makes_next, follows, is_full, open_failed, ends_so, after_open, after_free, after_close, close_one, closes, in_progress, is_in_progress, connect_failed, after_connect, after_reply};

use call_places::{
    ConnList, NoMemory, Place, SeenList, Step, Then, Want, ends, fails, makes, no_lines,
    outcome_of, outcome_or, read_end, read_more, timed, to, waiting, with_core,
};
use call_types::{Interface, Outcome};
use lw_base::Err;
use lw_events::{Event, EventText, Handle, Reply};
use std::alloc::{AllocError, Global};

/// One tick more, or all were made.
fn ticks_on(alloc: Global, more: u32, lines: SeenList) -> Step
    ensures { result ≡ ticks_on (more == 0) more lines }
{
    if more == 0 {
        ends(Outcome::Ok, lines)
    } else {
        to(makes(alloc, Event::Tick, Then::Ticks(more - 1)), lines)
    }
}

/// A new connection gets its descriptor, or its variable.
fn names_new(alloc: Global, interface: Interface, var: u32, conn: u32) -> Place
    ensures { result ≡ names_new interface var conn }
{
    match interface {
        Interface::Socket => makes(alloc, Event::OpenFd(conn), Then::Opened { var, conn }),
        Interface::Netconn => makes(
            alloc,
            Event::SetVar(var, Handle::Conn(conn)),
            Then::Gives(Outcome::Conn(conn)),
        ),
    }
}

/// What the reply to New leads to.
fn after_new(alloc: Global, interface: Interface, var: u32, lines: SeenList, reply: Reply) -> Step
    ensures { result ≡ after_new interface var lines reply }
{
    match reply {
        Reply::Conn(conn) => to(names_new(alloc, interface, var, conn), lines),
        other => ends(outcome_of(other), lines),
    }
}

/// One more event of a call: where lines were held its line is held with them.
fn makes_next(alloc: Global, alone: bool, event: EventText, after: Then, lines: SeenList) -> Step
    ensures { result ≡ makes_next alone event after lines }
{
    match alone {
        true => to(makes(alloc, event, after), lines),
        false => to(
            Place::Make {
                event,
                after,
                held: lines,
            },
            no_lines(alloc),
        ),
    }
}

/// One more event of a call behind one whose lines were held.
fn follows(alloc: Global, event: EventText, after: Then, held: SeenList) -> Result<Step, NoMemory>
    ensures { IfOk result (λ s. s ≡ follows event after held) }
{
    let alone = held.is_empty();
    Ok(makes_next(alloc, alone, event, after, with_core(held)?))
}

/// Whether the code says that no descriptor is free.
fn is_full(code: Err) -> bool
    ensures { result ≡ is_full code }
{
    match code {
        Err::Mem => true,
        _ => false,
    }
}

/// Without a free descriptor the connection is closed again.
fn open_failed(
    alloc: Global,
    full: bool,
    code: Err,
    conn: u32,
    held: SeenList,
) -> Result<Step, NoMemory>
    ensures { IfOk result (λ s. s ≡ open_failed full code conn held) }
{
    match full {
        true => follows(
            alloc,
            Event::Close(conn),
            Then::Ends(Outcome::Fail(code)),
            held,
        ),
        false => Ok(fails(code, with_core(held)?)),
    }
}

/// A descriptor gets its variable.
fn after_open(
    alloc: Global,
    var: u32,
    conn: u32,
    held: SeenList,
    reply: Reply,
) -> Result<Step, NoMemory>
    ensures { IfOk result (λ s. s ≡ after_open var conn held reply) }
{
    match reply {
        Reply::Fd(fd) => follows(
            alloc,
            Event::SetVar(var, Handle::Fd(fd)),
            Then::Gives(Outcome::Fd(fd)),
            held,
        ),
        Reply::Fail(code) => open_failed(alloc, is_full(code), code, conn, held),
        Reply::Done => ends_so(held, reply),
        Reply::Conn(_) => ends_so(held, reply),
        Reply::Wrote(_) => ends_so(held, reply),
        Reply::Count(_) => ends_so(held, reply),
        Reply::Ticks(_) => ends_so(held, reply),
        Reply::Addr(_, _) => ends_so(held, reply),
        Reply::Frames(_) => ends_so(held, reply),
    }
}

/// The reply is the result.
fn ends_so(held: SeenList, reply: Reply) -> Result<Step, NoMemory>
    ensures { IfOk result (λ s. s ≡ ends_so held reply) }
{
    Ok(ends(outcome_of(reply), with_core(held)?))
}

/// The connection of the freed descriptor is closed.
fn after_free(alloc: Global, lines: SeenList, reply: Reply) -> Step
    ensures { result ≡ after_free lines reply }
{
    match reply {
        Reply::Conn(conn) => to(makes(alloc, Event::Close(conn), Then::Closed(conn)), lines),
        other => ends(outcome_of(other), lines),
    }
}

/// A closed connection's mailbox is emptied.
fn after_close(conn: u32, lines: SeenList, reply: Reply) -> Step
    ensures { result ≡ after_close conn lines reply }
{
    match reply {
        Reply::Done => to(Place::Empty(conn), lines),
        other => ends(outcome_of(other), lines),
    }
}

/// The connection at this place of the list is closed, if there is one.
fn close_one(
    alloc: Global,
    conn: Option<u32>,
    conns: ConnList,
    at: usize,
) -> Result<Place, NoMemory>
    ensures { IfOk result (λ p. p ≡ close_one conn conns at) }
{
    match conn {
        Some(conn) => {
            let next = at.checked_add(1).ok_or(AllocError)?;
            Ok(makes(alloc, Event::Close(conn), Then::Each(conns, next)))
        }
        None => Ok(Place::Done(Outcome::Ok)),
    }
}

/// The connection at this place of the list.
fn conn_at(conns: &ConnList, at: usize) -> Option<u32>
    ensures { result ≡ slice_get conns.now at }
{
    conns.as_slice().get(at).copied()
}

/// Connections are closed one after another, from this place of their list on.
pub(crate) fn closes(alloc: Global, conns: ConnList, at: usize) -> Result<Place, NoMemory>
    ensures { IfOk result (λ p. p ≡ closes conns at) }
{
    let conn = conn_at(&conns, at);
    close_one(alloc, conn, conns, at)
}

/// A connect that is in progress waits, unless its descriptor doesn't wait.
fn in_progress(nonblock: bool, conn: u32, lines: SeenList) -> Step
    ensures { result ≡ in_progress nonblock conn lines }
{
    match nonblock {
        true => fails(Err::InProgress, lines),
        false => to(waiting(Want::Connected(conn), timed(None, None)), lines),
    }
}

/// Whether the code says that the connect is in progress.
fn is_in_progress(code: Err) -> bool
    ensures { result ≡ is_in_progress code }
{
    match code {
        Err::InProgress => true,
        _ => false,
    }
}

/// A connect isn't done at once.
fn connect_failed(progress: bool, code: Err, conn: u32, nonblock: bool, lines: SeenList) -> Step
    ensures { result ≡ connect_failed progress code conn nonblock lines }
{
    match progress {
        true => in_progress(nonblock, conn, lines),
        false => fails(code, lines),
    }
}

/// What the reply to Connect leads to.
fn after_connect(conn: u32, nonblock: bool, lines: SeenList, reply: Reply) -> Step
    ensures { result ≡ after_connect conn nonblock lines reply }
{
    match reply {
        Reply::Fail(code) => connect_failed(is_in_progress(code), code, conn, nonblock, lines),
        other => ends(outcome_of(other), lines),
    }
}

/// What the reply to an event leads to.
pub(crate) fn after_reply(
    alloc: Global,
    after: Then,
    held: SeenList,
    reply: Reply,
) -> Result<Step, NoMemory>
    ensures { IfOk result (λ s. s ≡ after_reply after held reply) }
{
    match after {
        Then::Answer => ends_so(held, reply),
        Then::Gives(given) => Ok(ends(outcome_or(given, reply), with_core(held)?)),
        Then::Ends(ended) => Ok(ends(ended, with_core(held)?)),
        Then::Ticks(more) => Ok(ticks_on(alloc, more, with_core(held)?)),
        Then::Made(interface, var) => {
            Ok(after_new(alloc, interface, var, with_core(held)?, reply))
        }
        Then::Opened { var, conn } => after_open(alloc, var, conn, held, reply),
        Then::Freed => Ok(after_free(alloc, with_core(held)?, reply)),
        Then::Closed(conn) => Ok(after_close(conn, with_core(held)?, reply)),
        Then::Each(conns, at) => Ok(to(closes(alloc, conns, at)?, with_core(held)?)),
        Then::Connecting { conn, nonblock } => {
            Ok(after_connect(conn, nonblock, with_core(held)?, reply))
        }
        Then::Taken(reading, timing, n) => read_more(reading, timing, n, with_core(held)?),
        Then::Failed(got) => Ok(ends(read_end(got, outcome_of(reply)), with_core(held)?)),
    }
}
