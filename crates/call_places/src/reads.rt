//! What the tries of signals, connects, accepts and receives lead to.
ghost use Rattle.std.specs.Prelude.{◌≡◌, ◌∷◌, [], IfOk};
ghost use Rattle.call_places.specs.Reads.{saw, took, got_datagram, accepted, asks_fault, counted, after_count, connect_looks, after_connect_look, names_accepted, none_accepted, after_accept, due_again, wants_more, read_so_far, read_more, gives_back, read_segment, read_octets, read_datagram, none_read, is_unreadable, after_read};

use crate::lines::{ends, fails, no_lines, one_sight, to};
use crate::waits::{read_end, vain, waiting};
use crate::{
    Accepting, Awaiting, Due, NoMemory, Piece, Place, ReadKind, Reading, SeenList, Step, Then,
    Timing, Want,
};
use call_types::{Interface, Outcome, Sight};
use lw_base::{Err, Flag, Ip, Octets, Port, Word};
use lw_events::{Event, Handle};
use std::alloc::{AllocError, Global};

/// The line of a connection's event word.
fn saw(alloc: Global, conn: u32, word: Word) -> Result<SeenList, NoMemory>
    ensures { IfOk result (λ lines. lines ≡ saw conn word) }
{
    one_sight(alloc, Sight::Saw(conn, word))
}

/// The line of octets of a segment.
fn took(
    alloc: Global,
    conn: u32,
    ticket: u32,
    from: u32,
    octets: Octets,
) -> Result<SeenList, NoMemory>
    ensures { IfOk result (λ lines. lines ≡ took conn ticket from octets) }
{
    one_sight(
        alloc,
        Sight::Take {
            conn,
            ticket,
            from,
            octets,
        },
    )
}

/// The line of a datagram.
fn got_datagram(
    alloc: Global,
    conn: u32,
    ticket: u32,
    from: (Ip, Port),
    octets: Octets,
) -> Result<SeenList, NoMemory>
    ensures { IfOk result (λ lines. lines ≡ got_datagram conn ticket from.0 from.1 octets) }
{
    let (ip, port) = from;
    one_sight(
        alloc,
        Sight::Datagram {
            conn,
            ticket,
            ip,
            port,
            octets,
        },
    )
}

/// The line of an accepted connection.
fn accepted(alloc: Global, conn: u32, ticket: u32, fresh: u32) -> Result<SeenList, NoMemory>
    ensures { IfOk result (λ lines. lines ≡ accepted conn ticket fresh) }
{
    one_sight(
        alloc,
        Sight::Accepted {
            conn,
            ticket,
            fresh,
        },
    )
}

/// The fault of a connection ends a call that saw it.
fn asks_fault(alloc: Global, conn: u32, got: u32, word: Word) -> Result<Step, NoMemory>
    ensures { IfOk result (λ s. s ≡ asks_fault conn got word) }
{
    let next = Place::Make {
        event: Event::GetError(conn),
        after: Then::Failed(got),
        held: saw(alloc, conn, word)?,
    };
    Ok(to(next, no_lines(alloc)))
}

/// A wait for a signal ends as it came so often.
fn counted(
    alloc: Global,
    enough: bool,
    awaiting: Awaiting,
    timing: Timing,
    n: u32,
) -> Result<Step, NoMemory>
    ensures { IfOk result (λ s. s ≡ counted enough awaiting timing n) }
{
    let line = one_sight(alloc, Sight::Count(awaiting.signal, n))?;
    match enough {
        true => Ok(ends(Outcome::Ok, line)),
        false => vain(alloc, Want::Signal(awaiting), timing, line),
    }
}

/// What a signal's count leads to.
pub fn after_count(
    alloc: Global,
    awaiting: Awaiting,
    timing: Timing,
    n: u32,
) -> Result<Step, NoMemory>
    ensures { IfOk result (λ s. s ≡ after_count awaiting timing n) }
{
    counted(alloc, awaiting.count <= n, awaiting, timing, n)
}

/// A connect ends as its connection is closed, has a fault, or has room for octets.
fn connect_looks(
    alloc: Global,
    flags: (bool, bool, bool),
    conn: u32,
    timing: Timing,
    word: Word,
) -> Result<Step, NoMemory>
    ensures { IfOk result (λ s. s ≡ connect_looks flags.0 flags.1 flags.2 conn timing word) }
{
    match flags {
        (true, _, _) => Ok(fails(Err::Conn, saw(alloc, conn, word)?)),
        (false, true, _) => asks_fault(alloc, conn, 0, word),
        (false, false, true) => Ok(ends(Outcome::Ok, saw(alloc, conn, word)?)),
        (false, false, false) => {
            vain(
                alloc,
                Want::Connected(conn),
                timing,
                saw(alloc, conn, word)?,
            )
        }
    }
}

/// What a connect's look leads to.
pub fn after_connect_look(
    alloc: Global,
    conn: u32,
    timing: Timing,
    word: Word,
) -> Result<Step, NoMemory>
    ensures { IfOk result (λ s. s ≡ after_connect_look conn timing word) }
{
    let flags = (
        word.has(Flag::Closed),
        word.has(Flag::Fault),
        word.has(Flag::Writable),
    );
    connect_looks(alloc, flags, conn, timing, word)
}

/// An accepted connection gets its descriptor and its variable, or its variable alone.
fn names_accepted(interface: Interface, var: u32, fresh: u32, held: SeenList) -> Place
    ensures { result ≡ names_accepted interface var fresh held }
{
    match interface {
        Interface::Socket => Place::Make {
            event: Event::OpenFd(fresh),
            after: Then::Opened { var, conn: fresh },
            held,
        },
        Interface::Netconn => Place::Make {
            event: Event::SetVar(var, Handle::Conn(fresh)),
            after: Then::Gives(Outcome::Conn(fresh)),
            held,
        },
    }
}

/// Nothing to accept: a closed connection and one that doesn't listen end the call.
fn none_accepted(
    alloc: Global,
    closed: bool,
    listens: bool,
    accepting: Accepting,
    timing: Timing,
    word: Word,
) -> Result<Step, NoMemory>
    ensures { IfOk result (λ s. s ≡ none_accepted closed listens accepting timing word) }
{
    let line = saw(alloc, accepting.conn, word)?;
    match (closed, listens) {
        (true, _) => Ok(fails(Err::Conn, line)),
        (false, false) => Ok(fails(Err::Val, line)),
        (false, true) => vain(alloc, Want::Accept(accepting), timing, line),
    }
}

/// What an accept does with what it took.
pub fn after_accept(
    alloc: Global,
    accepting: Accepting,
    timing: Timing,
    piece: Piece,
) -> Result<Step, NoMemory>
    ensures { IfOk result (λ s. s ≡ after_accept accepting timing piece) }
{
    match piece {
        Piece::Segment {
            ticket,
            from,
            octets,
        } => Ok(fails(Err::Val, took(alloc, accepting.conn, ticket, from, octets)?)),
        Piece::Datagram {
            ticket,
            ip,
            port,
            octets,
        } => Ok(fails(
            Err::Val,
            got_datagram(alloc, accepting.conn, ticket, (ip, port), octets)?,
        )),
        Piece::Accepted { ticket, fresh } => {
            let line = accepted(alloc, accepting.conn, ticket, fresh)?;
            let next = names_accepted(accepting.interface, accepting.var, fresh, line);
            Ok(to(next, no_lines(alloc)))
        }
        Piece::Nothing(word) => none_accepted(
            alloc,
            word.has(Flag::Closed),
            word.has(Flag::Listen),
            accepting,
            timing,
            word,
        ),
    }
}

/// Why a wait is due after a piece: one that doesn't wait stays so.
fn due_again(due: Option<Due>) -> Option<Due>
    ensures { result ≡ due_again due }
{
    match due {
        Some(Due::AtOnce) => Some(Due::AtOnce),
        Some(Due::Stopped) => None,
        Some(Due::Time(_)) => None,
        Some(Due::GivenUp) => None,
        None => None,
    }
}

/// Whether a receive goes on with so many octets.
fn wants_more(kind: ReadKind, got: u32, count: u32) -> bool
    ensures { result ≡ wants_more kind got count }
{
    match kind {
        ReadKind::Once => false,
        ReadKind::All => got < count,
        ReadKind::From => false,
        ReadKind::Item => false,
    }
}

/// A receive goes on, or ends with so many octets.
fn read_so_far(more: bool, reading: Reading, timing: Timing, got: u32, lines: SeenList) -> Step
    ensures { result ≡ read_so_far more reading timing got lines }
{
    match more {
        true => {
            let want = Want::Read(Reading {
                conn: reading.conn,
                kind: reading.kind,
                count: reading.count,
                got,
            });
            let timing = Timing {
                limit: timing.limit,
                begun: timing.begun,
                due: due_again(timing.due),
            };
            to(waiting(want, timing), lines)
        }
        false => ends(Outcome::Read(got), lines),
    }
}

/// A receive has so many octets more.
pub fn read_more(
    reading: Reading,
    timing: Timing,
    more: u32,
    lines: SeenList,
) -> Result<Step, NoMemory>
    ensures { IfOk result (λ s. s ≡ read_more reading timing more lines) }
{
    let got = reading.got.checked_add(more).ok_or(AllocError)?;
    let goes_on = wants_more(reading.kind, got, reading.count);
    Ok(read_so_far(goes_on, reading, timing, got, lines))
}

/// Octets of TCP are given back to the window; recvfrom has none.
fn read_segment(alloc: Global, reading: Reading, timing: Timing, n: u32, lines: SeenList) -> Step
    ensures { result ≡ read_segment reading.kind reading timing n lines }
{
    match reading.kind {
        ReadKind::From => fails(Err::Val, lines),
        ReadKind::Once => gives_back(alloc, reading, timing, n, lines),
        ReadKind::All => gives_back(alloc, reading, timing, n, lines),
        ReadKind::Item => gives_back(alloc, reading, timing, n, lines),
    }
}

/// So many octets are given back to the window.
fn gives_back(alloc: Global, reading: Reading, timing: Timing, n: u32, held: SeenList) -> Step
    ensures { result ≡ gives_back reading timing n held }
{
    let next = Place::Make {
        event: Event::Recved(reading.conn, n),
        after: Then::Taken(reading, timing, n),
        held,
    };
    to(next, no_lines(alloc))
}

/// A datagram without octets ends a recvall.
fn read_octets(
    none: bool,
    reading: Reading,
    timing: Timing,
    n: u32,
    lines: SeenList,
) -> Result<Step, NoMemory>
    ensures { IfOk result (λ s. s ≡ read_octets none reading timing n lines) }
{
    match none {
        true => Ok(ends(Outcome::Read(reading.got), lines)),
        false => read_more(reading, timing, n, lines),
    }
}

/// What a receive does with a datagram.
fn read_datagram(
    reading: Reading,
    timing: Timing,
    from: (Ip, Port),
    n: u32,
    lines: SeenList,
) -> Result<Step, NoMemory>
    ensures { IfOk result (λ s. s ≡ read_datagram reading.kind reading timing from.0 from.1 n lines) }
{
    match reading.kind {
        ReadKind::From => Ok(ends(Outcome::From(from.0, from.1, n), lines)),
        ReadKind::Once => read_octets(n == 0, reading, timing, n, lines),
        ReadKind::All => read_octets(n == 0, reading, timing, n, lines),
        ReadKind::Item => read_octets(n == 0, reading, timing, n, lines),
    }
}

/// Nothing is untaken: a connection that is closed, listens or was never connected ends the call, then
/// a fault does, then the end of what the other side sent.
fn none_read(
    alloc: Global,
    flags: (bool, bool, bool),
    reading: Reading,
    timing: Timing,
    word: Word,
) -> Result<Step, NoMemory>
    ensures { IfOk result (λ s. s ≡ none_read flags.0 flags.1 flags.2 reading timing word) }
{
    match flags {
        (true, _, _) => {
            let failed = read_end(reading.got, Outcome::Fail(Err::Conn));
            Ok(ends(failed, saw(alloc, reading.conn, word)?))
        }
        (false, true, _) => asks_fault(alloc, reading.conn, reading.got, word),
        (false, false, true) => Ok(ends(
            Outcome::Read(reading.got),
            saw(alloc, reading.conn, word)?,
        )),
        (false, false, false) => {
            let line = saw(alloc, reading.conn, word)?;
            vain(alloc, Want::Read(reading), timing, line)
        }
    }
}

/// Whether a connection is closed, listens or was never connected.
fn is_unreadable(word: Word) -> bool
    ensures { result ≡ is_unreadable word }
{
    word.has(Flag::Closed) || word.has(Flag::Listen) || word.has(Flag::Idle)
}

/// What a receive does with what it took.
pub fn after_read(
    alloc: Global,
    reading: Reading,
    timing: Timing,
    piece: Piece,
) -> Result<Step, NoMemory>
    ensures { IfOk result (λ s. s ≡ after_read reading timing piece) }
{
    match piece {
        Piece::Segment {
            ticket,
            from,
            octets,
        } => {
            let n = u32::try_from(octets.len()).map_err(|_| AllocError)?;
            let line = took(alloc, reading.conn, ticket, from, octets)?;
            Ok(read_segment(alloc, reading, timing, n, line))
        }
        Piece::Datagram {
            ticket,
            ip,
            port,
            octets,
        } => {
            let n = u32::try_from(octets.len()).map_err(|_| AllocError)?;
            let line = got_datagram(alloc, reading.conn, ticket, (ip, port), octets)?;
            read_datagram(reading, timing, (ip, port), n, line)
        }
        Piece::Accepted { ticket, fresh } => Ok(fails(
            Err::Val,
            accepted(alloc, reading.conn, ticket, fresh)?,
        )),
        Piece::Nothing(word) => {
            let flags = (
                is_unreadable(word),
                word.has(Flag::Fault),
                word.has(Flag::Ended),
            );
            none_read(alloc, flags, reading, timing, word)
        }
    }
}
