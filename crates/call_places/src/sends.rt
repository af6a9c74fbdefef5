//! Sends: a stream's octets are written again and again until all are accepted.
ghost use Rattle.std.specs.Prelude.{◌≡◌, ◌≤◌, ◌∷◌, [], IfOk, length};
ghost use Rattle.call_places.specs.declared.place.Place.{Place};
ghost use Rattle.call_places.specs.Sends.{sent_or, after_octets, next_write, wrote_by, wrote_some, blocked, would_block, write_failed, is_would_block, ends_with, wrote_with, after_write, may_write, room_by, after_room};

use crate::lines::{ends, joined, no_lines, one_sight, outcome_of, to, with_core};
use crate::waits::{goes_on, timed, waiting};
use crate::{Due, NoMemory, Place, SeenList, Sending, Step, Timing, Want};
use call_types::{Outcome, Sight};
use lw_base::{Err, Flag, Series, Word};
use lw_events::Reply;
use std::alloc::{AllocError, Global};

/// How a send ends that can go on no more: by what was accepted, if anything was.
fn sent_or(sent: u32, outcome: Outcome) -> Outcome
    ensures { result ≡ sent_or sent outcome }
{
    if sent == 0 {
        outcome
    } else {
        Outcome::Sent(sent)
    }
}

/// The octets behind the first n are left.
fn after_octets(alloc: Global, sending: Sending, n: u32) -> Result<Sending, NoMemory>
    requires { n ≤ length sending.rest }
    ensures { IfOk result (λ left. left ≡ after_octets sending n) }
{
    let sent = sending.sent.checked_add(n).ok_or(AllocError)?;
    let (_, left) = sending.rest.as_slice().split_at(n as usize);
    let rest = Series::from_vec(left.to_vec(alloc)?);
    Ok(Sending {
        conn: sending.conn,
        rest,
        sent,
    })
}

/// The next write: after the stop word was set its lines are held.
fn next_write(alloc: Global, sending: Sending, due: Option<Due>, lines: SeenList) -> Step
    ensures { result ≡ next_write due sending lines }
{
    match due {
        Some(Due::Stopped) => to(writes(sending, due, lines), no_lines(alloc)),
        Some(Due::AtOnce) => to(writes(sending, due, no_lines(alloc)), lines),
        Some(Due::Time(_)) => to(writes(sending, due, no_lines(alloc)), lines),
        Some(Due::GivenUp) => to(writes(sending, due, no_lines(alloc)), lines),
        None => to(writes(sending, due, no_lines(alloc)), lines),
    }
}

/// A send writes.
fn writes(sending: Sending, due: Option<Due>, held: SeenList) -> Place
    ensures { result ≡ Place.Write sending due held }
{
    Place::Write { sending, due, held }
}

/// So many octets were accepted: all, or not all.
fn wrote_some(
    alloc: Global,
    sending: Sending,
    due: Option<Due>,
    lines: SeenList,
    n: u32,
) -> Result<Step, NoMemory>
    ensures { IfOk result (λ s. s ≡ wrote_some sending due lines n) }
{
    if sending.rest.len() <= n as usize {
        let sent = sending.sent.checked_add(n).ok_or(AllocError)?;
        Ok(ends(Outcome::Sent(sent), lines))
    } else {
        let left = after_octets(alloc, sending, n)?;
        Ok(next_write(alloc, left, due, lines))
    }
}

/// Nothing fits: the call waits for room, or it ends as it doesn't wait or the stop word was set.
fn would_block(
    alloc: Global,
    sending: Sending,
    due: Option<Due>,
    lines: SeenList,
) -> Result<Step, NoMemory>
    ensures { IfOk result (λ s. s ≡ would_block due sending lines) }
{
    match due {
        Some(Due::AtOnce) => Ok(blocked(sending.sent, lines)),
        Some(Due::Stopped) => {
            let ended = sent_or(sending.sent, Outcome::Fail(Err::Abrt));
            Ok(ends(ended, joined(one_sight(alloc, Sight::Stopped)?, lines)?))
        }
        Some(Due::Time(_)) => Ok(blocked(sending.sent, lines)),
        Some(Due::GivenUp) => Ok(blocked(sending.sent, lines)),
        None => Ok(to(waiting(Want::Room(sending), timed(None, None)), lines)),
    }
}

/// A send that doesn't wait ends where nothing fits.
fn blocked(sent: u32, lines: SeenList) -> Step
    ensures { result ≡ blocked sent lines }
{
    ends(sent_or(sent, Outcome::Fail(Err::WouldBlock)), lines)
}

/// Whether the code says that nothing fits.
fn is_would_block(code: Err) -> bool
    ensures { result ≡ is_would_block code }
{
    match code {
        Err::WouldBlock => true,
        _ => false,
    }
}

/// A write failed.
fn write_failed(
    alloc: Global,
    blocks: bool,
    code: Err,
    sending: Sending,
    due: Option<Due>,
    lines: SeenList,
) -> Result<Step, NoMemory>
    ensures { IfOk result (λ s. s ≡ write_failed blocks code sending due lines) }
{
    match blocks {
        true => would_block(alloc, sending, due, lines),
        false => Ok(ends(sent_or(sending.sent, Outcome::Fail(code)), lines)),
    }
}

/// What the reply to a write leads to.
pub fn after_write(
    alloc: Global,
    sending: Sending,
    due: Option<Due>,
    held: SeenList,
    reply: Reply,
) -> Result<Step, NoMemory>
    ensures { IfOk result (λ s. s ≡ after_write sending due held reply) }
{
    let lines = with_core(held)?;
    match reply {
        Reply::Wrote(n) => wrote_some(alloc, sending, due, lines, n),
        Reply::Fail(code) => {
            write_failed(alloc, is_would_block(code), code, sending, due, lines)
        }
        Reply::Done => Ok(ends_with(sending.sent, reply, lines)),
        Reply::Conn(_) => Ok(ends_with(sending.sent, reply, lines)),
        Reply::Fd(_) => Ok(ends_with(sending.sent, reply, lines)),
        Reply::Count(_) => Ok(ends_with(sending.sent, reply, lines)),
        Reply::Ticks(_) => Ok(ends_with(sending.sent, reply, lines)),
        Reply::Addr(_, _) => Ok(ends_with(sending.sent, reply, lines)),
        Reply::Frames(_) => Ok(ends_with(sending.sent, reply, lines)),
    }
}

/// A send ends with a reply that no write has.
fn ends_with(sent: u32, reply: Reply, lines: SeenList) -> Step
    ensures { result ≡ ends_with sent reply lines }
{
    ends(sent_or(sent, outcome_of(reply)), lines)
}

/// Whether a send may write again: there is room, or the next write tells of a fault or the close.
fn may_write(word: Word) -> bool
    ensures { result ≡ may_write word }
{
    word.has(Flag::Writable) || word.has(Flag::Fault) || word.has(Flag::Closed)
}

/// A send writes again, or goes on waiting.
fn room_by(alloc: Global, room: bool, sending: Sending, timing: Timing) -> Step
    ensures { result ≡ room_by room sending timing }
{
    match room {
        true => to(writes(sending, None, no_lines(alloc)), no_lines(alloc)),
        false => goes_on(alloc, Want::Room(sending), timing),
    }
}

/// What a send's look leads to.
pub fn after_room(alloc: Global, sending: Sending, timing: Timing, word: Word) -> Step
    ensures { result ≡ after_room sending timing word }
{
    room_by(alloc, may_write(word), sending, timing)
}
