//! The calls as one machine: how a call begins, what it asks, and where an answer leads it.
ghost use Rattle.std.specs.Prelude.{◌≡◌, ◌∷◌, [], IfOk};
ghost use Rattle.lw_calls.specs.Machine.{uses, begins_close, begins_ticks, awaits, awaits_on, end_on, awaits_side, pumps, pumps_until, begins, portion_of, tries, waits_for, asks, is_pause, is_resting, less, feeds_on, after_feed, after_try, after_wait, steps};

use crate::answers::{
    emptied_of, fd_of, feeding_of, number_of, piece_of, reply_of, turn_of, var_of, whether_of,
    word_of,
};
use crate::copies::{copy_event, copy_octets};
use crate::replies::{after_reply, closes};
use crate::rounds::{after_round, is_same, round_asks, rounds_on};
use crate::uses::{after_fd, after_var};
use call_places::{
    Answer, Ask, Awaiting, Caller, FdUse, Feeding, NoMemory, Place, Portion, ReadKind, RoundsEnd,
    Selecting, Stage, Step, Then, Timing, Use, VarUse, Want, after_accept, after_begin,
    after_connect_look, after_count, after_now, after_pause, after_read, after_room, after_scan,
    after_stop, after_write, ends, makes, no_lines, one_core, one_sight, see_next, selects, stray,
    timed, to, waiting,
};
use call_types::{Call, Interface, Outcome, Side, Sight};
use lw_base::{Err, Series};
use lw_events::{Event, FdOption};
use std::alloc::{AllocError, Global};

/// A call looks its connection up: a netconn call by its variable, a socket call by that one's
/// descriptor too.
fn uses(interface: Interface, var: u32, used: Use) -> Place
    ensures { result ≡ uses interface var used }
{
    match interface {
        Interface::Socket => Place::Var(var, VarUse::OfFd(FdUse::OfConn(used))),
        Interface::Netconn => Place::Var(var, VarUse::OfConn(used)),
    }
}

/// Where a close begins.
fn begins_close(interface: Interface, var: u32) -> Place
    ensures { result ≡ begins_close interface var }
{
    match interface {
        Interface::Socket => Place::Var(var, VarUse::OfFd(FdUse::Close)),
        Interface::Netconn => Place::Var(var, VarUse::OfConn(Use::Close)),
    }
}

/// Where so many ticks begin.
fn begins_ticks(alloc: Global, n: u32) -> Place
    ensures { result ≡ begins_ticks n }
{
    if n == 0 {
        Place::Done(Outcome::Ok)
    } else {
        makes(alloc, Event::Tick, Then::Ticks(n - 1))
    }
}

/// Where a wait for a signal begins.
fn awaits(caller: Caller, signal: u32, count: u32) -> Place
    ensures { result ≡ awaits caller signal count }
{
    let awaiting = Awaiting {
        signal,
        count,
        caller,
    };
    waiting(Want::Signal(awaiting), timed(None, None))
}

/// Where a wait for a signal of one side of a wire begins on a side.
fn awaits_on(same: bool, side: Side, signal: u32, count: u32) -> Place
    ensures { result ≡ awaits_on same side signal count }
{
    match same {
        true => awaits(Caller::Wire(side), signal, count),
        false => Place::Done(Outcome::Ok),
    }
}

/// When rounds end that a signal ends.
fn end_on(same: bool, signal: u32, count: u32) -> RoundsEnd
    ensures { result ≡ end_on same signal count }
{
    match same {
        true => RoundsEnd::Signal(signal, count),
        false => RoundsEnd::Other,
    }
}

/// Where a wire's wait for a signal begins.
fn awaits_side(caller: Caller, at: Side, signal: u32, count: u32) -> Place
    ensures { result ≡ awaits_side caller at signal count }
{
    match caller {
        Caller::Actor => Place::Done(Outcome::Fail(Err::Val)),
        Caller::Driver => Place::Done(Outcome::Fail(Err::Val)),
        Caller::Wire(side) => awaits_on(is_same(side, at), side, signal, count),
    }
}

/// Where so many rounds begin.
fn pumps(caller: Caller, n: u32) -> Place
    ensures { result ≡ pumps caller n }
{
    match caller {
        Caller::Actor => Place::Done(Outcome::Fail(Err::Val)),
        Caller::Driver => Place::Done(Outcome::Fail(Err::Val)),
        Caller::Wire(side) => rounds_on(side, RoundsEnd::After(n)),
    }
}

/// Where rounds begin that a signal ends.
fn pumps_until(caller: Caller, at: Side, signal: u32, count: u32) -> Place
    ensures { result ≡ pumps_until caller at signal count }
{
    match caller {
        Caller::Actor => Place::Done(Outcome::Fail(Err::Val)),
        Caller::Driver => Place::Done(Outcome::Fail(Err::Val)),
        Caller::Wire(side) => rounds_on(side, end_on(is_same(side, at), signal, count)),
    }
}

/// Where a call begins.
pub fn start(alloc: Global, caller: Caller, call: Call) -> Place
    ensures { result ≡ begins caller call }
{
    match call {
        Call::New(interface, var, proto) => {
            makes(alloc, Event::New(proto), Then::Made(interface, var))
        }
        Call::Bind(interface, var, ip, port) => uses(interface, var, Use::Bind(ip, port)),
        Call::Connect(interface, var, ip, port) => uses(interface, var, Use::Connect(ip, port)),
        Call::Listen(interface, var) => uses(interface, var, Use::Listen),
        Call::Accept(interface, var, fresh) => {
            uses(interface, var, Use::Accept(interface, fresh))
        }
        Call::Send(interface, var, octets) => uses(interface, var, Use::Send(octets)),
        Call::SendTo(interface, var, ip, port, octets) => {
            uses(interface, var, Use::SendTo(ip, port, octets))
        }
        Call::Recv(var, n) => uses(Interface::Socket, var, Use::Read(ReadKind::Once, n)),
        Call::RecvAll(var, n) => uses(Interface::Socket, var, Use::Read(ReadKind::All, n)),
        Call::RecvFrom(var, n) => uses(Interface::Socket, var, Use::Read(ReadKind::From, n)),
        Call::RecvItem(var) => uses(Interface::Netconn, var, Use::Read(ReadKind::Item, 0)),
        Call::TryItem(var) => uses(Interface::Netconn, var, Use::TryItem),
        Call::Shutdown(interface, var) => uses(interface, var, Use::Shutdown),
        Call::Close(interface, var) => begins_close(interface, var),
        Call::NonBlock(var, on) => {
            Place::Var(var, VarUse::OfFd(FdUse::Set(FdOption::NonBlock(on))))
        }
        Call::NoDelay(var, on) => uses(Interface::Socket, var, Use::NoDelay(on)),
        Call::Timeout(var, ticks) => {
            Place::Var(var, VarUse::OfFd(FdUse::Set(FdOption::Timeout(ticks))))
        }
        Call::GetAddr(var, which) => uses(Interface::Socket, var, Use::GetAddr(which)),
        Call::Select(limit, items) => {
            let targets = Series::from_vec(Vec::new(alloc));
            selects(
                alloc,
                Selecting {
                    limit,
                    items,
                    targets,
                },
            )
        }
        Call::Signal(signal) => makes(alloc, Event::Signal(signal), Then::Answer),
        Call::Await(signal, count) => awaits(caller, signal, count),
        Call::Feed(left) => Place::Feed {
            left,
            burst: false,
            fed: 0,
        },
        Call::Burst(n) => Place::Feed {
            left: Some(n),
            burst: true,
            fed: 0,
        },
        Call::Tick(n) => begins_ticks(alloc, n),
        Call::Stop => makes(alloc, Event::Stop, Then::Answer),
        Call::AwaitSide(at, signal, count) => awaits_side(caller, at, signal, count),
        Call::Pump(n) => pumps(caller, n),
        Call::Until(at, signal, count) => pumps_until(caller, at, signal, count),
    }
}

/// What a receive takes: a whole item, or the octets still wanted.
fn portion_of(kind: ReadKind, count: u32, got: u32) -> Portion
    ensures { result ≡ portion_of kind count got }
{
    match kind {
        ReadKind::Once => Portion::Octets(count.saturating_sub(got)),
        ReadKind::All => Portion::Octets(count.saturating_sub(got)),
        ReadKind::From => Portion::Octets(count.saturating_sub(got)),
        ReadKind::Item => Portion::Item,
    }
}

/// What a wait tries.
fn tries(want: &Want) -> Ask
    ensures { result ≡ tries want.now }
{
    match want {
        Want::Signal(awaiting) => Ask::Signal(awaiting.signal),
        Want::Accept(accepting) => Ask::Take(accepting.conn, Portion::Accepted),
        Want::Read(reading) => Ask::Take(
            reading.conn,
            portion_of(reading.kind, reading.count, reading.got),
        ),
        Want::Connected(conn) => Ask::See(*conn),
        Want::Room(sending) => Ask::See(sending.conn),
        Want::Scan(scan) => see_next(scan),
    }
}

/// What a wait asks.
fn waits_for(stage: Stage, want: &Want) -> Ask
    ensures { result ≡ waits_for stage want.now }
{
    match stage {
        Stage::Try => tries(want),
        Stage::Begin => Ask::Ticks,
        Stage::Stop => Ask::Stop,
        Stage::Now => Ask::Ticks,
        Stage::Pause => Ask::Pause,
    }
}

/// What a call asks where it stands.
pub fn ask(alloc: Global, place: &Place) -> Result<Ask, NoMemory>
    ensures { IfOk result (λ a. a ≡ asks place.now) }
{
    match place {
        Place::Var(var, _) => Ok(Ask::Var(*var)),
        Place::Fd { fd, .. } => Ok(Ask::Fd(*fd)),
        Place::Make { event, .. } => Ok(Ask::Core(copy_event(alloc, event)?)),
        Place::Write { sending, .. } => Ok(Ask::Core(Event::Write(
            sending.conn,
            copy_octets(alloc, &sending.rest)?,
        ))),
        Place::Empty(conn) => Ok(Ask::Empty(*conn)),
        Place::Waits(stage, want, _) => Ok(waits_for(*stage, want)),
        Place::Round(stage, rounds) => Ok(round_asks(*stage, rounds.end)),
        Place::Feed { left, burst, .. } => Ok(Ask::Feed {
            left: *left,
            burst: *burst,
        }),
        Place::Done(_) => Ok(Ask::Nothing),
    }
}

/// Whether a wait lets the others have their turn.
fn is_pause(stage: Stage) -> bool
    ensures { result ≡ is_pause stage }
{
    match stage {
        Stage::Try => false,
        Stage::Begin => false,
        Stage::Stop => false,
        Stage::Now => false,
        Stage::Pause => true,
    }
}

/// Whether a call has ended, or lets the others have their turn.
pub fn is_resting(place: &Place) -> bool
    ensures { result ≡ is_resting place.now }
{
    match place {
        Place::Var(_, _) => false,
        Place::Fd { .. } => false,
        Place::Make { .. } => false,
        Place::Write { .. } => false,
        Place::Empty(_) => false,
        Place::Waits(stage, _, _) => is_pause(*stage),
        Place::Round(_, _) => false,
        Place::Feed { .. } => false,
        Place::Done(_) => true,
    }
}

/// One frame less is left.
fn less(left: Option<u32>) -> Option<u32>
    ensures { result ≡ less left }
{
    match left {
        Some(n) => Some(n.saturating_sub(1)),
        None => None,
    }
}

/// A line for each frame that was fed, and the number of them at the end.
fn after_feed(
    alloc: Global,
    left: Option<u32>,
    burst: bool,
    fed: u32,
    feeding: Feeding,
) -> Result<Step, NoMemory>
    ensures { IfOk result (λ s. s ≡ after_feed left burst fed feeding) }
{
    match feeding {
        Feeding::Fed => Ok(to(feeds_on(left, burst, fed)?, one_core(alloc)?)),
        Feeding::Dropped(k, cause) => Ok(to(
            feeds_on(left, burst, fed)?,
            one_sight(alloc, Sight::Dropped(k, cause))?,
        )),
        Feeding::NoMore => Ok(ends(Outcome::Fed(fed), no_lines(alloc))),
    }
}

/// A feed after one frame more.
fn feeds_on(left: Option<u32>, burst: bool, fed: u32) -> Result<Place, NoMemory>
    ensures { IfOk result (λ p. p ≡ feeds_on left burst fed) }
{
    let fed = fed.checked_add(1).ok_or(AllocError)?;
    Ok(Place::Feed {
        left: less(left),
        burst,
        fed,
    })
}

/// What a wait's try leads to.
fn after_try(alloc: Global, want: Want, timing: Timing, answer: Answer) -> Result<Step, NoMemory>
    ensures { IfOk result (λ s. s ≡ after_try want timing answer) }
{
    match want {
        Want::Signal(awaiting) => match number_of(answer) {
            Some(n) => after_count(alloc, awaiting, timing, n),
            None => Ok(stray(alloc)),
        },
        Want::Accept(accepting) => match piece_of(answer) {
            Some(piece) => after_accept(alloc, accepting, timing, piece),
            None => Ok(stray(alloc)),
        },
        Want::Read(reading) => match piece_of(answer) {
            Some(piece) => after_read(alloc, reading, timing, piece),
            None => Ok(stray(alloc)),
        },
        Want::Connected(conn) => match word_of(answer) {
            Some(word) => after_connect_look(alloc, conn, timing, word),
            None => Ok(stray(alloc)),
        },
        Want::Room(sending) => match word_of(answer) {
            Some(word) => Ok(after_room(alloc, sending, timing, word)),
            None => Ok(stray(alloc)),
        },
        Want::Scan(scan) => match word_of(answer) {
            Some(word) => after_scan(alloc, scan, timing, word),
            None => Ok(stray(alloc)),
        },
    }
}

/// What a wait's look leads to.
fn after_wait(
    alloc: Global,
    stage: Stage,
    want: Want,
    timing: Timing,
    answer: Answer,
) -> Result<Step, NoMemory>
    ensures { IfOk result (λ s. s ≡ after_wait stage want timing answer) }
{
    match stage {
        Stage::Try => after_try(alloc, want, timing, answer),
        Stage::Begin => match number_of(answer) {
            Some(now) => after_begin(alloc, want, timing, now),
            None => Ok(stray(alloc)),
        },
        Stage::Stop => match whether_of(answer) {
            Some(stopped) => Ok(after_stop(alloc, want, timing, stopped)),
            None => Ok(stray(alloc)),
        },
        Stage::Now => match number_of(answer) {
            Some(now) => Ok(after_now(alloc, want, timing, now)),
            None => Ok(stray(alloc)),
        },
        Stage::Pause => match turn_of(answer) {
            Some(turn) => Ok(after_pause(alloc, want, timing, turn)),
            None => Ok(stray(alloc)),
        },
    }
}

/// Where an answer leads a call, and the lines that this writes.
pub fn step(alloc: Global, place: Place, answer: Answer) -> Result<Step, NoMemory>
    ensures { IfOk result (λ s. s ≡ steps place answer) }
{
    match place {
        Place::Var(var, used) => match var_of(answer) {
            Some(named) => after_var(alloc, var, used, named),
            None => Ok(stray(alloc)),
        },
        Place::Fd { var, fd, used } => match fd_of(answer) {
            Some(word) => after_fd(alloc, var, fd, used, word),
            None => Ok(stray(alloc)),
        },
        Place::Make { after, held, .. } => match reply_of(answer) {
            Some(reply) => after_reply(alloc, after, held, reply),
            None => Ok(stray(alloc)),
        },
        Place::Write { sending, due, held } => match reply_of(answer) {
            Some(reply) => after_write(alloc, sending, due, held, reply),
            None => Ok(stray(alloc)),
        },
        Place::Empty(_) => match emptied_of(answer) {
            Some(conns) => Ok(to(closes(alloc, conns, 0)?, no_lines(alloc))),
            None => Ok(stray(alloc)),
        },
        Place::Waits(stage, want, timing) => after_wait(alloc, stage, want, timing, answer),
        Place::Round(stage, rounds) => after_round(alloc, stage, rounds, answer),
        Place::Feed { left, burst, fed } => match feeding_of(answer) {
            Some(feeding) => after_feed(alloc, left, burst, fed, feeding),
            None => Ok(stray(alloc)),
        },
        Place::Done(ended) => Ok(ends(ended, no_lines(alloc))),
    }
}
