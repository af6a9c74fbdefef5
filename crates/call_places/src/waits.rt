//! A wait: tries with looks at the ticks and the stop word between them.
ghost use Rattle.std.specs.Prelude.{◌≡◌, ◌++◌, ◌∷◌, [], IfOk};
ghost use Rattle.call_places.specs.Waits.{timed, waiting, limit_of, due_of, read_end, is_scan, code_of_due, last_of, time_lines, due_lines, is_no_actor, skips_looks, looks, goes_on, vain, vain_by, begin_lines, after_begin, last_try, made_due, past_stop, after_stop, has_passed, now_place, after_now, is_driver, can_give_up, given_up, after_pause};

use crate::lines::{ends, joined, no_lines, one_sight, to};
use crate::{Caller, Due, NoMemory, Place, SeenList, Stage, Step, Timing, Turn, Want};
use call_types::{Outcome, Sight};
use lw_base::Err;
use std::alloc::Global;

/// A wait that no tick has ended yet.
pub fn timed(limit: Option<u32>, due: Option<Due>) -> Timing
    ensures { result ≡ timed limit due }
{
    Timing {
        limit,
        begun: None,
        due,
    }
}

/// A wait at its first try.
pub fn waiting(want: Want, timing: Timing) -> Place
    ensures { result ≡ waiting want timing }
{
    Place::Waits(Stage::Try, want, timing)
}

/// A descriptor's timeout of 0 is no limit.
pub fn limit_of(timeout: u32) -> Option<u32>
    ensures { result ≡ limit_of timeout }
{
    if timeout == 0 { None } else { Some(timeout) }
}

/// A descriptor that doesn't wait makes one try.
pub fn due_of(nonblock: bool) -> Option<Due>
    ensures { result ≡ due_of nonblock }
{
    match nonblock {
        true => Some(Due::AtOnce),
        false => None,
    }
}

/// The result of a receive that had so many octets before.
pub fn read_end(got: u32, outcome: Outcome) -> Outcome
    ensures { result ≡ read_end got outcome }
{
    if got == 0 {
        outcome
    } else {
        Outcome::Read(got)
    }
}

/// Whether a try may be several looks.
fn is_scan(want: &Want) -> bool
    ensures { result ≡ is_scan want.now }
{
    match want {
        Want::Signal(_) => false,
        Want::Accept(_) => false,
        Want::Read(_) => false,
        Want::Connected(_) => false,
        Want::Room(_) => false,
        Want::Scan(_) => true,
    }
}

/// The code of a wait that is over.
fn code_of_due(due: Due) -> Err
    ensures { result ≡ code_of_due due }
{
    match due {
        Due::AtOnce => Err::WouldBlock,
        Due::Stopped => Err::Abrt,
        Due::Time(_) => Err::Timeout,
        Due::GivenUp => Err::Abrt,
    }
}

/// What a wait gives whose last try was in vain.
fn last_of(want: &Want, due: Due) -> Outcome
    ensures { result ≡ last_of want.now due }
{
    let failed = Outcome::Fail(code_of_due(due));
    match want {
        Want::Signal(_) => failed,
        Want::Accept(_) => failed,
        Want::Read(reading) => read_end(reading.got, failed),
        Want::Connected(_) => failed,
        Want::Room(_) => failed,
        Want::Scan(_) => Outcome::Nothing,
    }
}

/// The ticks that ended a wait; a scan's first look at them is written with the last.
fn time_lines(alloc: Global, scan: bool, begun: Option<u32>, now: u32) -> Result<SeenList, NoMemory>
    ensures { IfOk result (λ lines. lines ≡ time_lines scan begun now) }
{
    match (scan, begun) {
        (true, Some(begun)) => joined(
            one_sight(alloc, Sight::Ticks(begun))?,
            one_sight(alloc, Sight::Ticks(now))?,
        ),
        (true, None) => one_sight(alloc, Sight::Ticks(now)),
        (false, _) => one_sight(alloc, Sight::Ticks(now)),
    }
}

/// The lines of the look that made a wait due.
fn due_lines(alloc: Global, scan: bool, begun: Option<u32>, due: Due) -> Result<SeenList, NoMemory>
    ensures { IfOk result (λ lines. lines ≡ due_lines scan begun due) }
{
    match due {
        Due::AtOnce => Ok(no_lines(alloc)),
        Due::Stopped => one_sight(alloc, Sight::Stopped),
        Due::Time(now) => time_lines(alloc, scan, begun, now),
        Due::GivenUp => Ok(no_lines(alloc)),
    }
}

/// Whether it is no actor who waits.
fn is_no_actor(caller: Caller) -> bool
    ensures { result ≡ is_no_actor caller }
{
    match caller {
        Caller::Actor => false,
        Caller::Driver => true,
        Caller::Wire(_) => true,
    }
}

/// Whether nothing is looked at between the tries.
fn skips_looks(want: &Want) -> bool
    ensures { result ≡ skips_looks want.now }
{
    match want {
        Want::Signal(awaiting) => is_no_actor(awaiting.caller),
        Want::Accept(_) => false,
        Want::Read(_) => false,
        Want::Connected(_) => false,
        Want::Room(_) => false,
        Want::Scan(_) => false,
    }
}

/// What comes after a try in vain that isn't the last.
fn looks(driver: bool, limit: Option<u32>, begun: Option<u32>) -> Stage
    ensures { result ≡ looks driver limit begun }
{
    match (driver, limit, begun) {
        (true, _, _) => Stage::Pause,
        (false, Some(_), None) => Stage::Begin,
        (false, Some(_), Some(_)) => Stage::Stop,
        (false, None, _) => Stage::Stop,
    }
}

/// A wait goes on after a try in vain.
pub(crate) fn goes_on(alloc: Global, want: Want, timing: Timing) -> Step
    ensures { result ≡ goes_on want timing }
{
    let stage = looks(skips_looks(&want), timing.limit, timing.begun);
    let timing = Timing {
        limit: timing.limit,
        begun: timing.begun,
        due: None,
    };
    to(Place::Waits(stage, want, timing), no_lines(alloc))
}

/// A try found nothing: where the wait is due it ends, with these lines of the try.
pub(crate) fn vain(
    alloc: Global,
    want: Want,
    timing: Timing,
    lines: SeenList,
) -> Result<Step, NoMemory>
    ensures { IfOk result (λ s. s ≡ vain want timing lines) }
{
    match timing.due {
        Some(due) => {
            let before = due_lines(alloc, is_scan(&want), timing.begun, due)?;
            Ok(ends(last_of(&want, due), joined(before, lines)?))
        }
        None => Ok(goes_on(alloc, want, timing)),
    }
}

/// The ticks at the begin of a wait; a select writes them at its end.
fn begin_lines(alloc: Global, scan: bool, begun: u32) -> Result<SeenList, NoMemory>
    ensures { IfOk result (λ lines. lines ≡ begin_lines scan begun) }
{
    match scan {
        true => Ok(no_lines(alloc)),
        false => one_sight(alloc, Sight::Ticks(begun)),
    }
}

/// The wait begins at so many ticks.
pub fn after_begin(alloc: Global, want: Want, timing: Timing, now: u32) -> Result<Step, NoMemory>
    ensures { IfOk result (λ s. s ≡ after_begin want timing now) }
{
    let lines = begin_lines(alloc, is_scan(&want), now)?;
    let timing = Timing {
        limit: timing.limit,
        begun: Some(now),
        due: timing.due,
    };
    Ok(to(Place::Waits(Stage::Stop, want, timing), lines))
}

/// One try more after the stop word was set; a send writes once more.
fn last_try(alloc: Global, want: Want, timing: Timing) -> Place
    ensures { result ≡ last_try want timing }
{
    match want {
        Want::Signal(awaiting) => waiting(Want::Signal(awaiting), timing),
        Want::Accept(accepting) => waiting(Want::Accept(accepting), timing),
        Want::Read(reading) => waiting(Want::Read(reading), timing),
        Want::Connected(conn) => waiting(Want::Connected(conn), timing),
        Want::Room(sending) => Place::Write {
            sending,
            due: timing.due,
            held: no_lines(alloc),
        },
        Want::Scan(scan) => waiting(Want::Scan(scan), timing),
    }
}

/// A wait that is due so.
fn made_due(timing: Timing, due: Option<Due>) -> Timing
    ensures { result ≡ made_due timing due }
{
    Timing {
        limit: timing.limit,
        begun: timing.begun,
        due,
    }
}

/// The ticks are looked at where there is a limit.
fn past_stop(limit: Option<u32>) -> Stage
    ensures { result ≡ past_stop limit }
{
    match limit {
        Some(_) => Stage::Now,
        None => Stage::Pause,
    }
}

/// The wait goes on after its look at the stop word.
pub fn after_stop(alloc: Global, want: Want, timing: Timing, stopped: bool) -> Step
    ensures { result ≡ after_stop want timing stopped }
{
    match stopped {
        true => to(
            last_try(alloc, want, made_due(timing, Some(Due::Stopped))),
            no_lines(alloc),
        ),
        false => to(
            Place::Waits(past_stop(timing.limit), want, timing),
            no_lines(alloc),
        ),
    }
}

/// Whether the limit is over.
fn has_passed(limit: Option<u32>, begun: Option<u32>, now: u32) -> bool
    ensures { result ≡ has_passed limit begun now }
{
    match (limit, begun) {
        (Some(limit), Some(begun)) => u64::from(begun) + u64::from(limit) <= u64::from(now),
        (Some(_), None) => false,
        (None, _) => false,
    }
}

/// Where a wait goes on by whether its limit is over.
fn now_place(passed: bool, want: Want, timing: Timing, now: u32) -> Place
    ensures { result ≡ now_place passed want timing now }
{
    match passed {
        true => waiting(want, made_due(timing, Some(Due::Time(now)))),
        false => Place::Waits(Stage::Pause, want, timing),
    }
}

/// The wait goes on after a look at the ticks.
pub fn after_now(alloc: Global, want: Want, timing: Timing, now: u32) -> Step
    ensures { result ≡ after_now want timing now }
{
    let passed = has_passed(timing.limit, timing.begun, now);
    to(now_place(passed, want, timing, now), no_lines(alloc))
}

/// Whether it is the driver who waits.
fn is_driver(caller: Caller) -> bool
    ensures { result ≡ is_driver caller }
{
    match caller {
        Caller::Actor => false,
        Caller::Driver => true,
        Caller::Wire(_) => false,
    }
}

/// Whether the wait can be given up.
fn can_give_up(want: &Want) -> bool
    ensures { result ≡ can_give_up want.now }
{
    match want {
        Want::Signal(awaiting) => is_driver(awaiting.caller),
        Want::Accept(_) => false,
        Want::Read(_) => false,
        Want::Connected(_) => false,
        Want::Room(_) => false,
        Want::Scan(_) => false,
    }
}

/// Why a wait is due that nobody else can end; the driver alone gives up.
fn given_up(driver: bool, due: Option<Due>) -> Option<Due>
    ensures { result ≡ given_up driver due }
{
    match driver {
        true => Some(Due::GivenUp),
        false => due,
    }
}

/// The wait goes on after the others had their turn.
pub fn after_pause(alloc: Global, want: Want, timing: Timing, turn: Turn) -> Step
    ensures { result ≡ after_pause want timing turn }
{
    match turn {
        Turn::GoOn => to(waiting(want, timing), no_lines(alloc)),
        Turn::GiveUp => {
            let due = given_up(can_give_up(&want), timing.due);
            to(waiting(want, made_due(timing, due)), no_lines(alloc))
        }
    }
}
