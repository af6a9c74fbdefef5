//! Lists of lines that a step writes, and steps made of them.
ghost use Rattle.std.specs.Prelude.{◌≡◌, ◌++◌, ◌∷◌, [], IfOk};
ghost use Rattle.call_places.specs.declared.place.Seen.{Seen};
ghost use Rattle.call_places.specs.declared.place.Place.{Place};
ghost use Rattle.call_places.specs.Steps.{to, ends, fails, stray, makes, outcome_of, outcome_or, with_core};

use crate::{Place, Seen, SeenList, Step, Then};
use call_types::{Outcome, Sight};
use lw_base::{Err, Series};
use lw_events::{EventText, Reply};
pub use std::alloc::AllocError as NoMemory;
use std::alloc::Global;

/// No lines.
pub fn no_lines(alloc: Global) -> SeenList
    ensures { result ≡ [] }
{
    Series::from_vec(Vec::new(alloc))
}

/// One line of what a call saw.
pub fn one_sight(alloc: Global, sight: Sight) -> Result<SeenList, NoMemory>
    ensures { IfOk result (λ lines. lines ≡ Seen.Sight sight ∷ []) }
{
    added(no_lines(alloc), Seen::Sight(sight))
}

/// One core line.
pub fn one_core(alloc: Global) -> Result<SeenList, NoMemory>
    ensures { IfOk result (λ lines. lines ≡ Seen.Core ∷ []) }
{
    added(no_lines(alloc), Seen::Core)
}

/// The lines with one behind them.
pub fn added(lines: SeenList, seen: Seen) -> Result<SeenList, NoMemory>
    ensures { IfOk result (λ all. all ≡ lines ++ seen ∷ []) }
{
    let mut all = lines.into_vec();
    all.push(seen)?;
    Ok(Series::from_vec(all))
}

/// The lines with a core line behind them.
pub fn with_core(held: SeenList) -> Result<SeenList, NoMemory>
    ensures { IfOk result (λ all. all ≡ with_core held) }
{
    added(held, Seen::Core)
}

/// The first lines and the second behind them.
pub(crate) fn joined(first: SeenList, second: SeenList) -> Result<SeenList, NoMemory>
    ensures { IfOk result (λ all. all ≡ first ++ second) }
{
    let mut all = first.into_vec();
    let mut rest = second.into_vec();
    all.append(&mut rest)?;
    Ok(Series::from_vec(all))
}

/// A call goes on there, and has written this.
pub fn to(next: Place, wrote: SeenList) -> Step
    ensures { result ≡ to next wrote }
{
    Step { next, wrote }
}

/// A call ends so.
pub fn ends(result_: Outcome, wrote: SeenList) -> Step
    ensures { result ≡ ends result_ wrote }
{
    to(Place::Done(result_), wrote)
}

/// A call fails so.
pub fn fails(code: Err, wrote: SeenList) -> Step
    ensures { result ≡ fails code wrote }
{
    ends(Outcome::Fail(code), wrote)
}

/// The call had an answer of another kind than it asked for.
pub fn stray(alloc: Global) -> Step
    ensures { result ≡ stray }
{
    fails(Err::Val, no_lines(alloc))
}

/// A call makes an event whose line stands alone.
pub fn makes(alloc: Global, event: EventText, after: Then) -> Place
    ensures { result ≡ makes event after }
{
    Place::Make {
        event,
        after,
        held: no_lines(alloc),
    }
}

/// What a reply says as a result.
pub fn outcome_of(reply: Reply) -> Outcome
    ensures { result ≡ outcome_of reply }
{
    match reply {
        Reply::Done => Outcome::Ok,
        Reply::Conn(conn) => Outcome::Conn(conn),
        Reply::Fd(fd) => Outcome::Fd(fd),
        Reply::Wrote(n) => Outcome::Sent(n),
        Reply::Count(_) => Outcome::Ok,
        Reply::Ticks(_) => Outcome::Ok,
        Reply::Addr(ip, port) => Outcome::Addr(ip, port),
        Reply::Frames(_) => Outcome::Ok,
        Reply::Fail(code) => Outcome::Fail(code),
    }
}

/// This result where the reply is `ok`, else what the reply says.
pub fn outcome_or(given: Outcome, reply: Reply) -> Outcome
    ensures { result ≡ outcome_or given reply }
{
    match reply {
        Reply::Done => given,
        other => outcome_of(other),
    }
}
