ghost use Rattle.std.specs.Prelude.{◌≡◌, ◌++◌, [], true, IfOk, OnOk, MatchResult};
ghost use Rattle.call_places.specs.declared.place.Place.{Place as PlaceValue};
ghost use Rattle.lw_calls.specs.Machine.{begins, is_resting};
ghost use Rattle.call_runs.specs.Goes.{Goes, Steps, WasMade};
ghost use Rattle.call_runs.specs.Runs.{caller_of, Ran, AreCalls};

use crate::{Api, DoneCall};
use call_types::{Call, Outcome};
use lw_base::Series;
use lw_calls::{Caller, NoMemory, Place, Seen, SeenList, ask, is_resting, start, step};
use std::alloc::{AllocError, Global};

/// Makes one step of a call: asks, and goes where the answer leads.
fn step_on<A: Api>(
    alloc: Global,
    api: &mut A,
    actor: u32,
    place: Place,
    seen: &mut Vec<Seen>,
) -> Result<Place, NoMemory>
    ensures { IfOk result (λ q. Steps A.gives actor (A.state api.old) place seen.old.items seen.new.items (A.state api.new) q) }
{
    let asked = ask(alloc, &place)?;
    let answer = api.answer(alloc, actor, asked)?;
    let made = step(alloc, place, answer)?;
    write_down(seen, made.wrote)?;
    Ok(made.next)
}

/// Adds lines to what was seen.
fn write_down(seen: &mut Vec<Seen>, wrote: SeenList) -> Result<(), NoMemory>
    ensures { OnOk result (seen.new.items ≡ seen.old.items ++ wrote) }
{
    let mut lines = wrote.into_vec();
    seen.append(&mut lines)?;
    Ok(())
}

/// Goes on with a call until it has ended, or would wait.
pub fn go_on<A: Api>(
    alloc: Global,
    api: &mut A,
    actor: u32,
    place: Place,
    seen: &mut Vec<Seen>,
) -> Result<Place, NoMemory>
    ensures goes { IfOk result (λ q. Goes A.gives actor (A.state api.old) place seen.old.items seen.new.items (A.state api.new) q) }
    ensures rests { IfOk result (λ q. is_resting q ≡ true) }
{
    let mut at = place;
    for _ in 0..u64::MAX {
        if is_resting(&at) {
            return Ok(at);
        }
        at = step_on(alloc, api, actor, at, seen)?;
    }
    Err(AllocError)
}

/// The result of a call that has ended, or else its place.
fn ended(place: Place) -> Result<Outcome, Place>
    ensures { MatchResult result (λ r. place ≡ PlaceValue.Done r) (λ p. p ≡ place) }
{
    match place {
        Place::Done(result_) => Ok(result_),
        other => Err(other),
    }
}

/// Goes on with a call to its end.
fn finish<A: Api>(
    alloc: Global,
    api: &mut A,
    actor: u32,
    place: Place,
    seen: &mut Vec<Seen>,
) -> Result<Outcome, NoMemory>
    ensures { IfOk result (λ r. Goes A.gives actor (A.state api.old) place seen.old.items seen.new.items (A.state api.new) (PlaceValue.Done r)) }
{
    let mut at = place;
    for _ in 0..u64::MAX {
        at = match ended(at) {
            Ok(outcome) => return Ok(outcome),
            Err(place) => step_on(alloc, api, actor, place, seen)?,
        };
    }
    Err(AllocError)
}

/// Makes a call to its end, and adds what it saw.
pub fn make_call<A: Api>(
    alloc: Global,
    api: &mut A,
    actor: u32,
    caller: Caller,
    call: Call,
    seen: &mut Vec<Seen>,
) -> Result<Outcome, NoMemory>
    ensures goes { IfOk result (λ r. Goes A.gives actor (A.state api.old) (begins caller call) seen.old.items seen.new.items (A.state api.new) (PlaceValue.Done r)) }
    ensures made { IfOk result (λ r. WasMade caller call seen.old.items seen.new.items r) }
{
    let place = start(alloc, caller, call);
    let outcome = finish(alloc, api, actor, place, seen)?;
    Ok(outcome)
}

/// Makes the calls of an actor, one after another.
pub fn run_actor<A: Api>(
    alloc: Global,
    api: &mut A,
    actor: u32,
    calls: Vec<Call>,
) -> Result<Vec<DoneCall>, NoMemory>
    ensures ran { IfOk result (λ done. Ran A.gives actor (A.state api.old) calls.items done.items (A.state api.new)) }
    ensures made { IfOk result (λ done. AreCalls actor calls.items done.items) }
{
    let mut done = Vec::new(alloc);
    for call in calls {
        let ended = one_call(alloc, api, actor, call)?;
        done.push(ended)?;
    }
    Ok(done)
}

/// Who makes the calls of an actor: actor 0 is the driver.
pub fn caller_of(actor: u32) -> Caller
    ensures { result ≡ caller_of actor }
{
    if actor == 0 {
        Caller::Driver
    } else {
        Caller::Actor
    }
}

/// Makes one call of an actor.
fn one_call<A: Api>(
    alloc: Global,
    api: &mut A,
    actor: u32,
    call: Call,
) -> Result<DoneCall, NoMemory>
    ensures { IfOk result (λ d. Goes A.gives actor (A.state api.old) (begins (caller_of actor) call) [] d.seen (A.state api.new) (PlaceValue.Done d.result)) }
{
    let mut seen = Vec::new(alloc);
    let outcome = make_call(alloc, api, actor, caller_of(actor), call, &mut seen)?;
    Ok(DoneCall {
        seen: Series::from_vec(seen),
        result: outcome,
    })
}
