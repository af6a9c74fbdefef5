//! The rounds of a wire between two stacks, as each side has them.
ghost use Rattle.std.specs.Prelude.{◌≡◌, ◌∷◌, [], false, nat_le, IfOk};
ghost use Rattle.lw_calls.specs.Rounds.{is_same, first_half, has_tick, counts_on, comes_by, comes, rounds_on, made_one, ticks_or, round_over, past_sent, past_feed, come_asks, round_asks, came_by, after_over, after_come, round_fed, makes_core, after_round};

use crate::answers::{feeding_of, number_of, reply_of, whether_of};
use call_places::{
    Answer, Ask, Feeding, NoMemory, Place, RoundStage, Rounds, RoundsEnd, Step, ends, no_lines,
    one_core, one_sight, stray, to,
};
use call_types::{Outcome, Side, Sight};
use lw_events::Event;
use std::alloc::{AllocError, Global};

/// Whether it is this side.
pub(crate) fn is_same(side: Side, at: Side) -> bool
    ensures { result ≡ is_same side at }
{
    match (side, at) {
        (Side::A, Side::A) => true,
        (Side::A, Side::B) => false,
        (Side::B, Side::A) => false,
        (Side::B, Side::B) => true,
    }
}

/// A round begins with the frames of side a.
fn first_half(side: Side) -> RoundStage
    ensures { result ≡ first_half side }
{
    match side {
        Side::A => RoundStage::Sent,
        Side::B => RoundStage::Feed,
    }
}

/// Whether a tick follows the round of this number.
fn has_tick(end: RoundsEnd, made: u32) -> bool
    ensures { result ≡ has_tick end made }
{
    match end {
        RoundsEnd::After(_) => true,
        RoundsEnd::Signal(_, _) => made % 4 == 0,
        RoundsEnd::Other => made % 4 == 0,
    }
}

/// The end of so many rounds, or the next one.
fn counts_on(n: u32, rounds: Rounds) -> Place
    ensures { result ≡ counts_on n rounds }
{
    if n <= rounds.made {
        Place::Done(Outcome::Ok)
    } else {
        Place::Round(first_half(rounds.side), rounds)
    }
}

/// The end of the rounds is looked for.
fn comes(rounds: Rounds) -> Place
    ensures { result ≡ comes rounds }
{
    match rounds.end {
        RoundsEnd::After(n) => counts_on(n, rounds),
        RoundsEnd::Signal(_, _) => Place::Round(RoundStage::Come, rounds),
        RoundsEnd::Other => Place::Round(RoundStage::Come, rounds),
    }
}

/// Rounds begin on a side.
pub(crate) fn rounds_on(side: Side, end: RoundsEnd) -> Place
    ensures { result ≡ rounds_on side end }
{
    comes(Rounds { side, end, made: 0 })
}

/// A tick follows, or the end is looked for.
fn ticks_or(tick: bool, rounds: Rounds) -> Place
    ensures { result ≡ ticks_or tick rounds }
{
    match tick {
        true => Place::Round(RoundStage::Tick, rounds),
        false => comes(rounds),
    }
}

/// A round is over.
fn round_over(rounds: Rounds) -> Result<Place, NoMemory>
    ensures { IfOk result (λ p. p ≡ round_over rounds) }
{
    let made = rounds.made.checked_add(1).ok_or(AllocError)?;
    let tick = has_tick(rounds.end, made);
    Ok(ticks_or(
        tick,
        Rounds {
            side: rounds.side,
            end: rounds.end,
            made,
        },
    ))
}

/// What follows as the own frames went out.
fn past_sent(rounds: Rounds) -> Result<Place, NoMemory>
    ensures { IfOk result (λ p. p ≡ past_sent rounds.side rounds) }
{
    match rounds.side {
        Side::A => Ok(Place::Round(RoundStage::Feed, rounds)),
        Side::B => round_over(rounds),
    }
}

/// What follows as the other side's frames came in.
fn past_feed(rounds: Rounds) -> Result<Place, NoMemory>
    ensures { IfOk result (λ p. p ≡ past_feed rounds.side rounds) }
{
    match rounds.side {
        Side::A => round_over(rounds),
        Side::B => Ok(Place::Round(RoundStage::Sent, rounds)),
    }
}

/// What a side asks that looks for the end.
fn come_asks(end: RoundsEnd) -> Ask
    ensures { result ≡ come_asks end }
{
    match end {
        RoundsEnd::After(_) => Ask::Over,
        RoundsEnd::Signal(signal, _) => Ask::Signal(signal),
        RoundsEnd::Other => Ask::Over,
    }
}

/// What a side asks in a round.
pub(crate) fn round_asks(stage: RoundStage, end: RoundsEnd) -> Ask
    ensures { result ≡ round_asks stage end }
{
    match stage {
        RoundStage::Come => come_asks(end),
        RoundStage::Sent => Ask::Sent,
        RoundStage::Feed => Ask::Feed {
            left: None,
            burst: false,
        },
        RoundStage::Tick => Ask::Core(Event::Tick),
    }
}

/// The next round, or the end as the signal came so often.
fn came_by(
    alloc: Global,
    enough: bool,
    signal: u32,
    n: u32,
    rounds: Rounds,
) -> Result<Step, NoMemory>
    ensures { IfOk result (λ s. s ≡ came_by enough signal n rounds) }
{
    match enough {
        true => Ok(ends(Outcome::Ok, one_sight(alloc, Sight::Count(signal, n))?)),
        false => Ok(next_round(alloc, rounds)),
    }
}

/// The next round begins.
fn next_round(alloc: Global, rounds: Rounds) -> Step
    ensures { result ≡ after_over rounds false }
{
    to(
        Place::Round(first_half(rounds.side), rounds),
        no_lines(alloc),
    )
}

/// The next round, or the end as the other side says.
fn after_over(alloc: Global, rounds: Rounds, over: bool) -> Step
    ensures { result ≡ after_over rounds over }
{
    match over {
        true => ends(Outcome::Ok, no_lines(alloc)),
        false => next_round(alloc, rounds),
    }
}

/// What the answer to a side leads to that looks for the end.
fn after_come(alloc: Global, rounds: Rounds, answer: Answer) -> Result<Step, NoMemory>
    ensures { IfOk result (λ s. s ≡ after_come rounds.end rounds answer) }
{
    match rounds.end {
        RoundsEnd::After(_) => match whether_of(answer) {
            Some(over) => Ok(after_over(alloc, rounds, over)),
            None => Ok(stray(alloc)),
        },
        RoundsEnd::Signal(signal, count) => match number_of(answer) {
            Some(n) => came_by(alloc, count <= n, signal, n, rounds),
            None => Ok(stray(alloc)),
        },
        RoundsEnd::Other => match whether_of(answer) {
            Some(over) => Ok(after_over(alloc, rounds, over)),
            None => Ok(stray(alloc)),
        },
    }
}

/// A line for each frame that came in.
fn round_fed(alloc: Global, rounds: Rounds, feeding: Feeding) -> Result<Step, NoMemory>
    ensures { IfOk result (λ s. s ≡ round_fed rounds feeding) }
{
    match feeding {
        Feeding::Fed => Ok(to(Place::Round(RoundStage::Feed, rounds), one_core(alloc)?)),
        Feeding::Dropped(k, cause) => Ok(to(
            Place::Round(RoundStage::Feed, rounds),
            one_sight(alloc, Sight::Dropped(k, cause))?,
        )),
        Feeding::NoMore => Ok(to(past_feed(rounds)?, no_lines(alloc))),
    }
}

/// Where an answer leads a side.
pub(crate) fn after_round(
    alloc: Global,
    stage: RoundStage,
    rounds: Rounds,
    answer: Answer,
) -> Result<Step, NoMemory>
    ensures { IfOk result (λ s. s ≡ after_round stage rounds answer) }
{
    match stage {
        RoundStage::Come => after_come(alloc, rounds, answer),
        RoundStage::Sent => match reply_of(answer) {
            Some(_) => Ok(to(past_sent(rounds)?, one_core(alloc)?)),
            None => Ok(stray(alloc)),
        },
        RoundStage::Feed => match feeding_of(answer) {
            Some(feeding) => round_fed(alloc, rounds, feeding),
            None => Ok(stray(alloc)),
        },
        RoundStage::Tick => match reply_of(answer) {
            Some(_) => Ok(to(comes(rounds), one_core(alloc)?)),
            None => Ok(stray(alloc)),
        },
    }
}
