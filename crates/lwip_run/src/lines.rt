ghost use Rattle.std.specs.Prelude.{◌≡◌, [], ◌∷◌, IfOk, length, sum_by};
ghost use Rattle.lw_rules.specs.Schedule.{body_of};
ghost use Rattle.lw_script.specs.Driver.{driver_calls};
ghost use Rattle.lwip_run.specs.Parts.{part_of, parts_of};

use crate::history::History;
use lw_actors::DoneCall;
use lw_base::{Octets, Series};
use lw_script::{Call, Script};
use lw_transcript::{ActorPart, Body, CallPart, CoreLine, EndLine};
use std::alloc::{AllocError, Global};

/// The body of a transcript: the history, what the driver's calls saw and did, and the counts.
pub fn body(
    alloc: Global,
    calls: &[Call],
    done: Vec<DoneCall>,
    history: History,
) -> Result<Body, AllocError>
    ensures { IfOk result (λ b. b ≡ body_of history (parts_of calls.now done.items)) }
{
    let lines = history.into_lines();
    let core = u32::try_from(lines.len()).map_err(|_| AllocError)?;
    let out = sent(&lines)?;
    let actors = driver_part(alloc, call_parts(alloc, calls, done)?)?;
    Ok(Body {
        sizes: None,
        core: Series::from_vec(lines),
        actors: Series::from_vec(actors),
        left: Series::from_vec(Vec::new(alloc)),
        end: EndLine {
            core,
            out,
            pools: None,
        },
    })
}

/// The calls of the driver: its commands, then one stop.
pub fn all_calls(alloc: Global, script: &Script) -> Result<Vec<Call>, AllocError>
    ensures { IfOk result (λ calls. calls.items ≡ driver_calls script.now) }
{
    let mut calls = Vec::from_slice(alloc, script.commands.as_slice())?;
    calls.push(Call::Stop)?;
    Ok(calls)
}

fn driver_part(alloc: Global, calls: Vec<CallPart>) -> Result<Vec<ActorPart>, AllocError>
    ensures { IfOk result (λ parts. parts.items ≡ record { calls = calls.items } ∷ []) }
{
    let mut actors = Vec::new(alloc);
    actors.push(ActorPart {
        calls: Series::from_vec(calls),
    })?;
    Ok(actors)
}

/// How many frames the entries of these lines sent.
fn sent(lines: &[CoreLine]) -> Result<u32, AllocError>
    ensures { IfOk result (λ n. n ≡ sum_by (λ line. length line.entry.frames) lines.now) }
{
    let mut total = 0u32;
    for line in lines {
        let frames = u32::try_from(line.entry.frames.len()).map_err(|_| AllocError)?;
        total = total.checked_add(frames).ok_or(AllocError)?;
    }
    Ok(total)
}

/// What the calls saw and did, with their texts.
fn call_parts(
    alloc: Global,
    calls: &[Call],
    done: Vec<DoneCall>,
) -> Result<Vec<CallPart>, AllocError>
    ensures { IfOk result (λ parts. parts.items ≡ parts_of calls.now done.items) }
{
    let mut parts = Vec::with_capacity(alloc, done.len())?;
    let mut rest = calls;
    for ended in done {
        let [call, behind @ ..] = rest else {
            break;
        };
        parts.push(part(alloc, *call, ended)?)?;
        rest = behind;
    }
    Ok(parts)
}

fn part(alloc: Global, call: Call, ended: DoneCall) -> Result<CallPart, AllocError>
    ensures { IfOk result (λ p. p ≡ part_of call ended) }
{
    let text = Octets::from_vec(Vec::from_slice(alloc, call.text().as_bytes())?);
    let DoneCall { seen, result } = ended;
    Ok(CallPart { text, seen, result })
}
