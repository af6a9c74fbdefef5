ghost use Rattle.std.specs.Prelude.{◌≡◌, ◌+◌, ◌^◌, ◌<◌, ◌≤◌, [], ◌∷◌, ◌++◌, length, take, drop, insert, vec_capacity, nat_lt, nat_le, OnOk};
ghost use Rattle.std.specs.List.{All, position_or_len};
ghost use Rattle.lw_runs.specs.Kept.{Holds, parts_of, length_of};
ghost use Rattle.lw_runs.specs.Runs.{bodies_of, InOrder};
ghost use Rattle.lw_runs.specs.Lists.{text_of, FirstChanged, FirstHasRoomFor};
ghost use Rattle.lw_runs.specs.Chunked.{begins_by, IsChunk};

use crate::Run;
use lw_payload::{NoMemory, Payload};

/// How many runs stand in one chunk at most.
pub const CHUNK: usize = 32;

/// How many of a full chunk stay as it is split.
pub const HALF: usize = CHUNK / 2;

/// Whether the first of runs begins at a position or before it.
pub fn begins_by<P: Payload>(runs: &Vec<Run<P>>, from: u32) -> bool
    ensures { result ≡ begins_by from runs.now.items }
{
    match runs.first() {
        Some(run) => run.at <= from,
        None => true,
    }
}

/// How many runs begin at a position or before it: the place of one more run that begins there.
pub fn place_in<P: Payload>(runs: &[Run<P>], from: u32) -> usize
    requires { InOrder P.seen 0 runs.now }
    ensures value { result ≡ position_or_len (λ r. nat_lt from r.at) runs.now }
    ensures within { result ≤ length runs.now }
{
    runs.partition_point(
        |r: &Run<P>| -> bool
            ensures { result ≡ nat_le r.now.at from }
        { r.at <= from },
    )
}

/// Moves the back half of a full chunk into an empty one.
fn move_half<P: Payload>(chunk: &mut Vec<Run<P>>, back: &mut Vec<Run<P>>)
    requires full { length chunk.old.items ≡ 32 }
    requires empty { length back.old.items ≡ 0 }
    requires room { 32 ≤ vec_capacity back.old }
    ensures front { chunk.new.items ≡ take 16 chunk.old.items }
    ensures back { back.new.items ≡ drop 16 chunk.old.items }
    ensures front_room { vec_capacity chunk.new ≡ vec_capacity chunk.old }
    ensures back_room { vec_capacity back.new ≡ vec_capacity back.old }
{
    while HALF < chunk.len() {
        back.push_reserved(chunk.take_last());
    }
    back.reverse();
}

/// Splits a full chunk into two halves, and puts a run in among them at its place.
pub fn split_put<P: Payload>(
    chunk: &mut Vec<Run<P>>,
    back: &mut Vec<Run<P>>,
    at: usize,
    run: Run<P>,
)
    requires full { length chunk.old.items ≡ 32 }
    requires full_room { 32 ≤ vec_capacity chunk.old }
    requires empty { length back.old.items ≡ 0 }
    requires room { 32 ≤ vec_capacity back.old }
    requires within { at ≤ 32 }
    ensures items { chunk.new.items ++ back.new.items ≡ insert chunk.old.items at run }
    ensures front { IsChunk (length chunk.new.items) (vec_capacity chunk.new) }
    ensures back { IsChunk (length back.new.items) (vec_capacity back.new) }
{
    move_half(chunk, back);
    if at <= HALF {
        chunk.insert(at, run).unwrap();
    } else {
        back.insert(at - HALF, run).unwrap();
    }
}

/// Joins the payloads of runs to one payload.
pub fn join_runs<P: Payload>(all: &mut P, runs: Vec<Run<P>>)
    requires room { parts_of P.seen (bodies_of runs.items) ≤ (P.seen all.old).room }
    requires family { All (λ p. (P.seen p).family ≡ (P.seen all.old).family) (bodies_of runs.items) }
    requires short { length_of P.seen (all.old ∷ bodies_of runs.items) < 2 ^ 32 }
    ensures octets { (P.seen all.new).octets ≡ (P.seen all.old).octets ++ text_of P.seen (bodies_of runs.items) }
    ensures bodies { Holds P.seen (all.old ∷ bodies_of runs.items) (all.new ∷ []) }
    ensures room { (P.seen all.old).room ≤ (P.seen all.new).room + parts_of P.seen (bodies_of runs.items) }
{
    for run in runs {
        all.join(run.body);
    }
}

/// Appends the payloads of runs.
pub fn give_runs<P: Payload>(runs: Vec<Run<P>>, gone: &mut Vec<P>)
    requires { length gone.old.items + length runs.items ≤ vec_capacity gone.old }
    ensures given { gone.new.items ≡ gone.old.items ++ bodies_of runs.items }
    ensures room { vec_capacity gone.new ≡ vec_capacity gone.old }
{
    for run in runs {
        gone.push_reserved(run.body);
    }
}

/// Makes room for so many parts in the first payload.
pub fn room_in_first<P: Payload>(runs: &mut Vec<Run<P>>, parts: u32) -> Result<(), NoMemory>
    requires { All (λ p. length (P.seen p).octets < 2 ^ 32) (bodies_of runs.old.items) }
    ensures first { FirstChanged P.seen runs.old.items runs.new.items }
    ensures capacity { vec_capacity runs.new ≡ vec_capacity runs.old }
    ensures ok { OnOk result (FirstHasRoomFor P.seen runs.new.items parts) }
{
    if runs.is_empty() {
        return Ok(());
    }
    let first = &mut runs[0];
    first.body.room(parts)
}

/// Appends the octets of runs.
pub fn copy_runs<P: Payload>(runs: &[Run<P>], all: &mut Vec<u8>) -> Result<(), NoMemory>
    requires { All (λ p. length (P.seen p).octets < 2 ^ 32) (bodies_of runs.now) }
    ensures { OnOk result (all.new.items ≡ all.old.items ++ text_of P.seen (bodies_of runs.now)) }
{
    for run in runs {
        copy_one(&run.body, all)?;
    }
    Ok(())
}

/// Appends the octets of a payload.
fn copy_one<P: Payload>(body: &P, all: &mut Vec<u8>) -> Result<(), NoMemory>
    requires { length (P.seen body.now).octets < 2 ^ 32 }
    ensures { OnOk result (all.new.items ≡ all.old.items ++ (P.seen body.now).octets) }
{
    let old = all.len();
    all.resize(old + body.len() as usize, 0)?;
    body.copy_at(0, &mut all[old..]);
    Ok(())
}
