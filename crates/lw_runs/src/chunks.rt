ghost use Rattle.std.specs.Prelude.{◌≡◌, ◌+◌, ◌^◌, ◌<◌, ◌≤◌, [], ◌∷◌, ◌++◌, map, length, take, drop, insert, vec_capacity, nat_lt, ◌&&◌, IfSome, IsSome, OnOk, slice_index_or};
ghost use Rattle.std.specs.List.{All, list_any, position_or_len};
ghost use Rattle.lw_runs.specs.Kept.{Holds, FirstCanTake, length_of};
ghost use Rattle.lw_runs.specs.Runs.{bodies_of, InOrder};
ghost use Rattle.lw_runs.specs.Lists.{put, text_of, OneFamily, FirstChanged, FirstHasRoomFor};
ghost use Rattle.lw_runs.specs.Chunked.{flat, room_of, begins_by, AreChunks, IsPlace};

use crate::Run;
use crate::chunk::{
    CHUNK, begins_by, copy_runs, give_runs, join_runs, place_in, room_in_first, split_put,
};
use lw_payload::{NoMemory, Payload};
use std::alloc::Global;
use std::marker::Model;

/// Runs in the order of their positions, cut into chunks: one more moves no more than a chunk of them.
#[derive(Drop)]
pub struct Chunks<P: Payload> {
    chunks: Vec<Vec<Run<P>>>,
    spare: Option<Vec<Run<P>>>,
    alloc: Global,
}

impl<P: Payload> Model for Chunks<P> {
    ghost use Rattle.lw_runs.specs.Chunked.{Chunked};

    ghost Value = { Chunked P };

    ghost use Rattle.std.specs.Prelude.{map, length, vec_capacity};
    ghost use Rattle.lw_runs.specs.Chunked.{flat, room_of, AreChunks};

    ghost view = { λ c. record { runs = flat (map (λ v. v.items) c.chunks.items); room = room_of c.spare (length c.chunks.items) (vec_capacity c.chunks) } };

    ghost invariant = { λ c. AreChunks (λ v. length v.items) (λ v. vec_capacity v) c.chunks.items c.spare };
}

/// Where one more run goes: the chunk, and the place in it.
#[derive(Clone, Copy)]
pub struct Place {
    pub chunk: usize,
    pub at: usize,
}

impl<P: Payload> Chunks<P> {
    /// No run, and room for none.
    pub fn new(alloc: Global) -> Chunks<P>
        ensures { result ≡ record { runs = []; room = 0 } }
    {
        Chunks {
            chunks: Vec::new(alloc),
            spare: None,
            alloc,
        }
    }

    /// Makes room for one more run. Where it fails there may be room for none.
    pub fn make_room(&mut self) -> Result<(), NoMemory>
        ensures runs { self.new.runs ≡ self.old.runs }
        ensures ok { OnOk result (0 < self.new.room) }
    {
        fill_spare(&mut self.spare, self.alloc)?;
        self.chunks.reserve(1)
    }

    /// Whether a run has a position from `from` on, below `to`: the last that begins below `to` is the one that ends last.
    pub fn any_between(&self, from: u32, to: u32) -> bool
        requires some { from < to }
        requires order { InOrder P.seen 0 self.now.runs }
        ensures { result ≡ list_any (λ r. nat_lt r.at to && nat_lt from r.end) self.now.runs }
    {
        if self.chunks.is_empty() {
            return false;
        }
        let place = place_of(&self.chunks, to - 1);
        place.at > 0 && from < self.chunks[place.chunk][place.at - 1].end
    }

    /// Puts a run in among the others at its place. Takes no memory, since it needs the room; afterwards there may be room for none.
    pub fn put(&mut self, run: Run<P>)
        requires order { InOrder P.seen 0 self.old.runs }
        requires room { 0 < self.old.room }
        ensures { self.new.runs ≡ put run self.old.runs }
    {
        if self.chunks.is_empty() {
            put_first(&mut self.chunks, &mut self.spare, run);
            return;
        }
        let place = place_of(&self.chunks, run.at);
        put_at(&mut self.chunks, &mut self.spare, place, run);
    }

    /// Makes room for so many parts in the first payload.
    pub fn room_in_first(&mut self, parts: u32) -> Result<(), NoMemory>
        requires { All (λ p. length (P.seen p).octets < 2 ^ 32) (bodies_of self.old.runs) }
        ensures first { FirstChanged P.seen self.old.runs self.new.runs }
        ensures room { self.new.room ≡ self.old.room }
        ensures ok { OnOk result (FirstHasRoomFor P.seen self.new.runs parts) }
    {
        if self.chunks.is_empty() {
            return Ok(());
        }
        room_in_first(&mut self.chunks[0], parts)
    }

    /// Joins the payloads of all runs.
    pub fn join_all(self) -> P
        requires some { 0 < length self.runs }
        requires room { FirstCanTake P.seen (bodies_of self.runs) 0 }
        requires family { OneFamily P.seen (bodies_of self.runs) }
        requires short { length_of P.seen (bodies_of self.runs) < 2 ^ 32 }
        ensures octets { (P.seen result).octets ≡ text_of P.seen (bodies_of self.runs) }
        ensures bodies { Holds P.seen (bodies_of self.runs) (result ∷ []) }
    {
        let Chunks { chunks, .. } = self;
        let mut chunks = chunks.into_iter();
        let Some(mut first) = chunks.next() else {
            unreachable!()
        };
        let mut all = first.remove(0).body;
        join_runs(&mut all, first);
        for chunk in chunks {
            join_runs(&mut all, chunk);
        }
        all
    }

    /// Appends the payloads of all runs.
    pub fn give_all(self, gone: &mut Vec<P>)
        requires { length gone.old.items + length self.runs ≤ vec_capacity gone.old }
        ensures given { gone.new.items ≡ gone.old.items ++ bodies_of self.runs }
        ensures room { vec_capacity gone.new ≡ vec_capacity gone.old }
    {
        let Chunks { chunks, .. } = self;
        for chunk in chunks {
            give_runs(chunk, gone);
        }
    }

    /// Appends the octets of the runs that begin at a position or before it.
    pub fn copy_front(&self, from: u32, all: &mut Vec<u8>) -> Result<(), NoMemory>
        requires order { InOrder P.seen 0 self.now.runs }
        requires short { All (λ p. length (P.seen p).octets < 2 ^ 32) (bodies_of self.now.runs) }
        ensures { OnOk result (all.new.items ≡ all.old.items ++ text_of P.seen (bodies_of (take (position_or_len (λ r. nat_lt from r.at) self.now.runs) self.now.runs))) }
    {
        if self.chunks.is_empty() {
            return Ok(());
        }
        let place = place_of(&self.chunks, from);
        copy_all(self.chunks.split_at(place.chunk).0, all)?;
        copy_runs(self.chunks[place.chunk].split_at(place.at).0, all)
    }

    /// Appends the octets of the runs that begin behind a position.
    pub fn copy_back(&self, from: u32, all: &mut Vec<u8>) -> Result<(), NoMemory>
        requires order { InOrder P.seen 0 self.now.runs }
        requires short { All (λ p. length (P.seen p).octets < 2 ^ 32) (bodies_of self.now.runs) }
        ensures { OnOk result (all.new.items ≡ all.old.items ++ text_of P.seen (bodies_of (drop (position_or_len (λ r. nat_lt from r.at) self.now.runs) self.now.runs))) }
    {
        if self.chunks.is_empty() {
            return Ok(());
        }
        let place = place_of(&self.chunks, from);
        copy_runs(self.chunks[place.chunk].split_at(place.at).1, all)?;
        copy_all(self.chunks.split_at(place.chunk + 1).1, all)
    }
}

/// Makes a spare chunk where there is none.
fn fill_spare<P: Payload>(spare: &mut Option<Vec<Run<P>>>, alloc: Global) -> Result<(), NoMemory>
    requires { IfSome spare.old (λ v. (length v.items ≡ 0) × (32 ≤ vec_capacity v)) }
    ensures spare { IfSome spare.new (λ v. (length v.items ≡ 0) × (32 ≤ vec_capacity v)) }
    ensures ok { OnOk result (IsSome spare.new) }
{
    if spare.is_some() {
        return Ok(());
    }
    *spare = Some(Vec::with_capacity(alloc, CHUNK)?);
    Ok(())
}

/// The place of one more run that begins at a position: behind those that begin there or before it.
fn place_of<P: Payload>(chunks: &[Vec<Run<P>>], from: u32) -> Place
    requires some { 0 < length chunks.now }
    requires sizes { All (λ v. 0 < length v.items) chunks.now }
    requires order { InOrder P.seen 0 (flat (map (λ v. v.items) chunks.now)) }
    ensures { IsPlace from (map (λ v. v.items) chunks.now) result.chunk result.at }
{
    let begun = chunks.partition_point(
        |chunk: &Vec<Run<P>>| -> bool
            ensures { result ≡ begins_by from chunk.now.items }
        { begins_by(chunk, from) },
    );
    let chunk = begun.saturating_sub(1);
    Place {
        chunk,
        at: place_in(&chunks[chunk], from),
    }
}

/// Puts the first run in.
fn put_first<P: Payload>(
    chunks: &mut Vec<Vec<Run<P>>>,
    spare: &mut Option<Vec<Run<P>>>,
    run: Run<P>,
)
    requires empty { length chunks.old.items ≡ 0 }
    requires fits { AreChunks (λ v. length v.items) (λ v. vec_capacity v) chunks.old.items spare.old }
    requires room { 0 < room_of spare.old (length chunks.old.items) (vec_capacity chunks.old) }
    ensures runs { flat (map (λ v. v.items) chunks.new.items) ≡ run ∷ [] }
    ensures fits { AreChunks (λ v. length v.items) (λ v. vec_capacity v) chunks.new.items spare.new }
{
    let Some(mut chunk) = spare.take() else {
        unreachable!()
    };
    chunk.push_reserved(run);
    chunks.push_reserved(chunk);
}

/// Puts a run in at a place. Where its chunk is full, the back half moves into the spare chunk.
fn put_at<P: Payload>(
    chunks: &mut Vec<Vec<Run<P>>>,
    spare: &mut Option<Vec<Run<P>>>,
    place: Place,
    run: Run<P>,
)
    requires chunk_within { place.chunk < length chunks.old.items }
    requires at_within { place.at ≤ length (slice_index_or (map (λ v. v.items) chunks.old.items) place.chunk []) }
    requires fits { AreChunks (λ v. length v.items) (λ v. vec_capacity v) chunks.old.items spare.old }
    requires room { 0 < room_of spare.old (length chunks.old.items) (vec_capacity chunks.old) }
    ensures runs { flat (map (λ v. v.items) chunks.new.items) ≡ insert (flat (map (λ v. v.items) chunks.old.items)) (length (flat (take place.chunk (map (λ v. v.items) chunks.old.items))) + place.at) run }
    ensures fits { AreChunks (λ v. length v.items) (λ v. vec_capacity v) chunks.new.items spare.new }
{
    if chunks[place.chunk].len() < CHUNK {
        chunks[place.chunk].insert(place.at, run).unwrap();
        return;
    }
    let Some(mut back) = spare.take() else {
        unreachable!()
    };
    split_put(&mut chunks[place.chunk], &mut back, place.at, run);
    chunks.insert(place.chunk + 1, back).unwrap();
}

/// Appends the octets of all runs of chunks.
fn copy_all<P: Payload>(chunks: &[Vec<Run<P>>], all: &mut Vec<u8>) -> Result<(), NoMemory>
    requires { All (λ p. length (P.seen p).octets < 2 ^ 32) (bodies_of (flat (map (λ v. v.items) chunks.now))) }
    ensures { OnOk result (all.new.items ≡ all.old.items ++ text_of P.seen (bodies_of (flat (map (λ v. v.items) chunks.now)))) }
{
    for chunk in chunks {
        copy_runs(chunk, all)?;
    }
    Ok(())
}
