ghost use Rattle.std.specs.Prelude.{◌≡◌, ◌+◌, ◌^◌, ◌<◌, ◌≤◌, [], ◌∷◌, ◌++◌, false, length, vec_capacity, IfOk, OnOk};
ghost use Rattle.std.specs.List.{All};
ghost use Rattle.lw_payload.specs.Calls.{IsSameButRoom};
ghost use Rattle.lw_runs.specs.Positions.{overlaps, octets_in, with_octets};
ghost use Rattle.lw_runs.specs.Kept.{AreSameButRoom, CanJoin, Holds, Stand, parts_of};
ghost use Rattle.lw_runs.specs.Runs.{bodies_of};

use crate::Run;
use crate::chunks::Chunks;
use lw_base::Octets;
use lw_payload::{NoMemory, Payload};
use std::alloc::{AllocError, Global};
use std::marker::Model;

/// Payloads by the position of their octets, of which no two share one.
#[derive(Drop)]
pub struct Runs<P: Payload> {
    chunks: Chunks<P>,
    reach: u32,
    count: u32,
    parts: u32,
    len: u32,
}

impl<P: Payload> Model for Runs<P> {
    ghost use Rattle.lw_runs.specs.Kept.{Kept};

    ghost Value = { Kept P };

    ghost use Rattle.lw_runs.specs.Runs.{AreRuns, bodies_of, spread};

    ghost view = { λ r. record { octets = spread P.seen 0 r.chunks.runs; bodies = bodies_of r.chunks.runs; room = r.chunks.room } };

    ghost invariant = { λ r. AreRuns P.seen r.chunks.runs r.reach r.count r.parts r.len };
}

impl<P: Payload> Runs<P> {
    /// No payload, and room for none.
    pub fn new(alloc: Global) -> Runs<P>
        ensures { result ≡ record { octets = []; bodies = []; room = 0 } }
    {
        Runs {
            chunks: Chunks::new(alloc),
            reach: 0,
            count: 0,
            parts: 0,
            len: 0,
        }
    }

    /// The position behind the last octet.
    pub fn reach(&self) -> u32
        ensures { result ≡ length self.now.octets }
    {
        self.reach
    }

    /// How many octets there are.
    pub fn count(&self) -> u32
        ensures exact { result ≡ length (octets_in self.now.octets) }
        ensures few { result ≤ length self.now.octets }
    {
        self.count
    }

    /// In how many parts they stand.
    pub fn parts(&self) -> u32
        ensures exact { result ≡ parts_of P.seen self.now.bodies }
        ensures few { result ≤ length self.now.octets }
    {
        self.parts
    }

    /// How many payloads there are.
    pub fn len(&self) -> u32
        ensures exact { result ≡ length self.now.bodies }
        ensures few { result ≤ length self.now.octets }
    {
        self.len
    }

    /// Whether an octet is there at one of the `n` positions from `from` on.
    pub fn overlaps(&self, from: u32, n: u32) -> bool
        requires some { 0 < n }
        requires short { from + n < 2 ^ 32 }
        ensures { result ≡ overlaps self.now.octets from n }
    {
        self.chunks.any_between(from, from + n)
    }

    /// Makes room for one more payload. Where it fails there may be room for none.
    pub fn room(&mut self) -> Result<(), NoMemory>
        ensures octets { self.new.octets ≡ self.old.octets }
        ensures bodies { self.new.bodies ≡ self.old.bodies }
        ensures ok { OnOk result (0 < self.new.room) }
    {
        self.chunks.make_room()
    }

    /// Makes room in the payloads and in one more for `join_with`: in that which stands first, for the parts of all others.
    pub fn room_to_join(&mut self, body: &mut P) -> Result<(), NoMemory>
        requires { length (P.seen body.old).octets < 2 ^ 32 }
        ensures octets { self.new.octets ≡ self.old.octets }
        ensures bodies { AreSameButRoom P.seen self.old.bodies self.new.bodies }
        ensures room { self.new.room ≡ self.old.room }
        ensures body { IsSameButRoom (P.seen body.old) (P.seen body.new) }
        ensures ok { OnOk result (CanJoin P.seen self.new.bodies (P.seen body.new)) }
    {
        body.room(self.parts)?;
        let parts = self.parts.checked_add(body.parts()).ok_or(AllocError)?;
        self.chunks.room_in_first(parts)
    }

    /// Keeps a payload whose first octet has the position `from`. Takes no memory, since it needs the room; afterwards there may be room
    /// for none.
    pub fn keep(&mut self, from: u32, body: P)
        requires some { 0 < length (P.seen body).octets }
        requires short { from + length (P.seen body).octets < 2 ^ 32 }
        requires free { overlaps self.old.octets from (length (P.seen body).octets) ≡ false }
        requires family { All (λ p. (P.seen p).family ≡ (P.seen body).family) self.old.bodies }
        requires room { 0 < self.old.room }
        ensures octets { self.new.octets ≡ with_octets self.old.octets from (P.seen body).octets }
        ensures bodies { Holds P.seen (body ∷ self.old.bodies) self.new.bodies }
        ensures number { length self.new.bodies ≡ length self.old.bodies + 1 }
        ensures stand { Stand P.seen self.new.octets self.new.bodies }
    {
        let parts = body.parts();
        let end = from + body.len();
        self.reach = self.reach.max(end);
        self.count += end - from;
        self.parts += parts;
        self.len += 1;
        self.chunks.put(Run {
            at: from,
            end,
            body,
        });
    }

    /// Puts a payload in whose first octet has the position `from`, and joins all in the order of their positions. Takes no memory, since
    /// it needs the room.
    pub fn join_with(self, from: u32, body: P) -> P
        requires some { 0 < length (P.seen body).octets }
        requires short { from + length (P.seen body).octets < 2 ^ 32 }
        requires free { overlaps self.octets from (length (P.seen body).octets) ≡ false }
        requires family { All (λ p. (P.seen p).family ≡ (P.seen body).family) self.bodies }
        requires room { 0 < self.room }
        requires joins { CanJoin P.seen self.bodies (P.seen body) }
        ensures octets { (P.seen result).octets ≡ octets_in (with_octets self.octets from (P.seen body).octets) }
        ensures bodies { Holds P.seen (body ∷ self.bodies) (result ∷ []) }
    {
        let end = from + body.len();
        let Runs { mut chunks, .. } = self;
        chunks.put(Run {
            at: from,
            end,
            body,
        });
        chunks.join_all()
    }

    /// Gives all payloads back behind those in `gone`, in the order of their positions. Takes no memory, since it needs the room.
    pub fn give(self, gone: &mut Vec<P>)
        requires { length gone.old.items + length self.bodies ≤ vec_capacity gone.old }
        ensures given { gone.new.items ≡ gone.old.items ++ self.bodies }
        ensures room { vec_capacity gone.new ≡ vec_capacity gone.old }
    {
        let Runs { chunks, .. } = self;
        chunks.give_all(gone);
    }

    /// The octets there with those of `text` put in from position `from` on: what `keep` of a payload of these octets and then `join` would
    /// give.
    pub fn octets_with(&self, alloc: Global, from: u32, text: &[u8]) -> Result<Octets, NoMemory>
        requires some { 0 < length text.now }
        requires short { from + length text.now < 2 ^ 32 }
        requires free { overlaps self.now.octets from (length text.now) ≡ false }
        ensures { IfOk result (λ octets. octets ≡ octets_in (with_octets self.now.octets from text.now)) }
    {
        let mut all = Vec::with_capacity(alloc, self.count as usize + text.len())?;
        self.chunks.copy_front(from, &mut all)?;
        all.extend_from_slice(text)?;
        self.chunks.copy_back(from, &mut all)?;
        Ok(Octets::from_vec(all))
    }
}
