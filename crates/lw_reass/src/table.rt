ghost use Rattle.std.specs.Prelude.{◌≡◌, ℕ, ◌+◌, ◌^◌, ◌<◌, ◌≤◌, ◌&&◌, not, true, false, nat_le, [], ◌∷◌, ◌++◌, map, remove, length, position, slice_index_or, slice_set, vec_capacity, IfOk, OnOk, IsSome};
ghost use Rattle.std.specs.List.{All};
ghost use Rattle.lw_payload.specs.Calls.{IsSameButRoom};
ghost use Rattle.lw_runs.specs.Positions.{overlaps, octets_in};
ghost use Rattle.lw_runs.specs.Kept.{Holds, CanJoin, AreSameButRoom};
ghost use Rattle.lw_reass.specs.Datagrams.{added, aged, plan_of, whole_head, place_of, opened, datagram_of, refusal_of, same_key, key_of, is_open, with_open, with_fragment, fits, stays, is_over};
ghost use Rattle.lw_reass.specs.Opens.{datagram, bodies_in, kept_in, rooms_in, kept_at, IsOpen, the_datagram, overs, nexts};
ghost use Rattle.lw_reass.specs.Table.{outcome_of, given_in, all_kept, joined, kept_where, IsTied, IsReady};

use crate::datagram::{Open, head_with};
use crate::{FragmentPlan, NoMemory, Outcome, Why};
use lw_base::{IpHead, Octets};
use lw_payload::Payload;
use lw_runs::Runs;
use std::alloc::Global;
use std::marker::Model;
use std::mem;

/// How many datagrams are open at most.
pub const MOST_OPEN: usize = 5;

/// After how many ticks a datagram is given up.
const OLDEST: u32 = 60;

/// The open datagrams.
#[derive(Drop)]
pub struct Reass<P: Payload> {
    alloc: Global,
    opens: Vec<Open<P>>,
    spare: Runs<P>,
}

impl<P: Payload> Model for Reass<P> {
    ghost use Rattle.lw_reass.specs.Table.{Reassembly};

    ghost Value = { Reassembly P };

    ghost use Rattle.std.specs.Prelude.{map, vec_capacity};
    ghost use Rattle.lw_reass.specs.Opens.{datagram, kept_in, rooms_in, AreOpen};

    ghost view = { λ r. record { datagrams = map datagram r.opens.items; kept = kept_in r.opens.items; rooms = rooms_in r.opens.items; spare = r.spare.room } };

    ghost invariant = { λ r. AreOpen P.seen r.opens.items r.spare (vec_capacity r.opens) };
}

impl<P: Payload> Reass<P> {
    /// No datagram is open.
    pub fn new(alloc: Global) -> Result<Reass<P>, NoMemory>
        ensures { IfOk result (λ r. r ≡ record { datagrams = []; kept = []; rooms = []; spare = 0 }) }
    {
        Ok(Reass {
            alloc,
            opens: Vec::with_capacity(alloc, MOST_OPEN)?,
            spare: Runs::new(alloc),
        })
    }

    /// How many payloads are kept.
    pub fn kept(&self) -> u32
        ensures { result ≡ length (all_kept self.now) }
    {
        count_in(&self.opens)
    }

    /// What holds of the payloads that are kept, at any time.
    pub fn tie(&self)
        ensures { IsTied P.seen self.now }
    {
        let _ = &self.opens;
    }

    /// What is to become of a fragment with this header and `n` octets of data.
    pub fn plan(&self, h: &IpHead, n: u32) -> FragmentPlan
        ensures { result ≡ plan_of self.now.datagrams h.now n }
    {
        let fresh = Open::new(h, Runs::new(self.alloc));
        let place = place_in(&self.opens, h);
        let datagram = open_at(&self.opens, &fresh, place);
        plan_in(&self.opens, datagram, place, h, n)
    }

    /// Takes the memory that `add` of this plan needs: a place for the payload, and where it makes its datagram whole, room to join it with
    /// those that are kept.
    pub fn ready(&mut self, plan: &FragmentPlan, body: &mut P) -> Result<(), NoMemory>
        requires { length (P.seen body.old).octets < 2 ^ 32 }
        ensures datagrams { self.new.datagrams ≡ self.old.datagrams }
        ensures bodies { AreSameButRoom P.seen (all_kept self.old) (all_kept self.new) }
        ensures body { IsSameButRoom (P.seen body.old) (P.seen body.new) }
        ensures ready { OnOk result (IsReady P.seen self.new plan.now (P.seen body.new)) }
    {
        match plan {
            FragmentPlan::Refuse(_) => Ok(()),
            FragmentPlan::Keep(place) => room_in(&mut self.opens, &mut self.spare, *place),
            FragmentPlan::Complete(place, _) => {
                room_in(&mut self.opens, &mut self.spare, *place)?;
                room_to_join(&mut self.opens, *place, body)
            }
        }
    }

    /// Takes a fragment in as it was planned: the header as it came, and the octets of data behind it. Takes no memory, since it needs what
    /// `ready` took.
    pub fn add(&mut self, plan: FragmentPlan, h: &IpHead, body: P) -> Outcome<P>
        requires short { length (P.seen body).octets < 2 ^ 32 }
        requires plan { plan ≡ plan_of self.old.datagrams h.now (length (P.seen body).octets) }
        requires family { All (λ p. (P.seen p).family ≡ (P.seen body).family) (all_kept self.old) }
        requires ready { IsReady P.seen self.old plan (P.seen body) }
        ensures datagrams { self.new.datagrams ≡ (added self.old.datagrams h.now (P.seen body).octets).datagrams }
        ensures outcome { outcome_of P.seen result ≡ (added self.old.datagrams h.now (P.seen body).octets).outcome }
        ensures bodies { Holds P.seen (body ∷ all_kept self.old) (given_in result ++ all_kept self.new) }
        ensures dropped { (why : Why) (p : P) → result ≡ Outcome.Dropped why p → (p ≡ body) × (self.new ≡ self.old) }
    {
        match plan {
            FragmentPlan::Refuse(why) => Outcome::Dropped(why, body),
            FragmentPlan::Keep(place) => {
                open_in(&mut self.opens, &mut self.spare, self.alloc, place, h);
                keep_in(&mut self.opens, place, h, body);
                Outcome::Kept
            }
            FragmentPlan::Complete(place, whole) => {
                open_in(&mut self.opens, &mut self.spare, self.alloc, place, h);
                Outcome::Whole(whole, take_whole(&mut self.opens, place, h, body))
            }
        }
    }

    /// The octets of the whole that `add` gives where the plan makes one.
    pub fn whole_octets(
        &self,
        alloc: Global,
        plan: &FragmentPlan,
        h: &IpHead,
        body: &[u8],
    ) -> Result<Octets, NoMemory>
        requires short { length body.now < 2 ^ 32 }
        requires plan { plan.now ≡ plan_of self.now.datagrams h.now (length body.now) }
        requires whole { IsSome (whole_head plan.now) }
        ensures whole { IfOk result (λ octets. (w : IpHead) → whole_head plan.now ≡ Some w
            → (added self.now.datagrams h.now body.now).outcome ≡ Outcome.Whole w octets) }
        ensures short { IfOk result (λ octets. length octets ≤ 65535) }
    {
        let FragmentPlan::Complete(place, _) = plan else {
            unreachable!()
        };
        let fresh = Open::new(h, Runs::new(self.alloc));
        let datagram = open_at(&self.opens, &fresh, *place);
        datagram.runs.octets_with(alloc, h.offset, body)
    }

    /// One tick passes: appends the payloads of the datagrams that are over. Takes no memory, since `gone` needs room for all that are
    /// kept.
    pub fn age(&mut self, gone: &mut Vec<P>)
        requires { length gone.old.items + length (all_kept self.old) ≤ vec_capacity gone.old }
        ensures datagrams { self.new.datagrams ≡ aged self.old.datagrams }
        ensures kept { self.new.kept ≡ kept_where stays self.old }
        ensures given { gone.new.items ≡ gone.old.items ++ joined (kept_where is_over self.old) }
        ensures bodies { Holds P.seen (all_kept self.old) (joined (kept_where is_over self.old) ++ all_kept self.new) }
        ensures room { vec_capacity gone.new ≡ vec_capacity gone.old }
    {
        age_all(&mut self.opens, gone);
    }

    /// Gives all kept payloads back behind those in `gone`. Takes no memory, since it needs the room.
    pub fn finish(self, gone: &mut Vec<P>)
        requires { length gone.old.items + length (all_kept self) ≤ vec_capacity gone.old }
        ensures { gone.new.items ≡ gone.old.items ++ all_kept self }
    {
        let Reass { opens, .. } = self;
        give_all(opens, gone);
    }
}

/// The place of the datagram of a fragment, where it is open.
fn first_of<P: Payload>(opens: &[Open<P>], h: &IpHead) -> Option<usize>
    ensures { result ≡ position (λ o. same_key o.key (key_of h.now)) opens.now }
{
    opens.iter().position(|o| o.is_of(h))
}

/// Where the datagram of a fragment stands, or would stand.
fn place_in<P: Payload>(opens: &[Open<P>], h: &IpHead) -> usize
    ensures value { result ≡ place_of (map datagram opens.now) h.now }
    ensures within { result ≤ length opens.now }
{
    first_of(opens, h).unwrap_or(opens.len())
}

/// The datagram at a place; `fresh` where none is there.
fn open_at<'a, P: Payload>(opens: &'a [Open<P>], fresh: &'a Open<P>, place: usize) -> &'a Open<P>
    requires young { IsOpen P.seen fresh.now }
    requires each { All (IsOpen P.seen) opens.now }
    ensures datagram { (h : IpHead) → datagram fresh.now ≡ opened h → place ≡ place_of (map datagram opens.now) h → datagram result.now ≡ datagram_of (map datagram opens.now) h }
    ensures open { IsOpen P.seen result.now }
{
    if place < opens.len() {
        &opens[place]
    } else {
        fresh
    }
}

/// Why a fragment of `n` octets isn't kept; `own` is its datagram, and `place` where it stands.
fn refusal<P: Payload>(
    opens: &[Open<P>],
    own: &Open<P>,
    place: usize,
    h: &IpHead,
    n: u32,
) -> Option<Why>
    requires place { place ≡ place_of (map datagram opens.now) h.now }
    requires datagram { datagram own.now ≡ datagram_of (map datagram opens.now) h.now }
    ensures { result ≡ refusal_of (map datagram opens.now) h.now n }
{
    if !own.fits(h, n) {
        Some(Why::BadLength)
    } else if is_full(opens, place) {
        Some(Why::Table)
    } else if own.runs.overlaps(h.offset, n) {
        Some(Why::Overlap)
    } else {
        None
    }
}

/// Whether no datagram is open at a place and none can be opened.
fn is_full<P: Payload>(opens: &[Open<P>], place: usize) -> bool
    ensures { (h : IpHead) → place ≡ place_of (map datagram opens.now) h → result ≡ (not (is_open (map datagram opens.now) h) && nat_le 5 (length (map datagram opens.now))) }
{
    !(place < opens.len()) && opens.len() >= MOST_OPEN
}

/// What is to become of a fragment of `n` octets; `own` is its datagram, and `place` where it stands.
fn plan_in<P: Payload>(
    opens: &[Open<P>],
    own: &Open<P>,
    place: usize,
    h: &IpHead,
    n: u32,
) -> FragmentPlan
    requires place { place ≡ place_of (map datagram opens.now) h.now }
    requires datagram { datagram own.now ≡ datagram_of (map datagram opens.now) h.now }
    requires open { IsOpen P.seen own.now }
    ensures { result ≡ plan_of (map datagram opens.now) h.now n }
{
    if let Some(why) = refusal(opens, own, place, h, n) {
        return FragmentPlan::Refuse(why);
    }
    if own.completes(h, n) {
        FragmentPlan::Complete(place, head_with(own.head, h).unwrap_or(*h))
    } else {
        FragmentPlan::Keep(place)
    }
}

/// Makes room for one more payload in the datagram at a place; in the spare one where none is there.
fn room_in<P: Payload>(
    opens: &mut Vec<Open<P>>,
    spare: &mut Runs<P>,
    place: usize,
) -> Result<(), NoMemory>
    requires { All (IsOpen P.seen) opens.old.items }
    ensures datagrams { map datagram opens.new.items ≡ map datagram opens.old.items }
    ensures kept { kept_in opens.new.items ≡ kept_in opens.old.items }
    ensures each { All (IsOpen P.seen) opens.new.items }
    ensures ok { OnOk result (0 < slice_index_or (rooms_in opens.new.items) place spare.new.room) }
    ensures empty { spare.new.octets ≡ spare.old.octets }
    ensures none { spare.new.bodies ≡ spare.old.bodies }
    ensures length { length opens.new.items ≡ length opens.old.items }
    ensures capacity { vec_capacity opens.new ≡ vec_capacity opens.old }
{
    if place < opens.len() {
        let datagram = &mut opens[place];
        return datagram.runs.room();
    }
    spare.room()
}

/// Makes room to join a payload with those of the datagram at a place.
fn room_to_join<P: Payload>(
    opens: &mut Vec<Open<P>>,
    place: usize,
    body: &mut P,
) -> Result<(), NoMemory>
    requires short { length (P.seen body.old).octets < 2 ^ 32 }
    requires each { All (IsOpen P.seen) opens.old.items }
    ensures datagrams { map datagram opens.new.items ≡ map datagram opens.old.items }
    ensures bodies { AreSameButRoom P.seen (bodies_in opens.old.items) (bodies_in opens.new.items) }
    ensures rooms { rooms_in opens.new.items ≡ rooms_in opens.old.items }
    ensures each { All (IsOpen P.seen) opens.new.items }
    ensures body { IsSameButRoom (P.seen body.old) (P.seen body.new) }
    ensures ok { OnOk result (CanJoin P.seen (kept_at opens.new.items place) (P.seen body.new)) }
    ensures length { length opens.new.items ≡ length opens.old.items }
    ensures capacity { vec_capacity opens.new ≡ vec_capacity opens.old }
{
    if place < opens.len() {
        let datagram = &mut opens[place];
        return datagram.runs.room_to_join(body);
    }
    Ok(())
}

/// Opens a datagram at a place where none is there.
fn open_in<P: Payload>(
    opens: &mut Vec<Open<P>>,
    spare: &mut Runs<P>,
    alloc: Global,
    place: usize,
    h: &IpHead,
)
    requires place { place ≡ place_of (map datagram opens.old.items) h.now }
    requires capacity { is_open (map datagram opens.old.items) h.now ≡ false → length opens.old.items < vec_capacity opens.old }
    requires each { All (IsOpen P.seen) opens.old.items }
    requires empty { spare.old.octets ≡ [] }
    requires none { spare.old.bodies ≡ [] }
    ensures within { place < length opens.new.items }
    ensures datagrams { map datagram opens.new.items ≡ with_open (map datagram opens.old.items) h.now }
    ensures bodies { bodies_in opens.new.items ≡ bodies_in opens.old.items }
    ensures kept { kept_at opens.new.items place ≡ kept_at opens.old.items place }
    ensures room { slice_index_or (rooms_in opens.new.items) place 0 ≡ slice_index_or (rooms_in opens.old.items) place spare.old.room }
    ensures each { All (IsOpen P.seen) opens.new.items }
    ensures empty { spare.new.octets ≡ [] }
    ensures none { spare.new.bodies ≡ [] }
    ensures capacity { vec_capacity opens.new ≡ vec_capacity opens.old }
{
    if place < opens.len() {
        return;
    }
    let runs = mem::replace(spare, Runs::new(alloc));
    opens.push_reserved(Open::new(h, runs));
}

/// Puts a fragment into the datagram at a place.
fn keep_in<P: Payload>(opens: &mut Vec<Open<P>>, place: usize, h: &IpHead, body: P)
    requires within { place < length opens.old.items }
    requires short { length (P.seen body).octets < 2 ^ 32 }
    requires fits { fits (the_datagram opens.old.items place h.now) h.now (length (P.seen body).octets) ≡ true }
    requires free { overlaps (the_datagram opens.old.items place h.now).octets h.now.offset (length (P.seen body).octets) ≡ false }
    requires family { All (λ p. (P.seen p).family ≡ (P.seen body).family) (bodies_in opens.old.items) }
    requires each { All (IsOpen P.seen) opens.old.items }
    requires room { 0 < slice_index_or (rooms_in opens.old.items) place 0 }
    ensures datagrams { map datagram opens.new.items ≡ slice_set (map datagram opens.old.items) place (with_fragment (the_datagram opens.old.items place h.now) h.now (P.seen body).octets) }
    ensures bodies { Holds P.seen (body ∷ bodies_in opens.old.items) (bodies_in opens.new.items) }
    ensures each { All (IsOpen P.seen) opens.new.items }
    ensures length { length opens.new.items ≡ length opens.old.items }
    ensures capacity { vec_capacity opens.new ≡ vec_capacity opens.old }
{
    let datagram = &mut opens[place];
    datagram.keep(h, body);
}

/// Takes out the datagram at a place, which a fragment makes whole, and joins its payloads and that of the fragment.
fn take_whole<P: Payload>(opens: &mut Vec<Open<P>>, place: usize, h: &IpHead, body: P) -> P
    requires within { place < length opens.old.items }
    requires short { length (P.seen body).octets < 2 ^ 32 }
    requires fits { fits (the_datagram opens.old.items place h.now) h.now (length (P.seen body).octets) ≡ true }
    requires free { overlaps (the_datagram opens.old.items place h.now).octets h.now.offset (length (P.seen body).octets) ≡ false }
    requires family { All (λ p. (P.seen p).family ≡ (P.seen body).family) (bodies_in opens.old.items) }
    requires each { All (IsOpen P.seen) opens.old.items }
    requires room { 0 < slice_index_or (rooms_in opens.old.items) place 0 }
    requires joins { CanJoin P.seen (kept_at opens.old.items place) (P.seen body) }
    ensures datagrams { map datagram opens.new.items ≡ remove (map datagram opens.old.items) place }
    ensures octets { (P.seen result).octets ≡ octets_in (with_fragment (the_datagram opens.old.items place h.now) h.now (P.seen body).octets).octets }
    ensures bodies { Holds P.seen (body ∷ bodies_in opens.old.items) (result ∷ bodies_in opens.new.items) }
    ensures each { All (IsOpen P.seen) opens.new.items }
    ensures length { length opens.new.items ≤ length opens.old.items }
    ensures capacity { vec_capacity opens.new ≡ vec_capacity opens.old }
{
    let Open { runs, .. } = opens.remove(place);
    runs.join_with(h.offset, body)
}

/// How many payloads are kept.
fn count_in<P: Payload>(opens: &[Open<P>]) -> u32
    requires few { length opens.now ≤ 5 }
    requires each { All (IsOpen P.seen) opens.now }
    ensures { result ≡ length (bodies_in opens.now) }
{
    let mut kept = 0;
    for datagram in opens {
        kept += datagram.runs.len();
    }
    kept
}

/// One tick passes: takes out the datagrams that are over, and appends their payloads.
fn age_all<P: Payload>(opens: &mut Vec<Open<P>>, gone: &mut Vec<P>)
    requires each { All (IsOpen P.seen) opens.old.items }
    requires room { length gone.old.items + length (bodies_in opens.old.items) ≤ vec_capacity gone.old }
    ensures opens { opens.new.items ≡ nexts opens.old.items }
    ensures given { gone.new.items ≡ gone.old.items ++ bodies_in (overs opens.old.items) }
    ensures room { vec_capacity gone.new ≡ vec_capacity gone.old }
    ensures capacity { vec_capacity opens.new ≡ vec_capacity opens.old }
{
    let mut place = 0;
    while place < opens.len() {
        let age = opens[place].age + 1;
        if age < OLDEST {
            let datagram = &mut opens[place];
            datagram.age = age;
            place += 1;
        } else {
            let datagram = opens.remove(place);
            datagram.runs.give(gone);
        }
    }
}

/// Appends the payloads of datagrams.
fn give_all<P: Payload>(opens: Vec<Open<P>>, gone: &mut Vec<P>)
    requires { length gone.old.items + length (bodies_in opens.items) ≤ vec_capacity gone.old }
    ensures { gone.new.items ≡ gone.old.items ++ bodies_in opens.items }
{
    for datagram in opens {
        datagram.runs.give(gone);
    }
}
