ghost use Rattle.std.specs.Prelude.{◌≡◌, ◌+◌, ◌++◌, [], ◌∷◌, All, IfOk, IfSome, List, MatchOption, OnErr, length};
ghost use Rattle.lw_payload.specs.Totals.{IsOwned, total};
ghost use Rattle.lw_boxes.specs.Lists.{shelf_of};
ghost use Rattle.lw_layers.specs.Boxes.{AreBoxesOf};
ghost use Rattle.lw_core.specs.Held.{held_by};
ghost use Rattle.lw_rules.specs.Schedule.{made, named_from, turn};
ghost use Rattle.lwip_run.specs.Plain.{FedAll, IsBody, NeverRefuses, TakesFrame};

use crate::history::History;
use call_types::Outcome;
use lw_actors::{Api, Step};
use lw_base::{FrameList, Octets};
use lw_boxes::ListBoxes;
use lw_core::Core;
use lw_events::Event;
use lw_payload::{Kind, MakeFault, Payload};
use lw_script::Call;
use lw_transcript::Evidence;
use std::alloc::{AllocError, Global};
use std::marker::Model;
use std::vec::IntoIter;

/// The calls of a script made directly on a core over payloads, on one thread. Contracts see it as a
/// configuration of the serial schedule; what the core holds is of its Home, and the mailboxes are those
/// of its connections, which have no end of UDP.
#[derive(Drop)]
pub struct PlainApi<P: Payload<Home: Drop>> {
    core: Core<P>,
    boxes: ListBoxes<P>,
    home: P::Home,
    left: IntoIter<Octets>,
    entries: History,
}

impl<P: Payload<Home: Drop>> Model for PlainApi<P> {
    ghost use Rattle.std.specs.Prelude.{◌≡◌, []};
    ghost use Rattle.std.specs.Vec.Iter.{into_iter_items};
    ghost use Rattle.lw_boxes.specs.Lists.{shelf_of};
    ghost use Rattle.lw_layers.specs.Boxes.{AreBoxesOf};
    ghost use Rattle.lw_core.specs.Held.{held_by};
    ghost use Rattle.lw_rules.specs.Schedule.{Configuration};
    ghost use Rattle.lwip_run.specs.Plain.{IsAtHome};

    ghost Value = { Configuration };

    ghost view = { λ a. record { state = a.core.state; left = into_iter_items a.left; entries = a.entries } };

    ghost invariant = { λ a. IsAtHome P.seen P.home_seen P.may_refuse a.home (held_by a.core) (into_iter_items a.left) × AreBoxesOf a.core.state.endpoints.conns (shelf_of a.boxes) × (a.core.state.endpoints.udp.ends ≡ []) };
}

impl<P: Payload<Home: Drop>> PlainApi<P> {
    /// A core that has made no event yet, the mailboxes of its connections, its Home, and the frames that
    /// are to be fed to it.
    pub fn new(
        alloc: Global,
        core: Core<P>,
        boxes: ListBoxes<P>,
        home: P::Home,
        frames: FrameList,
    ) -> PlainApi<P>
        requires never { NeverRefuses P.home_seen P.may_refuse }
        requires held { held_by core ≡ [] }
        requires boxes { AreBoxesOf core.state.endpoints.conns (shelf_of boxes) }
        requires none { core.state.endpoints.udp.ends ≡ [] }
        requires short { All IsBody frames }
        ensures { result ≡ record { state = core.state; left = frames; entries = [] } }
    {
        PlainApi {
            core,
            boxes,
            home,
            left: frames.into_vec().into_iter(),
            entries: History::new(alloc),
        }
    }

    /// The history. What the core holds goes to the Home, but for want of memory.
    pub fn into_history(self, alloc: Global) -> History
        ensures { result ≡ self.entries }
    {
        let PlainApi {
            core,
            mut home,
            entries,
            ..
        } = self;
        let _ = core.finish(alloc, &mut home);
        entries
    }

    fn next_frame(&mut self) -> Option<Octets>
        ensures taken { MatchOption result ((self.old.left ≡ []) × (self.new ≡ self.old)) (TakesFrame self.old self.new) }
        ensures short { IfSome result IsBody }
    {
        self.left.next()
    }

    fn left(&self) -> usize
        ensures { result ≡ length self.now.left }
    {
        self.left.len()
    }

    /// Feeds a frame and answers the number of its entry, counted from 1.
    fn feed(&mut self, alloc: Global, actor: u32, octets: &[u8]) -> Result<u32, AllocError>
        requires { IsBody octets.now }
        ensures { IfOk result (λ n. (self.new ≡ made self.old actor (Event.Frame octets.now ∷ [])) × (n ≡ length self.old.entries + 1)) }
    {
        let frame = made_frame(alloc, &mut self.home, octets)?;
        let (entry, _) = match self.core.step(
            alloc,
            actor,
            Event::Frame(frame),
            &mut self.home,
            &mut self.boxes,
        ) {
            Ok(made) => made,
            Err((none, _)) => return Err(none),
        };
        self.entries.push(entry)
    }

    /// Ends the run and answers the number of the entry.
    fn end(&mut self, alloc: Global, actor: u32) -> Result<u32, AllocError>
        ensures { IfOk result (λ n. (self.new ≡ made self.old actor (Event.Stop ∷ [])) × (n ≡ length self.old.entries + 1)) }
    {
        let (entry, _) = match self
            .core
            .step(alloc, actor, Event::Stop, &mut self.home, &mut self.boxes)
        {
            Ok(made) => made,
            Err((none, _)) => return Err(none),
        };
        self.entries.push(entry)
    }

    /// Feeds the frames that are left.
    fn feed_all(
        &mut self,
        alloc: Global,
        actor: u32,
        seen: &mut Vec<Evidence>,
    ) -> Result<Outcome, AllocError>
        ensures { IfOk result (λ outcome. FedAll actor self.old self.new seen.old.items seen.new.items outcome) }
    {
        let count = u32::try_from(self.left()).map_err(|_| AllocError)?;
        self.entries.reserve(count as usize)?;
        seen.reserve(count as usize)?;
        while let Some(octets) = self.next_frame() {
            let number = self.feed(alloc, actor, octets.as_slice())?;
            seen.push(Evidence::At(number))?;
        }
        Ok(Outcome::Fed(count))
    }

    /// Ends the run.
    fn stop(
        &mut self,
        alloc: Global,
        actor: u32,
        seen: &mut Vec<Evidence>,
    ) -> Result<Outcome, AllocError>
        ensures { IfOk result (λ outcome. (self.new ≡ made self.old actor (Event.Stop ∷ [])) × (seen.new.items ≡ seen.old.items ++ Evidence.At (length self.old.entries + 1) ∷ []) × (outcome ≡ Outcome.Ok)) }
    {
        let number = self.end(alloc, actor)?;
        seen.push(Evidence::At(number))?;
        Ok(Outcome::Ok)
    }
}

/// A payload of POOL with the octets of a frame, out of a Home that refuses none. What is owned by
/// others stays so.
fn made_frame<P: Payload>(alloc: Global, home: &mut P::Home, octets: &[u8]) -> Result<P, AllocError>
    requires never { NeverRefuses P.home_seen P.may_refuse }
    requires short { IsBody octets.now }
    ensures octets { IfOk result (λ p. (P.seen p).octets ≡ octets.now) }
    ensures err { OnErr result (P.home_seen home.new ≡ P.home_seen home.old) }
    ensures owned { IfOk result (λ p. (held : List P) → IsOwned (P.home_seen home.old) (total P.seen (P.home_seen home.old).pools.family held)
        → IsOwned (P.home_seen home.new) (total P.seen (P.home_seen home.new).pools.family (p ∷ held))) }
{
    match P::make(alloc, home, Kind::Pool, octets) {
        Ok(payload) => Ok(payload),
        Err(MakeFault::NoMemory) => Err(AllocError),
        Err(MakeFault::TooLong) | Err(MakeFault::Empty(_)) => unreachable!(),
    }
}

impl<P: Payload<Home: Drop>> Api for PlainApi<P> {
    ghost use Rattle.lw_rules.specs.Schedule.{Configuration};
    ghost use Rattle.lwip_run.specs.Plain.{plain_gives};

    ghost State = { Configuration };

    ghost state = { λ a. a };

    ghost gives = { plain_gives };

    fn call(
        &mut self,
        alloc: Global,
        actor: u32,
        call: Call,
        _begun: bool,
        seen: &mut Vec<Evidence>,
    ) -> Result<Step, AllocError> {
        let outcome = match call {
            Call::FeedAll => self.feed_all(alloc, actor, seen)?,
            Call::Stop => self.stop(alloc, actor, seen)?,
        };
        Ok(Step::Did(outcome))
    }
}
