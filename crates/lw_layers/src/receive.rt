//! How a frame is taken in: it is looked at and planned, the mailbox of a connection is asked for a place,
//! then all memory is claimed, then what was planned is done.
ghost use Rattle.std.specs.Prelude.{◌≡◌, ◌-◌, ◌^◌, ◌<◌, [], ◌∷◌, false, true, IfErr, IfOk, IfSome, OnErr, OnOk, MatchOption, length, map, All};
ghost use Rattle.lw_payload.specs.declared.kinds.Kind.{Kind};
ghost use Rattle.lw_payload.specs.Views.{IsShort};
ghost use Rattle.lw_payload.specs.Calls.{IsSameButRoom};
ghost use Rattle.lw_payload.specs.Totals.{total, IsOwned, Moves};
ghost use Rattle.lw_events.specs.declared.event.Event.{Event};
ghost use Rattle.lw_events.specs.Events.{Grants};
ghost use Rattle.lw_link.specs.Sound.{IsSoundWay};
ghost use Rattle.lw_events.specs.Events.{had_place};
ghost use Rattle.lw_layers.specs.Boxes.{AreAsked, AreBoxesOf, AreSameBoxes};
ghost use Rattle.lw_input.specs.Input.{begun};
ghost use Rattle.lw_layers.specs.Claims.{IsClaimed, IsRefusedKind, KindIsShort, Makes};
ghost use Rattle.lw_layers.specs.Layers.{held_in, state_of, HoldsChange, IsReadyFor, IsRoomFor, IsSameLayers};
ghost use Rattle.lw_layers.specs.Posts.{IsOffered, IsPosting};
ghost use Rattle.lw_layers.specs.Step.{frame_granted};

use crate::NoMemory;
use crate::claim::claim_for;
use crate::layers::Layers;
use crate::mail::Offer;
use crate::plan::{Change, FramePlan};
use lw_base::{FrameList, Ip, Port};
use lw_boxes::{Boxes, Item};
use lw_events::PostList;
use lw_input::arrival_of;
use lw_link::LinkPlan;
use lw_payload::{Payload, spend};
use std::alloc::Global;

/// What was made ready for a frame: what it changes and sends, what is posted, and a payload of RAM.
#[derive(Drop)]
pub struct Ready<P> {
    pub change: Change,
    pub link: LinkPlan,
    pub offer: Offer,
    pub ram: P,
}

/// What a frame posted and sent, and whether RAM was short for it.
#[derive(Drop)]
pub struct Received {
    pub posts: PostList,
    pub frames: FrameList,
    pub short: bool,
}

/// Nothing was posted and nothing was sent.
pub fn nothing(alloc: Global, short: bool) -> Received
    ensures { result ≡ record { posts = []; frames = []; short = short } }
{
    Received {
        posts: PostList::from_vec(Vec::new(alloc)),
        frames: FrameList::from_vec(Vec::new(alloc)),
        short,
    }
}

/// Nothing was posted, and frames were sent.
pub fn sent(alloc: Global, frames: FrameList) -> Received
    ensures { result ≡ record { posts = []; frames = frames; short = false } }
{
    Received {
        posts: PostList::from_vec(Vec::new(alloc)),
        frames,
        short: false,
    }
}

impl<P: Payload> Layers<P> {
    /// Takes a frame with these octets in.
    pub fn receive<B: Boxes<P>>(
        &mut self,
        alloc: Global,
        home: &mut P::Home,
        boxes: &mut B,
        mut frame: P,
        octets: &[u8],
    ) -> Result<Received, (NoMemory, P)>
        requires octets { octets.now ≡ (P.seen frame).octets }
        requires owned { IsOwned (P.home_seen home.old) (total P.seen (P.home_seen home.old).pools.family (frame ∷ held_in self.old)) }
        requires ram { Makes (P.home_seen home.old) Kind.Ram 1500 }
        requires sound { IsSoundWay (begun (state_of P.seen self.old)) }
        requires boxes { AreBoxesOf self.old.endpoints.conns (B.seen boxes.old) }
        requires fits { (ip : Ip) (port : Port) (p : P) → (P.seen p).family ≡ (P.home_seen home.old).pools.family → B.fits (B.terms boxes.old) (Item.Datagram ip port p) }
        ensures state { IfOk result (λ r. state_of P.seen self.new ≡ (frame_granted (state_of P.seen self.old) octets.now r.short (map had_place r.posts)).state) }
        ensures frames { IfOk result (λ r. r.frames ≡ (frame_granted (state_of P.seen self.old) octets.now r.short (map had_place r.posts)).frames) }
        ensures posts { IfOk result (λ r. r.posts ≡ (frame_granted (state_of P.seen self.old) octets.now r.short (map had_place r.posts)).posts) }
        ensures posting { IfOk result (λ r. IsPosting P.seen (P.home_seen home.old) (P.home_seen home.new) r.posts (B.seen boxes.old) (B.seen boxes.new) (frame ∷ held_in self.old) (held_in self.new)) }
        ensures offers { IfOk result (λ r. All (IsOffered B.offers boxes.old) r.posts) }
        ensures short { IfOk result (λ r. r.short ≡ true → KindIsShort P.may_refuse home.old (P.home_seen home.old) Kind.Ram) }
        ensures enough { IfOk result (λ r. r.short ≡ false → ¬ (IsShort (P.home_seen home.old) Kind.Ram 1)) }
        ensures err { IfErr result (λ r. IsSameLayers P.seen self.old self.new × IsSameButRoom (P.seen frame) (P.seen r.1) × (P.home_seen home.new ≡ P.home_seen home.old)) }
        ensures same { IfErr result (λ _. AreSameBoxes (B.seen boxes.old) (B.seen boxes.new)) }
        ensures boxes { AreBoxesOf self.new.endpoints.conns (B.seen boxes.new) }
        ensures terms { B.terms boxes.new ≡ B.terms boxes.old }
    {
        match self.ready(alloc, home, boxes, &mut frame, octets) {
            Ok(Some(ready)) => Ok(self.apply(home, boxes, frame, ready)),
            Ok(None) => {
                spend(home, frame);
                self.count();
                Ok(nothing(alloc, true))
            }
            Err(none) => Err((none, frame)),
        }
    }

    /// Looks at a frame with these octets, plans it, asks for a place for what is to be posted, and takes all
    /// memory that it needs, the payload of RAM last; none where RAM is short.
    fn ready<B: Boxes<P>>(
        &mut self,
        alloc: Global,
        home: &mut P::Home,
        boxes: &mut B,
        frame: &mut P,
        octets: &[u8],
    ) -> Result<Option<Ready<P>>, NoMemory>
        requires octets { octets.now ≡ (P.seen frame.old).octets }
        requires owned { IsOwned (P.home_seen home.old) (total P.seen (P.home_seen home.old).pools.family (frame.old ∷ held_in self.old)) }
        requires ram { Makes (P.home_seen home.old) Kind.Ram 1500 }
        requires sound { IsSoundWay (begun (state_of P.seen self.old)) }
        requires boxes { AreBoxesOf self.old.endpoints.conns (B.seen boxes.old) }
        ensures same { IsSameLayers P.seen self.old self.new }
        ensures frame { IsSameButRoom (P.seen frame.old) (P.seen frame.new) }
        ensures ready { IfOk result (λ r. IfSome r (IsReadyFor P.seen self.new (B.seen boxes.new) (P.seen frame.new))) }
        ensures offers { IfOk result (λ r. IfSome r (λ x. All (IsOffered B.offers boxes.old) x.offer.posts)) }
        ensures asked { AreAsked (B.seen boxes.old) (B.seen boxes.new) }
        ensures terms { B.terms boxes.new ≡ B.terms boxes.old }
        ensures claimed { IfOk result (λ r. MatchOption r (IsRefusedKind P.may_refuse home.old (P.home_seen home.old) (P.home_seen home.new) Kind.Ram) (λ x. IsClaimed Kind.Ram (P.home_seen home.old) (P.home_seen home.new) (P.seen x.ram))) }
        ensures err { OnErr result (P.home_seen home.new ≡ P.home_seen home.old) }
    {
        let arrival = arrival_of(self.netif.net(), octets);
        let FramePlan { change, link, mail } = self.plan(alloc, octets, &arrival)?;
        let offer = self.offer(alloc, mail, boxes)?;
        self.room(&change, frame)?;
        let Some(ram) = claim_for(alloc, home, &link.waits)? else {
            return Ok(None);
        };
        Ok(Some(Ready {
            change,
            link,
            offer,
            ram,
        }))
    }

    /// Makes room for the fragment that a frame brings, if it does.
    fn room(&mut self, change: &Change, frame: &mut P) -> Result<(), NoMemory>
        requires short { length (P.seen frame.old).octets < 2 ^ 32 }
        ensures same { IsSameLayers P.seen self.old self.new }
        ensures frame { IsSameButRoom (P.seen frame.old) (P.seen frame.new) }
        ensures ok { OnOk result (IsRoomFor P.seen self.new.fragments change.now (P.seen frame.new)) }
    {
        match change {
            Change::Keep(_, plan) => self.fragments.ready(plan, frame),
            Change::Learn(_) | Change::Nothing => Ok(()),
        }
    }
}
