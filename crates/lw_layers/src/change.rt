//! What was planned is done: nothing is decided here, and nothing can fail.
ghost use Rattle.std.specs.Prelude.{◌≡◌, ℕ, ◌+◌, ◌-◌, ◌^◌, ◌≤◌, ◌<◌, ◌++◌, [], ◌∷◌, Option, Some, None, IfSome, length, map, option_map, option_to_list, slice_range, take, false, List};
ghost use Rattle.lw_payload.specs.Views.{View, IsOf};
ghost use Rattle.lw_payload.specs.Calls.{IsCut};
ghost use Rattle.lw_payload.specs.Totals.{total, IsOwned, Moves};
ghost use Rattle.lw_arp.specs.declared.entries.EntryState.{EntryState};
ghost use Rattle.lw_arp.specs.declared.entries.Lesson.{Lesson};
ghost use Rattle.lw_arp.specs.Neighbours.{entry_of, map_entries, packets, state_of as neighbour_state, taught_by};
ghost use Rattle.lw_reass.specs.Datagrams.{added, plan_of};
ghost use Rattle.lw_reass.specs.Table.{all_kept, given_in, outcome_of, IsReady};
ghost use Rattle.lw_netif.specs.Frames.{frames_left};
ghost use Rattle.lw_link.specs.Plans.{waiter};
ghost use Rattle.lw_link.specs.Way.{asked_for, waiting_in};
ghost use Rattle.lw_events.specs.Events.{had_place};
ghost use Rattle.lw_input.specs.Arrivals.{data_in, HoldsDatagram};
ghost use Rattle.lw_layers.specs.Boxes.{AreBoxesOf};
ghost use Rattle.lw_layers.specs.Layers.{change_of, fragments_with, held_in, link_with, octets_given, rest_of, state_of, HoldsChange, IsReadyFor, IsRoomFor};
ghost use Rattle.lw_layers.specs.Outcomes.{counted};
ghost use Rattle.lw_layers.specs.Posts.{IsPosting};
ghost use Rattle.lw_layers.specs.Step.{frame_step};

use crate::layers::Layers;
use crate::mail::Offer;
use crate::plan::Change;
use crate::receive::{Ready, Received};
use lw_arp::{ArpTable, LearnPlan};
use lw_base::{FrameList, Ip, IpHead, Octets, Port};
use lw_boxes::{Boxes, Item};
use lw_input::ETH_LEN;
use lw_link::{LinkPlan, carry_out};
use lw_payload::{Payload, spend, spend_if};
use lw_reass::{FragmentPlan, Outcome, Reass};

impl<P: Payload> Layers<P> {
    /// Takes a frame in, for which all was made ready.
    pub fn apply<B: Boxes<P>>(
        &mut self,
        home: &mut P::Home,
        boxes: &mut B,
        frame: P,
        ready: Ready<P>,
    ) -> Received
        requires owned { IsOwned (P.home_seen home.old) (total P.seen (P.home_seen home.old).pools.family (frame ∷ ready.ram ∷ held_in self.old)) }
        requires ready { IsReadyFor P.seen self.old (B.seen boxes.old) (P.seen frame) ready }
        requires boxes { AreBoxesOf self.old.endpoints.conns (B.seen boxes.old) }
        requires fits { (ip : Ip) (port : Port) (p : P) → (P.seen p).family ≡ (P.home_seen home.old).pools.family → B.fits (B.terms boxes.old) (Item.Datagram ip port p) }
        ensures state { state_of P.seen self.new ≡ (frame_step (state_of P.seen self.old) (P.seen frame).octets (map had_place result.posts)).state }
        ensures frames { result.frames ≡ (frame_step (state_of P.seen self.old) (P.seen frame).octets (map had_place result.posts)).frames }
        ensures posts { result.posts ≡ (frame_step (state_of P.seen self.old) (P.seen frame).octets (map had_place result.posts)).posts }
        ensures offered { result.posts ≡ ready.offer.posts }
        ensures short { result.short ≡ false }
        ensures posting { IsPosting P.seen (P.home_seen home.old) (P.home_seen home.new) result.posts (B.seen boxes.old) (B.seen boxes.new) (frame ∷ ready.ram ∷ held_in self.old) (held_in self.new) }
        ensures boxes { AreBoxesOf self.new.endpoints.conns (B.seen boxes.new) }
        ensures terms { B.terms boxes.new ≡ B.terms boxes.old }
    {
        let Ready {
            change,
            link,
            offer,
            ram,
        } = ready;
        let rest = self.change(home, &change, frame);
        self.deliver(home, boxes, rest, &offer);
        let frames = self.carry(home, link, ram);
        self.count();
        let Offer { posts, .. } = offer;
        Received {
            posts,
            frames,
            short: false,
        }
    }

    /// Teaches the neighbours or takes a fragment in, and gives what is left of the frame.
    fn change(&mut self, home: &mut P::Home, change: &Change, frame: P) -> Option<P>
        requires owned { IsOwned (P.home_seen home.old) (total P.seen (P.home_seen home.old).pools.family (frame ∷ held_in self.old)) }
        requires holds { HoldsChange (length (P.seen frame).octets - 14) change.now }
        requires fresh { (plan : LearnPlan) → change.now ≡ Change.Learn plan → plan.lesson ≡ Lesson.Make → entry_of self.old.neighbours plan.ip ≡ None }
        requires plan { (h : IpHead) (plan : FragmentPlan) → change.now ≡ Change.Keep h plan → plan ≡ plan_of self.old.fragments.datagrams h (h.total - h.head_len) }
        requires room { IsRoomFor P.seen self.old.fragments change.now (P.seen frame) }
        ensures neighbours { map_entries (λ p. (P.seen p).octets) self.new.neighbours ≡ (link_with (state_of P.seen self.old).link change.now).neighbours }
        ensures fragments { self.new.fragments.datagrams ≡ fragments_with self.old.fragments.datagrams (P.seen frame).octets change.now }
        ensures same { self.new ≡ record self.old { neighbours = self.new.neighbours; fragments = self.new.fragments } }
        ensures rest { option_map (λ p. (P.seen p).octets) result ≡ rest_of self.old.fragments.datagrams (P.seen frame).octets change.now }
        ensures moves { Moves (P.home_seen home.old) (P.home_seen home.new) (total P.seen (P.home_seen home.old).pools.family (frame ∷ held_in self.old)) (total P.seen (P.home_seen home.old).pools.family (option_to_list result ++ held_in self.new)) }
    {
        match change {
            Change::Learn(plan) => {
                learn(&mut self.neighbours, home, plan);
                Some(frame)
            }
            Change::Keep(head, plan) => keep(&mut self.fragments, home, head, *plan, frame),
            Change::Nothing => Some(frame),
        }
    }

    /// Carries out what goes out: addresses are looked up, `ram` waits where a packet does, and the frames
    /// that go out are answered.
    pub fn carry(&mut self, home: &mut P::Home, link: LinkPlan, ram: P) -> FrameList
        requires owned { IsOwned (P.home_seen home.old) (total P.seen (P.home_seen home.old).pools.family (ram ∷ held_in self.old)) }
        requires pending { IfSome link.waits (λ w. neighbour_state (asked_for self.old.neighbours link.asked.items) w.0 ≡ EntryState.Pending) }
        requires ram { IfSome link.waits (λ w. (P.seen ram).octets ≡ w.1) }
        ensures neighbours { map_entries (λ p. (P.seen p).octets) self.new.neighbours ≡ waiting_in (asked_for (map_entries (λ p. (P.seen p).octets) self.old.neighbours) link.asked.items) link.waits }
        ensures rest { self.new ≡ record self.old { neighbours = self.new.neighbours; next_id = link.next_id; sent = self.old.sent ++ result } }
        ensures frames { result ≡ take (frames_left self.old.sent) link.frames.items }
        ensures moves { Moves (P.home_seen home.old) (P.home_seen home.new) (total P.seen (P.home_seen home.old).pools.family (ram ∷ held_in self.old)) (total P.seen (P.home_seen home.old).pools.family (held_in self.new)) }
    {
        let LinkPlan {
            asked,
            frames,
            waits,
            next_id,
            ..
        } = link;
        let waits = waiter(home, hop_of(&waits), ram);
        carry_out(&asked, waits, &mut self.neighbours, home);
        self.next_id = next_id;
        self.send(frames)
    }

    /// Counts a frame that came.
    pub fn count(&mut self)
        ensures { self.new ≡ record self.old { words = record self.old.words { frames = counted self.old.words.frames } } }
    {
        self.words.frames = self.words.frames.saturating_add(1);
    }

    /// Sends frames, as many as may still be sent, and answers them.
    pub fn send(&mut self, mut frames: Vec<Octets>) -> FrameList
        ensures frames { result ≡ take (frames_left self.old.sent) frames.items }
        ensures sent { self.new ≡ record self.old { sent = self.old.sent ++ take (frames_left self.old.sent) frames.items } }
    {
        frames.truncate(self.sent.left() as usize);
        self.sent.send(&frames);
        FrameList::from_vec(frames)
    }
}

/// The next hop for which a packet waits, if one does.
fn hop_of(waits: &Option<(Ip, Octets)>) -> Option<Ip>
    ensures { result ≡ option_map (λ w. w.0) waits.now }
{
    match waits {
        Some((hop, _)) => Some(*hop),
        None => None,
    }
}

/// The payload that waits for a next hop, if there is one; else it is given up.
fn waiter<P: Payload>(home: &mut P::Home, hop: Option<Ip>, ram: P) -> Option<(Ip, P)>
    requires { IsOwned (P.home_seen home.old) (total P.seen (P.home_seen home.old).pools.family (ram ∷ [])) }
    ensures waits { result ≡ option_map (λ ip. (ip, ram)) hop }
    ensures moves { Moves (P.home_seen home.old) (P.home_seen home.new) (total P.seen (P.home_seen home.old).pools.family (ram ∷ [])) (total P.seen (P.home_seen home.old).pools.family (waiter result)) }
{
    match hop {
        Some(hop) => Some((hop, ram)),
        None => {
            spend(home, ram);
            None
        }
    }
}

/// Teaches the neighbours; the packets that leave the table are given up, since their octets went
/// into frames or are lost.
fn learn<P: Payload>(table: &mut ArpTable<P>, home: &mut P::Home, plan: &LearnPlan)
    requires owned { IsOwned (P.home_seen home.old) (total P.seen (P.home_seen home.old).pools.family (packets table.old)) }
    requires fresh { plan.now.lesson ≡ Lesson.Make → entry_of table.old plan.now.ip ≡ None }
    ensures table { table.new ≡ taught_by plan.now table.old }
    ensures moves { Moves (P.home_seen home.old) (P.home_seen home.new) (total P.seen (P.home_seen home.old).pools.family (packets table.old)) (total P.seen (P.home_seen home.old).pools.family (packets table.new)) }
{
    let (sent, gone) = table.apply(plan);
    spend_if(home, sent);
    spend_if(home, gone);
}

/// Takes a fragment in that its frame brings, and gives the whole that it makes, or the fragment itself
/// where it isn't kept.
fn keep<P: Payload>(
    fragments: &mut Reass<P>,
    home: &mut P::Home,
    head: &IpHead,
    plan: FragmentPlan,
    mut frame: P,
) -> Option<P>
    requires owned { IsOwned (P.home_seen home.old) (total P.seen (P.home_seen home.old).pools.family (frame ∷ all_kept fragments.old)) }
    requires holds { HoldsDatagram (length (P.seen frame).octets - 14) head.now }
    requires plan { plan ≡ plan_of fragments.old.datagrams head.now (head.now.total - head.now.head_len) }
    requires ready { IsReady P.seen fragments.old plan (P.seen frame) }
    ensures datagrams { fragments.new.datagrams ≡ (added fragments.old.datagrams head.now (data_in (P.seen frame).octets head.now)).datagrams }
    ensures rest { option_map (λ p. (P.seen p).octets) result ≡ octets_given (added fragments.old.datagrams head.now (data_in (P.seen frame).octets head.now)).outcome }
    ensures moves { Moves (P.home_seen home.old) (P.home_seen home.new) (total P.seen (P.home_seen home.old).pools.family (frame ∷ all_kept fragments.old)) (total P.seen (P.home_seen home.old).pools.family (option_to_list result ++ all_kept fragments.new)) }
{
    let from = ETH_LEN as u32 + u32::from(head.head_len);
    let to = ETH_LEN as u32 + u32::from(head.total);
    cut_to(&mut frame, home, from, to);
    given(fragments.add(plan, head, frame))
}

/// Cuts a payload at both ends, so that its octets from `from` on, below `to`, are left.
pub fn cut_to<P: Payload>(payload: &mut P, home: &mut P::Home, from: u32, to: u32)
    requires of_home { IsOf (P.home_seen home.old) (P.seen payload.old) }
    requires order { from ≤ to }
    requires within { to ≤ length (P.seen payload.old).octets }
    ensures { IsCut (P.home_seen home.old) (P.home_seen home.new) (P.seen payload.old) (P.seen payload.new) (slice_range (P.seen payload.old).octets from to) }
{
    let behind = payload.len() - to;
    payload.cut_back(home, behind);
    payload.cut_front(home, from);
}

/// The payload that comes out of reassembly, if one does.
fn given<P>(outcome: Outcome<P>) -> Option<P>
    ensures list { option_to_list result ≡ given_in outcome }
    ensures octets { (seen : P → View) → option_map (λ p. (seen p).octets) result ≡ octets_given (outcome_of seen outcome) }
{
    match outcome {
        Outcome::Whole(_, payload) | Outcome::Dropped(_, payload) => Some(payload),
        Outcome::Kept => None,
    }
}
