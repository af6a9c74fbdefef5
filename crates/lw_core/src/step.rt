//! One event of the core.
ghost use Rattle.std.specs.Prelude.{◌≡◌, ◌⊎◌, [], ◌∷◌, ◌++◌, false, true, IfErr, IfOk, OnOk, OnErr, IfSome, MatchOption, All};
ghost use Rattle.lw_payload.specs.declared.kinds.Kind.{Kind};
ghost use Rattle.lw_payload.specs.Views.{IsShort};
ghost use Rattle.lw_payload.specs.Calls.{IsSameButRoom};
ghost use Rattle.lw_payload.specs.Totals.{total, IsOwned, Moves};
ghost use Rattle.lw_events.specs.Events.{payloads_in, text_of, IsSameEvent};
ghost use Rattle.lw_events.specs.declared.event.Event.{Event};
ghost use Rattle.lw_events.specs.declared.event.Proto.{Proto};
ghost use Rattle.lw_arp.specs.Neighbours.{packets};
ghost use Rattle.lw_events.specs.declared.event.Reply.{Reply as Answer};
ghost use Rattle.lw_layers.specs.Sends.{kind_of};
ghost use Rattle.lw_input.specs.State.{opening};
ghost use Rattle.lw_layers.specs.Calls.{IsAsking, IsServed};
ghost use Rattle.lw_layers.specs.History.{IsStep};
ghost use Rattle.lw_layers.specs.Boxes.{AreBoxesOf, AreSameBoxes, KeepItems};
ghost use Rattle.lw_layers.specs.Claims.{IsEnoughFor, IsShortFor, IsShortOf, KindIsShort, Makes, MakesPayloads};
ghost use Rattle.lw_core.specs.Held.{held_by, IsQuietStep, IsSameCore, IsTied};
ghost use Rattle.lw_layers.specs.Posts.{IsOffered, IsPosting};
ghost use Rattle.lw_core.specs.Requests.{request_of};

use crate::NoMemory;
use crate::request::{Request, request_of};
use lw_api_msg::Endpoints;
use lw_arp::{ArpEntry, ArpTable};
use lw_base::{Ip, Limits, Port};
use lw_boxes::{Boxes, Item};
use lw_events::{Entry, Event, EventText, PostList, Proto, Reply, SendData};
use lw_layers::{Layers, Received, Words, nothing, sent};
use lw_netif::{Netif, Sent};
use lw_payload::{Payload, octets_of, spend_all, spend_if};
use lw_reass::Reass;
use std::alloc::Global;
use std::marker::Model;

/// A stack over payloads. Contracts see it as its state and the payloads that it holds.
#[derive(Drop)]
pub struct Core<P: Payload> {
    layers: Layers<P>,
}

impl<P: Payload> Model for Core<P> {
    ghost use Rattle.lw_core.specs.Held.{CoreSeen};

    ghost Value = { CoreSeen P };

    ghost use Rattle.lw_arp.specs.Neighbours.{packets};
    ghost use Rattle.lw_reass.specs.Table.{all_kept};
    ghost use Rattle.lw_link.specs.Sound.{IsSoundWay};
    ghost use Rattle.lw_input.specs.Input.{begun};
    ghost use Rattle.lw_layers.specs.Calls.{HasVariables};
    ghost use Rattle.lw_layers.specs.Layers.{state_of};

    ghost view = { λ c. record { state = state_of P.seen c.layers; waiting = packets c.layers.neighbours; kept = c.layers.fragments.kept } };

    ghost invariant = { λ c. IsSoundWay (begun (state_of P.seen c.layers)) × HasVariables (state_of P.seen c.layers) };
}

impl<P: Payload> Core<P> {
    /// A stack that made no event yet, with this interface.
    pub fn new(alloc: Global, netif: Netif, limits: Limits) -> Result<Core<P>, NoMemory>
        ensures state { IfOk result (λ c. c.state ≡ opening netif limits) }
        ensures held { IfOk result (λ c. held_by c ≡ []) }
    {
        Ok(Core {
            layers: Layers {
                endpoints: Endpoints::new(alloc, &limits)?,
                limits,
                netif,
                neighbours: ArpTable::new(alloc)?,
                next_id: 0,
                fragments: Reass::new(alloc)?,
                sent: Sent::new(),
                words: Words {
                    frames: 0,
                    ticks: 0,
                    stopped: false,
                },
            },
        })
    }

    /// Makes one event of an actor. All memory is taken before anything changes; an event that comes
    /// back is the same. What the event brought and the stack doesn't keep goes to the Home.
    pub fn step<B: Boxes<P>>(
        &mut self,
        alloc: Global,
        actor: u32,
        event: Event<P>,
        home: &mut P::Home,
        boxes: &mut B,
    ) -> Result<(Entry, Reply), (NoMemory, Event<P>)>
        requires served { IsServed self.old.state.limits event }
        requires owned { IsOwned (P.home_seen home.old) (total P.seen (P.home_seen home.old).pools.family (payloads_in event ++ held_by self.old)) }
        requires makes { MakesPayloads (P.home_seen home.old) }
        requires boxes { AreBoxesOf self.old.state.endpoints.conns (B.seen boxes.old) }
        requires fits { (ip : Ip) (port : Port) (p : P) → (P.seen p).family ≡ (P.home_seen home.old).pools.family → B.fits (B.terms boxes.old) (Item.Datagram ip port p) }
        ensures ok { IfOk result (λ r. IsStep self.old.state actor (text_of P.seen event) r.0 r.1 self.new.state) }
        ensures posting { IfOk result (λ r. IsPosting P.seen (P.home_seen home.old) (P.home_seen home.new) r.0.posts (B.seen boxes.old) (B.seen boxes.new) (payloads_in event ++ held_by self.old) (held_by self.new)) }
        ensures offers { IfOk result (λ r. All (IsOffered B.offers boxes.old) r.0.posts) }
        ensures short { IfOk result (λ r. r.0.short ≡ true → IsShortFor P.may_refuse home.old (P.home_seen home.old) event) }
        ensures enough { IfOk result (λ r. r.0.short ≡ false → IsEnoughFor (P.home_seen home.old) event r.1) }
        ensures event { IfErr result (λ r. IsSameEvent P.seen event r.1) }
        ensures err { IfErr result (λ _. IsSameCore P.seen self.old self.new × (P.home_seen home.new ≡ P.home_seen home.old)) }
        ensures same { IfErr result (λ _. AreSameBoxes (B.seen boxes.old) (B.seen boxes.new)) }
        ensures boxes { AreBoxesOf self.new.state.endpoints.conns (B.seen boxes.new) }
        ensures terms { B.terms boxes.new ≡ B.terms boxes.old }
    {
        match request_of(event) {
            Request::Feed(frame) => self.frame(alloc, actor, frame, home, boxes),
            Request::Make => match self.make(alloc, actor, boxes) {
                Ok(made) => Ok(made),
                Err(none) => Err((none, Event::New(Proto::Udp))),
            },
            Request::Tick => match self.tick(alloc, actor, home) {
                Ok(made) => Ok(made),
                Err(none) => Err((none, Event::Tick)),
            },
            Request::Send(conn, ip, port, given) => {
                self.send_to(alloc, actor, home, conn, ip, port, given)
            }
            Request::Close(conn) => Ok(self.close(alloc, actor, conn, boxes)),
            Request::End => Ok(self.end(alloc, actor)),
            Request::Answer(text) => Ok(self.answer(alloc, actor, text)),
        }
    }

    // Takes a frame in.
    fn frame<B: Boxes<P>>(
        &mut self,
        alloc: Global,
        actor: u32,
        mut frame: P,
        home: &mut P::Home,
        boxes: &mut B,
    ) -> Result<(Entry, Reply), (NoMemory, Event<P>)>
        requires owned { IsOwned (P.home_seen home.old) (total P.seen (P.home_seen home.old).pools.family (frame ∷ held_by self.old)) }
        requires ram { Makes (P.home_seen home.old) Kind.Ram 1500 }
        requires boxes { AreBoxesOf self.old.state.endpoints.conns (B.seen boxes.old) }
        requires fits { (ip : Ip) (port : Port) (p : P) → (P.seen p).family ≡ (P.home_seen home.old).pools.family → B.fits (B.terms boxes.old) (Item.Datagram ip port p) }
        ensures ok { IfOk result (λ r. IsStep self.old.state actor (Event.Frame (P.seen frame).octets) r.0 r.1 self.new.state) }
        ensures posting { IfOk result (λ r. IsPosting P.seen (P.home_seen home.old) (P.home_seen home.new) r.0.posts (B.seen boxes.old) (B.seen boxes.new) (frame ∷ held_by self.old) (held_by self.new)) }
        ensures offers { IfOk result (λ r. All (IsOffered B.offers boxes.old) r.0.posts) }
        ensures short { IfOk result (λ r. r.0.short ≡ true → KindIsShort P.may_refuse home.old (P.home_seen home.old) Kind.Ram) }
        ensures enough { IfOk result (λ r. r.0.short ≡ false → ¬ (IsShort (P.home_seen home.old) Kind.Ram 1)) }
        ensures event { IfErr result (λ r. IsSameEvent P.seen (Event.Frame frame) r.1) }
        ensures err { IfErr result (λ _. IsSameCore P.seen self.old self.new × (P.home_seen home.new ≡ P.home_seen home.old)) }
        ensures same { IfErr result (λ _. AreSameBoxes (B.seen boxes.old) (B.seen boxes.new)) }
        ensures boxes { AreBoxesOf self.new.state.endpoints.conns (B.seen boxes.new) }
        ensures terms { B.terms boxes.new ≡ B.terms boxes.old }
    {
        let octets = match octets_of(alloc, &frame) {
            Ok(octets) => octets,
            Err(none) => return Err((none, Event::Frame(frame))),
        };
        match self
            .layers
            .receive(alloc, home, boxes, frame, octets.as_slice())
        {
            Ok(made) => Ok(entry(actor, Event::Frame(octets), made, Reply::Done)),
            Err((none, frame)) => Err((none, Event::Frame(frame))),
        }
    }

    // Lets a tick pass.
    fn tick(
        &mut self,
        alloc: Global,
        actor: u32,
        home: &mut P::Home,
    ) -> Result<(Entry, Reply), NoMemory>
        requires owned { IsOwned (P.home_seen home.old) (total P.seen (P.home_seen home.old).pools.family (held_by self.old)) }
        ensures ok { IfOk result (λ r. IsStep self.old.state actor Event.Tick r.0 r.1 self.new.state) }
        ensures moves { OnOk result (Moves (P.home_seen home.old) (P.home_seen home.new) (total P.seen (P.home_seen home.old).pools.family (held_by self.old)) (total P.seen (P.home_seen home.old).pools.family (held_by self.new))) }
        ensures short { IfOk result (λ r. r.0.short ≡ false) }
        ensures err { OnErr result ((self.new ≡ self.old) × (P.home_seen home.new ≡ P.home_seen home.old)) }
        ensures endpoints { self.new.state.endpoints ≡ self.old.state.endpoints }
    {
        let frames = self.layers.tick(alloc, home)?;
        let made = sent(alloc, frames);
        let reply = Reply::Ticks(self.layers.words.ticks);
        Ok(entry(actor, Event::Tick, made, reply))
    }

    // Sends a datagram of a connection to an address and a port.
    fn send_to(
        &mut self,
        alloc: Global,
        actor: u32,
        home: &mut P::Home,
        conn: u32,
        ip: Ip,
        port: Port,
        given: SendData,
    ) -> Result<(Entry, Reply), (NoMemory, Event<P>)>
        requires owned { IsOwned (P.home_seen home.old) (total P.seen (P.home_seen home.old).pools.family (held_by self.old)) }
        requires makes { MakesPayloads (P.home_seen home.old) }
        ensures ok { IfOk result (λ r. IsStep self.old.state actor (Event.SendTo conn ip port given) r.0 r.1 self.new.state) }
        ensures moves { OnOk result (Moves (P.home_seen home.old) (P.home_seen home.new) (total P.seen (P.home_seen home.old).pools.family (held_by self.old)) (total P.seen (P.home_seen home.old).pools.family (held_by self.new))) }
        ensures short { IfOk result (λ r. r.0.short ≡ true → IsShortOf P.may_refuse (P.home_seen home.old) (kind_of given) ⊎ IsShortOf P.may_refuse (P.home_seen home.old) Kind.Ram) }
        ensures enough { IfOk result (λ r. r.1 ≡ Answer.Done → (¬ (IsShort (P.home_seen home.old) (kind_of given) 1)) × (¬ (IsShort (P.home_seen home.old) Kind.Ram 1))) }
        ensures event { IfErr result (λ r. r.1 ≡ Event.SendTo conn ip port given) }
        ensures err { OnErr result ((self.new ≡ self.old) × (P.home_seen home.new ≡ P.home_seen home.old)) }
        ensures conns { self.new.state.endpoints.conns ≡ self.old.state.endpoints.conns }
    {
        match self.layers.send_to(alloc, home, conn, ip, port, &given) {
            Ok((made, reply)) => {
                let event = Event::SendTo(conn, ip, port, given);
                Ok(entry(actor, event, made, reply))
            }
            Err(none) => Err((none, Event::SendTo(conn, ip, port, given))),
        }
    }

    // Makes a connection of UDP.
    fn make<B: Boxes<P>>(
        &mut self,
        alloc: Global,
        actor: u32,
        boxes: &mut B,
    ) -> Result<(Entry, Reply), NoMemory>
        requires boxes { AreBoxesOf self.old.state.endpoints.conns (B.seen boxes.old) }
        ensures ok { IfOk result (λ r. IsQuietStep self.old actor (Event.New Proto.Udp) r.0 r.1 self.new) }
        ensures err { OnErr result ((self.new ≡ self.old) × AreSameBoxes (B.seen boxes.old) (B.seen boxes.new)) }
        ensures boxes { AreBoxesOf self.new.state.endpoints.conns (B.seen boxes.new) }
        ensures items { KeepItems (B.seen boxes.old) (B.seen boxes.new) }
        ensures terms { B.terms boxes.new ≡ B.terms boxes.old }
    {
        let reply = self.layers.new_udp(boxes)?;
        Ok(quiet(alloc, actor, Event::New(Proto::Udp), reply))
    }

    // Closes a connection.
    fn close<B: Boxes<P>>(
        &mut self,
        alloc: Global,
        actor: u32,
        conn: u32,
        boxes: &mut B,
    ) -> (Entry, Reply)
        requires boxes { AreBoxesOf self.old.state.endpoints.conns (B.seen boxes.old) }
        ensures ok { IsQuietStep self.old actor (Event.Close conn) result.0 result.1 self.new }
        ensures boxes { AreBoxesOf self.new.state.endpoints.conns (B.seen boxes.new) }
        ensures items { KeepItems (B.seen boxes.old) (B.seen boxes.new) }
        ensures terms { B.terms boxes.new ≡ B.terms boxes.old }
    {
        let reply = self.layers.close(conn, boxes);
        quiet(alloc, actor, Event::Close(conn), reply)
    }

    // Answers an event that asks for no more.
    fn answer(&mut self, alloc: Global, actor: u32, event: EventText) -> (Entry, Reply)
        requires asking { IsAsking self.old.state.limits event }
        ensures ok { IsQuietStep self.old actor event result.0 result.1 self.new }
        ensures conns { self.new.state.endpoints.conns ≡ self.old.state.endpoints.conns }
    {
        let reply = self.layers.answer(&event);
        quiet(alloc, actor, event, reply)
    }

    // Ends the run.
    fn end(&mut self, alloc: Global, actor: u32) -> (Entry, Reply)
        ensures ok { IsQuietStep self.old actor Event.Stop result.0 result.1 self.new }
        ensures endpoints { self.new.state.endpoints ≡ self.old.state.endpoints }
    {
        self.layers.words.stopped = true;
        quiet(alloc, actor, Event::Stop, Reply::Done)
    }

    /// What the stack holds is what its state tells: the payloads have the octets of the packets that
    /// wait and of the fragments that are kept, and none is empty.
    pub fn tie(&self)
        ensures { IsTied P.seen self.now }
    {
        self.layers.fragments.tie();
    }

    /// Gives up all that is held. Without memory for the list of it nothing is promised of it.
    pub fn finish(self, alloc: Global, home: &mut P::Home) -> Result<(), NoMemory>
        requires owned { IsOwned (P.home_seen home.old) (total P.seen (P.home_seen home.old).pools.family (held_by self)) }
        ensures moves { OnOk result (Moves (P.home_seen home.old) (P.home_seen home.new) (total P.seen (P.home_seen home.old).pools.family (held_by self)) (total P.seen (P.home_seen home.old).pools.family [])) }
    {
        let Core { layers } = self;
        let Layers {
            neighbours,
            fragments,
            ..
        } = layers;
        let mut kept = Vec::with_capacity(alloc, fragments.kept() as usize)?;
        fragments.finish(&mut kept);
        spend_waiting(home, neighbours.into_vec());
        spend_all(home, kept);
        Ok(())
    }
}

/// Gives up the packets that wait at these entries.
fn spend_waiting<P: Payload>(home: &mut P::Home, entries: Vec<ArpEntry<P>>)
    requires owned { IsOwned (P.home_seen home.old) (total P.seen (P.home_seen home.old).pools.family (packets entries.items)) }
    ensures moves { Moves (P.home_seen home.old) (P.home_seen home.new) (total P.seen (P.home_seen home.old).pools.family (packets entries.items)) (total P.seen (P.home_seen home.old).pools.family []) }
{
    for entry in entries {
        spend_if(home, entry.packet);
    }
}

/// The entry of an event that was made, and its reply.
fn entry(actor: u32, event: EventText, made: Received, reply: Reply) -> (Entry, Reply)
    ensures { result ≡ (record { actor = actor; event = event; short = made.short; posts = made.posts; frames = made.frames; reply = reply }, reply) }
{
    let Received {
        posts,
        frames,
        short,
    } = made;
    let entry = Entry {
        actor,
        event,
        short,
        posts,
        frames,
        reply,
    };
    (entry, reply)
}

/// The entry and the reply of an event for which no pool was short, and that posted and sent nothing.
fn quiet(alloc: Global, actor: u32, event: EventText, reply: Reply) -> (Entry, Reply)
    ensures { result ≡ (record { actor = actor; event = event; short = false; posts = []; frames = []; reply = reply }, reply) }
{
    entry(actor, event, nothing(alloc, false), reply)
}
