//! A datagram that a call sends: it is planned, then all that it takes is claimed, then it goes out.
ghost use Rattle.std.specs.Prelude.{◌≡◌, ◌≤◌, ◌⊎◌, [], ◌∷◌, true, length, IfOk, IfSome, OnErr, OnOk, Result, Ok, Err as Refused};
ghost use Rattle.lw_payload.specs.Totals.{total, IsOwned, Moves};
ghost use Rattle.lw_payload.specs.Views.{IsShort};
ghost use Rattle.lw_payload.specs.declared.kinds.Kind.{Kind as Sort};
ghost use Rattle.lw_events.specs.declared.event.Reply.{Reply as Answer};
ghost use Rattle.lw_link.specs.Plans.{Plans};
ghost use Rattle.lw_link.specs.Way.{IsPacket};
ghost use Rattle.lw_api_msg.specs.Sends.{send_plan};
ghost use Rattle.lw_layers.specs.Claims.{IsShortOf, MakesPayloads};
ghost use Rattle.lw_input.specs.Input.{begun};
ghost use Rattle.lw_layers.specs.Layers.{held_in, state_of};
ghost use Rattle.lw_layers.specs.Sends.{data_of, datagram_out, kind_of, planned_step, send_step, sent_step, udp_head};

use crate::NoMemory;
use crate::claim::{Claimed, claim_both};
use crate::layers::Layers;
use crate::receive::{Received, nothing, sent};
use lw_api_msg::SendPlan;
use lw_base::{Err, FrameList, Ip, Port, UdpHead};
use lw_events::{Reply, SendData};
use lw_input::UDP;
use lw_link::{Body, LinkPlan, sent_head};
use lw_payload::{Kind, Payload, spend};
use lw_wire::udp_octets;
use std::alloc::Global;

/// The octets of a UDP head.
const UDP_LEN: u16 = 8;

/// The octets that a call gives.
fn data_of(given: &SendData) -> &[u8]
    ensures { result.now ≡ data_of given.now }
{
    match given {
        SendData::Literal(octets) => octets.as_slice(),
        SendData::Fill(octets) => octets.as_slice(),
    }
}

/// The kind of the pbuf that describes them while they are sent.
fn kind_of(given: &SendData) -> Kind
    ensures exact { result ≡ kind_of given.now }
    ensures either { (result ≡ Sort.Rom) ⊎ (result ≡ Sort.Ref) }
{
    match given {
        SendData::Literal(_) => Kind::Rom,
        SendData::Fill(_) => Kind::Ref,
    }
}

/// The head of a datagram of so many octets.
fn udp_head(plan: &SendPlan, len: usize) -> UdpHead
    requires short { len ≤ 65507 }
    ensures { result ≡ udp_head plan.now len }
{
    UdpHead {
        sport: plan.source.port(),
        dport: plan.to.1,
        total: UDP_LEN + len as u16,
    }
}

impl<P: Payload> Layers<P> {
    /// Sends a datagram of a connection to an address and a port, and answers that, or why not.
    pub fn send_to(
        &mut self,
        alloc: Global,
        home: &mut P::Home,
        conn: u32,
        ip: Ip,
        port: Port,
        given: &SendData,
    ) -> Result<(Received, Reply), NoMemory>
        requires owned { IsOwned (P.home_seen home.old) (total P.seen (P.home_seen home.old).pools.family (held_in self.old)) }
        requires makes { MakesPayloads (P.home_seen home.old) }
        ensures state { IfOk result (λ r. state_of P.seen self.new ≡ (send_step (state_of P.seen self.old) conn ip port given.now r.0.short).state) }
        ensures told { IfOk result (λ r. r.0 ≡ record { posts = []; frames = (send_step (state_of P.seen self.old) conn ip port given.now r.0.short).frames; short = (send_step (state_of P.seen self.old) conn ip port given.now r.0.short).short }) }
        ensures reply { IfOk result (λ r. r.1 ≡ (send_step (state_of P.seen self.old) conn ip port given.now r.0.short).reply) }
        ensures moves { OnOk result (Moves (P.home_seen home.old) (P.home_seen home.new) (total P.seen (P.home_seen home.old).pools.family (held_in self.old)) (total P.seen (P.home_seen home.old).pools.family (held_in self.new))) }
        ensures short { IfOk result (λ r. r.0.short ≡ true → IsShortOf P.may_refuse (P.home_seen home.old) (kind_of given.now) ⊎ IsShortOf P.may_refuse (P.home_seen home.old) Sort.Ram) }
        ensures enough { IfOk result (λ r. r.1 ≡ Answer.Done → (¬ (IsShort (P.home_seen home.old) (kind_of given.now) 1)) × (¬ (IsShort (P.home_seen home.old) Sort.Ram 1))) }
        ensures err { OnErr result ((self.new ≡ self.old) × (P.home_seen home.new ≡ P.home_seen home.old)) }
    {
        let octets = data_of(given);
        match self
            .endpoints
            .plan_send(&self.netif, conn, ip, port, octets.len())
        {
            Ok(plan) => self.send_planned(alloc, home, &plan, kind_of(given), octets),
            Err(fault) => Ok((nothing(alloc, false), Reply::Fail(fault))),
        }
    }

    /// Sends a datagram by its plan, where no kind is short that it takes.
    fn send_planned(
        &mut self,
        alloc: Global,
        home: &mut P::Home,
        plan: &SendPlan,
        kind: Kind,
        octets: &[u8],
    ) -> Result<(Received, Reply), NoMemory>
        requires fits { length octets.now ≤ 65507 }
        requires kind { (kind ≡ Sort.Rom) ⊎ (kind ≡ Sort.Ref) }
        requires owned { IsOwned (P.home_seen home.old) (total P.seen (P.home_seen home.old).pools.family (held_in self.old)) }
        requires makes { MakesPayloads (P.home_seen home.old) }
        ensures state { IfOk result (λ r. state_of P.seen self.new ≡ (planned_step (state_of P.seen self.old) octets.now r.0.short (Ok plan.now)).state) }
        ensures told { IfOk result (λ r. r.0 ≡ record { posts = []; frames = (planned_step (state_of P.seen self.old) octets.now r.0.short (Ok plan.now)).frames; short = (planned_step (state_of P.seen self.old) octets.now r.0.short (Ok plan.now)).short }) }
        ensures reply { IfOk result (λ r. r.1 ≡ (planned_step (state_of P.seen self.old) octets.now r.0.short (Ok plan.now)).reply) }
        ensures moves { OnOk result (Moves (P.home_seen home.old) (P.home_seen home.new) (total P.seen (P.home_seen home.old).pools.family (held_in self.old)) (total P.seen (P.home_seen home.old).pools.family (held_in self.new))) }
        ensures short { IfOk result (λ r. r.0.short ≡ true → IsShortOf P.may_refuse (P.home_seen home.old) kind ⊎ IsShortOf P.may_refuse (P.home_seen home.old) Sort.Ram) }
        ensures enough { IfOk result (λ r. r.1 ≡ Answer.Done → (¬ (IsShort (P.home_seen home.old) kind 1)) × (¬ (IsShort (P.home_seen home.old) Sort.Ram 1))) }
        ensures err { OnErr result ((self.new ≡ self.old) × (P.home_seen home.new ≡ P.home_seen home.old)) }
    {
        let link = self.plan_datagram(alloc, plan, octets)?;
        let Some(claimed) = claim_both(alloc, home, kind, &link.waits)? else {
            return Ok((nothing(alloc, true), Reply::Fail(Err::Mem)));
        };
        let frames = self.apply_send(home, plan, octets, link, claimed);
        Ok((sent(alloc, frames), Reply::Done))
    }

    /// Plans the way out of a datagram.
    fn plan_datagram(
        &self,
        alloc: Global,
        plan: &SendPlan,
        octets: &[u8],
    ) -> Result<LinkPlan, NoMemory>
        requires fits { length octets.now ≤ 65507 }
        ensures plan { IfOk result (λ link. Plans link (state_of P.seen self.now).link (datagram_out self.now.netif (begun (state_of P.seen self.now)) plan.now octets.now)) }
        ensures packet { IfOk result (λ link. IfSome link.waits (λ w. IsPacket w.1)) }
    {
        let net = self.netif.net();
        let to = plan.to.0;
        let front = udp_octets(&udp_head(plan, octets.len()), net.ip, to, octets);
        let mut link = LinkPlan::new(alloc, self.next_id);
        link.emit(
            alloc,
            &self.netif,
            &self.neighbours,
            true,
            &sent_head(net, UDP, to),
            &Body::new(&front, octets),
        )?;
        Ok(link)
    }

    /// Sends a datagram as it was planned: its connection is bound, what described its octets goes back,
    /// and the frames that go out are answered.
    fn apply_send(
        &mut self,
        home: &mut P::Home,
        plan: &SendPlan,
        _octets: &[u8],
        link: LinkPlan,
        claimed: Claimed<P>,
    ) -> FrameList
        requires plan { Plans link (state_of P.seen self.old).link (datagram_out self.old.netif (begun (state_of P.seen self.old)) plan.now _octets.now) }
        requires owned { IsOwned (P.home_seen home.old) (total P.seen (P.home_seen home.old).pools.family (claimed.rom ∷ claimed.ram ∷ held_in self.old)) }
        requires ram { IfSome link.waits (λ w. (P.seen claimed.ram).octets ≡ w.1) }
        ensures state { state_of P.seen self.new ≡ (sent_step (state_of P.seen self.old) plan.now _octets.now).state }
        ensures frames { result ≡ (sent_step (state_of P.seen self.old) plan.now _octets.now).frames }
        ensures moves { Moves (P.home_seen home.old) (P.home_seen home.new) (total P.seen (P.home_seen home.old).pools.family (claimed.rom ∷ claimed.ram ∷ held_in self.old)) (total P.seen (P.home_seen home.old).pools.family (held_in self.new)) }
    {
        let Claimed { rom, ram } = claimed;
        spend(home, rom);
        self.endpoints.apply_send(plan);
        self.carry(home, link, ram)
    }
}
