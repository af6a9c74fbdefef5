//! What a frame changes and sends, planned: nothing of the stack changes.
ghost use Rattle.std.specs.Prelude.{◌≡◌, ◌-◌, ◌+◌, ◌≤◌, IfOk, IfSome, OnOk, None, length, option_map};
ghost use Rattle.lw_arp.specs.Neighbours.{map_entries, sent_by, waiting};
ghost use Rattle.lw_link.specs.Plans.{IsOver, Plans};
ghost use Rattle.lw_link.specs.Way.{Link, Way, IsPacket, released_to};
ghost use Rattle.lw_reass.specs.Datagrams.{added, plan_of, whole_in};
ghost use Rattle.lw_input.specs.Arrivals.{data_in, Holds, HoldsDatagram};
ghost use Rattle.lw_link.specs.Sound.{IsSoundWay};
ghost use Rattle.lw_input.specs.Input.{begun, whole_input};
ghost use Rattle.lw_layers.specs.Layers.{delivery_by, octets_given, state_of, IsMail, IsPlanned};
ghost use Rattle.lw_input.specs.declared.arrival.Arrival.{Arrival};

use crate::NoMemory;
use crate::layers::Layers;
use crate::mail::{Mail, mail_of};
use lw_arp::{LearnPlan, Lesson};
use lw_base::{ArpPacket, IpHead, Octets};
use lw_input::{Arrival, ETH_LEN, ip_input, is_fragment};
use lw_link::LinkPlan;
use lw_payload::{Payload, octets_of};
use lw_reass::FragmentPlan;
use lw_wire::ip_octets;
use std::alloc::Global;

/// The octets of an IPv4 header without options.
const IP_LEN: u8 = 20;

/// What a frame changes besides what it sends: the neighbours are taught by an ARP packet, or a
/// fragment with this header is taken in.
#[derive(Clone, Copy, Debug, PartialEq, Eq)]
pub enum Change {
    Learn(LearnPlan),
    Keep(IpHead, FragmentPlan),
    Nothing,
}

/// What a frame changes, what it sends, and the datagram for a connection.
#[derive(Drop)]
pub struct FramePlan {
    pub change: Change,
    pub link: LinkPlan,
    pub mail: Option<Mail>,
}

impl<P: Payload> Layers<P> {
    /// Plans a frame that brings this.
    pub fn plan(
        &self,
        alloc: Global,
        octets: &[u8],
        arrival: &Arrival,
    ) -> Result<FramePlan, NoMemory>
        requires holds { Holds (length octets.now - 14) arrival.now }
        requires sound { IsSoundWay (begun (state_of P.seen self.now)) }
        ensures { IfOk result (IsPlanned (state_of P.seen self.now) octets.now arrival.now) }
    {
        match arrival {
            Arrival::Arp(packet) => self.arp_plan(alloc, octets, packet),
            Arrival::Datagram(head) => self.datagram_plan(alloc, octets, head),
            Arrival::Nothing => Ok(FramePlan {
                change: Change::Nothing,
                link: LinkPlan::new(alloc, self.next_id),
                mail: None,
            }),
        }
    }

    /// Plans an ARP packet: what it teaches, the answer to a request, and the packet that waited for
    /// its sender.
    fn arp_plan(
        &self,
        alloc: Global,
        _octets: &[u8],
        packet: &ArpPacket,
    ) -> Result<FramePlan, NoMemory>
        requires sound { IsSoundWay (begun (state_of P.seen self.now)) }
        ensures { IfOk result (IsPlanned (state_of P.seen self.now) _octets.now (Arrival.Arp packet.now)) }
    {
        let learn = self.neighbours.plan_learn(packet, self.netif.net().ip);
        let mut link = LinkPlan::new(alloc, self.next_id);
        link.answer(alloc, &self.netif, packet)?;
        self.release(alloc, &mut link, &learn)?;
        Ok(FramePlan {
            change: Change::Learn(learn),
            link,
            mail: None,
        })
    }

    /// Plans the frame of the packet that an ARP packet lets out, if one waits.
    fn release(&self, alloc: Global, link: &mut LinkPlan, learn: &LearnPlan) -> Result<(), NoMemory>
        requires sound { IsSoundWay (begun (state_of P.seen self.now)) }
        ensures exact { OnOk result ((l : Link) (m : Way) → l.net ≡ self.now.netif → Plans link.old l m
            → Plans link.new l (released_to m learn.now.mac (sent_by learn.now (map_entries (λ p. (P.seen p).octets) self.now.neighbours)))) }
        ensures waits { link.new.waits ≡ link.old.waits }
    {
        match self.released(alloc, learn)? {
            Some(packet) => link.release(alloc, &self.netif, learn.mac, packet.as_slice()),
            None => Ok(()),
        }
    }

    /// The octets of that packet.
    fn released(&self, alloc: Global, learn: &LearnPlan) -> Result<Option<Octets>, NoMemory>
        requires sound { IsSoundWay (begun (state_of P.seen self.now)) }
        ensures { IfOk result (λ o. o ≡ sent_by learn.now (map_entries (λ p. (P.seen p).octets) self.now.neighbours)) }
    {
        match learn.lesson {
            Lesson::Update => self.waiting(alloc, learn),
            Lesson::Nothing | Lesson::Make => Ok(None),
        }
    }

    /// The octets of the packet that waits for the sender of an ARP packet.
    fn waiting(&self, alloc: Global, learn: &LearnPlan) -> Result<Option<Octets>, NoMemory>
        requires sound { IsSoundWay (begun (state_of P.seen self.now)) }
        ensures { IfOk result (λ o. o ≡ waiting (map_entries (λ p. (P.seen p).octets) self.now.neighbours) learn.now.ip) }
    {
        match self.neighbours.waiting(learn.ip) {
            Some(packet) => Ok(Some(octets_of(alloc, packet)?)),
            None => Ok(None),
        }
    }

    /// Plans a datagram, or a fragment of one.
    fn datagram_plan(
        &self,
        alloc: Global,
        octets: &[u8],
        head: &IpHead,
    ) -> Result<FramePlan, NoMemory>
        requires { HoldsDatagram (length octets.now - 14) head.now }
        ensures { IfOk result (IsPlanned (state_of P.seen self.now) octets.now (Arrival.Datagram head.now)) }
    {
        let from = ETH_LEN + usize::from(head.head_len);
        let to = ETH_LEN + usize::from(head.total);
        let body = &octets[from..to];
        let mut link = LinkPlan::new(alloc, self.next_id);
        if is_fragment(head) {
            let plan = self.fragments.plan(head, body.len() as u32);
            let mail = self.whole_input(alloc, &mut link, head, &plan, body)?;
            return Ok(FramePlan {
                change: Change::Keep(*head, plan),
                link,
                mail,
            });
        }
        let header = &octets[ETH_LEN..from];
        let post = ip_input(
            alloc,
            &self.netif,
            &self.neighbours,
            &self.endpoints,
            &mut link,
            head,
            header,
            body,
        )?;
        let mail = mail_of(alloc, post, body, from as u32)?;
        Ok(FramePlan {
            change: Change::Nothing,
            link,
            mail,
        })
    }

    /// Plans what the datagram sends that a fragment makes whole, if it does, and to which connection it
    /// goes. Its header has 20 octets.
    fn whole_input(
        &self,
        alloc: Global,
        link: &mut LinkPlan,
        head: &IpHead,
        plan: &FragmentPlan,
        body: &[u8],
    ) -> Result<Option<Mail>, NoMemory>
        requires short { length body.now ≤ 65535 }
        requires plan { plan.now ≡ plan_of self.now.fragments.datagrams head.now (length body.now) }
        requires idle { link.old.waits ≡ None }
        ensures exact { OnOk result ((l : Link) (m : Way) → IsOver self.now.netif self.now.neighbours l → Plans link.old l m
            → Plans link.new l (whole_input self.now.netif self.now.endpoints.udp.ends m (whole_in (added self.now.fragments.datagrams head.now body.now).outcome)).0) }
        ensures packet { OnOk result (IfSome link.new.waits (λ w. IsPacket w.1)) }
        ensures delivery { IfOk result (λ mail. (m : Way) → option_map delivery_by mail
            ≡ (whole_input self.now.netif self.now.endpoints.udp.ends m (whole_in (added self.now.fragments.datagrams head.now body.now).outcome)).1) }
        ensures mail { IfOk result (λ mail. IfSome mail (IsMail self.now.endpoints.conns (octets_given (added self.now.fragments.datagrams head.now body.now).outcome))) }
    {
        let FragmentPlan::Complete(_, first) = plan else {
            return Ok(None);
        };
        let whole = self.fragments.whole_octets(alloc, plan, head, body)?;
        let octets = whole.as_slice();
        let header = ip_octets(&IpHead {
            head_len: IP_LEN,
            offset: 0,
            ..*first
        });
        let post = ip_input(
            alloc,
            &self.netif,
            &self.neighbours,
            &self.endpoints,
            link,
            first,
            &header,
            octets,
        )?;
        mail_of(alloc, post, octets, 0)
    }
}
