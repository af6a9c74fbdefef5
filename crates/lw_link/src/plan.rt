ghost use Rattle.std.specs.Prelude.{◌≡◌, ◌≤◌, ◌<◌, [], ◌∷◌, ◌++◌, false, Some, None, length, map, IfOk, IfSome, OnOk};
ghost use Rattle.lw_arp.specs.declared.entries.EntryState.{EntryState as State};
ghost use Rattle.lw_arp.specs.Neighbours.{held, looked_up, state_of};
ghost use Rattle.lw_frag.specs.Pieces.{IsWhole};
ghost use Rattle.lw_link.specs.Way.{arp_answer, asks, emit, knows, packets, released_to, to_hop, IsPacket, Link, Way};
ghost use Rattle.lw_link.specs.Plans.{known, IsAtHop, IsOneWay, IsOver, Plans};

use crate::frames::{arp_reply, arp_request, last_packet, packet_frame, push_frames};
use crate::{Body, NoMemory};
use lw_arp::{ArpTable, EntryState, is_answered};
use lw_base::{ArpPacket, Ip, IpHead, Mac, Net, Octets};
use lw_netif::Netif;
use std::alloc::Global;

/// What an event sends, before it is carried out: the addresses that are asked for, in order; from the
/// first of them on the table's copy in which they are looked up; the frames; the packet that is to wait
/// for a next hop; and the identification of the next datagram.
#[derive(Drop)]
pub struct LinkPlan {
    pub asked: Vec<Ip>,
    pub keys: Option<ArpTable<()>>,
    pub frames: Vec<Octets>,
    pub waits: Option<(Ip, Octets)>,
    pub next_id: u16,
}

impl LinkPlan {
    /// Nothing is sent. Takes no memory.
    pub fn new(alloc: Global, next_id: u16) -> LinkPlan
        ensures exact { (l : Link) → l.next_id ≡ next_id → Plans result l (record { link = l; out = [] }) }
        ensures waits { result.waits ≡ None }
    {
        LinkPlan {
            asked: Vec::new(alloc),
            keys: None,
            frames: Vec::new(alloc),
            waits: None,
            next_id,
        }
    }

    /// Sends a datagram; `may_wait` says whether its last packet may wait for a next hop that isn't known.
    pub fn emit<P>(
        &mut self,
        alloc: Global,
        netif: &Netif,
        table: &ArpTable<P>,
        may_wait: bool,
        head: &IpHead,
        body: &Body,
    ) -> Result<(), NoMemory>
        requires whole { IsWhole head.now }
        requires split { head.now.df ≡ false }
        requires len { length body.now ≤ 65535 }
        requires one_way { IsOneWay netif.now self.old.waits head.now.dst }
        ensures exact { OnOk result ((l : Link) (m : Way) → IsOver netif.now table.now l → Plans self.old l m → Plans self.new l (emit may_wait m head.now body.now)) }
        ensures way { OnOk result (IsOneWay netif.now self.new.waits head.now.dst) }
        ensures still { may_wait ≡ false → OnOk result (self.new.waits ≡ self.old.waits) }
        ensures packet { OnOk result (IfSome self.old.waits (λ w. IsPacket w.1) → IfSome self.new.waits (λ w. IsPacket w.1)) }
    {
        let Ok(hop) = netif.route(head.dst) else {
            return Ok(());
        };
        let head = IpHead {
            id: self.next_id,
            ..*head
        };
        self.next_id = self.next_id.wrapping_add(1);
        self.to_hop(alloc, netif.net(), table, may_wait, hop, &head, body)
    }

    /// Answers an ARP request for the own address.
    pub fn answer(
        &mut self,
        alloc: Global,
        netif: &Netif,
        request: &ArpPacket,
    ) -> Result<(), NoMemory>
        ensures exact { OnOk result ((l : Link) (m : Way) → l.net ≡ netif.now → Plans self.old l m → Plans self.new l (arp_answer m request.now)) }
        ensures waits { self.new.waits ≡ self.old.waits }
    {
        let net = netif.net();
        if !is_answered(request, net.ip) {
            return Ok(());
        }
        let reply = arp_reply(alloc, net, request)?;
        self.frames.push(reply)?;
        Ok(())
    }

    /// Asks for an address, again where it was asked for before. The table isn't looked at.
    pub fn ask(&mut self, alloc: Global, netif: &Netif, ip: Ip) -> Result<(), NoMemory>
        ensures exact { OnOk result ((l : Link) (m : Way) → l.net ≡ netif.now → Plans self.old l m → Plans self.new l (asks m ip)) }
        ensures waits { self.new.waits ≡ self.old.waits }
    {
        let request = arp_request(alloc, netif.net(), ip)?;
        self.frames.push(request)?;
        Ok(())
    }

    /// Sends a packet that waited, to a neighbour that is known now.
    pub fn release(
        &mut self,
        alloc: Global,
        netif: &Netif,
        mac: Mac,
        packet: &[u8],
    ) -> Result<(), NoMemory>
        ensures exact { OnOk result ((l : Link) (m : Way) → l.net ≡ netif.now → Plans self.old l m → Plans self.new l (released_to m mac (Some packet.now))) }
        ensures waits { self.new.waits ≡ self.old.waits }
    {
        let frame = packet_frame(alloc, netif.net(), mac, packet)?;
        self.frames.push(frame)?;
        Ok(())
    }

    /// Sends a datagram by a next hop, by what is known of it.
    fn to_hop<P>(
        &mut self,
        alloc: Global,
        net: &Net,
        table: &ArpTable<P>,
        may_wait: bool,
        hop: Ip,
        head: &IpHead,
        body: &Body,
    ) -> Result<(), NoMemory>
        requires whole { IsWhole head.now }
        requires len { length body.now ≤ 65535 }
        requires at_hop { IsAtHop self.old.waits hop }
        ensures exact { OnOk result ((l : Link) (m : Way) → IsOver net.now table.now l → Plans self.old l m → Plans self.new l (to_hop may_wait m hop (packets head.now body.now) (state_of m.link.neighbours hop))) }
        ensures at_hop { OnOk result (IsAtHop self.new.waits hop) }
        ensures still { may_wait ≡ false → OnOk result (self.new.waits ≡ self.old.waits) }
        ensures packet { OnOk result (IfSome self.old.waits (λ w. IsPacket w.1) → IfSome self.new.waits (λ w. IsPacket w.1)) }
    {
        match self.state_of(table, hop) {
            EntryState::Stable(mac) => push_frames(alloc, net, mac, head, body, &mut self.frames),
            EntryState::Pending => self.hold(alloc, may_wait, hop, head, body),
            EntryState::Empty => {
                self.look_up(alloc, net, table, hop)?;
                self.hold(alloc, may_wait, hop, head, body)
            }
        }
    }

    /// What is known of a next hop.
    fn state_of<P>(&self, table: &ArpTable<P>, hop: Ip) -> EntryState
        ensures { result ≡ state_of (known self.now.keys table.now) hop }
    {
        match &self.keys {
            Some(keys) => keys.state_of(hop),
            None => table.state_of(hop),
        }
    }

    /// Lets the last packet of a datagram wait, where it may, for a next hop that was asked for.
    fn hold(
        &mut self,
        alloc: Global,
        may_wait: bool,
        hop: Ip,
        head: &IpHead,
        body: &Body,
    ) -> Result<(), NoMemory>
        requires whole { IsWhole head.now }
        requires len { length body.now ≤ 65535 }
        requires at_hop { IsAtHop self.old.waits hop }
        ensures exact { OnOk result ((l : Link) (m : Way) → state_of m.link.neighbours hop ≡ State.Pending → Plans self.old l m → Plans self.new l (to_hop may_wait m hop (packets head.now body.now) State.Pending)) }
        ensures at_hop { OnOk result (IsAtHop self.new.waits hop) }
        ensures still { may_wait ≡ false → OnOk result (self.new.waits ≡ self.old.waits) }
        ensures packet { OnOk result (IfSome self.old.waits (λ w. IsPacket w.1) → IfSome self.new.waits (λ w. IsPacket w.1)) }
    {
        if !may_wait {
            return Ok(());
        }
        let packet = last_packet(alloc, head, body)?;
        self.keys = hold_key(self.keys.take(), hop);
        self.waits = Some((hop, packet));
        Ok(())
    }

    /// Asks for a next hop of which the table has nothing.
    fn look_up<P>(
        &mut self,
        alloc: Global,
        net: &Net,
        table: &ArpTable<P>,
        hop: Ip,
    ) -> Result<(), NoMemory>
        requires at_hop { IsAtHop self.old.waits hop }
        ensures exact { OnOk result ((l : Link) (m : Way) → IsOver net.now table.now l → state_of m.link.neighbours hop ≡ State.Empty → Plans self.old l m → Plans self.new l (knows (asks m hop) (looked_up m.link.neighbours hop))) }
        ensures waits { self.new.waits ≡ self.old.waits }
    {
        let request = arp_request(alloc, net, hop)?;
        self.frames.push(request)?;
        self.asked.push(hop)?;
        let keys = looked_up(alloc, self.keys.take(), table, hop)?;
        self.keys = Some(keys);
        Ok(())
    }
}

/// What is known of addresses, in a copy, after this one was looked up.
fn looked_up<P>(
    alloc: Global,
    keys: Option<ArpTable<()>>,
    table: &ArpTable<P>,
    hop: Ip,
) -> Result<ArpTable<()>, NoMemory>
    ensures { IfOk result (λ k. k ≡ looked_up (known keys table.now) hop) }
{
    let mut keys = match keys {
        Some(keys) => keys,
        None => table.keys(alloc)?,
    };
    keys.lookup(hop);
    Ok(keys)
}

/// The copy, if there is one, in which a packet waits for a pending address.
fn hold_key(keys: Option<ArpTable<()>>, hop: Ip) -> Option<ArpTable<()>>
    ensures none { keys ≡ None → result ≡ None }
    ensures held { IfSome keys (λ k. state_of k hop ≡ State.Pending → result ≡ Some (held k hop tt)) }
{
    let mut keys = keys?;
    if let EntryState::Pending = keys.state_of(hop) {
        keys.hold(hop, ());
    }
    Some(keys)
}
