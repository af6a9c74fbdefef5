//! Laws of the way out, each the contract of a call.
ghost use Rattle.std.specs.Prelude.{◌≡◌, ◌≢◌, ◌≤◌, ◌++◌, ◌∷◌, [], length, false, IfOk};
ghost use Rattle.lw_netif.specs.Route.{route_of};
ghost use Rattle.lw_arp.specs.declared.entries.EntryState.{EntryState};
ghost use Rattle.lw_arp.specs.Neighbours.{state_of};
ghost use Rattle.lw_frag.specs.Pieces.{IsWhole};
ghost use Rattle.lw_base.specs.declared.addresses.Ip.{Ip};
ghost use Rattle.lw_wire.specs.Eth.{eth_spelling};
ghost use Rattle.lw_wire.specs.Arp.{arp_spelling};
ghost use Rattle.lw_link.specs.Plans.{IsOver, Plans};
ghost use Rattle.lw_link.specs.Way.{arp_request, emits, Link};

use crate::{Body, LinkPlan, NoMemory};
use lw_arp::ArpTable;
use lw_base::{ArpPacket, IpHead};
use lw_netif::Netif;
use std::alloc::Global;

/// What an ARP request for the own address sends by itself: one frame, which answers its sender.
pub fn answer_alone(alloc: Global, netif: &Netif, request: &ArpPacket) -> Result<LinkPlan, NoMemory>
    requires asks { request.now.op ≡ 1 }
    requires own { request.now.tip.0 ≡ netif.now.ip.0 }
    requires other { request.now.sip.0 ≢ netif.now.ip.0 }
    ensures answered { IfOk result (λ p. p.frames.items ≡
        (eth_spelling (record { dst = request.now.smac; src = netif.now.mac; ethertype = 0x0806 })
        ++ arp_spelling (record { op = 2; smac = netif.now.mac; sip = netif.now.ip; tmac = request.now.smac; tip = request.now.sip })) ∷ []) }
{
    let mut plan = LinkPlan::new(alloc, 0);
    plan.answer(alloc, netif, request)?;
    Ok(plan)
}

/// What two datagrams to one address send in one event, one after the other: where nothing is known of
/// their next hop, it is asked for once, and no packet goes out.
pub fn emit_both<P>(
    alloc: Global,
    netif: &Netif,
    table: &ArpTable<P>,
    may_wait: bool,
    head: &IpHead,
    first: &Body,
    second: &Body,
) -> Result<LinkPlan, NoMemory>
    requires whole { IsWhole head.now }
    requires split { head.now.df ≡ false }
    requires first { length first.now ≤ 65535 }
    requires second { length second.now ≤ 65535 }
    ensures exact { IfOk result (λ p. (l : Link) → IsOver netif.now table.now l → l.next_id ≡ 0
        → Plans p l (emits may_wait (record { link = l; out = [] }) ((head.now, first.now) ∷ (head.now, second.now) ∷ []))) }
    ensures once { IfOk result (λ p. (hop : Ip) → route_of netif.now head.now.dst ≡ Ok hop → state_of table.now hop ≡ EntryState.Empty → p.frames.items ≡ arp_request netif.now hop ∷ []) }
{
    let mut plan = LinkPlan::new(alloc, 0);
    plan.emit(alloc, netif, table, may_wait, head, first)?;
    plan.emit(alloc, netif, table, may_wait, head, second)?;
    Ok(plan)
}
