//! The way in of whole datagrams: by their protocol, what answers them is planned, and to which connection
//! they go.
ghost use Rattle.std.specs.Prelude.{◌≡◌, ◌≤◌, OnOk, IfOk, IfSome, None, Some, length, option_map};
ghost use Rattle.lw_icmp.specs.Messages.{echo_reply, unreachable};
ghost use Rattle.lw_link.specs.Plans.{IsOver, Plans};
ghost use Rattle.lw_link.specs.Way.{Link, Way, IsPacket};
ghost use Rattle.lw_input.specs.Input.{icmp_output, ip_input, port_answer, reply_to, udp_input};
ghost use Rattle.lw_input.specs.PostPlans.{delivery_in, IsGoing};

use crate::NoMemory;
use lw_api_msg::Endpoints;
use lw_arp::ArpTable;
use lw_base::{Ip, IpHead, Port};
use lw_icmp::{echo_answer, unreachable};
use lw_link::{Body, LinkPlan, sent_head};
use lw_netif::Netif;
use lw_wire::read_udp;
use std::alloc::Global;

/// The number of ICMP as a protocol (RFC 792).
const ICMP: u8 = 1;

/// The number of TCP as a protocol (RFC 9293).
const TCP: u8 = 6;

/// The number of UDP as a protocol (RFC 768).
pub const UDP: u8 = 17;

/// The code of protocol unreachable (RFC 792).
const PROTOCOL_UNREACHABLE: u8 = 2;

/// The code of port unreachable (RFC 792).
const PORT_UNREACHABLE: u8 = 3;

/// The octets of an ICMP head.
const ICMP_LEN: usize = 8;

/// A datagram of UDP that goes to a connection: which one, the address and port that sent it, the place
/// where its data begins, and how many octets these are.
#[derive(Clone, Copy, Debug, PartialEq, Eq)]
pub struct PostPlan {
    pub conn: u32,
    pub ip: Ip,
    pub port: Port,
    pub place: u32,
    pub count: u32,
}

/// Plans what a whole datagram sends, with this header, whose octets are given too, and this data, and
/// answers to which connection it goes, if to one; places are those of the data.
pub fn ip_input<P>(
    alloc: Global,
    netif: &Netif,
    table: &ArpTable<P>,
    endpoints: &Endpoints,
    plan: &mut LinkPlan,
    head: &IpHead,
    header: &[u8],
    body: &[u8],
) -> Result<Option<PostPlan>, NoMemory>
    requires header { length header.now ≤ 255 }
    requires body { length body.now ≤ 65535 }
    requires idle { plan.old.waits ≡ None }
    ensures exact { OnOk result ((l : Link) (m : Way) → IsOver netif.now table.now l → Plans plan.old l m → Plans plan.new l (ip_input netif.now endpoints.now.udp.ends m head.now header.now body.now).0) }
    ensures packet { OnOk result (IfSome plan.new.waits (λ w. IsPacket w.1)) }
    ensures delivery { IfOk result (λ p. (m : Way) → option_map (delivery_in body.now) p ≡ (ip_input netif.now endpoints.now.udp.ends m head.now header.now body.now).1) }
    ensures going { IfOk result (λ p. IfSome p (IsGoing endpoints.now.conns (length body.now))) }
{
    if head.proto == UDP {
        return udp_input(alloc, netif, table, endpoints, plan, head, header, body);
    }
    reply(alloc, netif, table, plan, head, header, body)?;
    Ok(None)
}

/// Plans the message of ICMP that answers a whole datagram that isn't of UDP.
fn reply<P>(
    alloc: Global,
    netif: &Netif,
    table: &ArpTable<P>,
    plan: &mut LinkPlan,
    head: &IpHead,
    header: &[u8],
    body: &[u8],
) -> Result<(), NoMemory>
    requires header { length header.now ≤ 255 }
    requires body { length body.now ≤ 65535 }
    requires idle { plan.old.waits ≡ None }
    ensures exact { OnOk result ((l : Link) (m : Way) → IsOver netif.now table.now l → Plans plan.old l m → Plans plan.new l (icmp_output netif.now m head.now.src (reply_to netif.now head.now header.now body.now))) }
    ensures packet { OnOk result (IfSome plan.new.waits (λ w. IsPacket w.1)) }
{
    if head.dst.0 != netif.net().ip.0 {
        return Ok(());
    }
    match head.proto {
        ICMP => echo_input(alloc, netif, table, plan, head.src, body),
        TCP => Ok(()),
        _ => refuse(
            alloc,
            netif,
            table,
            plan,
            PROTOCOL_UNREACHABLE,
            head.src,
            header,
            body,
        ),
    }
}

/// Plans the answer to an echo request; any other message brings none.
fn echo_input<P>(
    alloc: Global,
    netif: &Netif,
    table: &ArpTable<P>,
    plan: &mut LinkPlan,
    src: Ip,
    body: &[u8],
) -> Result<(), NoMemory>
    requires body { length body.now ≤ 65535 }
    requires idle { plan.old.waits ≡ None }
    ensures exact { OnOk result ((l : Link) (m : Way) → IsOver netif.now table.now l → Plans plan.old l m → Plans plan.new l (icmp_output netif.now m src (echo_reply body.now))) }
    ensures packet { OnOk result (IfSome plan.new.waits (λ w. IsPacket w.1)) }
{
    match echo_answer(body) {
        Some(front) => {
            let (_, data) = body.split_at(ICMP_LEN);
            icmp_output(alloc, netif, table, plan, src, &Body::new(&front, data))
        }
        None => Ok(()),
    }
}

/// Plans what a datagram of UDP sends, and answers to which connection it goes: to that of the end that
/// matches best. Where there is none, port unreachable answers it.
fn udp_input<P>(
    alloc: Global,
    netif: &Netif,
    table: &ArpTable<P>,
    endpoints: &Endpoints,
    plan: &mut LinkPlan,
    head: &IpHead,
    header: &[u8],
    body: &[u8],
) -> Result<Option<PostPlan>, NoMemory>
    requires header { length header.now ≤ 255 }
    requires idle { plan.old.waits ≡ None }
    ensures exact { OnOk result ((l : Link) (m : Way) → IsOver netif.now table.now l → Plans plan.old l m → Plans plan.new l (icmp_output netif.now m head.now.src (udp_input netif.now endpoints.now.udp.ends head.now header.now body.now).message)) }
    ensures packet { OnOk result (IfSome plan.new.waits (λ w. IsPacket w.1)) }
    ensures delivery { IfOk result (λ p. option_map (delivery_in body.now) p ≡ (udp_input netif.now endpoints.now.udp.ends head.now header.now body.now).delivery) }
    ensures going { IfOk result (λ p. IfSome p (IsGoing endpoints.now.conns (length body.now))) }
{
    let Ok((udp, place)) = read_udp(body, head.src, head.dst) else {
        return Ok(None);
    };
    let Some(conn) = endpoints.best((head.src, udp.sport), (head.dst, udp.dport)) else {
        refuse_port(alloc, netif, table, plan, head, header, body)?;
        return Ok(None);
    };
    Ok(Some(PostPlan {
        conn,
        ip: head.src,
        port: udp.sport,
        place: place as u32,
        count: u32::from(udp.total) - place as u32,
    }))
}

/// Plans port unreachable for a datagram of UDP to the own address.
fn refuse_port<P>(
    alloc: Global,
    netif: &Netif,
    table: &ArpTable<P>,
    plan: &mut LinkPlan,
    head: &IpHead,
    header: &[u8],
    body: &[u8],
) -> Result<(), NoMemory>
    requires header { length header.now ≤ 255 }
    requires idle { plan.old.waits ≡ None }
    ensures exact { OnOk result ((l : Link) (m : Way) → IsOver netif.now table.now l → Plans plan.old l m → Plans plan.new l (icmp_output netif.now m head.now.src (port_answer netif.now head.now header.now body.now))) }
    ensures packet { OnOk result (IfSome plan.new.waits (λ w. IsPacket w.1)) }
{
    if head.dst.0 != netif.net().ip.0 {
        return Ok(());
    }
    refuse(
        alloc,
        netif,
        table,
        plan,
        PORT_UNREACHABLE,
        head.src,
        header,
        body,
    )
}

/// Plans destination unreachable, with this code, for a datagram.
fn refuse<P>(
    alloc: Global,
    netif: &Netif,
    table: &ArpTable<P>,
    plan: &mut LinkPlan,
    code: u8,
    src: Ip,
    header: &[u8],
    body: &[u8],
) -> Result<(), NoMemory>
    requires header { length header.now ≤ 255 }
    requires idle { plan.old.waits ≡ None }
    ensures exact { OnOk result ((l : Link) (m : Way) → IsOver netif.now table.now l → Plans plan.old l m → Plans plan.new l (icmp_output netif.now m src (Some (unreachable code header.now body.now)))) }
    ensures packet { OnOk result (IfSome plan.new.waits (λ w. IsPacket w.1)) }
{
    let mut message = Vec::new(alloc);
    unreachable(alloc, code, header, body, &mut message)?;
    icmp_output(alloc, netif, table, plan, src, &Body::new(&message, &[]))
}

/// Plans a message of ICMP to a destination.
fn icmp_output<P>(
    alloc: Global,
    netif: &Netif,
    table: &ArpTable<P>,
    plan: &mut LinkPlan,
    dst: Ip,
    message: &Body,
) -> Result<(), NoMemory>
    requires short { length message.now ≤ 65535 }
    requires idle { plan.old.waits ≡ None }
    ensures exact { OnOk result ((l : Link) (m : Way) → IsOver netif.now table.now l → Plans plan.old l m → Plans plan.new l (icmp_output netif.now m dst (Some message.now))) }
    ensures packet { OnOk result (IfSome plan.new.waits (λ w. IsPacket w.1)) }
{
    let head = sent_head(netif.net(), ICMP, dst);
    plan.emit(alloc, netif, table, true, &head, message)
}
