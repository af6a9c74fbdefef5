ghost use Rattle.std.specs.Prelude.{◌≡◌, ◌+◌, ◌≤◌, ◌<◌, ◌^◌, ◌++◌, ◌∷◌, [], false, Some, ◌-◌, IfOk, OnOk, length, map, slice_get};
ghost use Rattle.lw_frag.specs.Pieces.{IsWhole};
ghost use Rattle.lw_wire.specs.Arp.{IsArpOperation};
ghost use Rattle.lw_link.specs.Way.{arp_frame, arp_reply, arp_request, packet, packet_frame, packets, sent_head, IsPacket};
ghost use Rattle.lw_link.specs.Plans.{IsReady};

use crate::{Body, NoMemory};
use lw_base::{ArpPacket, EthHead, Ip, IpHead, Mac, Net, Octets};
use lw_frag::{full_count, full_piece, last_piece};
use lw_wire::{ip_octets, write_arp, write_eth};
use std::alloc::Global;

/// The octets of an Ethernet head.
const ETH_LEN: usize = 14;

/// The octets of an ARP packet.
const ARP_LEN: usize = 28;

/// The octets of an IPv4 header without options.
const IP_LEN: usize = 20;

/// How many octets a packet has at most that one frame takes (RFC 894).
const MTU: u16 = 1500;

/// The Ethernet type of IPv4.
const IPV4: u16 = 0x0800;

/// The Ethernet type of ARP.
const ARP: u16 = 0x0806;

/// The header of a datagram that the stack sends. Its total length and its identification are given to
/// it on the way out.
pub fn sent_head(net: &Net, proto: u8, dst: Ip) -> IpHead
    ensures head { result ≡ sent_head net.now proto dst }
    ensures whole { IsWhole result }
    ensures split { result.df ≡ false }
{
    IpHead {
        head_len: IP_LEN as u8,
        tos: 0,
        total: 0,
        id: 0,
        df: false,
        mf: false,
        offset: 0,
        ttl: 255,
        proto,
        src: net.ip,
        dst,
    }
}

/// The frame that answers an ARP request.
pub(crate) fn arp_reply(alloc: Global, net: &Net, request: &ArpPacket) -> Result<Octets, NoMemory>
    ensures { IfOk result (λ frame. frame ≡ arp_reply net.now request.now) }
{
    arp_frame(alloc, net, 2, request.smac, request.smac, request.sip)
}

/// The frame that asks for the hardware address of an address.
pub(crate) fn arp_request(alloc: Global, net: &Net, ip: Ip) -> Result<Octets, NoMemory>
    ensures { IfOk result (λ frame. frame ≡ arp_request net.now ip) }
{
    arp_frame(alloc, net, 1, Mac::BROADCAST, Mac([0; 6]), ip)
}

fn arp_frame(
    alloc: Global,
    net: &Net,
    op: u16,
    dst: Mac,
    tmac: Mac,
    tip: Ip,
) -> Result<Octets, NoMemory>
    requires { IsArpOperation op }
    ensures { IfOk result (λ frame. frame ≡ arp_frame net.now op dst tmac tip) }
{
    let head = EthHead {
        dst,
        src: net.mac,
        ethertype: ARP,
    };
    let packet = ArpPacket {
        op,
        smac: net.mac,
        sip: net.ip,
        tmac,
        tip,
    };
    let mut frame = Vec::with_capacity(alloc, ETH_LEN + ARP_LEN)?;
    write_eth(&head, &[], &mut frame)?;
    write_arp(&packet, &[], &mut frame)?;
    Ok(Octets::from_vec(frame))
}

/// The frame that takes a packet to a neighbour.
pub(crate) fn packet_frame(
    alloc: Global,
    net: &Net,
    mac: Mac,
    packet: &[u8],
) -> Result<Octets, NoMemory>
    ensures { IfOk result (λ frame. frame ≡ packet_frame net.now mac packet.now) }
{
    let mut frame = Vec::new(alloc);
    write_eth(&ipv4_head(net, mac), packet, &mut frame)?;
    Ok(Octets::from_vec(frame))
}

fn ipv4_head(net: &Net, mac: Mac) -> EthHead
    ensures { result ≡ record { dst = mac; src = net.now.mac; ethertype = 0x0800 } }
{
    EthHead {
        dst: mac,
        src: net.mac,
        ethertype: IPV4,
    }
}

/// Appends the frames that take a datagram to a neighbour.
pub(crate) fn push_frames(
    alloc: Global,
    net: &Net,
    mac: Mac,
    head: &IpHead,
    body: &Body,
    frames: &mut Vec<Octets>,
) -> Result<(), NoMemory>
    requires whole { IsWhole head.now }
    requires len { length body.now ≤ 65535 }
    ensures { OnOk result (frames.new.items ≡ frames.old.items ++ map (packet_frame net.now mac) (packets head.now body.now)) }
{
    let len = body.len() as u32;
    let count = full_count(len, MTU);
    frames.reserve(count as usize + 1)?;
    for index in 0..count {
        let piece = full_piece(head, MTU, index);
        frames.push(piece_frame(alloc, net, mac, &piece, body)?)?;
    }
    let piece = last_piece(head, len, MTU);
    frames.push(piece_frame(alloc, net, mac, &piece, body)?)?;
    Ok(())
}

/// The frame that takes a piece of a datagram to a neighbour.
fn piece_frame(
    alloc: Global,
    net: &Net,
    mac: Mac,
    piece: &(IpHead, u32, u32),
    body: &Body,
) -> Result<Octets, NoMemory>
    requires { IsReady (length body.now) piece.now }
    ensures { IfOk result (λ frame. frame ≡ packet_frame net.now mac (packet body.now piece.now)) }
{
    let mut frame = Vec::with_capacity(alloc, ETH_LEN + IP_LEN + piece.2 as usize)?;
    write_eth(&ipv4_head(net, mac), &[], &mut frame)?;
    write_piece(piece, body, &mut frame)?;
    Ok(Octets::from_vec(frame))
}

/// The last packet of a datagram.
pub(crate) fn last_packet(alloc: Global, head: &IpHead, body: &Body) -> Result<Octets, NoMemory>
    requires whole { IsWhole head.now }
    requires len { length body.now ≤ 65535 }
    ensures last { IfOk result (λ p. slice_get (packets head.now body.now) (length (packets head.now body.now) - 1) ≡ Some p) }
    ensures fits { IfOk result IsPacket }
{
    let piece = last_piece(head, body.len() as u32, MTU);
    let mut packet = Vec::with_capacity(alloc, IP_LEN + piece.2 as usize)?;
    write_piece(&piece, body, &mut packet)?;
    Ok(Octets::from_vec(packet))
}

/// Appends the packet that carries a piece of a datagram.
fn write_piece(piece: &(IpHead, u32, u32), body: &Body, out: &mut Vec<u8>) -> Result<(), NoMemory>
    requires { IsReady (length body.now) piece.now }
    ensures { OnOk result (out.new.items ≡ out.old.items ++ packet body.now piece.now) }
{
    let (head, from, len) = piece;
    out.extend_from_slice(&ip_octets(head))?;
    body.write(*from as usize, *len as usize, out)
}
