//! What a frame brings: its octets are read into plain values, and nothing is answered.
ghost use Rattle.std.specs.Prelude.{◌≡◌, ℕ, ◌-◌, length};
ghost use Rattle.lw_input.specs.Arrivals.{arp_brings, arrival_of, data_brings, datagram_brings, is_taken, Holds};
ghost use Rattle.lw_input.specs.Datagrams.{is_accepted, is_fragment};
ghost use Rattle.lw_wire.specs.Arp.{arp_of};
ghost use Rattle.lw_wire.specs.Ip.{ip_of};

use lw_base::{ArpPacket, IpHead, Mac, Net};
use lw_netif::{is_broadcast, is_host};
use lw_wire::{read_arp, read_eth, read_ip};

/// The octets of an Ethernet head.
pub const ETH_LEN: usize = 14;

/// The type of ARP in an Ethernet head (RFC 826).
const ARP: u16 = 0x0806;

/// The type of IPv4 in an Ethernet head (RFC 894).
const IPV4: u16 = 0x0800;

/// What a frame brings to a stack: an ARP packet, a datagram or a fragment of one, by its header, or
/// nothing that the stack takes.
#[derive(Clone, Copy, Debug, PartialEq, Eq)]
pub enum Arrival {
    Arp(ArpPacket),
    Datagram(IpHead),
    Nothing,
}

/// What a frame brings to a stack with an address.
pub fn arrival_of(net: &Net, octets: &[u8]) -> Arrival
    ensures exact { result ≡ arrival_of net.now octets.now }
    ensures holds { Holds (length octets.now - 14) result }
{
    let Ok((head, place)) = read_eth(octets) else {
        return Arrival::Nothing;
    };
    if !takes(net, head.dst) {
        return Arrival::Nothing;
    }
    let (_, body) = octets.split_at(place);
    data_brings(net, head.ethertype, body)
}

fn data_brings(net: &Net, ethertype: u16, body: &[u8]) -> Arrival
    ensures exact { result ≡ data_brings net.now ethertype body.now }
    ensures holds { Holds (length body.now) result }
{
    match ethertype {
        ARP => arp_brings(body),
        IPV4 => datagram_brings(net, body),
        _ => Arrival::Nothing,
    }
}

fn takes(net: &Net, dst: Mac) -> bool
    ensures { result ≡ is_taken net.now dst }
{
    dst == net.mac || dst == Mac::BROADCAST
}

fn arp_brings(body: &[u8]) -> Arrival
    ensures exact { result ≡ arp_brings (arp_of body.now) }
    ensures holds { (n : ℕ) → Holds n result }
{
    match read_arp(body) {
        Ok(packet) => Arrival::Arp(packet),
        Err(_) => Arrival::Nothing,
    }
}

fn datagram_brings(net: &Net, octets: &[u8]) -> Arrival
    ensures exact { result ≡ datagram_brings net.now (ip_of octets.now) }
    ensures holds { Holds (length octets.now) result }
{
    let Ok((head, _)) = read_ip(octets) else {
        return Arrival::Nothing;
    };
    if is_accepted(net, &head) {
        Arrival::Datagram(head)
    } else {
        Arrival::Nothing
    }
}

/// Whether a datagram is taken: one to the own address or a broadcast address, from an address that
/// may send one.
fn is_accepted(net: &Net, head: &IpHead) -> bool
    ensures { result ≡ is_accepted net.now head.now }
{
    (head.dst.0 == net.ip.0 || is_broadcast(net, head.dst)) && is_host(net, head.src)
}

/// Whether a datagram is a fragment of one.
pub fn is_fragment(head: &IpHead) -> bool
    ensures { result ≡ is_fragment head.now }
{
    head.mf || head.offset != 0
}
