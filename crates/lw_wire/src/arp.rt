ghost use Rattle.std.specs.Prelude.{◌≡◌, ◌+◌, ◌≤◌, ◌++◌, ℕ, List, drop, length, IfOk, OnErr, OnOk, IsOk};
ghost use Rattle.std.specs.Vec.{vec_capacity, vec_len};
ghost use Rattle.lw_wire.specs.Arp.{arp_fields, arp_of, arp_spelling, is_ethernet_ipv4, IsArpOperation, ReadsArp, SpellsArp};

use crate::fields::{append, read_address, read_mac, read_u8, read_u16};
use crate::{NoMemory, WireFault};
use lw_base::ArpPacket;

/// The octets of an ARP packet.
const ARP_LEN: usize = 28;

/// The hardware type of Ethernet.
const ETHERNET: u16 = 1;

/// The protocol type of IPv4.
const IPV4: u16 = 0x0800;

/// The octets of a hardware address.
const MAC_LEN: u8 = 6;

/// The octets of a protocol address.
const IP_LEN: u8 = 4;

/// The ARP packet that octets begin with; those behind it are padding.
pub fn read_arp(octets: &[u8]) -> Result<ArpPacket, WireFault>
    ensures found { IfOk result (λ p. SpellsArp octets.now p) }
    ensures only { (p : ArpPacket) → SpellsArp octets.now p → result ≡ Ok p }
    ensures exact { result ≡ arp_of octets.now }
{
    arp_of(octets)
}

fn arp_of(octets: &[u8]) -> Result<ArpPacket, WireFault>
    ensures { result ≡ arp_of octets.now }
{
    if octets.len() < ARP_LEN {
        return Err(WireFault::Short);
    }
    let packet = arp_fields(octets);
    if !is_ethernet_ipv4(octets) || !matches!(packet.op, 1 | 2) {
        return Err(WireFault::BadField);
    }
    Ok(packet)
}

fn is_ethernet_ipv4(octets: &[u8]) -> bool
    requires { 28 ≤ length octets.now }
    ensures { result ≡ is_ethernet_ipv4 octets.now }
{
    read_u16(octets, 0) == ETHERNET
        && read_u16(octets, 2) == IPV4
        && read_u8(octets, 4) == MAC_LEN
        && read_u8(octets, 5) == IP_LEN
}

fn arp_fields(octets: &[u8]) -> ArpPacket
    requires { 28 ≤ length octets.now }
    ensures { result ≡ arp_fields octets.now }
{
    ArpPacket {
        op: read_u16(octets, 6),
        smac: read_mac(octets, 8),
        sip: read_address(octets, 14),
        tmac: read_mac(octets, 18),
        tip: read_address(octets, 24),
    }
}

/// Appends a packet and the octets behind it.
pub fn write_arp(head: &ArpPacket, body: &[u8], out: &mut Vec<u8>) -> Result<(), NoMemory>
    requires { IsArpOperation head.now.op }
    ensures ok { OnOk result (out.new.items ≡ out.old.items ++ (arp_spelling head.now ++ body.now)) }
    ensures err { OnErr result (out.new.items ≡ out.old.items) }
    ensures room { vec_len out.old + (28 + length body.now) ≤ vec_capacity out.old → IsOk result }
    ensures len { OnOk result (vec_len out.new ≡ vec_len out.old + (28 + length body.now)) }
    ensures capacity { vec_capacity out.old ≤ vec_capacity out.new }
    ensures read_back { OnOk result (ReadsArp (drop (length out.old.items) out.new.items) head.now body.now) }
{
    append(&arp_octets(head), body, out)
}

/// The octets of an ARP packet for Ethernet and IPv4.
#[inline]
pub fn arp_octets(packet: &ArpPacket) -> [u8; 28]
    ensures exact { result ≡ arp_spelling packet.now }
    ensures read_back { (behind : List ℕ) → IsArpOperation packet.now.op → ReadsArp (result ++ behind) packet.now behind }
{
    let [hardware_high, hardware_low] = ETHERNET.to_be_bytes();
    let [protocol_high, protocol_low] = IPV4.to_be_bytes();
    let [op_high, op_low] = packet.op.to_be_bytes();
    let [s1, s2, s3, s4, s5, s6] = packet.smac.0;
    let [i1, i2, i3, i4] = packet.sip.0.to_be_bytes();
    let [t1, t2, t3, t4, t5, t6] = packet.tmac.0;
    let [j1, j2, j3, j4] = packet.tip.0.to_be_bytes();
    [
        hardware_high,
        hardware_low,
        protocol_high,
        protocol_low,
        MAC_LEN,
        IP_LEN,
        op_high,
        op_low,
        s1,
        s2,
        s3,
        s4,
        s5,
        s6,
        i1,
        i2,
        i3,
        i4,
        t1,
        t2,
        t3,
        t4,
        t5,
        t6,
        j1,
        j2,
        j3,
        j4,
    ]
}
