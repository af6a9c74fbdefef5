ghost use Rattle.std.specs.Prelude.{◌≡◌, ◌+◌, ◌≤◌, ◌++◌, ℕ, List, drop, length, IfOk, OnErr, OnOk, IsOk};
ghost use Rattle.std.specs.Vec.{vec_capacity, vec_len};
ghost use Rattle.lw_wire.specs.Sums.{pseudo_head};
ghost use Rattle.lw_wire.specs.Udp.{has_udp_sum, sent_sum, udp_fields, udp_of, udp_protocol, udp_spelling, udp_sum, udp_with_sum, HasUdpSpelling, ReadsUdp, SpellsUdp};

use crate::fields::{append, read_port, read_u16};
use crate::sums::pseudo_head;
use crate::{NoMemory, WireFault, sum16};
use lw_base::{Ip, UdpHead};

/// The octets of a UDP head.
const UDP_LEN: usize = 8;

/// The number of UDP among the protocols over IPv4.
const UDP: u8 = 17;

/// The head of the datagram from `src` to `dst` that octets begin with, and the place where its data
/// begins. What stands behind the datagram's length isn't looked at.
pub fn read_udp(octets: &[u8], src: Ip, dst: Ip) -> Result<(UdpHead, usize), WireFault>
    ensures found { IfOk result (λ r. SpellsUdp octets.now src dst r.0 r.1) }
    ensures only { (h : UdpHead) (place : ℕ) → SpellsUdp octets.now src dst h place → result ≡ Ok (h, place) }
    ensures exact { result ≡ udp_of octets.now src dst }
{
    udp_of(octets, src, dst)
}

#[tactic(auto, unfolding(crate::specs::Udp::udp_of))]
fn udp_of(octets: &[u8], src: Ip, dst: Ip) -> Result<(UdpHead, usize), WireFault>
    ensures { result ≡ udp_of octets.now src dst }
{
    if octets.len() < UDP_LEN {
        return Err(WireFault::Short);
    }
    let head = udp_fields(octets);
    let total = usize::from(head.total);
    if total < UDP_LEN {
        return Err(WireFault::BadField);
    }
    if octets.len() < total {
        return Err(WireFault::Short);
    }
    let (datagram, _) = octets.split_at(total);
    if !has_udp_sum(datagram, src, dst, head.total) {
        return Err(WireFault::BadSum);
    }
    Ok((head, UDP_LEN))
}

fn udp_fields(octets: &[u8]) -> UdpHead
    requires { 8 ≤ length octets.now }
    ensures { result ≡ udp_fields octets.now }
{
    UdpHead {
        sport: read_port(octets, 0),
        dport: read_port(octets, 2),
        total: read_u16(octets, 4),
    }
}

fn has_udp_sum(datagram: &[u8], src: Ip, dst: Ip, total: u16) -> bool
    requires { 8 ≤ length datagram.now }
    ensures { result ≡ has_udp_sum datagram.now src dst total }
{
    read_u16(datagram, 6) == 0 || sum16(&pseudo_head(src, dst, UDP, total), datagram) == 0
}

/// Appends a datagram from `src` to `dst`: the head, with the sum over the pseudo head and the
/// datagram, and the data behind it.
pub fn write_udp(
    head: &UdpHead,
    src: Ip,
    dst: Ip,
    body: &[u8],
    out: &mut Vec<u8>,
) -> Result<(), NoMemory>
    requires { head.now.total ≡ 8 + length body.now }
    ensures ok { OnOk result (out.new.items ≡ out.old.items ++ udp_spelling head.now src dst body.now) }
    ensures err { OnErr result (out.new.items ≡ out.old.items) }
    ensures room { vec_len out.old + (8 + length body.now) ≤ vec_capacity out.old → IsOk result }
    ensures len { OnOk result (vec_len out.new ≡ vec_len out.old + (8 + length body.now)) }
    ensures capacity { vec_capacity out.old ≤ vec_capacity out.new }
    ensures read_back { (padding : List ℕ) → OnOk result (ReadsUdp (drop (length out.old.items) out.new.items ++ padding) src dst head.now body.now) }
{
    append(&udp_octets(head, src, dst, body), body, out)
}

/// The octets of the head of a datagram from `src` to `dst`, with the sum over the pseudo head, the head
/// and the data that is to stand behind it.
pub fn udp_octets(head: &UdpHead, src: Ip, dst: Ip, body: &[u8]) -> [u8; 8]
    requires { head.now.total ≡ 8 + length body.now }
    ensures exact { result ++ body.now ≡ udp_spelling head.now src dst body.now }
    ensures read_back { (padding : List ℕ) → ReadsUdp ((result ++ body.now) ++ padding) src dst head.now body.now }
{
    udp_with_sum(udp_sum(head, src, dst, body), *head)
}

#[tactic(auto, unfolding(crate::specs::Udp::udp_sum))]
fn udp_sum(head: &UdpHead, src: Ip, dst: Ip, body: &[u8]) -> u16
    ensures { result ≡ udp_sum head.now src dst body.now }
{
    sent_sum(sum16(&pseudo_and_head(head, src, dst), body))
}

fn pseudo_and_head(head: &UdpHead, src: Ip, dst: Ip) -> [u8; 20]
    ensures { result ≡ pseudo_head src dst udp_protocol head.now.total ++ udp_with_sum 0 head.now }
{
    let mut octets = [0; 20];
    octets[..12].copy_from_slice(&pseudo_head(src, dst, UDP, head.total));
    octets[12..].copy_from_slice(&udp_with_sum(0, *head));
    octets
}

fn sent_sum(sum: u16) -> u16
    ensures { result ≡ sent_sum sum }
{
    if sum == 0 { u16::MAX } else { sum }
}

fn udp_with_sum(sum: u16, head: UdpHead) -> [u8; 8]
    ensures exact { result ≡ udp_with_sum sum head }
    ensures fits { HasUdpSpelling head }
{
    let [sport_high, sport_low] = head.sport.0.to_be_bytes();
    let [dport_high, dport_low] = head.dport.0.to_be_bytes();
    let [total_high, total_low] = head.total.to_be_bytes();
    let [sum_high, sum_low] = sum.to_be_bytes();
    [
        sport_high, sport_low, dport_high, dport_low, total_high, total_low, sum_high, sum_low,
    ]
}
