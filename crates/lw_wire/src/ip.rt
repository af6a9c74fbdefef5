ghost use Rattle.std.specs.Prelude.{◌≡◌, ◌+◌, ◌≤◌, ◌++◌, ℕ, List, drop, length, IfOk, OnErr, OnOk, IsOk};
ghost use Rattle.std.specs.Vec.{vec_capacity, vec_len};
ghost use Rattle.lw_wire.specs.Ip.{flags_and_offset, ip_fields, ip_of, ip_spelling, ip_with_sum, is_ip, FitsIp, HasIpSpelling, ReadsIp, SpellsIp};

use crate::fields::{append, read_address, read_u8, read_u16};
use crate::sums::has_right_sum;
use crate::{NoMemory, WireFault, sum16};
use lw_base::IpHead;

/// The octets of a header without options.
const IP_LEN: usize = 20;

/// Version 4 and a header of five words.
const VERSION_AND_WORDS: u8 = 0x45;

/// The IPv4 header that octets begin with, and the place where its data begins. Options are skipped,
/// and what stands behind the total length isn't looked at.
pub fn read_ip(octets: &[u8]) -> Result<(IpHead, usize), WireFault>
    ensures found { IfOk result (λ r. SpellsIp octets.now r.0 r.1) }
    ensures only { (h : IpHead) (place : ℕ) → SpellsIp octets.now h place → result ≡ Ok (h, place) }
    ensures exact { result ≡ ip_of octets.now }
{
    ip_of(octets)
}

#[tactic(auto, unfolding(crate::specs::Ip::ip_of))]
fn ip_of(octets: &[u8]) -> Result<(IpHead, usize), WireFault>
    ensures { result ≡ ip_of octets.now }
{
    if octets.len() < IP_LEN {
        return Err(WireFault::Short);
    }
    if !is_ip(octets) {
        return Err(WireFault::BadField);
    }
    let head = ip_fields(octets);
    if octets.len() < usize::from(head.total) {
        return Err(WireFault::Short);
    }
    let head_len = usize::from(head.head_len);
    let (header, _) = octets.split_at(head_len);
    if !has_right_sum(header) {
        return Err(WireFault::BadSum);
    }
    Ok((head, head_len))
}

fn is_ip(octets: &[u8]) -> bool
    requires { 20 ≤ length octets.now }
    ensures { result ≡ is_ip octets.now }
{
    let head = ip_fields(octets);
    read_u8(octets, 0) >> 4 == 4
        && IP_LEN <= usize::from(head.head_len)
        && u16::from(head.head_len) <= head.total
}

fn ip_fields(octets: &[u8]) -> IpHead
    requires { 20 ≤ length octets.now }
    ensures { result ≡ ip_fields octets.now }
{
    let flags = read_u16(octets, 6);
    IpHead {
        head_len: 4 * (read_u8(octets, 0) & 0x0f),
        tos: read_u8(octets, 1),
        total: read_u16(octets, 2),
        id: read_u16(octets, 4),
        df: flags >> 14 & 1 == 1,
        mf: flags >> 13 & 1 == 1,
        offset: 8 * u32::from(flags & 0x1fff),
        ttl: read_u8(octets, 8),
        proto: read_u8(octets, 9),
        src: read_address(octets, 12),
        dst: read_address(octets, 16),
    }
}

/// Appends a packet: the header, with its sum, and the data behind it.
pub fn write_ip(head: &IpHead, body: &[u8], out: &mut Vec<u8>) -> Result<(), NoMemory>
    requires { FitsIp head.now (length body.now) }
    ensures ok { OnOk result (out.new.items ≡ out.old.items ++ (ip_spelling head.now ++ body.now)) }
    ensures err { OnErr result (out.new.items ≡ out.old.items) }
    ensures room { vec_len out.old + (20 + length body.now) ≤ vec_capacity out.old → IsOk result }
    ensures len { OnOk result (vec_len out.new ≡ vec_len out.old + (20 + length body.now)) }
    ensures capacity { vec_capacity out.old ≤ vec_capacity out.new }
    ensures read_back { (padding : List ℕ) → OnOk result (ReadsIp (drop (length out.old.items) out.new.items ++ padding) head.now body.now) }
{
    append(&ip_octets(head), body, out)
}

/// The octets of a header without options, with a right sum, whatever its total length counts.
#[inline]
pub fn ip_octets(head: &IpHead) -> [u8; 20]
    requires { head.now.offset ≤ 65528 }
    ensures exact { result ≡ ip_spelling head.now }
    ensures read_back { (body padding : List ℕ) → FitsIp head.now (length body) → ReadsIp (result ++ body ++ padding) head.now body }
{
    ip_with_sum(sum16(&ip_with_sum(0, *head), &[]), *head)
}

fn ip_with_sum(sum: u16, head: IpHead) -> [u8; 20]
    requires { head.offset ≤ 65528 }
    ensures exact { result ≡ ip_with_sum sum head }
    ensures fits { HasIpSpelling head }
{
    let [total_high, total_low] = head.total.to_be_bytes();
    let [id_high, id_low] = head.id.to_be_bytes();
    let [flags, offset] = flags_and_offset(&head).to_be_bytes();
    let [sum_high, sum_low] = sum.to_be_bytes();
    let [s1, s2, s3, s4] = head.src.0.to_be_bytes();
    let [d1, d2, d3, d4] = head.dst.0.to_be_bytes();
    [
        VERSION_AND_WORDS,
        head.tos,
        total_high,
        total_low,
        id_high,
        id_low,
        flags,
        offset,
        head.ttl,
        head.proto,
        sum_high,
        sum_low,
        s1,
        s2,
        s3,
        s4,
        d1,
        d2,
        d3,
        d4,
    ]
}

fn flags_and_offset(head: &IpHead) -> u16
    requires { head.now.offset ≤ 65528 }
    ensures { result ≡ flags_and_offset head.now }
{
    (u16::from(head.df) << 14) + (u16::from(head.mf) << 13) + (head.offset / 8) as u16
}
