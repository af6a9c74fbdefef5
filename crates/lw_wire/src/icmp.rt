ghost use Rattle.std.specs.Prelude.{◌≡◌, ◌+◌, ◌≤◌, ◌++◌, ℕ, drop, length, IfOk, OnErr, OnOk, IsOk};
ghost use Rattle.std.specs.Vec.{vec_capacity, vec_len};
ghost use Rattle.lw_wire.specs.Checksum.{internet_sum};
ghost use Rattle.lw_wire.specs.Fields.{AreOctets};
ghost use Rattle.lw_wire.specs.Icmp.{icmp_of, icmp_spelling, icmp_with_sum, HasIcmpSpelling, ReadsIcmp, SpellsIcmp};

use crate::fields::{append, read_u8, read_u32};
use crate::sums::has_right_sum;
use crate::{NoMemory, WireFault, sum16};
use lw_base::IcmpHead;

/// The octets of an ICMP head.
const ICMP_LEN: usize = 8;

/// The head of the ICMP message that the octets are, and the place where its data begins.
pub fn read_icmp(octets: &[u8]) -> Result<(IcmpHead, usize), WireFault>
    ensures found { IfOk result (λ r. SpellsIcmp octets.now r.0 r.1) }
    ensures only { (h : IcmpHead) (place : ℕ) → SpellsIcmp octets.now h place → result ≡ Ok (h, place) }
    ensures exact { result ≡ icmp_of octets.now }
{
    icmp_of(octets)
}

#[tactic(auto, unfolding(crate::specs::Icmp::icmp_of))]
fn icmp_of(octets: &[u8]) -> Result<(IcmpHead, usize), WireFault>
    ensures { result ≡ icmp_of octets.now }
{
    if octets.len() < ICMP_LEN {
        return Err(WireFault::Short);
    }
    if !has_right_sum(octets) {
        return Err(WireFault::BadSum);
    }
    let head = IcmpHead {
        kind: read_u8(octets, 0),
        code: read_u8(octets, 1),
        rest: read_u32(octets, 4),
    };
    Ok((head, ICMP_LEN))
}

/// Appends a message: the head, with the sum over the whole message, and the data behind it.
pub fn write_icmp(head: &IcmpHead, body: &[u8], out: &mut Vec<u8>) -> Result<(), NoMemory>
    ensures ok { OnOk result (out.new.items ≡ out.old.items ++ icmp_spelling head.now body.now) }
    ensures err { OnErr result (out.new.items ≡ out.old.items) }
    ensures room { vec_len out.old + (8 + length body.now) ≤ vec_capacity out.old → IsOk result }
    ensures len { OnOk result (vec_len out.new ≡ vec_len out.old + (8 + length body.now)) }
    ensures capacity { vec_capacity out.old ≤ vec_capacity out.new }
    ensures read_back { OnOk result (ReadsIcmp (drop (length out.old.items) out.new.items) head.now body.now) }
{
    append(&icmp_octets(head, body), body, out)
}

/// The octets of the head of a message with this data; its sum is that of the whole message.
#[inline]
pub fn icmp_octets(head: &IcmpHead, body: &[u8]) -> [u8; 8]
    ensures exact { result ++ body.now ≡ icmp_spelling head.now body.now }
    ensures read_back { ReadsIcmp (result ++ body.now) head.now body.now }
{
    icmp_with_sum(icmp_sum(head, body), *head)
}

fn icmp_sum(head: &IcmpHead, body: &[u8]) -> u16
    ensures exact { result ≡ internet_sum (icmp_with_sum 0 head.now ++ body.now) }
    ensures octets { AreOctets body.now }
{
    sum16(&icmp_with_sum(0, *head), body)
}

fn icmp_with_sum(sum: u16, head: IcmpHead) -> [u8; 8]
    ensures exact { result ≡ icmp_with_sum sum head }
    ensures fits { HasIcmpSpelling head }
{
    let IcmpHead { kind, code, rest } = head;
    let [sum_high, sum_low] = sum.to_be_bytes();
    let [r1, r2, r3, r4] = rest.to_be_bytes();
    [kind, code, sum_high, sum_low, r1, r2, r3, r4]
}
