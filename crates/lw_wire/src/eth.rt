ghost use Rattle.std.specs.Prelude.{◌≡◌, ◌+◌, ◌≤◌, ◌++◌, ℕ, List, drop, length, IfOk, OnErr, OnOk, IsOk};
ghost use Rattle.std.specs.Vec.{vec_capacity, vec_len};
ghost use Rattle.lw_wire.specs.Eth.{eth_of, eth_spelling, ReadsEth, SpellsEth};

use crate::fields::{append, read_mac, read_u16};
use crate::{NoMemory, WireFault};
use lw_base::EthHead;

/// The octets of an Ethernet head.
const ETH_LEN: usize = 14;

/// The Ethernet head that a frame begins with, and the place where its data begins.
pub fn read_eth(octets: &[u8]) -> Result<(EthHead, usize), WireFault>
    ensures found { IfOk result (λ r. SpellsEth octets.now r.0 r.1) }
    ensures only { (h : EthHead) (place : ℕ) → SpellsEth octets.now h place → result ≡ Ok (h, place) }
    ensures exact { result ≡ eth_of octets.now }
{
    eth_of(octets)
}

fn eth_of(octets: &[u8]) -> Result<(EthHead, usize), WireFault>
    ensures { result ≡ eth_of octets.now }
{
    if octets.len() < ETH_LEN {
        return Err(WireFault::Short);
    }
    let head = EthHead {
        dst: read_mac(octets, 0),
        src: read_mac(octets, 6),
        ethertype: read_u16(octets, 12),
    };
    Ok((head, ETH_LEN))
}

/// Appends a frame: the head and the data behind it.
pub fn write_eth(head: &EthHead, body: &[u8], out: &mut Vec<u8>) -> Result<(), NoMemory>
    ensures ok { OnOk result (out.new.items ≡ out.old.items ++ (eth_spelling head.now ++ body.now)) }
    ensures err { OnErr result (out.new.items ≡ out.old.items) }
    ensures room { vec_len out.old + (14 + length body.now) ≤ vec_capacity out.old → IsOk result }
    ensures len { OnOk result (vec_len out.new ≡ vec_len out.old + (14 + length body.now)) }
    ensures capacity { vec_capacity out.old ≤ vec_capacity out.new }
    ensures read_back { OnOk result (ReadsEth (drop (length out.old.items) out.new.items) head.now body.now) }
{
    append(&eth_octets(head), body, out)
}

/// The octets of an Ethernet head.
#[inline]
pub fn eth_octets(head: &EthHead) -> [u8; 14]
    ensures exact { result ≡ eth_spelling head.now }
    ensures read_back { (body : List ℕ) → ReadsEth (result ++ body) head.now body }
{
    let [d1, d2, d3, d4, d5, d6] = head.dst.0;
    let [s1, s2, s3, s4, s5, s6] = head.src.0;
    let [high, low] = head.ethertype.to_be_bytes();
    [d1, d2, d3, d4, d5, d6, s1, s2, s3, s4, s5, s6, high, low]
}
