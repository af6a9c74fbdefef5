ghost use Rattle.std.specs.Prelude.{◌≡◌, ◌≢◌, ℕ, ◌<◌, ◌^◌, ◌↔◌, [], ◌∷◌, MatchOption, IsTrue};
ghost use Rattle.lw_base.specs.declared.addresses.Ip.{Ip};
ghost use Rattle.lw_base.specs.declared.addresses.Mac.{Mac};
ghost use Rattle.script_words.specs.Values.{IsMac, IsMask, hex_digit, hex_octet, ip_spelling, mac_spelling};

use lw_base::{Ip, Mac};
use std::net::Ipv4Addr;

// The address that a word spells.
pub fn parse_ip(word: &[u8]) -> Option<Ip>
    ensures { MatchOption result ((ip : Ip) → ip.0 < 2 ^ 32 → word.now ≢ ip_spelling ip) (λ ip. (ip.0 < 2 ^ 32) × (word.now ≡ ip_spelling ip)) }
{
    match Ipv4Addr::parse_ascii(word) {
        Ok(address) => Some(Ip(u32::from_be_bytes(address.octets()))),
        Err(_) => None,
    }
}

// Whether an address is a run of ones from the highest bit on, then zeros.
pub fn is_mask(ip: Ip) -> bool
    ensures { IsTrue result ↔ IsMask ip.0 }
{
    for zeros in 0..33u32 {
        if u64::from(ip.0) == (1 << 32) - (1 << zeros) {
            return true;
        }
    }
    false
}

// The value of a hexadecimal digit in lower case.
fn digit_value(digit: u8) -> Option<u8>
    ensures { MatchOption result ((d : ℕ) → d < 16 → digit ≢ hex_digit d) (λ d. (d < 16) × (digit ≡ hex_digit d)) }
{
    match digit {
        b'0'..=b'9' => Some(digit - b'0'),
        b'a'..=b'f' => Some(digit - b'a' + 10),
        _ => None,
    }
}

// The octet that two digits spell.
fn octet_value(high: u8, low: u8) -> Option<u8>
    ensures { MatchOption result ((n : ℕ) → n < 256 → high ∷ low ∷ [] ≢ hex_octet n) (λ n. (n < 256) × (high ∷ low ∷ [] ≡ hex_octet n)) }
{
    let high = digit_value(high)?;
    let low = digit_value(low)?;
    Some(high * 16 + low)
}

// The hardware address that a word spells.
pub fn parse_mac(word: &[u8]) -> Option<Mac>
    ensures { MatchOption result ((mac : Mac) → IsMac mac → word.now ≢ mac_spelling mac) (λ mac. IsMac mac × (word.now ≡ mac_spelling mac)) }
{
    let [a, b, c, d, e, f, g, h, i, j, k, l] = word else {
        return None;
    };
    let first = octet_value(*a, *b)?;
    let second = octet_value(*c, *d)?;
    let third = octet_value(*e, *f)?;
    let fourth = octet_value(*g, *h)?;
    let fifth = octet_value(*i, *j)?;
    let sixth = octet_value(*k, *l)?;
    Some(Mac([first, second, third, fourth, fifth, sixth]))
}
