//! The line of a stack's addresses.
ghost use Rattle.std.specs.Prelude.{◌≡◌, ◌≢◌, MatchOption};
ghost use Rattle.lw_base.specs.declared.addresses.Net.{Net};
ghost use Rattle.script_words.specs.Values.{IsMask, IsNet, net_words};
ghost use Rattle.script_words.specs.Words.{left, spaced};

use crate::addresses::{is_mask, parse_mac};
use crate::words::{Words, is_text};
use lw_base::{Ip, Net};

// An address that is a mask.
fn as_mask(bits: Ip) -> Option<Ip>
    ensures { MatchOption result (IsMask bits.0 → ⊥) (λ mask. IsMask mask.0 × (mask ≡ bits)) }
{
    if is_mask(bits) { Some(bits) } else { None }
}

// The addresses that words spell.
fn parse_net_words(words: Words) -> Option<Net>
    ensures { MatchOption result ((net : Net) → IsNet net → left words.entry ≢ net_words net) (λ net. IsNet net × (left words.entry ≡ net_words net)) }
{
    let (name, words) = words.word()?;
    if !is_text(name, "net") {
        return None;
    }
    let (ip, words) = words.ip()?;
    let (bits, words) = words.ip()?;
    let mask = as_mask(bits)?;
    let (gateway, words) = words.ip()?;
    let (mac, words) = words.word()?;
    let mac = parse_mac(mac)?;
    words.is_empty().then_some(Net {
        ip,
        mask,
        gateway,
        mac,
    })
}

/// The addresses that a line spells: `net IP MASK GATEWAY MAC`.
#[tactic(auto, using(crate::proofs::Solid::words_of_net, crate::proofs::Solid::line_of_net))]
pub fn parse_net(line: &[u8]) -> Option<Net>
    ensures { MatchOption result ((net : Net) → IsNet net → line.now ≢ spaced (net_words net)) (λ net. IsNet net × (line.now ≡ spaced (net_words net))) }
{
    parse_net_words(Words::of(line))
}
