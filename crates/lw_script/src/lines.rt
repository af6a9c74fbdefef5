ghost use Rattle.std.specs.Prelude.{◌≡◌, ◌≢◌, ◌<◌, ◌↔◌, ◌==◌, position, [], ◌∷◌, length, MatchOption, IsTrue};
ghost use Rattle.lw_base.specs.declared.addresses.Net.{Net};
ghost use Rattle.lw_script.specs.declared.parts.Profile.{Profile};
ghost use Rattle.lw_script.specs.Grammar.{is_comment};
ghost use Rattle.lw_script.specs.Reading.{pieces};
ghost use Rattle.lw_script.specs.Spelling.{IsNet, limits_spelling, net_spelling};

use crate::addresses::{is_mask, parse_ip, parse_mac};
use crate::parts::Profile;
use lw_base::Net;

// The place of the first octet that is `at`.
fn place_of(text: &[u8], at: u8) -> Option<usize>
    ensures { result ≡ position (λ c. c == at) text.now }
{
    text.iter().position(|octet| *octet == at)
}

// Whether a line is a comment.
pub fn begins_comment(line: &[u8]) -> bool
    ensures { result ≡ is_comment line.now }
{
    !line.is_empty() && line[0] == b'#'
}

// What stands before the first octet that is `at`, and what stands behind it.
pub fn cut(text: &[u8], at: u8) -> Option<(&[u8], &[u8])>
    ensures { MatchOption result (pieces at text.now ≡ text.now ∷ []) (λ r. (pieces at text.now ≡ r.0.now ∷ pieces at r.1.now) × (length r.1.now < length text.now)) }
{
    let end = place_of(text, at)?;
    let (front, rest) = text.split_at(end);
    let (_, behind) = rest.split_at(1);
    Some((front, behind))
}

// Whether a line or a word is this text.
pub fn is_text(line: &[u8], text: &str) -> bool
    ensures { IsTrue result ↔ (line.now ≡ text.now) }
{
    line == text.as_bytes()
}

// The words of a line of addresses.
#[derive(Clone, Copy)]
struct NetWords<'a> {
    name: &'a [u8],
    ip: &'a [u8],
    mask: &'a [u8],
    gateway: &'a [u8],
    mac: &'a [u8],
}

// The first four words of a line, and what stands behind them.
fn net_words(line: &[u8]) -> Option<NetWords<'_>>
    ensures { MatchOption result (length (pieces 32 line.now) < 5) (λ w. pieces 32 line.now ≡ w.name.now ∷ w.ip.now ∷ w.mask.now ∷ w.gateway.now ∷ pieces 32 w.mac.now) }
{
    let (name, rest) = cut(line, b' ')?;
    let (ip, rest) = cut(rest, b' ')?;
    let (mask, rest) = cut(rest, b' ')?;
    let (gateway, mac) = cut(rest, b' ')?;
    Some(NetWords {
        name,
        ip,
        mask,
        gateway,
        mac,
    })
}

// The addresses that a line spells.
pub fn parse_net(line: &[u8]) -> Option<Net>
    ensures { MatchOption result ((net : Net) → IsNet net → line.now ≢ net_spelling net) (λ net. IsNet net × (line.now ≡ net_spelling net)) }
{
    let words = net_words(line)?;
    if !is_text(words.name, "net") {
        return None;
    }
    let ip = parse_ip(words.ip)?;
    let mask = parse_ip(words.mask)?;
    let gateway = parse_ip(words.gateway)?;
    let mac = parse_mac(words.mac)?;
    if !is_mask(mask) {
        return None;
    }
    Some(Net {
        ip,
        mask,
        gateway,
        mac,
    })
}

// The profile that a line spells.
pub fn parse_limits(line: &[u8]) -> Option<Profile>
    ensures { MatchOption result ((profile : Profile) → line.now ≢ limits_spelling profile) (λ profile. line.now ≡ limits_spelling profile) }
{
    if is_text(line, "limits default") {
        Some(Profile::Default)
    } else if is_text(line, "limits small") {
        Some(Profile::Small)
    } else if is_text(line, "limits wide") {
        Some(Profile::Wide)
    } else {
        None
    }
}
