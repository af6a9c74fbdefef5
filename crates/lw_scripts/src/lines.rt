//! The lines of a script that aren't calls, each as what it says.
ghost use Rattle.std.specs.Prelude.{◌≡◌, ◌≢◌, ◌⊎◌, ◌↔◌, ℕ, ◌≤◌, List, [], ◌∷◌, All, MatchOption, IsTrue, decimal, length};
ghost use Rattle.std.specs.Int.{IsInRange};
ghost use Rattle.call_types.specs.declared.call.Side.{Side};
ghost use Rattle.script_words.specs.Calls.{IsCount, IsWithin};
ghost use Rattle.script_words.specs.Words.{left};
ghost use Rattle.script_words.specs.declared.version.Version.{Version};
ghost use Rattle.lw_scripts.specs.Parts.{IsName, least_of, most_of};
ghost use Rattle.lw_scripts.specs.Spelling.{actor_words, change_word, fault_words, head_spelling, limits_spelling, side_spelling, size_word, size_words, way_word};
ghost use Rattle.lw_scripts.specs.declared.parts.Change.{Change};
ghost use Rattle.lw_scripts.specs.declared.parts.Fault.{Fault};
ghost use Rattle.lw_scripts.specs.declared.parts.Profile.{Profile};
ghost use Rattle.lw_scripts.specs.declared.parts.SizeName.{SizeName};
ghost use Rattle.lw_scripts.specs.declared.parts.Way.{Way};

use crate::parts::{Change, Fault, Profile, SizeName, Way};
use call_types::Side;
use script_words::{Version, Words, is_text};

// The version that the head line names.
pub fn parse_head(line: &[u8]) -> Option<Version>
    ensures { MatchOption result ((version : Version) → line.now ≢ head_spelling version) (λ version. line.now ≡ head_spelling version) }
{
    if is_text(line, "lwip 1") {
        Some(Version::One)
    } else if is_text(line, "lwip 2") {
        Some(Version::Two)
    } else {
        None
    }
}

// The profile that a line names.
pub fn parse_limits(line: &[u8]) -> Option<Profile>
    ensures { MatchOption result ((profile : Profile) → line.now ≢ limits_spelling profile) (λ profile. line.now ≡ limits_spelling profile) }
{
    if is_text(line, "limits default") {
        Some(Profile::Default)
    } else if is_text(line, "limits small") {
        Some(Profile::Small)
    } else if is_text(line, "limits wide") {
        Some(Profile::Wide)
    } else {
        None
    }
}

// The side that a line begins.
pub fn parse_side(line: &[u8]) -> Option<Side>
    ensures { MatchOption result ((side : Side) → line.now ≢ side_spelling side) (λ side. line.now ≡ side_spelling side) }
{
    if is_text(line, "side a") {
        Some(Side::A)
    } else if is_text(line, "side b") {
        Some(Side::B)
    } else {
        None
    }
}

// The size that has this name.
fn size_named(name: &[u8]) -> Option<SizeName>
    ensures { MatchOption result ((size : SizeName) → name.now ≢ size_word size) (λ size. name.now ≡ size_word size) }
{
    if is_text(name, "ram") {
        Some(SizeName::Ram)
    } else if is_text(name, "pool") {
        Some(SizeName::Pool)
    } else if is_text(name, "rom") {
        Some(SizeName::Rom)
    } else if is_text(name, "ref") {
        Some(SizeName::Reference)
    } else if is_text(name, "box") {
        Some(SizeName::Mailbox)
    } else if is_text(name, "tcpip") {
        Some(SizeName::Tcpip)
    } else if is_text(name, "fds") {
        Some(SizeName::Descriptors)
    } else if is_text(name, "window") {
        Some(SizeName::Window)
    } else {
        None
    }
}

impl SizeName {
    // The least size of this name.
    fn least(self) -> u32
        ensures { result ≡ least_of self }
    {
        match self {
            SizeName::Window => 5_840,
            _ => 1,
        }
    }

    // The greatest size of this name.
    fn most(self) -> u32
        ensures { result ≡ most_of self }
    {
        match self {
            SizeName::Mailbox => 64,
            SizeName::Window => 1_048_576,
            _ => 1_024,
        }
    }
}

// The size that words name.
pub fn parse_size(words: Words) -> Option<(SizeName, u32)>
    ensures { MatchOption result ((name : SizeName) (size : ℕ) → IsWithin (least_of name) (most_of name) size → left words.entry ≢ size_words name size)
        (λ r. IsWithin (least_of r.0) (most_of r.0) r.1 × (left words.entry ≡ size_words r.0 r.1)) }
{
    let (word, words) = words.word()?;
    if !is_text(word, "size") {
        return None;
    }
    let (name, words) = words.word()?;
    let name = size_named(name)?;
    let (size, words) = words.number(name.least(), name.most())?;
    words.is_empty().then_some((name, size))
}

// Whether a word may be an actor's name.
fn is_name(word: &[u8]) -> bool
    ensures { IsTrue result ↔ ((1 ≤ length word.now) × (length word.now ≤ 16) × All (λ c. IsInRange 97 122 c ⊎ IsInRange 48 57 c) word.now) }
{
    !word.is_empty()
        && word.len() <= 16
        && word
            .iter()
            .all(|octet| matches!(octet, b'a'..=b'z' | b'0'..=b'9'))
}

// How an actor's calls reach the core.
fn way_named(word: &[u8]) -> Option<Way>
    ensures { MatchOption result ((way : Way) → word.now ≢ way_word way) (λ way. word.now ≡ way_word way) }
{
    if is_text(word, "direct") {
        Some(Way::Direct)
    } else if is_text(word, "message") {
        Some(Way::Message)
    } else {
        None
    }
}

// The name of an actor, and how its calls reach the core.
pub fn parse_actor(words: Words<'_>) -> Option<(&[u8], Way)>
    ensures { MatchOption result ((name : List ℕ) (way : Way) → IsName name → left words.entry ≢ actor_words name way)
        (λ r. IsName r.0.now × (left words.entry ≡ actor_words r.0.now r.1)) }
{
    let (word, words) = words.word()?;
    if !is_text(word, "actor") {
        return None;
    }
    let (name, words) = words.word()?;
    if !is_name(name) {
        return None;
    }
    let (way, words) = words.word()?;
    let way = way_named(way)?;
    words.is_empty().then_some((name, way))
}

// What becomes of a frame.
fn change_named(word: &[u8]) -> Option<Change>
    ensures { MatchOption result ((change : Change) → word.now ≢ change_word change) (λ change. word.now ≡ change_word change) }
{
    if is_text(word, "lose") {
        Some(Change::Lose)
    } else if is_text(word, "twice") {
        Some(Change::Twice)
    } else {
        None
    }
}

// The frame that isn't passed on once.
pub fn parse_fault(words: Words) -> Option<Fault>
    ensures { MatchOption result ((f : Fault) → IsCount f.frame → left words.entry ≢ fault_words f) (λ f. IsCount f.frame × (left words.entry ≡ fault_words f)) }
{
    let (word, words) = words.word()?;
    let change = change_named(word)?;
    let (side, words) = words.side()?;
    let (frame, words) = words.number(1, 1_000_000)?;
    words.is_empty().then_some(Fault {
        change,
        side,
        frame,
    })
}
