//! The commands of the driver and of the wire.
ghost use Rattle.std.specs.Prelude.{◌≡◌, ◌≢◌, ℕ, ◌<◌, ◌≤◌, List, [], ◌∷◌, MatchOption, decimal};
ghost use Rattle.call_types.specs.declared.call.Call.{Call};
ghost use Rattle.call_types.specs.declared.call.Side.{Side};
ghost use Rattle.script_words.specs.Calls.{IsCount, IsDriverCall, IsWireCall};
ghost use Rattle.script_words.specs.Groups.{LacksFeed};
ghost use Rattle.script_words.specs.Spelling.{call_spelling, call_words};
ghost use Rattle.script_words.specs.Values.{side_word, signal_word};
ghost use Rattle.script_words.specs.Words.{left};

use crate::calls::{parse_await, parse_signal};
use crate::words::{Words, is_text};
use call_types::{Call, Side};

// A number that counts frames, ticks or rounds, with no word behind it.
fn parse_count(words: Words) -> Option<u32>
    ensures { MatchOption result ((n : ℕ) → IsCount n → left words.entry ≢ decimal n ∷ []) (λ n. IsCount n × (left words.entry ≡ decimal n ∷ [])) }
{
    let (count, words) = words.number(1, 1_000_000)?;
    words.is_empty().then_some(count)
}

// A command that feeds frames or makes ticks.
fn parse_feed(name: &[u8], words: Words) -> Option<Call>
    ensures { MatchOption result (LacksFeed (name.now ∷ left words.entry)) (λ call. IsDriverCall call × (name.now ∷ left words.entry ≡ call_words call)) }
{
    if is_text(name, "feed") {
        let (amount, words) = words.amount()?;
        words.is_empty().then_some(Call::Feed(amount))
    } else if is_text(name, "burst") {
        Some(Call::Burst(parse_count(words)?))
    } else if is_text(name, "tick") {
        Some(Call::Tick(parse_count(words)?))
    } else {
        None
    }
}

// The command of the driver that words spell.
fn parse_command_words(words: Words) -> Option<Call>
    ensures { MatchOption result ((call : Call) → IsDriverCall call → left words.entry ≢ call_words call) (λ call. IsDriverCall call × (left words.entry ≡ call_words call)) }
{
    let (name, words) = words.word()?;
    if let Some(call) = parse_feed(name, words) {
        return Some(call);
    }
    if let Some(signal) = parse_signal(name, words) {
        return Some(Call::Signal(signal));
    }
    let (signal, count) = parse_await(name, words)?;
    Some(Call::Await(signal, count))
}

/// The command of the driver that a line spells.
pub fn parse_command(line: &[u8]) -> Option<Call>
    ensures { MatchOption result ((call : Call) → IsDriverCall call → line.now ≢ call_spelling call) (λ call. IsDriverCall call × (line.now ≡ call_spelling call)) }
{
    parse_command_words(Words::of(line))
}

// A command that waits for a side's signal.
fn parse_side_signal(words: Words) -> Option<(Side, u32, u32)>
    ensures { MatchOption result ((side : Side) (s k : ℕ) → s < 16 → IsCount k → left words.entry ≢ side_word side ∷ signal_word s ∷ decimal k ∷ [])
        (λ r. (r.1 < 16) × IsCount r.2 × (left words.entry ≡ side_word r.0 ∷ signal_word r.1 ∷ decimal r.2 ∷ [])) }
{
    let (side, words) = words.side()?;
    let (signal, words) = words.signal()?;
    let count = parse_count(words)?;
    Some((side, signal, count))
}

// The command of the wire that words spell.
fn parse_wire_words(words: Words) -> Option<Call>
    ensures { MatchOption result ((call : Call) → IsWireCall call → left words.entry ≢ call_words call) (λ call. IsWireCall call × (left words.entry ≡ call_words call)) }
{
    let (name, words) = words.word()?;
    if is_text(name, "pump") {
        Some(Call::Pump(parse_count(words)?))
    } else if is_text(name, "await") {
        let (side, signal, count) = parse_side_signal(words)?;
        Some(Call::AwaitSide(side, signal, count))
    } else if is_text(name, "until") {
        let (side, signal, count) = parse_side_signal(words)?;
        Some(Call::Until(side, signal, count))
    } else {
        None
    }
}

/// The command of the wire that a line spells.
pub fn parse_wire_command(line: &[u8]) -> Option<Call>
    ensures { MatchOption result ((call : Call) → IsWireCall call → line.now ≢ call_spelling call) (λ call. IsWireCall call × (line.now ≡ call_spelling call)) }
{
    parse_wire_words(Words::of(line))
}
