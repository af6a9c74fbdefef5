ghost use Rattle.std.specs.Prelude.{◌≡◌, ◌≢◌, ℕ, ◌<◌, ◌≤◌, ◌^◌, ◌↔◌, List, ◌∷◌, MatchOption, IsTrue, decimal, length, slice_index};
ghost use Rattle.std.specs.Str.{IsUtf8};

use std::str;

// Whether a word may be a number: it isn't empty, and has no sign and no leading zero.
fn may_be_number(word: &[u8]) -> bool
    ensures { IsTrue result ↔ ((0 < length word.now) × (slice_index word.now 0 ≢ 43) × (slice_index word.now 0 ≡ 48 → length word.now ≡ 1)) }
{
    !word.is_empty() && word[0] != b'+' && (word[0] != b'0' || word.len() == 1)
}

// A word as text.
fn as_text(word: &[u8]) -> Option<&str>
    ensures { MatchOption result (IsUtf8 word.now → ⊥) (λ text. text.now ≡ word.now) }
{
    match str::from_utf8(word) {
        Ok(text) => Some(text),
        Err(_) => None,
    }
}

/// The number that a word spells in decimal, without leading zeros.
pub fn parse_number(word: &[u8]) -> Option<u32>
    ensures { MatchOption result ((n : ℕ) → n < 2 ^ 32 → word.now ≢ decimal n) (λ n. (n < 2 ^ 32) × (word.now ≡ decimal n)) }
{
    if !may_be_number(word) {
        return None;
    }
    let text = as_text(word)?;
    match text.parse::<u32>() {
        Ok(number) => Some(number),
        Err(_) => None,
    }
}

// Whether a number is of this range.
fn is_within(number: u32, low: u32, high: u32) -> bool
    ensures { IsTrue result ↔ ((low ≤ number) × (number ≤ high)) }
{
    low <= number && number <= high
}

/// The number from `low` to `high` that a word spells in decimal.
pub fn parse_within(word: &[u8], low: u32, high: u32) -> Option<u32>
    ensures { MatchOption result ((n : ℕ) → low ≤ n → n ≤ high → word.now ≢ decimal n) (λ n. (low ≤ n) × (n ≤ high) × (word.now ≡ decimal n)) }
{
    let number = parse_number(word)?;
    is_within(number, low, high).then_some(number)
}

/// What stands behind a letter.
pub fn behind_letter(word: &[u8], letter: u8) -> Option<&[u8]>
    ensures { MatchOption result ((rest : List ℕ) → word.now ≢ letter ∷ rest) (λ rest. word.now ≡ letter ∷ rest.now) }
{
    let (first, rest) = word.split_first()?;
    if *first == letter { Some(rest) } else { None }
}

/// The number up to `last` that stands behind a letter.
pub fn parse_numbered(word: &[u8], letter: u8, last: u32) -> Option<u32>
    ensures { MatchOption result ((n : ℕ) → n ≤ last → word.now ≢ letter ∷ decimal n) (λ n. (n ≤ last) × (word.now ≡ letter ∷ decimal n)) }
{
    let digits = behind_letter(word, letter)?;
    parse_within(digits, 0, last)
}
