//! The data that a call sends, and the tests of a `select`.
ghost use Rattle.std.specs.Prelude.{◌≡◌, ◌≢◌, ℕ, ◌<◌, ◌≤◌, List, [], ◌∷◌, ◌++◌, ◌↔◌, IsTrue, MatchOption, IfOk, codes, decimal, length, map};
ghost use Rattle.hex.specs.Hex.{IsBytes, decode_of, encode_lower};
ghost use Rattle.call_types.specs.declared.call.Data.{Data};
ghost use Rattle.call_types.specs.declared.call.SelectItem.{SelectItem};
ghost use Rattle.script_words.specs.Calls.{AreItems, IsData, variables_of};
ghost use Rattle.script_words.specs.Values.{data_words, item_word};
ghost use Rattle.script_words.specs.Words.{left};

use crate::Version;
use crate::numbers::{behind_letter, parse_numbered};
use crate::words::{Words, is_text};
use call_types::{Data, SelectItem, SelectList, Test};
use hex::FromHexError;
use lw_base::{NoMemory, Octets, Series};
use std::alloc::Global;

// The octets that digits spell, in whichever case.
fn decode(alloc: Global, digits: &[u8]) -> Result<Option<Vec<u8>>, NoMemory>
    ensures { IfOk result (λ r. MatchOption r ((octets : List ℕ) → decode_of digits.now ≢ Ok octets) (λ v. decode_of digits.now ≡ Ok v.items)) }
{
    match hex::decode(alloc, digits) {
        Ok(octets) => Ok(Some(octets)),
        Err(FromHexError::OutOfMemory) => Err(NoMemory),
        Err(_) => Ok(None),
    }
}

// The octets that digits were decoded to, where the digits are in lower case: those in upper case are
// decoded too, but aren't what the octets are spelled as.
fn keep_lower(alloc: Global, digits: &[u8], octets: Vec<u8>) -> Result<Option<Octets>, NoMemory>
    requires { decode_of digits.now ≡ Ok octets.items }
    ensures { IfOk result (λ r. MatchOption r ((octets : List ℕ) → IsBytes octets → digits.now ≢ encode_lower octets) (λ octets. IsBytes octets × (digits.now ≡ encode_lower octets))) }
{
    let spelled = hex::encode(alloc, octets.as_slice())?;
    if is_text(digits, spelled.as_str()) {
        Ok(Some(Series::from_vec(octets)))
    } else {
        Ok(None)
    }
}

// The octets that digits in lower case spell.
fn parse_octets(alloc: Global, digits: &[u8]) -> Result<Option<Octets>, NoMemory>
    ensures { IfOk result (λ r. MatchOption r ((octets : List ℕ) → IsBytes octets → digits.now ≢ encode_lower octets) (λ octets. IsBytes octets × (digits.now ≡ encode_lower octets))) }
{
    let found = decode(alloc, digits)?;
    match found {
        Some(octets) => keep_lower(alloc, digits, octets),
        None => Ok(None),
    }
}

// The digits of a word `x:HEX`.
fn digits_of(word: &[u8]) -> Option<&[u8]>
    ensures { MatchOption result ((digits : List ℕ) → word.now ≢ codes "x:" ++ digits) (λ digits. word.now ≡ codes "x:" ++ digits.now) }
{
    let rest = behind_letter(word, b'x')?;
    behind_letter(rest, b':')
}

// Whether these are the digits of 1 to 1,500 octets.
fn are_enough(digits: &[u8]) -> bool
    ensures { IsTrue result ↔ ((2 ≤ length digits.now) × (length digits.now ≤ 3000)) }
{
    2 <= digits.len() && digits.len() <= 3_000
}

// The data that so many digits spell.
fn parse_digits(alloc: Global, digits: &[u8]) -> Result<Option<Data>, NoMemory>
    requires { (2 ≤ length digits.now) × (length digits.now ≤ 3000) }
    ensures { IfOk result (λ r. MatchOption r ((octets : List ℕ) → IsData (Data.Spelled octets) → digits.now ≢ encode_lower octets) (λ d. IsData d × ((codes "x:" ++ digits.now) ∷ [] ≡ data_words d))) }
{
    let found = parse_octets(alloc, digits)?;
    match found {
        Some(octets) => Ok(Some(Data::Spelled(octets))),
        None => Ok(None),
    }
}

// The data of a word `x:HEX`.
fn parse_spelled(alloc: Global, word: &[u8]) -> Result<Option<Data>, NoMemory>
    ensures { IfOk result (λ r. MatchOption r ((octets : List ℕ) → IsData (Data.Spelled octets) → word.now ≢ codes "x:" ++ encode_lower octets) (λ d. IsData d × (word.now ∷ [] ≡ data_words d))) }
{
    let Some(digits) = digits_of(word) else {
        return Ok(None);
    };
    if !are_enough(digits) {
        return Ok(None);
    }
    parse_digits(alloc, digits)
}

impl<'a> Words<'a> {
    // A count and a first octet, behind the word `fill`.
    fn rule(self) -> Option<Data>
        ensures { MatchOption result ((count first : ℕ) → IsData (Data.Fill count first) → left self.entry ≢ decimal count ∷ decimal first ∷ []) (λ d. IsData d × (codes "fill" ∷ left self.entry ≡ data_words d)) }
    {
        let (count, words) = self.number(1, 65_536)?;
        let (first, words) = words.number(0, 255)?;
        words.is_empty().then_some(Data::Fill {
            count,
            first: first as u8,
        })
    }

    /// Data, with no word behind it.
    pub fn send_data(self, alloc: Global) -> Result<Option<Data>, NoMemory>
        ensures { IfOk result (λ r. MatchOption r ((d : Data) → IsData d → left self.entry ≢ data_words d) (λ d. IsData d × (left self.entry ≡ data_words d))) }
    {
        let Some((word, words)) = self.word() else {
            return Ok(None);
        };
        if is_text(word, "fill") {
            Ok(words.rule())
        } else if words.is_empty() {
            parse_spelled(alloc, word)
        } else {
            Ok(None)
        }
    }
}

// The test of a variable that a word spells.
fn parse_item(word: &[u8], version: Version) -> Option<SelectItem>
    ensures { MatchOption result ((item : SelectItem) → item.var < variables_of version → word.now ≢ item_word item) (λ item. (item.var < variables_of version) × (word.now ≡ item_word item)) }
{
    let last = version.last_variable();
    if let Some(var) = parse_numbered(word, b'r', last) {
        let test = Test::Readable;
        return Some(SelectItem { test, var });
    }
    if let Some(var) = parse_numbered(word, b'w', last) {
        let test = Test::Writable;
        return Some(SelectItem { test, var });
    }
    let var = parse_numbered(word, b'e', last)?;
    let test = Test::Except;
    Some(SelectItem { test, var })
}

impl<'a> Words<'a> {
    /// The tests of a `select`, with no word behind them.
    pub fn items(self, alloc: Global, version: Version) -> Result<Option<SelectList>, NoMemory>
        ensures { IfOk result (λ r. MatchOption r ((items : List SelectItem) → AreItems version items → left self.entry ≢ map item_word items) (λ items. AreItems version items × (left self.entry ≡ map item_word items))) }
    {
        let mut items = Vec::new(alloc);
        let mut rest = self;
        while let Some((word, behind)) = rest.word() {
            let Some(item) = parse_item(word, version) else {
                return Ok(None);
            };
            if items.len() == version.select_items() {
                return Ok(None);
            }
            items.push(item)?;
            rest = behind;
        }
        if items.is_empty() {
            return Ok(None);
        }
        Ok(Some(Series::from_vec(items)))
    }
}
