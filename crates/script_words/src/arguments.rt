//! The words that stand behind a call's name.
ghost use Rattle.std.specs.Prelude.{◌≡◌, ◌≢◌, ℕ, ◌<◌, ◌≤◌, ◌^◌, ◌↔◌, Bool, List, [], ◌∷◌, MatchOption, IfOk, IsTrue, Option, decimal};
ghost use Rattle.hex.specs.Hex.{IsBytes, encode_lower};
ghost use Rattle.lw_base.specs.declared.addresses.Ip.{Ip};
ghost use Rattle.lw_base.specs.declared.addresses.Port.{Port};
ghost use Rattle.lw_events.specs.declared.event.Proto.{Proto};
ghost use Rattle.call_types.specs.declared.call.Data.{Data};
ghost use Rattle.call_types.specs.declared.call.Side.{Side};
ghost use Rattle.script_words.specs.Calls.{IsAmount, IsData, IsLimit, variables_of};
ghost use Rattle.script_words.specs.Values.{amount_word, bool_word, data_words, ip_spelling, limit_word, proto_word, side_word, signal_word, var_word};
ghost use Rattle.script_words.specs.Words.{left};

use crate::Version;
use crate::addresses::parse_ip;
use crate::numbers::{parse_numbered, parse_within};
use crate::words::{Words, is_text};
use call_types::{Data, Side};
use lw_base::{Ip, Port};
use lw_events::Proto;

impl<'a> Words<'a> {
    /// A number of this range, and the words behind it.
    pub fn number(self, low: u32, high: u32) -> Option<(u32, Words<'a>)>
        ensures { MatchOption result ((n : ℕ) (rest : List (List ℕ)) → low ≤ n → n ≤ high → left self.entry ≢ decimal n ∷ rest) (λ r. (low ≤ r.0) × (r.0 ≤ high) × (left self.entry ≡ decimal r.0 ∷ left r.1)) }
    {
        let (word, rest) = self.word()?;
        let number = parse_within(word, low, high)?;
        Some((number, rest))
    }

    /// A variable, and the words behind it.
    pub fn var(self, version: Version) -> Option<(u32, Words<'a>)>
        ensures { MatchOption result ((n : ℕ) (rest : List (List ℕ)) → n < variables_of version → left self.entry ≢ var_word n ∷ rest) (λ r. (r.0 < variables_of version) × (left self.entry ≡ var_word r.0 ∷ left r.1)) }
    {
        let (word, rest) = self.word()?;
        let number = parse_numbered(word, b'v', version.last_variable())?;
        Some((number, rest))
    }

    /// A signal, and the words behind it.
    pub fn signal(self) -> Option<(u32, Words<'a>)>
        ensures { MatchOption result ((n : ℕ) (rest : List (List ℕ)) → n < 16 → left self.entry ≢ signal_word n ∷ rest) (λ r. (r.0 < 16) × (left self.entry ≡ signal_word r.0 ∷ left r.1)) }
    {
        let (word, rest) = self.word()?;
        let number = parse_numbered(word, b's', 15)?;
        Some((number, rest))
    }

    /// An address, and the words behind it.
    pub fn ip(self) -> Option<(Ip, Words<'a>)>
        ensures { MatchOption result ((ip : Ip) (rest : List (List ℕ)) → ip.0 < 2 ^ 32 → left self.entry ≢ ip_spelling ip ∷ rest) (λ r. (r.0.0 < 2 ^ 32) × (left self.entry ≡ ip_spelling r.0 ∷ left r.1)) }
    {
        let (word, rest) = self.word()?;
        let ip = parse_ip(word)?;
        Some((ip, rest))
    }

    /// A port, and the words behind it.
    pub fn port(self) -> Option<(Port, Words<'a>)>
        ensures { MatchOption result ((port : Port) (rest : List (List ℕ)) → port.0 < 2 ^ 16 → left self.entry ≢ decimal port.0 ∷ rest) (λ r. (r.0.0 < 2 ^ 16) × (left self.entry ≡ decimal r.0.0 ∷ left r.1)) }
    {
        let (number, rest) = self.number(0, 65_535)?;
        Some((Port(number as u16), rest))
    }

    /// A transport, and the words behind it.
    pub fn proto(self) -> Option<(Proto, Words<'a>)>
        ensures { MatchOption result ((proto : Proto) (rest : List (List ℕ)) → left self.entry ≢ proto_word proto ∷ rest) (λ r. left self.entry ≡ proto_word r.0 ∷ left r.1) }
    {
        let (word, rest) = self.word()?;
        if is_text(word, "tcp") {
            Some((Proto::Tcp, rest))
        } else if is_text(word, "udp") {
            Some((Proto::Udp, rest))
        } else {
            None
        }
    }

    /// Whether a setting is on, and the words behind it.
    pub fn setting(self) -> Option<(bool, Words<'a>)>
        ensures { MatchOption result ((on : Bool) (rest : List (List ℕ)) → left self.entry ≢ bool_word on ∷ rest) (λ r. left self.entry ≡ bool_word r.0 ∷ left r.1) }
    {
        let (word, rest) = self.word()?;
        if is_text(word, "0") {
            Some((false, rest))
        } else if is_text(word, "1") {
            Some((true, rest))
        } else {
            None
        }
    }

    /// A side of the wire, and the words behind it.
    pub fn side(self) -> Option<(Side, Words<'a>)>
        ensures { MatchOption result ((side : Side) (rest : List (List ℕ)) → left self.entry ≢ side_word side ∷ rest) (λ r. left self.entry ≡ side_word r.0 ∷ left r.1) }
    {
        let (word, rest) = self.word()?;
        if is_text(word, "a") {
            Some((Side::A, rest))
        } else if is_text(word, "b") {
            Some((Side::B, rest))
        } else {
            None
        }
    }

    /// A limit in ticks, or `inf`, and the words behind it.
    pub fn limit(self) -> Option<(Option<u32>, Words<'a>)>
        ensures { MatchOption result ((limit : Option ℕ) (rest : List (List ℕ)) → IsLimit limit → left self.entry ≢ limit_word limit ∷ rest) (λ r. IsLimit r.0 × (left self.entry ≡ limit_word r.0 ∷ left r.1)) }
    {
        let (word, rest) = self.word()?;
        if is_text(word, "inf") {
            return Some((None, rest));
        }
        let ticks = parse_within(word, 0, 1_000_000)?;
        Some((Some(ticks), rest))
    }

    /// A number of frames, or `all`, and the words behind it.
    pub fn amount(self) -> Option<(Option<u32>, Words<'a>)>
        ensures { MatchOption result ((amount : Option ℕ) (rest : List (List ℕ)) → IsAmount amount → left self.entry ≢ amount_word amount ∷ rest) (λ r. IsAmount r.0 × (left self.entry ≡ amount_word r.0 ∷ left r.1)) }
    {
        let (word, rest) = self.word()?;
        if is_text(word, "all") {
            return Some((None, rest));
        }
        let frames = parse_within(word, 1, 1_000_000)?;
        Some((Some(frames), rest))
    }
}
