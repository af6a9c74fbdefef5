//! The fields of a line, as they are printed.
ghost use Rattle.std.specs.Prelude.{◌≡◌, ◌++◌, [], ◌∷◌, codes, decimal};
ghost use Rattle.std.specs.List.{flat_map};
ghost use Rattle.lw_base.specs.EventWord.{is_set};
ghost use Rattle.lw_transcript.specs.Page.{Prints};
ghost use Rattle.lw_transcript.specs.Fields.{behind_text, field_text, flag_letters, ip_text, letter_of, line, or_dash, where_set, Word as WordText};
ghost use Rattle.lw_transcript.specs.Printed.{field_of, fields_of, is_nothing};

use crate::page::Page;
use lw_base::{Flag, Ip, Word};
use lw_outside::Sink;

/// A field of a line.
#[derive(Drop)]
pub enum Field<'a> {
    Word(&'static str),
    Number(u32),
    /// A number behind letters.
    Name(&'static str, u32),
    /// The number of octets, behind so many.
    Place(u32, &'a [u8]),
    Address(Ip),
    Hex(&'a [u8]),
    Flags(u8),
    Share(u32, u32),
}

/// Prints a line of a word and these fields.
pub fn whole_line<K: Sink>(page: &mut Page, sink: &mut K, word: &str, fields: &[Field])
    ensures { Prints (K.seen sink.old) (K.seen sink.new) page.old page.new (line (WordText word.now ∷ fields_of fields.now)) }
{
    page.text(sink, word);
    behind(page, sink, fields);
    page.text(sink, "\n");
}

/// Prints these fields behind others.
pub fn behind<K: Sink>(page: &mut Page, sink: &mut K, fields: &[Field])
    ensures { Prints (K.seen sink.old) (K.seen sink.new) page.old page.new (flat_map behind_text (fields_of fields.now)) }
{
    for one in fields {
        page.text(sink, " ");
        print_field(page, sink, one);
    }
}

fn print_field<K: Sink>(page: &mut Page, sink: &mut K, field: &Field)
    ensures { Prints (K.seen sink.old) (K.seen sink.new) page.old page.new (field_text (field_of field.now)) }
{
    match field {
        Field::Word(word) => page.text(sink, word),
        Field::Number(n) => page.number(sink, *n as u64),
        Field::Name(letters, n) => name(page, sink, letters, *n),
        Field::Place(from, octets) => page.number(sink, *from as u64 + octets.len() as u64),
        Field::Address(ip) => address(page, sink, *ip),
        Field::Hex(octets) => page.hex(sink, octets),
        Field::Flags(bits) => flags(page, sink, *bits),
        Field::Share(free, all) => share(page, sink, *free, *all),
    }
}

fn name<K: Sink>(page: &mut Page, sink: &mut K, letters: &str, n: u32)
    ensures { Prints (K.seen sink.old) (K.seen sink.new) page.old page.new (letters.now ++ decimal n) }
{
    page.text(sink, letters);
    page.number(sink, n as u64);
}

fn share<K: Sink>(page: &mut Page, sink: &mut K, free: u32, all: u32)
    ensures { Prints (K.seen sink.old) (K.seen sink.new) page.old page.new (decimal free ++ codes "/" ++ decimal all) }
{
    page.number(sink, free as u64);
    page.text(sink, "/");
    page.number(sink, all as u64);
}

fn address<K: Sink>(page: &mut Page, sink: &mut K, ip: Ip)
    ensures { Prints (K.seen sink.old) (K.seen sink.new) page.old page.new (ip_text ip) }
{
    let number = ip.0 as u64;
    page.number(sink, number / (1 << 24));
    page.text(sink, ".");
    page.number(sink, number / (1 << 16) % 256);
    page.text(sink, ".");
    page.number(sink, number / (1 << 8) % 256);
    page.text(sink, ".");
    page.number(sink, number % 256);
}

fn flags<K: Sink>(page: &mut Page, sink: &mut K, bits: u8)
    ensures { Prints (K.seen sink.old) (K.seen sink.new) page.old page.new (or_dash (flag_letters bits)) }
{
    let word = Word {
        posted: 0,
        claimed: 0,
        flags: bits,
    };
    if has_none(word) {
        page.text(sink, "-");
    } else {
        letters(page, sink, word);
    }
}

/// Whether no flag stands.
fn has_none(word: Word) -> bool
    ensures { result ≡ is_nothing (flag_letters word.flags) }
{
    let low = word.has(Flag::Writable) | word.has(Flag::Rest) | word.has(Flag::Ended);
    let high = word.has(Flag::Closed) | word.has(Flag::Listen) | word.has(Flag::Idle);
    !(low | word.has(Flag::Fault) | high)
}

fn letters<K: Sink>(page: &mut Page, sink: &mut K, word: Word)
    ensures { Prints (K.seen sink.old) (K.seen sink.new) page.old page.new (flag_letters word.flags) }
{
    letter(page, sink, word, Flag::Writable);
    letter(page, sink, word, Flag::Rest);
    letter(page, sink, word, Flag::Ended);
    letter(page, sink, word, Flag::Fault);
    letter(page, sink, word, Flag::Closed);
    letter(page, sink, word, Flag::Listen);
    letter(page, sink, word, Flag::Idle);
}

/// Prints the letter of a flag that stands.
fn letter<K: Sink>(page: &mut Page, sink: &mut K, word: Word, flag: Flag)
    ensures { Prints (K.seen sink.old) (K.seen sink.new) page.old page.new (where_set (is_set flag word.flags) (letter_of flag)) }
{
    if word.has(flag) {
        page.text(sink, flag_letter(flag));
    }
}

fn flag_letter(flag: Flag) -> &'static str
    ensures { result.now ≡ letter_of flag ∷ [] }
{
    match flag {
        Flag::Writable => "W",
        Flag::Rest => "R",
        Flag::Ended => "E",
        Flag::Fault => "F",
        Flag::Closed => "C",
        Flag::Listen => "L",
        Flag::Idle => "I",
    }
}
