//! The reader of whole scripts.
ghost use Rattle.std.specs.Prelude.{◌≡◌, ◌⊎◌, ℕ, ◌<◌, [], ◌∷◌, length, MatchResult, MatchOption, IfOk, Err, Some, None};
ghost use Rattle.script_words.specs.Words.{pieces};
ghost use Rattle.lw_scripts.specs.declared.parts.Script.{Script};
ghost use Rattle.lw_scripts.specs.declared.reader.ScriptFault.TheVariants.{Line, NoMemory as OutOfMemory};
ghost use Rattle.lw_scripts.specs.Grammar.{FailsAt, IsFault, SpellsScript, is_comment};
ghost use Rattle.lw_scripts.specs.Reading.{script_of, version_of};
ghost use Rattle.lw_scripts.specs.Told.{Answers, GoesOn, StopsAt};

use crate::part::parse_part;
use crate::parts::Script;
use crate::place::Place;
use crate::wanted::Wanted;
use lw_base::NoMemory;
use script_words::cut;
use std::alloc::Global;
use thiserror::Error;

/// Why octets are no script.
#[derive(Debug, Drop, Error)]
pub enum ScriptFault {
    /// The first line with which the lines so far begin no script, counted from 1.
    #[error("script line {0}")]
    Line(usize),
    #[error("no memory")]
    NoMemory,
}

// Whether a line is a comment.
fn begins_comment(line: &[u8]) -> bool
    ensures { result ≡ is_comment line.now }
{
    !line.is_empty() && line[0] == b'#'
}

// What was read with one more line that is no comment.
fn behind(
    place: Place,
    alloc: Global,
    wanted: Wanted,
    line: &[u8],
) -> Result<Option<Place>, NoMemory>
    ensures { IfOk result (Answers wanted place line.now) }
{
    match parse_part(alloc, place.version(), line)? {
        Some(part) => place.accept(alloc, wanted, part),
        None => Ok(None),
    }
}

// What was read with one more line.
fn after(
    place: Place,
    alloc: Global,
    wanted: Wanted,
    line: &[u8],
) -> Result<Option<Place>, NoMemory>
    ensures { IfOk result (GoesOn wanted place line.now) }
{
    if !begins_comment(line) {
        behind(place, alloc, wanted, line)
    } else if line.is_ascii() {
        Ok(Some(place))
    } else {
        Ok(None)
    }
}

// What was read with the line of this number.
fn step(
    place: Place,
    alloc: Global,
    wanted: Wanted,
    line: &[u8],
    number: usize,
) -> Result<Place, ScriptFault>
    ensures { MatchResult result (λ next. GoesOn wanted place line.now (Some next)) (StopsAt wanted place line.now number) }
{
    match after(place, alloc, wanted, line) {
        Ok(next) => next.ok_or(ScriptFault::Line(number)),
        Err(_) => Err(ScriptFault::NoMemory),
    }
}

// The script that octets are.
fn read(alloc: Global, wanted: Wanted, bytes: &[u8]) -> Result<Script, ScriptFault>
    ensures { MatchResult result (SpellsScript wanted bytes.now) (IsFault wanted bytes.now) }
{
    let mut place = Place::Begin;
    let mut number = 1;
    let mut rest = bytes;
    while let Some((line, behind)) = cut(rest, b'\n') {
        match step(place, alloc, wanted, line, number) {
            Ok(next) => place = next,
            Err(fault) => return Err(fault),
        }
        number += 1;
        rest = behind;
    }
    if !rest.is_empty() {
        return Err(ScriptFault::Line(number));
    }
    place.script().ok_or(ScriptFault::Line(number))
}

/// Reads a script of a kind that is wanted: the head line, then one stack and what its driver does, or two
/// stacks and the wire between them, with comments anywhere.
pub fn read_script(alloc: Global, wanted: Wanted, bytes: &[u8]) -> Result<Script, ScriptFault>
    ensures found { IfOk result (SpellsScript wanted bytes.now) }
    ensures only { (s : Script) → SpellsScript wanted bytes.now s → (result ≡ Ok s) ⊎ (result ≡ Err OutOfMemory) }
    ensures line { (n : ℕ) → result ≡ Err (Line n) → FailsAt wanted bytes.now n }
    ensures first { (n : ℕ) → FailsAt wanted bytes.now n → (result ≡ Err (Line n)) ⊎ (result ≡ Err OutOfMemory) }
{
    read(alloc, wanted, bytes)
}
