ghost use Rattle.std.specs.Prelude.{◌≡◌, ◌⊎◌, ℕ, ◌<◌, [], ◌∷◌, length, MatchResult, MatchOption, IfOk, Err};
ghost use Rattle.lw_script.specs.declared.parts.Call.TheVariants.{FeedAll};
ghost use Rattle.lw_script.specs.declared.parts.Script.{Script};
ghost use Rattle.lw_script.specs.declared.reader.ScriptFault.TheVariants.{Line, NoMemory as OutOfMemory};
ghost use Rattle.lw_script.specs.Grammar.{FailsAt, SpellsScript};
ghost use Rattle.lw_script.specs.Faults.{IsFault};
ghost use Rattle.lw_script.specs.Reading.{CanFollow, Follows, GoesOn, told};

use crate::lines::{begins_comment, cut, is_text, parse_limits, parse_net};
use crate::parts::{Call, Profile, Script};
use lw_base::{Net, Series};
use std::alloc::Global;
use thiserror::Error;

/// Why octets are no script.
#[derive(Debug, Drop, Error)]
pub enum ScriptFault {
    /// The first line with which the lines so far begin no script, counted from 1.
    #[error("script line {0}")]
    Line(usize),
    #[error("no memory")]
    NoMemory,
}

// The line that a script has next, comments apart, with what the lines before it told.
#[derive(Clone, Copy)]
pub enum Expected {
    Head,
    Addresses,
    Sizes(Net),
    Nothing(Net, Profile),
}

impl Expected {
    // What the lines told, where nothing more is expected.
    fn whole(self) -> Option<(Net, Profile)>
        ensures { MatchOption result (length (told self) < 3) (λ r. self ≡ Expected.Nothing r.0 r.1) }
    {
        match self {
            Expected::Nothing(net, profile) => Some((net, profile)),
            Expected::Head | Expected::Addresses | Expected::Sizes(_) => None,
        }
    }

    // What a script has behind a line that is no comment.
    fn behind(self, line: &[u8]) -> Option<Expected>
        ensures { MatchOption result (CanFollow self line.now → ⊥) (Follows self line.now) }
    {
        match self {
            Expected::Head if is_text(line, "lwip 1") => Some(Expected::Addresses),
            Expected::Addresses => Some(Expected::Sizes(parse_net(line)?)),
            Expected::Sizes(net) => Some(Expected::Nothing(net, parse_limits(line)?)),
            _ => None,
        }
    }

    // What a script has behind a line.
    fn after(self, line: &[u8]) -> Option<Expected>
        ensures { GoesOn self line.now result }
    {
        if !begins_comment(line) {
            self.behind(line)
        } else if line.is_ascii() {
            Some(self)
        } else {
            None
        }
    }
}

// The addresses and the profile of a script, or the line at which the octets stop being one.
fn scan(bytes: &[u8]) -> Result<(Net, Profile), usize>
    ensures { MatchResult result (λ r. SpellsScript bytes.now (record { net = r.0; profile = r.1; commands = FeedAll ∷ [] })) (FailsAt bytes.now) }
{
    let mut expected = Expected::Head;
    let mut number = 1;
    let mut rest = bytes;
    while let Some((line, behind)) = cut(rest, b'\n') {
        match expected.after(line) {
            Some(next) => expected = next,
            None => return Err(number),
        }
        number += 1;
        rest = behind;
    }
    if !rest.is_empty() {
        return Err(number);
    }
    expected.whole().ok_or(number)
}

fn read(alloc: Global, bytes: &[u8]) -> Result<Script, ScriptFault>
    ensures { MatchResult result (SpellsScript bytes.now) (IsFault bytes.now) }
{
    let (net, profile) = match scan(bytes) {
        Ok(told) => told,
        Err(number) => return Err(ScriptFault::Line(number)),
    };
    let mut commands = Vec::new(alloc);
    commands
        .push(Call::FeedAll)
        .map_err(|_| ScriptFault::NoMemory)?;
    Ok(Script {
        net,
        profile,
        commands: Series::from_vec(commands),
    })
}

/// Reads a script: the line `lwip 1`, then `net IP MASK GATEWAY MAC`, then `limits` and a profile's
/// word, with comments anywhere.
pub fn read_script(alloc: Global, bytes: &[u8]) -> Result<Script, ScriptFault>
    ensures found { IfOk result (SpellsScript bytes.now) }
    ensures only { (s : Script) → SpellsScript bytes.now s → (result ≡ Ok s) ⊎ (result ≡ Err OutOfMemory) }
    ensures line { (n : ℕ) → result ≡ Err (Line n) → FailsAt bytes.now n }
    ensures first { (n : ℕ) → FailsAt bytes.now n → (result ≡ Err (Line n)) ⊎ (result ≡ Err OutOfMemory) }
{
    read(alloc, bytes)
}
