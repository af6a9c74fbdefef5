//! What a line of a script says.
ghost use Rattle.std.specs.Prelude.{◌≡◌, ◌≢◌, ◌⊎◌, ℕ, IfOk, MatchOption};
ghost use Rattle.call_types.specs.declared.call.Call.{Call};
ghost use Rattle.script_words.specs.Calls.{IsCall, IsDriverCall, IsWireCall};
ghost use Rattle.script_words.specs.Spelling.{call_spelling};
ghost use Rattle.script_words.specs.Words.{left};
ghost use Rattle.lw_scripts.specs.Line.{IsOther, IsPart, LacksFixed, LacksNamed, NamedAs, part_spelling};
ghost use Rattle.lw_scripts.specs.Spelling.{size_words};
ghost use Rattle.lw_scripts.specs.declared.part.Part.{Part};
ghost use Rattle.lw_scripts.specs.declared.parts.SizeName.{SizeName};
ghost use Rattle.script_words.specs.declared.version.Version.{Version};

use crate::lines::{parse_actor, parse_fault, parse_head, parse_limits, parse_side, parse_size};
use crate::parts::{Fault, Profile, SizeName, Way};
use call_types::{Call, Side};
use lw_base::{Net, NoMemory, Octets, Series};
use script_words::{
    Version, Words, is_text, parse_call, parse_command, parse_net, parse_wire_command,
};
use std::alloc::Global;

/// What a line of a script says that is no comment.
#[derive(Drop)]
pub enum Part {
    /// The head line, with the version.
    Head(Version),
    /// Two stacks follow.
    Pair,
    /// A side's stack follows.
    Side(Side),
    Net(Net),
    Limits(Profile),
    Size(SizeName, u32),
    /// An actor's name, and how its calls reach the core.
    Actor(Octets, Way),
    /// A call of an actor, or a command of the driver or of the wire.
    Call(Call),
    /// The driver's commands follow.
    Driver,
    /// The wire's part follows.
    Wire,
    Fault(Fault),
}

// The call of whichever kind that a line spells.
fn parse_any_call(alloc: Global, version: Version, line: &[u8]) -> Result<Option<Call>, NoMemory>
    ensures { IfOk result (λ r. MatchOption r ((call : Call) → IsCall version call → line.now ≢ call_spelling call) (λ call. IsCall version call × (line.now ≡ call_spelling call))) }
{
    match parse_call(alloc, version, line)? {
        Some(call) => Ok(Some(call)),
        None => Ok(parse_plain_call(line)),
    }
}

// The command of the driver or of the wire that a line spells.
fn parse_plain_call(line: &[u8]) -> Option<Call>
    ensures { MatchOption result ((call : Call) → IsDriverCall call ⊎ IsWireCall call → line.now ≢ call_spelling call) (λ call. (IsDriverCall call ⊎ IsWireCall call) × (line.now ≡ call_spelling call)) }
{
    match parse_command(line) {
        Some(command) => Some(command),
        None => parse_wire_command(line),
    }
}

// A line that is one text.
fn parse_fixed(line: &[u8]) -> Option<Part>
    ensures { MatchOption result (LacksFixed line.now) (λ p. (line.now ≡ part_spelling p) × ((version : Version) → IsPart version p)) }
{
    if is_text(line, "pair") {
        Some(Part::Pair)
    } else if is_text(line, "driver") {
        Some(Part::Driver)
    } else if is_text(line, "wire") {
        Some(Part::Wire)
    } else if let Some(version) = parse_head(line) {
        Some(Part::Head(version))
    } else if let Some(profile) = parse_limits(line) {
        Some(Part::Limits(profile))
    } else {
        Some(Part::Side(parse_side(line)?))
    }
}

// A size, an actor or a frame on the wire.
fn parse_named(alloc: Global, version: Version, words: Words) -> Result<Option<Part>, NoMemory>
    ensures { IfOk result (λ r. MatchOption r (LacksNamed version (left words.entry)) (NamedAs version (left words.entry))) }
{
    if let Some((name, size)) = size_of(version, words) {
        return Ok(Some(Part::Size(name, size)));
    }
    if let Some((name, way)) = parse_actor(words) {
        let name = Series::from_vec(Vec::from_slice(alloc, name)?);
        return Ok(Some(Part::Actor(name, way)));
    }
    match parse_fault(words) {
        Some(fault) => Ok(Some(Part::Fault(fault))),
        None => Ok(None),
    }
}

// The size that words name in a script of this version.
fn size_of(version: Version, words: Words) -> Option<(SizeName, u32)>
    ensures { MatchOption result ((name : SizeName) (size : ℕ) → IsPart version (Part.Size name size) → left words.entry ≢ size_words name size)
        (λ r. IsPart version (Part.Size r.0 r.1) × (left words.entry ≡ size_words r.0 r.1)) }
{
    match version {
        Version::One => None,
        Version::Two => parse_size(words),
    }
}

// What a line says that is no call.
fn parse_other(alloc: Global, version: Version, line: &[u8]) -> Result<Option<Part>, NoMemory>
    ensures { IfOk result (λ r. MatchOption r ((p : Part) → IsOther version p → line.now ≢ part_spelling p) (λ p. IsPart version p × (line.now ≡ part_spelling p))) }
{
    match parse_fixed(line) {
        Some(part) => Ok(Some(part)),
        None => parse_worded(alloc, version, line),
    }
}

// What a line says that is no call and no single text.
fn parse_worded(alloc: Global, version: Version, line: &[u8]) -> Result<Option<Part>, NoMemory>
    ensures { LacksFixed line.now → IfOk result (λ r. MatchOption r ((p : Part) → IsOther version p → line.now ≢ part_spelling p) (λ p. IsPart version p × (line.now ≡ part_spelling p))) }
{
    match parse_net(line) {
        Some(net) => Ok(Some(Part::Net(net))),
        None => parse_named(alloc, version, Words::of(line)),
    }
}

/// What a line of a script of this version says, which is no comment.
pub fn parse_part(alloc: Global, version: Version, line: &[u8]) -> Result<Option<Part>, NoMemory>
    ensures { IfOk result (λ r. MatchOption r ((p : Part) → IsPart version p → line.now ≢ part_spelling p) (λ p. IsPart version p × (line.now ≡ part_spelling p))) }
{
    let call = parse_any_call(alloc, version, line)?;
    match call {
        Some(call) => Ok(Some(Part::Call(call))),
        None => parse_other(alloc, version, line),
    }
}
