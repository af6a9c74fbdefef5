ghost use Rattle.std.specs.Prelude.{◌≡◌, MatchResult};
ghost use Rattle.lwip_run.specs.Reading.{IsRead, SeesOne};
ghost use Rattle.lwip_run.specs.Serial.{CaptureRefused, FileRefused, IsCapture, IsScript, ScriptRefused, refusal_of};

use crate::inputs::{InputFault, read_whole};
use crate::refusal::Refusal;
use lw_base::FrameList;
use lw_outside::Files;
use lw_pcap::{PcapFault, read_capture};
use lw_script::{Script, ScriptFault, read_script};
use std::alloc::Global;

/// The most octets of a script.
const SCRIPT_LIMIT: usize = 1_048_576;

/// The most octets of a capture.
const CAPTURE_LIMIT: usize = 16_777_216;

/// Finds and reads a script.
pub fn script_in<F: Files>(alloc: Global, files: &mut F, name: &str) -> Result<Script, Refusal>
    requires asked { F.asked name.now }
    ensures { SeesOne name.now (F.seen files.old) (F.seen files.new) (λ file. MatchResult result
        (λ script. IsScript script file) (λ refusal. ScriptRefused (F.seen files.old) (F.seen files.new) refusal file)) }
{
    let octets = file_in(alloc, files, name, SCRIPT_LIMIT)?;
    match read_script(alloc, &octets) {
        Ok(script) => Ok(script),
        Err(ScriptFault::Line(line)) => Err(Refusal::BadScript(line)),
        Err(ScriptFault::NoMemory) => Err(Refusal::NoMemory),
    }
}

/// Finds and reads a capture.
pub fn capture_in<F: Files>(alloc: Global, files: &mut F, name: &str) -> Result<FrameList, Refusal>
    requires asked { F.asked name.now }
    ensures { SeesOne name.now (F.seen files.old) (F.seen files.new) (λ file. MatchResult result
        (λ frames. IsCapture frames file) (λ refusal. CaptureRefused (F.seen files.old) (F.seen files.new) refusal file)) }
{
    let octets = file_in(alloc, files, name, CAPTURE_LIMIT)?;
    match read_capture(alloc, &octets) {
        Ok(capture) => Ok(capture.frames),
        Err(fault) => Err(refusal(fault)),
    }
}

/// What a fault of a capture is refused for.
fn refusal(fault: PcapFault) -> Refusal
    ensures { result ≡ refusal_of fault }
{
    match fault {
        PcapFault::NoMemory => Refusal::NoMemory,
        PcapFault::BadMagic
        | PcapFault::BadVersion
        | PcapFault::BadLink
        | PcapFault::Truncated { .. }
        | PcapFault::TooLong { .. } => Refusal::BadCapture(fault.offset()),
    }
}

/// Finds and reads a file of at most so many octets.
fn file_in<F: Files>(
    alloc: Global,
    files: &mut F,
    name: &str,
    limit: usize,
) -> Result<Vec<u8>, Refusal>
    requires asked { F.asked name.now }
    ensures { SeesOne name.now (F.seen files.old) (F.seen files.new) (λ file. MatchResult result
        (λ v. IsRead limit file × (v.items ≡ file.gave)) (λ refusal. FileRefused limit (F.seen files.old) (F.seen files.new) refusal file)) }
{
    match read_whole(alloc, files, name, limit) {
        Ok(octets) => Ok(octets),
        Err(InputFault::Read) => Err(Refusal::ReadFault),
        Err(InputFault::TooLong) => Err(Refusal::TooLong),
        Err(InputFault::NoMemory) => Err(Refusal::NoMemory),
    }
}
