ghost use Rattle.std.specs.Prelude.{◌≡◌, ◌≢◌, ◌↔◌, ◌⊎◌, ◌++◌, ℕ, List, [], ◌∷◌, map, string_bytes, MatchOption, MatchResult, codes, decimal};
ghost use Rattle.lw_outside.specs.Faults.{Rose};
ghost use Rattle.lw_outside.specs.Sinks.{Adds};
ghost use Rattle.lwip_run.specs.Answers.{Ending, IsNoForm, IsStatus, Says, code_of, said_of, serial_words, text_of, text_of_status};
ghost use Rattle.lwip_run.specs.Reading.{IsLonger, IsLost, SeesOne};
ghost use Rattle.lwip_run.specs.Plain.{NeverRefuses};
ghost use Rattle.lwip_run.specs.Serial.{CaptureFailsAt, IsCapture, IsSerialText, ScriptFails, SeesBoth, SerialRefused, capture_limit, script_limit};
ghost use Rattle.lwip_run.specs.Comes.{Comes, HoldsCapture, HoldsNoScript, HoldsScript, OfCapture, OfScript, SerialComes, WrotePart, outside};

use crate::files_in::{capture_in, script_in};
use crate::refusal::Refusal;
use crate::texts::write_serial;
use lw_base::FrameList;
use lw_outside::{Files, Sink};
use lw_payload::Payload;
use lw_script::Script;
use lw_transcript::WriteFault;
use std::alloc::Global;

/// Does what the words say, which are those behind the program's name: `serial SCRIPT CAPTURE` reads
/// two files and writes a transcript to `out`. Answers the status with which the program ends, and
/// writes its text, if it has one, to `err`. The stack that runs is over payloads of this Home, which makes
/// each that it is asked for.
pub fn lwip_plain<P: Payload<Home: Drop>, F: Files, K: Sink>(
    alloc: Global,
    home: P::Home,
    words: &[String],
    files: &mut F,
    out: &mut K,
    err: &mut K,
) -> u8
    requires never { NeverRefuses P.home_seen P.may_refuse }
    requires asked { (script capture : List ℕ) → map string_bytes words.now ≡ serial_words script capture → F.asked script × F.asked capture }

    // each ending with its cause, and what was said of it
    ensures comes { (ending : Ending) × (result ≡ code_of ending)
        × Comes (map string_bytes words.now) (outside (F.seen files.old) (K.seen out.old)) (outside (F.seen files.new) (K.seen out.new)) ending
        × Says (K.seen err.old) (K.seen err.new) (said_of ending) }

    // 0: the transcript of the serial schedule was written, and it is legal
    ensures done { (script capture : List ℕ) → map string_bytes words.now ≡ serial_words script capture → result ≡ 0
        → (text : List ℕ) × IsSerialText script capture (F.seen files.old) (F.seen files.new) text
        × Adds (K.seen out.old) (K.seen out.new) text }

    // the other statuses, each with its cause
    ensures usage { (result ≡ 2) ↔ IsNoForm (map string_bytes words.now) }
    ensures script_line { (script capture : List ℕ) → map string_bytes words.now ≡ serial_words script capture → result ≡ 3
        → (line : ℕ) × SeesOne script (F.seen files.old) (F.seen files.new) (ScriptFails line)
        × Says (K.seen err.old) (K.seen err.new) (text_of (Refusal.BadScript line)) }
    ensures capture_at { (script capture : List ℕ) → map string_bytes words.now ≡ serial_words script capture → result ≡ 4
        → (at : ℕ) × OfCapture script capture (outside (F.seen files.old) (K.seen out.old)) (outside (F.seen files.new) (K.seen out.new)) (CaptureFailsAt at)
        × Says (K.seen err.old) (K.seen err.new) (text_of (Refusal.BadCapture at)) }
    ensures read_fault { result ≡ 5 → Rose (F.seen files.old).faults (F.seen files.new).faults }
    ensures write_fault { (script capture : List ℕ) → map string_bytes words.now ≡ serial_words script capture → result ≡ 6
        → WrotePart script capture (outside (F.seen files.old) (K.seen out.old)) (outside (F.seen files.new) (K.seen out.new)) }
    ensures too_long { (script capture : List ℕ) → map string_bytes words.now ≡ serial_words script capture → result ≡ 7
        → OfScript script (outside (F.seen files.old) (K.seen out.old)) (outside (F.seen files.new) (K.seen out.new)) (IsLonger script_limit)
        ⊎ OfCapture script capture (outside (F.seen files.old) (K.seen out.old)) (outside (F.seen files.new) (K.seen out.new)) (IsLonger capture_limit) }
    ensures known { IsStatus result }

    // what is not written, and what is said
    ensures quiet { result ≢ 0 → result ≢ 6 → K.seen out.new ≡ K.seen out.old }
    ensures said { result ≢ 3 → result ≢ 4 → Says (K.seen err.old) (K.seen err.new) (text_of_status result) }

    // files that can be taken, and no fault: done, but for want of memory
    ensures complete { (script capture : List ℕ) → map string_bytes words.now ≡ serial_words script capture
        → HoldsScript ((F.seen files.old).holds script) → HoldsCapture ((F.seen files.old).holds capture)
        → (Rose (F.seen files.old).faults (F.seen files.new).faults → ⊥) → (Rose (K.seen out.old).faults (K.seen out.new).faults → ⊥)
        → (result ≡ 0) ⊎ (result ≡ 8) }

    // a script that is none: its line, also where there is no capture, but for want of memory and where the script wasn't read
    ensures script_first { (script capture : List ℕ) → map string_bytes words.now ≡ serial_words script capture
        → HoldsNoScript ((F.seen files.old).holds script)
        → (result ≡ 3) ⊎ ((result ≡ 8) ⊎ SeesOne script (F.seen files.old) (F.seen files.new) (IsLost (F.seen files.old) (F.seen files.new))) }
{
    let done = plain::<P, F, K>(alloc, home, words, files, out);
    answer(err, done)
}

/// Does what the words say.
fn plain<P: Payload<Home: Drop>, F: Files, K: Sink>(
    alloc: Global,
    home: P::Home,
    words: &[String],
    files: &mut F,
    out: &mut K,
) -> Result<(), Refusal>
    requires never { NeverRefuses P.home_seen P.may_refuse }
    requires asked { (script capture : List ℕ) → map string_bytes words.now ≡ serial_words script capture → F.asked script × F.asked capture }
    ensures { Comes (map string_bytes words.now) (outside (F.seen files.old) (K.seen out.old)) (outside (F.seen files.new) (K.seen out.new)) result }
{
    match form(words) {
        Some((script, capture)) => serial_form::<P, F, K>(alloc, home, files, out, script, capture),
        None => Err(Refusal::Usage),
    }
}

/// The status, and its text on `err`.
fn answer<K: Sink>(err: &mut K, done: Result<(), Refusal>) -> u8
    ensures code { result ≡ code_of done }
    ensures said { Says (K.seen err.old) (K.seen err.new) (said_of done) }
{
    match done {
        Ok(()) => 0,
        Err(refusal) => {
            refusal.say(err);
            refusal.status()
        }
    }
}

/// What the words say, where they are `serial SCRIPT CAPTURE`: the two names.
fn form(words: &[String]) -> Option<(&str, &str)>
    ensures { MatchOption result (IsNoForm (map string_bytes words.now)) (λ r. map string_bytes words.now ≡ serial_words r.0.now r.1.now) }
{
    let [form, script, capture] = words else {
        return None;
    };
    if form.as_str() != "serial" {
        return None;
    }
    Some((script.as_str(), capture.as_str()))
}

/// What the two files say: the script, then the frames of the capture.
fn serial_files<F: Files>(
    alloc: Global,
    files: &mut F,
    script: &str,
    capture: &str,
) -> Result<(Script, FrameList), Refusal>
    requires script { F.asked script.now }
    requires capture { F.asked capture.now }
    ensures { MatchResult result (λ r. SeesBoth script.now capture.now (F.seen files.old) (F.seen files.new) r.0 (IsCapture r.1)) (SerialRefused script.now capture.now (F.seen files.old) (F.seen files.new)) }
{
    let says = script_in(alloc, files, script)?;
    let frames = capture_in(alloc, files, capture)?;
    Ok((says, frames))
}

/// Does `serial`: reads the files, runs the script and writes its transcript.
fn serial_form<P: Payload<Home: Drop>, F: Files, K: Sink>(
    alloc: Global,
    home: P::Home,
    files: &mut F,
    out: &mut K,
    script: &str,
    capture: &str,
) -> Result<(), Refusal>
    requires never { NeverRefuses P.home_seen P.may_refuse }
    requires script { F.asked script.now }
    requires capture { F.asked capture.now }
    ensures { SerialComes script.now capture.now (outside (F.seen files.old) (K.seen out.old)) (outside (F.seen files.new) (K.seen out.new)) result }
{
    let (says, frames) = serial_files(alloc, files, script, capture)?;
    match write_serial::<P, K>(alloc, home, &says, frames, out) {
        Ok(()) => Ok(()),
        Err(WriteFault::NoMemory) => Err(Refusal::NoMemory),
        Err(WriteFault::Failed) => Err(Refusal::WriteFault),
    }
}
