ghost use Rattle.std.specs.Prelude.{◌≡◌, ◌≤◌, [], ◌∷◌, All, IfErr, OnOk, length};
ghost use Rattle.lw_outside.specs.Sinks.{Adds};
ghost use Rattle.lw_rules.specs.Schedule.{serial_transcript};
ghost use Rattle.lw_script.specs.declared.parts.Call.TheVariants.{FeedAll};
ghost use Rattle.lw_transcript.specs.Page.{Breaks};
ghost use Rattle.lw_transcript.specs.Transcript.{IsFrame, transcript_spelling};
ghost use Rattle.lwip_run.specs.Plain.{NeverRefuses};

use crate::one_thread::serial;
use lw_base::FrameList;
use lw_outside::Sink;
use lw_payload::Payload;
use lw_script::Script;
use lw_transcript::{WriteFault, write_transcript};
use std::alloc::Global;

/// Runs a script on one thread, fed with these frames, over payloads of this Home, and writes the text
/// of its transcript. Without memory for the run nothing is written.
pub fn write_serial<P: Payload<Home: Drop>, K: Sink>(
    alloc: Global,
    home: P::Home,
    script: &Script,
    frames: FrameList,
    out: &mut K,
) -> Result<(), WriteFault>
    requires never { NeverRefuses P.home_seen P.may_refuse }
    requires commands { script.now.commands ≡ FeedAll ∷ [] }
    requires address { length script.now.net.mac.0 ≤ 6 }
    requires short { All IsFrame frames }
    ensures ok { OnOk result (Adds (K.seen out.old) (K.seen out.new) (transcript_spelling (serial_transcript script.now frames))) }
    ensures err { IfErr result (Breaks (K.seen out.old) (K.seen out.new) (transcript_spelling (serial_transcript script.now frames))) }
{
    match serial::<P>(alloc, home, script, frames) {
        Ok(transcript) => write_transcript(alloc, out, &transcript),
        Err(_) => Err(WriteFault::NoMemory),
    }
}
