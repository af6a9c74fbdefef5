//! Two worked runs of the serial schedule, by the definitions alone.
ghost use Rattle.std.specs.Prelude.{◌≡◌, [], ◌∷◌};
ghost use Rattle.lw_script.specs.Grammar.{SpellsScript};
ghost use Rattle.lw_transcript.specs.Transcript.{transcript_spelling};
ghost use Rattle.lw_rules.specs.Schedule.{serial_transcript};
ghost use Rattle.rows.specs.Worked.{no_frames_text, request, request_text, script_text, serial_script};

/// The script of both runs is the one that this text spells.
pub fn the_text_is_the_script()
    ensures { SpellsScript script_text serial_script }
{}

/// A request for the own address is fed: this is the text of the transcript.
pub fn an_arp_request_is_answered()
    ensures { transcript_spelling (serial_transcript serial_script (request ∷ [])) ≡ request_text }
{}

/// There is no frame to feed: this is the text of the transcript.
pub fn no_frames_are_fed()
    ensures { transcript_spelling (serial_transcript serial_script []) ≡ no_frames_text }
{}
