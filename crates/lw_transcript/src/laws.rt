//! What holds of the texts of transcripts.
ghost use Rattle.std.specs.Prelude.{◌≡◌};
ghost use Rattle.lw_transcript.specs.Laws.{IsTold, bare};
ghost use Rattle.lw_transcript.specs.Transcript.{IsTranscript, transcript_spelling};
ghost use Rattle.lw_transcript.specs.declared.lines.Transcript.{Transcript};

/// A text is of one transcript, but for the octets that were posted, of which it has the number: two
/// transcripts of the grammar, whose fields are such as their types hold, are the same without those
/// where their texts are.
pub fn a_text_is_of_one_transcript()
    ensures { (t u : Transcript) → IsTranscript t → IsTranscript u → IsTold t → IsTold u
        → transcript_spelling t ≡ transcript_spelling u → bare t ≡ bare u }
{}
