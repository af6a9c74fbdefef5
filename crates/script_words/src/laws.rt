//! What holds of the lines of calls.
ghost use Rattle.std.specs.Prelude.{◌≡◌};
ghost use Rattle.call_types.specs.declared.call.Call.{Call};
ghost use Rattle.script_words.specs.Calls.{IsCall};
ghost use Rattle.script_words.specs.Spelling.{call_spelling};
ghost use Rattle.script_words.specs.declared.version.Version.{Version};

/// A line spells one call at most: two calls of whatever kind are the same where their lines are.
pub fn a_line_spells_one_call()
    ensures { (version : Version) (a b : Call) → IsCall version a → IsCall version b → call_spelling a ≡ call_spelling b → a ≡ b }
{}
