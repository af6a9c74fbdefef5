//! Laws of scripts and their texts, in the words of their subject.
ghost use Rattle.std.specs.Prelude.{◌≡◌};
ghost use Rattle.lw_scripts.specs.declared.parts.Script.{Script};
ghost use Rattle.lw_scripts.specs.declared.parts.Stack.{Stack};
ghost use Rattle.lw_scripts.specs.declared.wanted.Wanted.{Wanted};
ghost use Rattle.lw_scripts.specs.Parts.{IsBody};
ghost use Rattle.lw_scripts.specs.Grammar.{IsScript};
ghost use Rattle.lw_scripts.specs.Whole.{script_lines};
ghost use Rattle.script_words.specs.declared.version.Version.{Version};
ghost use Rattle.script_texts.specs.Upgrades.{HasSameSizes, upgraded};

/// The lines of a script with all sizes named are that script, of version 2.
pub fn a_script_stays_one()
    ensures { (s : Script) → IsBody s.version s.body → IsScript Wanted.Either (script_lines (upgraded s)) (upgraded s) }
{}

/// The sizes of a stack stay.
pub fn sizes_stay()
    ensures { (version : Version) (stack : Stack) → HasSameSizes version stack }
{}
