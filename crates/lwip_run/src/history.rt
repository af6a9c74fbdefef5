//! The history of a run, as it is made.
ghost use Rattle.std.specs.Prelude.{◌≡◌, ◌+◌, ◌++◌, [], ◌∷◌, IfOk, length};
ghost use Rattle.lw_rules.specs.Lines.{core_lines_from};

use lw_events::Entry;
use lw_transcript::CoreLine;
use std::alloc::{AllocError, Global};
use std::marker::Model;

/// The entries of a run so far, kept as the lines that a transcript has of them, numbered from 1.
/// Contracts see the list of the entries.
#[derive(Drop)]
pub struct History {
    lines: Vec<CoreLine>,
}

impl Model for History {
    ghost use Rattle.std.specs.Prelude.{◌≡◌, List, map};
    ghost use Rattle.lw_events.specs.declared.entry.Entry.{Entry as Made};
    ghost use Rattle.lw_rules.specs.Lines.{core_lines_from};

    ghost Value = { List Made };

    ghost view = { λ h. map (λ line. line.entry) h.lines.items };

    ghost invariant = { λ h. h.lines.items ≡ core_lines_from 1 (map (λ line. line.entry) h.lines.items) };
}

impl History {
    /// No entry.
    pub fn new(alloc: Global) -> History
        ensures { result ≡ [] }
    {
        History {
            lines: Vec::new(alloc),
        }
    }

    /// Makes room for so many entries more.
    pub fn reserve(&mut self, count: usize) -> Result<(), AllocError>
        ensures { self.new ≡ self.old }
    {
        self.lines.reserve(count)
    }

    /// Adds an entry behind all others, and answers its number, counted from 1.
    pub fn push(&mut self, entry: Entry) -> Result<u32, AllocError>
        ensures { IfOk result (λ n. (self.new ≡ self.old ++ entry ∷ []) × (n ≡ length self.old + 1)) }
    {
        let before = u32::try_from(self.lines.len()).map_err(|_| AllocError)?;
        let number = before.checked_add(1).ok_or(AllocError)?;
        self.lines.push(CoreLine { number, entry })?;
        Ok(number)
    }

    /// The lines of the entries.
    pub fn into_lines(self) -> Vec<CoreLine>
        ensures { result.items ≡ core_lines_from 1 self }
    {
        self.lines
    }
}
