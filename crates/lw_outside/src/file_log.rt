//! What was seen of files, in proofs alone.
ghost use Rattle.std.specs.Prelude.{◌≡◌, List, []};
ghost use Rattle.std.specs.Coded.{coded_list};
ghost use base.Fml.{ftrue};
ghost use Rattle.lw_outside.specs.Files.{FileSeen, file_code};

use crate::Failed;
use std::marker::Model;

// The files that were looked for, the last one first. It takes no memory.
#[derive(Drop)]
pub struct FileLog {
    pub ghost sought: { List FileSeen } by { coded_list file_code },
}

impl Model for FileLog {
    ghost also_owns = { λ _. ftrue };
}

// A call of `find`, with the name and the answer, or of `read`, with the number, the buffer behind
// the call and the answer.
#[derive(Clone, Copy, Drop)]
pub enum FileStep<'a> {
    Found(&'a str, Result<u32, Failed>),
    Gave(u32, &'a [u8], Result<usize, Failed>),
}

impl FileLog {
    ghost use Rattle.lw_outside.specs.Steps.{sought_after};

    // No file was looked for.
    pub fn new() -> FileLog
        ensures { result.sought ≡ [] }
    {
        FileLog {}
    }

    // One call more.
    #[inline(always)]
    pub fn then(&self, _step: &FileStep<'_>) -> FileLog
        ensures { result.sought ≡ sought_after _step.now self.now.sought }
    {
        FileLog {}
    }
}
