ghost use Rattle.std.specs.Prelude.{ℕ, List};
ghost use Rattle.lw_outside.specs.Files.{FilesSeen, Finds, IsGiven, Reads, Tells};

/// A call to the outside that failed; the count of faults of what was called has the cause.
#[derive(Clone, Copy, Debug, PartialEq, Eq)]
pub struct Failed;

/// Files that are found by name and read by number. A number begins at the first octet of its file
/// when `find` gives it, also where the name was found before. No call changes what a name holds.
pub trait Files {
    // The names that may be looked for.
    ghost asked: { List ℕ → Type 0 };

    // What was seen: the files that were looked for, and what their reads gave.
    ghost seen: { Self → FilesSeen };

    /// A number for the file of this name. A name that isn't there and a directory are faults.
    fn find(&mut self, name: &str) -> Result<u32, Failed>
        requires asked { asked name.now }
        ensures { Finds (seen self.old) (seen self.new) name.now result };

    /// Copies the next octets of a file to the front of `buf` and answers how many; 0 for a buffer
    /// that isn't empty is the end of the file.
    fn read(&mut self, number: u32, buf: &mut [u8]) -> Result<usize, Failed>
        requires given { IsGiven number (seen self.old).sought }
        ensures { Reads (seen self.old) (seen self.new) number buf.new result };

    // Where a name's octets are told, reads gave them from the first on.
    ghost tells: { (f : Self) → Tells (seen f) };
}

/// What was read of a file is a front of what its name holds, and all of it where the end was met:
/// for files that tell what a name holds.
pub fn tells<F: Files>(_files: &F)
    ensures { Tells (F.seen _files.now) }
{}
