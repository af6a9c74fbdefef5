ghost use Rattle.std.specs.Prelude.{◌≡◌, ◌^◌, ◌<◌, ℕ, List, [], Some, None, IfOk, IsTrue, if◌then◌else◌, option_copied, vec_len};
ghost use Rattle.lw_outside.specs.Shelf.{octets_of};

use crate::shelf::Shelf;
use crate::sink_log::{Front, SinkLog};
use crate::{Failed, Files, NamedFile, Sink};
use lw_base::NoMemory;
use std::alloc::Global;

/// Files in memory that never fail: a name that isn't there is an empty file.
#[derive(Drop)]
pub struct SureFiles {
    shelf: Shelf,
}

impl SureFiles {
    /// These files. Where two have one name, the first is found.
    pub fn new(alloc: Global, files: Vec<NamedFile>) -> Result<SureFiles, NoMemory>
        requires { vec_len files < 2 ^ 32 }
        ensures holds { IfOk result (λ f. (name : List ℕ)
            → (⟦<SureFiles as Files>⟧.seen f).holds name ≡ Some (octets_of files.items name)) }
        ensures sought { IfOk result (λ f. (⟦<SureFiles as Files>⟧.seen f).sought ≡ []) }
    {
        let shelf = Shelf::new(alloc, files)?;
        Ok(SureFiles { shelf })
    }
}

impl Files for SureFiles {
    ghost asked = { λ _. Unit {0} };

    ghost seen = { λ f. record { holds = λ name. Some (octets_of f.shelf.files.items name); sought = f.shelf.log.sought; faults = 0 } };

    ghost tells = { λ f. f.shelf.told };

    fn find(&mut self, name: &str) -> Result<u32, Failed> {
        match self.shelf.place(name) {
            Some(number) => {
                self.shelf.found(name, number);
                Ok(number)
            }
            None => {
                self.shelf.found(name, u32::MAX);
                Ok(u32::MAX)
            }
        }
    }

    fn read(&mut self, number: u32, buf: &mut [u8]) -> Result<usize, Failed> {
        Ok(self.shelf.read(number, buf))
    }
}

/// A sink in memory that never fails. Where it finds no memory it goes on and keeps no more.
#[derive(Drop)]
pub struct SureSink {
    /// Whether all octets that it took are kept.
    pub whole: bool,
    octets: Vec<u8>,
    log: SinkLog,
    ghost kept: { IsTrue whole → octets.items ≡ log.took },
}

impl SureSink {
    /// An empty sink.
    pub fn new(alloc: Global) -> SureSink
        ensures took { (⟦<SureSink as Sink>⟧.seen result).took ≡ [] }
        ensures whole { IsTrue result.whole }
    {
        SureSink {
            whole: true,
            octets: Vec::new(alloc),
            log: SinkLog::new(),
        }
    }

    /// The octets that it took, where all are kept.
    pub fn octets(&self) -> Option<&[u8]>
        ensures { option_copied result ≡ (if self.now.whole then Some (⟦<SureSink as Sink>⟧.seen self.now).took else None) }
    {
        if self.whole {
            Some(self.octets.as_slice())
        } else {
            None
        }
    }
}

impl Sink for SureSink {
    ghost seen = { λ s. record { took = s.log.took; faults = 0 } };

    fn write(&mut self, piece: &[u8]) -> Result<usize, Failed> {
        let count = piece.len();
        self.whole = self.whole && self.octets.extend_from_slice(piece).is_ok();
        self.log = self.log.then(&Front { piece, count });
        Ok(count)
    }
}
