ghost use Rattle.std.specs.Prelude.{◌≡◌, ◌+◌, ◌-◌, ◌^◌, ◌<◌, ◌≤◌, ◌↔◌, ℕ, [], Some, None, Contains, IsErr, IsTrue, IfOk, if◌then◌else◌, min, option_copied, vec_len};
ghost use Rattle.lw_outside.specs.Shelf.{held_by};
ghost use Rattle.lw_outside.specs.Faults.{HasCause};

use crate::shelf::Shelf;
use crate::sink_log::{Front, SinkLog};
use crate::{Failed, Files, NamedFile, Sink};
use lw_base::NoMemory;
use std::alloc::Global;

/// Files in memory, for tests: they tell their octets, and fail at the calls whose numbers they were
/// given, and where a name isn't there. The first call, of `find` or `read`, has the number 1.
#[derive(Drop)]
pub struct MemFiles {
    shelf: Shelf,
    faults: Faults,
}

impl MemFiles {
    /// These files, which fail at the calls of the numbers in `failing`. Where two files have one name,
    /// the first is found.
    pub fn new(
        alloc: Global,
        files: Vec<NamedFile>,
        failing: Vec<u64>,
    ) -> Result<MemFiles, NoMemory>
        requires { vec_len files < 2 ^ 32 }
        ensures holds { IfOk result (λ f. (⟦<MemFiles as Files>⟧.seen f).holds ≡ held_by files.items) }
        ensures sought { IfOk result (λ f. (⟦<MemFiles as Files>⟧.seen f).sought ≡ []) }
        ensures faults { IfOk result (λ f. (⟦<MemFiles as Files>⟧.seen f).faults ≡ 0) }
    {
        let shelf = Shelf::new(alloc, files)?;
        Ok(MemFiles {
            shelf,
            faults: Faults::new(failing),
        })
    }
}

impl Files for MemFiles {
    ghost use Rattle.lw_outside.specs.OnShelf.{told_by};

    ghost asked = { λ _. Unit {0} };

    ghost seen = { λ f. record { holds = held_by f.shelf.files.items; sought = f.shelf.log.sought; faults = f.faults.count } };

    ghost tells = { λ f. told_by f.shelf.files.items f.shelf.log.sought f.shelf.told };

    fn find(&mut self, name: &str) -> Result<u32, Failed> {
        match self.faults.strike() {
            Ok(()) => match self.shelf.place(name) {
                Some(number) => {
                    self.shelf.found(name, number);
                    Ok(number)
                }
                None => {
                    let failed = self.faults.fault();
                    self.shelf.missed(name, failed);
                    Err(failed)
                }
            },
            Err(failed) => {
                self.shelf.missed(name, failed);
                Err(failed)
            }
        }
    }

    fn read(&mut self, number: u32, buf: &mut [u8]) -> Result<usize, Failed> {
        match self.faults.strike() {
            Ok(()) => Ok(self.shelf.read(number, buf)),
            Err(failed) => {
                self.shelf.not_read(number, buf, failed);
                Err(failed)
            }
        }
    }
}

/// A sink in memory, for tests: it keeps the octets that it took, and fails at the calls whose numbers
/// it was given; the first `write` has the number 1. Where it finds no memory it goes on and keeps no
/// more.
#[derive(Drop)]
pub struct MemSink {
    /// Whether all octets that it took are kept.
    pub whole: bool,
    octets: Vec<u8>,
    log: SinkLog,
    faults: Faults,
    ghost kept: { IsTrue whole → octets.items ≡ log.took },
}

impl MemSink {
    /// An empty sink that fails at the calls of these numbers.
    pub fn new(alloc: Global, failing: Vec<u64>) -> MemSink
        ensures took { (⟦<MemSink as Sink>⟧.seen result).took ≡ [] }
        ensures faults { (⟦<MemSink as Sink>⟧.seen result).faults ≡ 0 }
        ensures whole { IsTrue result.whole }
    {
        MemSink {
            whole: true,
            octets: Vec::new(alloc),
            log: SinkLog::new(),
            faults: Faults::new(failing),
        }
    }

    /// The octets that it took, where all are kept.
    pub fn octets(&self) -> Option<&[u8]>
        ensures { option_copied result ≡ (if self.now.whole then Some (⟦<MemSink as Sink>⟧.seen self.now).took else None) }
    {
        if self.whole {
            Some(self.octets.as_slice())
        } else {
            None
        }
    }
}

impl Sink for MemSink {
    ghost seen = { λ s. record { took = s.log.took; faults = s.faults.count } };

    fn write(&mut self, piece: &[u8]) -> Result<usize, Failed> {
        self.faults.strike()?;
        let count = piece.len();
        self.whole = self.whole && self.octets.extend_from_slice(piece).is_ok();
        self.log = self.log.then(&Front { piece, count });
        Ok(count)
    }
}

// The calls so far, the numbers of those that are to fail, and how many failed.
#[derive(Drop)]
struct Faults {
    failing: Vec<u64>,
    calls: u64,
    count: u64,
}

impl Faults {
    fn new(failing: Vec<u64>) -> Faults
        ensures failing { result.failing.items ≡ failing.items }
        ensures calls { result.calls ≡ 0 }
        ensures count { result.count ≡ 0 }
    {
        Faults {
            failing,
            calls: 0,
            count: 0,
        }
    }

    // Counts a call, and fails where its number was given.
    fn strike(&mut self) -> Result<(), Failed>
        ensures call { self.new.calls ≡ min (self.old.calls + 1) (2 ^ 64 - 1) }
        ensures struck { IsErr result ↔ Contains self.old.failing.items self.new.calls }
        ensures cause { HasCause self.old.count self.new.count result }
        ensures failing { self.new.failing.items ≡ self.old.failing.items }
    {
        self.calls = self.calls.saturating_add(1);
        if self.failing.contains(&self.calls) {
            return Err(self.fault());
        }
        Ok(())
    }

    // Counts a fault.
    fn fault(&mut self) -> Failed
        ensures later { self.old.count ≤ self.new.count }
        ensures count { self.new.count ≡ min (self.old.count + 1) (2 ^ 64 - 1) }
        ensures calls { self.new.calls ≡ self.old.calls }
        ensures failing { self.new.failing.items ≡ self.old.failing.items }
    {
        self.count = self.count.saturating_add(1);
        Failed
    }
}
