ghost use Rattle.std.specs.Prelude.{◌≡◌, ◌≤◌, None, []};
ghost use Rattle.std.specs.Io.{ReadsAtMost};
ghost use Rattle.lw_outside.specs.Faults.{Rose};

use crate::file_log::{FileLog, FileStep};
use crate::sink_log::{Front, SinkLog};
use crate::{Failed, Files, Sink};
use std::fs::{self, OpenFile};
use std::io::{Read, Write};
use std::rt::{self, Stderr, Stdout};

/// The files of the operating system. Three places for files that were found are taken in turn; a
/// fourth file takes the first place again, and what stood there is given up. What reads give is told,
/// and not what a file holds.
#[derive(Drop)]
pub struct StdFiles<'a, R: rt::Files> {
    runtime: &'a R,
    places: Places<R::File>,
    log: FileLog,
    faults: u64,
}

impl<'a, R: rt::Files> StdFiles<'a, R> {
    ghost use Rattle.lw_outside.specs.Steps.{sought_after};

    /// No file was looked for.
    pub fn new(runtime: &'a R) -> StdFiles<'a, R>
        ensures sought { (⟦<StdFiles<'a, R> as Files>⟧.seen result).sought ≡ [] }
        ensures faults { (⟦<StdFiles<'a, R> as Files>⟧.seen result).faults ≡ 0 }
    {
        StdFiles {
            runtime,
            places: Places::new(),
            log: FileLog::new(),
            faults: 0,
        }
    }

    // Counts a call that failed.
    fn fault(&mut self, step: &FileStep<'_>) -> Failed
        ensures sought { self.new.log.sought ≡ sought_after step.now self.old.log.sought }
        ensures later { self.old.faults ≤ self.new.faults }
        ensures rose { Rose self.old.faults self.new.faults }
    {
        self.log = self.log.then(step);
        self.faults = self.faults.saturating_add(1);
        Failed
    }
}

impl<R: rt::Files> Files for StdFiles<'_, R> {
    ghost asked = { λ _. Unit {0} };

    ghost seen = { λ s. record { holds = λ _. None; sought = s.log.sought; faults = s.faults } };

    ghost tells = { λ _ _ _ _. tt };

    fn find(&mut self, name: &str) -> Result<u32, Failed> {
        match opened(self.runtime, name) {
            Some(file) => {
                let number = self.places.keep(file);
                self.log = self.log.then(&FileStep::Found(name, Ok(number)));
                Ok(number)
            }
            None => Err(self.fault(&FileStep::Found(name, Err(Failed)))),
        }
    }

    fn read(&mut self, number: u32, buf: &mut [u8]) -> Result<usize, Failed> {
        match self.places.read(number, buf) {
            Ok(count) => {
                self.log = self.log.then(&FileStep::Gave(number, buf, Ok(count)));
                Ok(count)
            }
            Err(failed) => Err(self.fault(&FileStep::Gave(number, buf, Err(failed)))),
        }
    }
}

// Places for three files, and the one that the next file takes.
#[derive(Drop)]
struct Places<F: Drop> {
    first: Option<F>,
    second: Option<F>,
    third: Option<F>,
    next: Place,
}

#[derive(Clone, Copy)]
enum Place {
    First,
    Second,
    Third,
}

impl<F: Read + Drop> Places<F> {
    fn new() -> Places<F> {
        Places {
            first: None,
            second: None,
            third: None,
            next: Place::First,
        }
    }

    // Puts a file into the next place, whose number it answers.
    fn keep(&mut self, file: F) -> u32 {
        match self.next {
            Place::First => {
                self.first = Some(file);
                self.next = Place::Second;
                0
            }
            Place::Second => {
                self.second = Some(file);
                self.next = Place::Third;
                1
            }
            Place::Third => {
                self.third = Some(file);
                self.next = Place::First;
                2
            }
        }
    }

    // Reads from the file of a number.
    fn read(&mut self, number: u32, buf: &mut [u8]) -> Result<usize, Failed>
        ensures { ReadsAtMost result buf.new }
    {
        match number {
            0 => read_file(&mut self.first, buf),
            1 => read_file(&mut self.second, buf),
            _ => read_file(&mut self.third, buf),
        }
    }
}

// Reads from a file that is there.
fn read_file<F: Read>(file: &mut Option<F>, buf: &mut [u8]) -> Result<usize, Failed>
    ensures { ReadsAtMost result buf.new }
{
    match file {
        Some(file) => match file.read(buf) {
            Ok(count) => Ok(count),
            Err(_) => Err(Failed),
        },
        None => Err(Failed),
    }
}

// Opens what is no directory.
fn opened<R: rt::Files>(runtime: &R, name: &str) -> Option<R::File> {
    let file = fs::open(runtime, name).ok()?;
    let about = file.metadata().ok()?;
    if about.is_dir() { None } else { Some(file) }
}

/// Standard output or standard error. What it took is told.
#[derive(Drop)]
pub struct StdSink {
    stream: Stream,
    log: SinkLog,
    faults: u64,
}

#[derive(Clone, Copy)]
enum Stream {
    Output(Stdout),
    Error(Stderr),
}

impl StdSink {
    /// What is written goes to standard output.
    pub fn output(output: Stdout) -> StdSink
        ensures took { (⟦<StdSink as Sink>⟧.seen result).took ≡ [] }
        ensures faults { (⟦<StdSink as Sink>⟧.seen result).faults ≡ 0 }
    {
        StdSink {
            stream: Stream::Output(output),
            log: SinkLog::new(),
            faults: 0,
        }
    }

    /// What is written goes to standard error.
    pub fn error(error: Stderr) -> StdSink
        ensures took { (⟦<StdSink as Sink>⟧.seen result).took ≡ [] }
        ensures faults { (⟦<StdSink as Sink>⟧.seen result).faults ≡ 0 }
    {
        StdSink {
            stream: Stream::Error(error),
            log: SinkLog::new(),
            faults: 0,
        }
    }
}

impl Sink for StdSink {
    ghost seen = { λ s. record { took = s.log.took; faults = s.faults } };

    fn write(&mut self, piece: &[u8]) -> Result<usize, Failed> {
        let written = match &mut self.stream {
            Stream::Output(output) => output.write(piece),
            Stream::Error(error) => error.write(piece),
        };
        match written {
            Ok(count) if count > 0 || piece.is_empty() => {
                self.log = self.log.then(&Front { piece, count });
                Ok(count)
            }
            _ => {
                self.faults = self.faults.saturating_add(1);
                Err(Failed)
            }
        }
    }
}
