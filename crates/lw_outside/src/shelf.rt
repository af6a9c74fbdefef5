ghost use Rattle.std.specs.Prelude.{◌≡◌, ◌≢◌, ℕ, ◌^◌, ◌<◌, List, Some, [], ◌∷◌, ◌++◌, ◌≤◌, length, take, drop, min, vec_len, slice_set, All, IfOk, IfSome, Ok, Err};
ghost use Rattle.lw_outside.specs.Files.{FileSeen, IsReadOf, file_of, looked_for, read_more, with_file};
ghost use Rattle.lw_outside.specs.Shelf.{Leaves, left_at, octets_at, octets_of, place_of};

use crate::file_log::{FileLog, FileStep};
use crate::{Failed, NamedFile};
use std::alloc::{AllocError, Global};

// Files in memory, with the number of octets of each that were read, and what was seen of them. A
// file's number is its place; at another number an empty file stands.
#[derive(Drop)]
pub struct Shelf {
    pub files: Vec<NamedFile>,
    pub read: Vec<usize>,
    pub log: FileLog,
    ghost paired: { vec_len read ≡ vec_len files },
    ghost few: { vec_len files < 2 ^ 32 },
    ghost told: { All (λ (f : FileSeen). IsReadOf (octets_of files.items f.name) f) log.sought },
    ghost stands: { (n : ℕ) (f : FileSeen) → file_of n log.sought ≡ Some f
        → Leaves (octets_of files.items f.name) (left_at files.items read.items n) f },
}

impl Shelf {
    // No file was looked for.
    pub fn new(alloc: Global, files: Vec<NamedFile>) -> Result<Shelf, AllocError>
        requires { vec_len files < 2 ^ 32 }
        ensures files { IfOk result (λ s. s.files.items ≡ files.items) }
        ensures sought { IfOk result (λ s. s.log.sought ≡ []) }
    {
        let read = vec![in alloc; 0; files.len()]?;
        Ok(Shelf {
            files,
            read,
            log: FileLog::new(),
        })
    }

    // The number of the first file of this name.
    pub fn place(&self, name: &str) -> Option<u32>
        ensures { result ≡ place_of self.now.files.items name.now }
    {
        match place_in(self.files.as_slice(), name) {
            Some(place) => Some(place as u32),
            None => None,
        }
    }

    // The file of this name has this number, and is at its first octet.
    pub fn found(&mut self, name: &str, number: u32)
        requires { octets_of self.old.files.items name.now ≡ octets_at self.old.files.items number }
        ensures sought { self.new.log.sought ≡ looked_for name.now (Ok number) ∷ self.old.log.sought }
        ensures files { self.new.files.items ≡ self.old.files.items }
    {
        begin(&mut self.read, number);
        self.log = self.log.then(&FileStep::Found(name, Ok(number)));
    }

    // The file of this name wasn't found.
    pub fn missed(&mut self, name: &str, failed: Failed)
        ensures sought { self.new.log.sought ≡ looked_for name.now (Err failed) ∷ self.old.log.sought }
        ensures files { self.new.files.items ≡ self.old.files.items }
    {
        self.log = self.log.then(&FileStep::Found(name, Err(failed)));
    }

    // Copies the next octets of a file.
    pub fn read(&mut self, number: u32, buf: &mut [u8]) -> usize
        ensures bound { result ≤ length buf.new }
        ensures sought { self.new.log.sought ≡ with_file number (read_more (Ok result) buf.new) self.old.log.sought }
        ensures files { self.new.files.items ≡ self.old.files.items }
    {
        let count = read_at(&self.files, &mut self.read, number, buf);
        self.log = self.log.then(&FileStep::Gave(number, buf, Ok(count)));
        count
    }

    // A read failed.
    pub fn not_read(&mut self, number: u32, buf: &[u8], failed: Failed)
        ensures sought { self.new.log.sought ≡ with_file number (read_more (Err failed) buf.now) self.old.log.sought }
        ensures files { self.new.files.items ≡ self.old.files.items }
    {
        self.log = self.log.then(&FileStep::Gave(number, buf, Err(failed)));
    }
}

// The place of the first file of this name.
fn place_in(files: &[NamedFile], name: &str) -> Option<usize>
    ensures found { result ≡ place_of files.now name.now }
    ensures within { IfSome result (λ n. n < length files.now) }
{
    files.iter().position(|f| f.name.as_str() == name)
}

// The file of this number is at its first octet.
fn begin(read: &mut Vec<usize>, number: u32)
    ensures begun { read.new.items ≡ slice_set read.old.items number 0 }
    ensures paired { vec_len read.new ≡ vec_len read.old }
{
    let number = number as usize;
    if number < read.len() {
        read[number] = 0;
    }
}

// Copies the next octets of a file; a number that has no file has none.
fn read_at(files: &[NamedFile], read: &mut Vec<usize>, number: u32, buf: &mut [u8]) -> usize
    requires { vec_len read.old ≡ length files.now }
    ensures bound { result ≤ length buf.new }
    ensures octets { left_at files.now read.old.items number
        ≡ take result buf.new ++ left_at files.now read.new.items number }
    ensures end { result ≡ 0 → 0 < length buf.new → left_at files.now read.new.items number ≡ [] }
    ensures others { (n : ℕ) → n ≢ number
        → left_at files.now read.new.items n ≡ left_at files.now read.old.items n }
    ensures paired { vec_len read.new ≡ vec_len read.old }
{
    let place = number as usize;
    if place >= files.len() {
        return 0;
    }
    read_on(files[place].octets.as_slice(), &mut read[place], buf)
}

// Copies the next octets of a file of which `read` octets were read, and moves `read` behind them.
fn read_on(octets: &[u8], read: &mut usize, buf: &mut [u8]) -> usize
    ensures bound { result ≤ length buf.new }
    ensures octets { drop read.old octets.now ≡ take result buf.new ++ drop read.new octets.now }
    ensures end { result ≡ 0 → 0 < length buf.new → drop read.new octets.now ≡ [] }
{
    let start = (*read).min(octets.len());
    let (_, rest) = octets.split_at(start);
    let count = copy_front(rest, buf);
    *read = start + count;
    count
}

// Copies as many octets as both have room for, and answers how many.
fn copy_front(from: &[u8], to: &mut [u8]) -> usize
    ensures count { result ≡ min (length from.now) (length to.new) }
    ensures front { take result to.new ≡ take result from.now }
{
    let count = from.len().min(to.len());
    let (front, _) = from.split_at(count);
    let (room, _) = to.split_at_mut(count);
    room.copy_from_slice(front);
    count
}
