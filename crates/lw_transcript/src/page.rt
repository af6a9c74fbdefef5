ghost use Rattle.std.specs.Prelude.{◌≡◌, ◌+◌, ◌*◌, ◌<◌, ◌≤◌, ◌++◌, [], drop, false, length, IfOk, decimal, take};
ghost use Rattle.hex.specs.Hex.{encode_lower};
ghost use Rattle.lw_transcript.specs.Page.{Prints};

use itoa::Buffer;
use lw_outside::{Sink, write_all};
use std::alloc::{AllocError, Global};
use std::marker::Model;

/// Why a text was not written whole: there was no memory for the page, or a write failed.
#[derive(Clone, Copy, Debug, PartialEq, Eq)]
pub enum WriteFault {
    NoMemory,
    Failed,
}

/// How many octets a page has room for.
const ROOM: usize = 65_536;

/// Text on its way to a sink: it stands in one buffer, which the sink takes when it is full. Behind a
/// write that failed nothing more is written.
#[derive(Drop)]
pub struct Page {
    buffer: Vec<u8>,
    filled: usize,
    failed: bool,
}

impl Model for Page {
    ghost use Rattle.std.specs.Prelude.{◌≡◌, ◌≤◌, length, take};
    ghost use Rattle.lw_transcript.specs.Page.{PageSeen};

    ghost Value = { PageSeen };

    ghost view = { λ p. record { pending = take p.filled p.buffer.items; failed = p.failed } };

    ghost invariant = { λ p. (length p.buffer.items ≡ 65536) × (p.filled ≤ 65536) };
}

impl Page {
    /// An empty page.
    pub fn new(alloc: Global) -> Result<Page, AllocError>
        ensures { IfOk result (λ p. p ≡ record { pending = []; failed = false }) }
    {
        let buffer = vec![in alloc; 0; ROOM]?;
        Ok(Page {
            buffer,
            filled: 0,
            failed: false,
        })
    }

    /// Whether a write failed.
    pub fn is_failed(&self) -> bool
        ensures { result ≡ self.now.failed }
    {
        self.failed
    }

    /// Gives the sink what is pending.
    pub fn flush<K: Sink>(&mut self, sink: &mut K)
        ensures prints { Prints (K.seen sink.old) (K.seen sink.new) self.old self.new [] }
        ensures empty { self.new.pending ≡ [] }
    {
        if self.failed {
            self.filled = 0;
            return;
        }
        let (pending, _) = self.buffer.split_at(self.filled);
        let written = write_all(sink, pending);
        self.filled = 0;
        self.failed = written.is_err();
    }

    /// How many octets there is room for.
    fn left(&self) -> usize
        ensures { length self.now.pending + result ≤ 65536 }
    {
        ROOM - self.filled
    }

    /// Makes room for two octets, and answers how many there is room for.
    fn room<K: Sink>(&mut self, sink: &mut K) -> usize
        ensures prints { Prints (K.seen sink.old) (K.seen sink.new) self.old self.new [] }
        ensures some { 2 ≤ result }
        ensures fits { length self.new.pending + result ≤ 65536 }
    {
        let left = self.left();
        if left < 2 {
            self.flush(sink);
            return ROOM;
        }
        left
    }

    fn add(&mut self, octets: &[u8])
        requires { length self.old.pending + length octets.now ≤ 65536 }
        ensures pending { self.new.pending ≡ self.old.pending ++ octets.now }
        ensures failed { self.new.failed ≡ self.old.failed }
    {
        place(&mut self.buffer, self.filled, octets);
        self.filled += octets.len();
    }

    fn add_hex(&mut self, octets: &[u8])
        requires { length self.old.pending + 2 * length octets.now ≤ 65536 }
        ensures pending { self.new.pending ≡ self.old.pending ++ encode_lower octets.now }
        ensures failed { self.new.failed ≡ self.old.failed }
    {
        place_hex(&mut self.buffer, self.filled, octets);
        self.filled += 2 * octets.len();
    }

    /// Puts these octets.
    pub fn put<K: Sink>(&mut self, sink: &mut K, octets: &[u8])
        ensures { Prints (K.seen sink.old) (K.seen sink.new) self.old self.new octets.now }
    {
        if octets.len() <= self.left() {
            self.add(octets);
        } else {
            self.put_pieces(sink, octets);
        }
    }

    /// Puts these octets in pieces for which there is room.
    fn put_pieces<K: Sink>(&mut self, sink: &mut K, octets: &[u8])
        ensures { Prints (K.seen sink.old) (K.seen sink.new) self.old self.new octets.now }
    {
        let mut rest = octets;
        while !rest.is_empty() {
            let count = self.room(sink).min(rest.len());
            let (piece, behind) = rest.split_at(count);
            self.add(piece);
            rest = behind;
        }
    }

    /// Puts octets in hexadecimal, in lower case.
    pub fn hex<K: Sink>(&mut self, sink: &mut K, octets: &[u8])
        ensures { Prints (K.seen sink.old) (K.seen sink.new) self.old self.new (encode_lower octets.now) }
    {
        if octets.len() <= self.left() / 2 {
            self.add_hex(octets);
        } else {
            self.hex_pieces(sink, octets);
        }
    }

    /// Puts octets in hexadecimal, in pieces for which there is room.
    fn hex_pieces<K: Sink>(&mut self, sink: &mut K, octets: &[u8])
        ensures { Prints (K.seen sink.old) (K.seen sink.new) self.old self.new (encode_lower octets.now) }
    {
        let mut rest = octets;
        while !rest.is_empty() {
            let count = (self.room(sink) / 2).min(rest.len());
            let (piece, behind) = rest.split_at(count);
            self.add_hex(piece);
            rest = behind;
        }
    }

    /// Puts a text.
    pub fn text<K: Sink>(&mut self, sink: &mut K, text: &str)
        ensures { Prints (K.seen sink.old) (K.seen sink.new) self.old self.new text.now }
    {
        self.put(sink, text.as_bytes());
    }

    /// Puts a number in decimal, without leading zeros.
    pub fn number<K: Sink>(&mut self, sink: &mut K, n: u64)
        ensures { Prints (K.seen sink.old) (K.seen sink.new) self.old self.new (decimal n) }
    {
        let mut buffer = Buffer::new();
        self.text(sink, buffer.format(n));
    }
}

/// Copies octets into a buffer, from this place on.
fn place(buffer: &mut Vec<u8>, at: usize, octets: &[u8])
    requires { at + length octets.now ≤ length buffer.old.items }
    ensures { buffer.new.items ≡ take at buffer.old.items ++ octets.now ++ drop (length octets.now) (drop at buffer.old.items) }
{
    let (_, free) = buffer.split_at_mut(at);
    let (target, _) = free.split_at_mut(octets.len());
    target.copy_from_slice(octets);
}

/// Puts octets in hexadecimal into a buffer, from this place on.
fn place_hex(buffer: &mut Vec<u8>, at: usize, octets: &[u8])
    requires { at + 2 * length octets.now ≤ length buffer.old.items }
    ensures { buffer.new.items ≡ take at buffer.old.items ++ encode_lower octets.now ++ drop (2 * length octets.now) (drop at buffer.old.items) }
{
    let (_, free) = buffer.split_at_mut(at);
    let (digits, _) = free.split_at_mut(2 * octets.len());
    hex::encode_to_slice(octets, digits).unwrap();
}
