use lw_outside::{Failed, MemSink, Sink};
use std::alloc::{AllocError, Global};

// Octets that a narrow sink takes at a time.
const WIDTH: usize = 100;

/// A sink in memory that takes at most 100 octets at a time.
#[derive(Drop)]
pub struct NarrowSink {
    inner: MemSink,
}

impl NarrowSink {
    /// An empty sink that fails at the call of this number, counted from 1; at none where it is 0.
    pub fn new(alloc: Global, failing: u64) -> Result<NarrowSink, AllocError> {
        let inner = MemSink::new(alloc, vec![in alloc; failing]?);
        Ok(NarrowSink { inner })
    }

    /// The octets that were written.
    pub fn octets(&self) -> &[u8] {
        self.inner.octets().unwrap_or(b"not told".as_slice())
    }
}

impl Sink for NarrowSink {
    ghost seen = { λ s. ⟦<MemSink as Sink>⟧.seen s.inner };

    fn write(&mut self, piece: &[u8]) -> Result<usize, Failed> {
        let (front, _) = piece.split_at(piece.len().min(WIDTH));
        self.inner.write(front)
    }
}
