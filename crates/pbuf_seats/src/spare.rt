//! Memory for chains to come.
ghost use Rattle.std.specs.Prelude.{◌≡◌, ◌≤◌, [], length, vec_capacity, IfOk, OnOk, OnErr};
ghost use Rattle.std.specs.Arc.{arc_value};

use crate::pbuf::Pbuf;
use std::alloc::{AllocError, Global};
use std::mem;
use std::sync::Arc;

// A new buffer has room for so many octets at least: for those of a pbuf of POOL.
const SMALLEST: usize = 512;

// A buffer with room for more octets is long.
const SHORT: usize = 2_048;

// A buffer with room for more octets is not kept.
const LONGEST: usize = 65_536;

// So many pbufs a new list has room for at least.
const PBUFS: usize = 4;

// A list with room for more pbufs is not kept.
const MOST_PBUFS: usize = 128;

/// Buffers, shared buffers and lists of pbufs that nobody uses, as many as there is room for.
#[derive(Drop)]
pub struct Spare {
    buffers: Vec<Vec<u8>>,
    long: Vec<Vec<u8>>,
    shared: Vec<Arc<Vec<u8>>>,
    lists: Vec<Vec<Pbuf>>,
}

impl Spare {
    /// None yet, and room for so many of each, and for so many long buffers.
    pub(crate) fn new(alloc: Global, most: u32, long: u32) -> Result<Spare, AllocError> {
        Ok(Spare {
            buffers: Vec::with_capacity(alloc, most as usize)?,
            long: Vec::with_capacity(alloc, long as usize)?,
            shared: Vec::with_capacity(alloc, most as usize)?,
            lists: Vec::with_capacity(alloc, most as usize)?,
        })
    }

    /// A buffer of these octets: a spare one where there is any, else a new one.
    #[inline(always)]
    pub(crate) fn buffer(&mut self, alloc: Global, octets: &[u8]) -> Result<Vec<u8>, AllocError>
        ensures { IfOk result (λ b. b.items ≡ octets.now) }
    {
        let kept = if octets.len() <= SHORT {
            &mut self.buffers
        } else {
            &mut self.long
        };
        let mut buffer = match kept.pop() {
            Some(spare) => spare,
            None => Vec::with_capacity(alloc, octets.len().max(SMALLEST))?,
        };
        buffer.clear();
        buffer.extend_from_slice(octets)?;
        Ok(buffer)
    }

    /// Keeps a buffer where there is room for it, and lets it go where there is none. Takes no memory.
    #[inline(always)]
    pub(crate) fn keep_buffer(&mut self, buffer: Vec<u8>) {
        let capacity = buffer.capacity();
        let kept = if capacity <= SHORT {
            &mut self.buffers
        } else {
            &mut self.long
        };
        if capacity <= LONGEST && kept.len() < kept.capacity() {
            kept.push_reserved(buffer);
        }
    }

    /// Puts the octets of a buffer where chains can share them: in a spare shared buffer where there is any, else in a new one.
    /// The buffer changes places with that of the spare one, so that no octet is copied, and has room for as many then.
    #[inline(always)]
    pub(crate) fn share(
        &mut self,
        alloc: Global,
        buffer: &mut Vec<u8>,
    ) -> Result<Arc<Vec<u8>>, AllocError>
        ensures octets { IfOk result (λ b. (arc_value b).items ≡ buffer.old.items) }
        ensures room { OnOk result (length buffer.old.items ≤ vec_capacity buffer.new) }
        ensures err { OnErr result (buffer.new ≡ buffer.old) }
    {
        if let Some(mut spare) = self.shared.pop() {
            if let Some(octets) = Arc::get_mut(&mut spare) {
                if octets.capacity() < buffer.len() {
                    octets.clear();
                    octets.reserve(buffer.len())?;
                }
                mem::swap(octets, buffer);
                return Ok(spare);
            }
        }
        let room = Vec::with_capacity(alloc, buffer.len().max(SMALLEST))?;
        let octets = mem::replace(buffer, room);
        match Arc::new(alloc, octets) {
            Ok(shared) => Ok(shared),
            Err(failed) => {
                *buffer = failed.value;
                Err(AllocError)
            }
        }
    }

    /// A shared buffer of these octets: a spare one where there is any, else a new one.
    #[inline(always)]
    pub(crate) fn shared(
        &mut self,
        alloc: Global,
        octets: &[u8],
    ) -> Result<Arc<Vec<u8>>, AllocError>
        ensures { IfOk result (λ b. (arc_value b).items ≡ octets.now) }
    {
        if let Some(mut spare) = self.shared.pop() {
            if let Some(old) = Arc::get_mut(&mut spare) {
                old.clear();
                old.extend_from_slice(octets)?;
                return Ok(spare);
            }
        }
        let mut buffer = Vec::with_capacity(alloc, octets.len().max(SMALLEST))?;
        buffer.extend_from_slice(octets)?;
        Ok(Arc::new(alloc, buffer)?)
    }

    /// Keeps a shared buffer that nobody else has, where there is room for it. Takes no memory.
    #[inline(always)]
    pub(crate) fn keep_shared(&mut self, mut buffer: Arc<Vec<u8>>) {
        if let Some(octets) = Arc::get_mut(&mut buffer) {
            if octets.capacity() <= SHORT && self.shared.len() < self.shared.capacity() {
                self.shared.push_reserved(buffer);
            }
        }
    }

    /// An empty list with room for so many pbufs: a spare one where there is any, else a new one.
    #[inline(always)]
    pub(crate) fn list(&mut self, alloc: Global, n: usize) -> Result<Vec<Pbuf>, AllocError>
        ensures { IfOk result (λ l. (l.items ≡ []) × (n ≤ vec_capacity l)) }
    {
        let mut list = match self.lists.pop() {
            Some(spare) => spare,
            None => Vec::with_capacity(alloc, n.max(PBUFS))?,
        };
        list.clear();
        list.reserve(n)?;
        Ok(list)
    }

    /// Keeps a list where there is room for it. Takes no memory.
    #[inline(always)]
    pub(crate) fn keep_list(&mut self, list: Vec<Pbuf>) {
        if list.capacity() <= MOST_PBUFS && self.lists.len() < self.lists.capacity() {
            self.lists.push_reserved(list);
        }
    }
}
