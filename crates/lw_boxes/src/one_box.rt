ghost use Rattle.std.specs.Prelude.{◌≡◌, true, IfOk};
ghost use Rattle.lw_boxes.specs.Lists.{cleared, fetched, flagged, has_place, no_items, oldest, posted_in, pushed, rested, word_of};

use crate::{Item, NoMemory};
use lw_base::{Flag, Word};
use std::alloc::Global;
use std::collections::VecDeque;
use std::marker::Model;

/// How many items are posted to a connection at most.
const TICKETS: u32 = (1 << 28) - 1;

/// The mailbox of one connection: the items that nobody took yet, how many were taken, and the flags.
/// Contracts see besides for how many items it has room.
#[derive(Drop)]
pub struct OneBox<P> {
    untaken: VecDeque<Item<P>>,
    taken: u32,
    flags: u8,
    rest: bool,
}

impl<P> Model for OneBox<P> {
    ghost use Rattle.std.specs.Prelude.{◌+◌, ◌≤◌, ◌<◌, ◌^◌, length};
    ghost use Rattle.std.specs.VecDeque.{deque_capacity};
    ghost use Rattle.lw_boxes.specs.Lists.{Untaken};

    ghost Value = { Untaken P };

    ghost view = { λ b. record { items = b.untaken.items; taken = b.taken; flags = b.flags; rest = b.rest; capacity = deque_capacity b.untaken } };

    ghost invariant = { λ b. (length b.untaken.items ≤ deque_capacity b.untaken) × (b.taken + length b.untaken.items < 2 ^ 28) };
}

impl<P> OneBox<P> {
    /// A mailbox with room for so many items.
    pub fn new(alloc: Global, capacity: u32) -> Result<OneBox<P>, NoMemory>
        ensures { IfOk result (λ b. b ≡ no_items capacity) }
    {
        Ok(OneBox {
            untaken: VecDeque::with_capacity(alloc, capacity as usize)?,
            taken: 0,
            flags: 0,
            rest: false,
        })
    }

    /// How many items were posted.
    pub fn posted(&self) -> u32
        ensures { result ≡ posted_in self.now }
    {
        self.taken + self.untaken.len() as u32
    }

    /// Whether, after `ahead` more posts, one more has a place.
    pub fn has_place(&self, ahead: u32) -> bool
        ensures { result ≡ has_place self.now.capacity self.now ahead }
    {
        let ahead = u64::from(ahead);
        self.untaken.len() as u64 + ahead < self.untaken.capacity() as u64
            && u64::from(self.posted()) + ahead < u64::from(TICKETS)
    }

    /// Posts an item, and gives its ticket.
    pub fn post(&mut self, item: Item<P>) -> u32
        requires place { has_place self.old.capacity self.old 0 ≡ true }
        ensures ticket { result ≡ posted_in self.old }
        ensures pushed { self.new ≡ pushed self.old item }
    {
        let ticket = self.posted();
        self.untaken.push_back_reserved(item);
        ticket
    }

    /// Takes the item with the least ticket.
    pub fn take(&mut self) -> Option<(u32, Item<P>)>
        ensures item { result ≡ oldest self.old }
        ensures fetched { self.new ≡ fetched self.old }
    {
        let item = self.untaken.pop_front()?;
        let ticket = self.taken;
        self.taken += 1;
        Some((ticket, item))
    }

    /// The event word.
    pub fn word(&self) -> Word
        ensures { result ≡ word_of self.now }
    {
        let flags = if self.rest {
            self.flags | Flag::Rest.bit()
        } else {
            self.flags
        };
        Word {
            posted: self.posted(),
            claimed: self.taken,
            flags,
        }
    }

    /// Sets a flag other than REST.
    pub fn set(&mut self, flag: Flag)
        ensures { self.new ≡ flagged self.old flag }
    {
        self.flags |= flag.bit();
    }

    /// Clears a flag other than REST.
    pub fn clear(&mut self, flag: Flag)
        ensures { self.new ≡ cleared self.old flag }
    {
        self.flags &= u8::MAX - flag.bit();
    }

    /// Sets or clears REST.
    pub fn rest(&mut self, on: bool)
        ensures { self.new ≡ rested self.old on }
    {
        self.rest = on;
    }
}
