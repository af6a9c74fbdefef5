ghost use Rattle.std.specs.Prelude.{◌≡◌, ◌≢◌, ◌+◌, ◌<◌, ◌≤◌, ◌^◌, ℕ, false, true, length, option_and_then, option_map, Some};
ghost use Rattle.std.specs.Option.{option_map_or};
ghost use Rattle.lw_boxes.specs.Shelf.{IsPosted};
ghost use Rattle.lw_boxes.specs.Lists.{box_of, fetched, has_place, no_boxes, oldest, rested, shelf_of, with_box, word_of};

use crate::one_box::OneBox;
use crate::{Boxes, Item, NoMemory};
use lw_base::{Flag, Word};
use std::alloc::Global;
use std::marker::Model;

/// Mailboxes for one thread. Contracts see the items that nobody took yet, by connections.
#[derive(Drop)]
pub struct ListBoxes<P> {
    boxes: Vec<OneBox<P>>,
    capacity: u32,
    refusals: u64,
    alloc: Global,
}

impl<P> Model for ListBoxes<P> {
    ghost use Rattle.std.specs.Prelude.{◌≡◌, All};
    ghost use Rattle.lw_boxes.specs.Lists.{AllBoxes};

    ghost Value = { AllBoxes P };

    ghost view = { λ b. record { boxes = b.boxes.items; capacity = b.capacity; refusals = b.refusals } };

    ghost invariant = { λ b. All (λ one. one.capacity ≡ b.capacity) b.boxes.items };
}

impl<P> ListBoxes<P> {
    /// No mailbox yet; each that is made has room for so many untaken items.
    pub fn new(alloc: Global, capacity: u32) -> ListBoxes<P>
        ensures { result ≡ no_boxes capacity }
    {
        ListBoxes {
            boxes: Vec::new(alloc),
            capacity,
            refusals: 0,
            alloc,
        }
    }

    /// Takes the untaken item of a connection with the least ticket.
    pub fn take(&mut self, conn: u32) -> Option<(u32, Item<P>)>
        requires made { (0 < conn) × (conn ≤ length self.old.boxes) }
        ensures item { result ≡ option_and_then oldest (box_of self.old conn) }
        ensures taken { self.new ≡ with_box self.old conn fetched }
    {
        self.boxes[conn as usize - 1].take()
    }

    /// The event word of a connection.
    pub fn word(&self, conn: u32) -> Word
        requires made { (0 < conn) × (conn ≤ length self.now.boxes) }
        ensures { option_map word_of (box_of self.now conn) ≡ Some result }
    {
        self.boxes[conn as usize - 1].word()
    }

    /// Sets or clears REST of a connection.
    pub fn rest(&mut self, conn: u32, on: bool)
        requires made { (0 < conn) × (conn ≤ length self.old.boxes) }
        ensures { self.new ≡ with_box self.old conn (λ b. rested b on) }
    {
        self.boxes[conn as usize - 1].rest(on);
    }
}

impl<P> Boxes<P> for ListBoxes<P> {
    ghost seen = { shelf_of };

    ghost offers = { λ before conn ahead answer after. answer ≡ option_map_or (λ b. has_place before.capacity b ahead) (box_of before conn) false };

    ghost Terms = { ℕ };

    ghost terms = { λ boxes. boxes.capacity };

    ghost fits = { λ _ _. Unit {0} };

    ghost capacity = { λ capacity. capacity };

    fn make(&mut self, conn: u32) -> Result<(), NoMemory> {
        if (conn as usize) > self.boxes.len() {
            self.boxes.reserve(1)?;
            let one = OneBox::new(self.alloc, self.capacity)?;
            self.boxes.push_reserved(one);
        }
        Ok(())
    }

    fn has_place(&mut self, conn: u32, ahead: u32) -> bool {
        let found = self.boxes[conn as usize - 1].has_place(ahead);
        if !found {
            self.refusals = self.refusals.saturating_add(1);
        }
        found
    }

    fn post(&mut self, conn: u32, item: Item<P>) -> u32
        requires made { (0 < conn) × (conn ≤ (shelf_of self.old).made) }
        requires found { (shelf_of self.old).found conn ((shelf_of self.old).box conn).posted ≡ true }
        ensures ticket { result ≡ ((shelf_of self.old).box conn).posted }
        ensures posted { IsPosted (shelf_of self.old) conn item (shelf_of self.new) }
        ensures capacity { self.new.capacity ≡ self.old.capacity }
    {
        self.boxes[conn as usize - 1].post(item)
    }

    fn set(&mut self, conn: u32, flag: Flag) {
        self.boxes[conn as usize - 1].set(flag);
    }

    fn clear(&mut self, conn: u32, flag: Flag) {
        self.boxes[conn as usize - 1].clear(flag);
    }
}
