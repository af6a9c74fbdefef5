//! The one that posts, and changes the flags but REST.
ghost use Rattle.std.specs.Prelude.{◌≡◌, ◌≢◌, ◌+◌, ◌%◌, ◌^◌, ◌<◌, ◌≤◌, ◌++◌, [], ◌∷◌, true, false, length, Contains, Some};
ghost use Rattle.lw_base.specs.declared.event_word.Flag.TheVariants.{Rest, Closed};
ghost use Rattle.lw_mbox.specs.declared.view.Change.TheVariants.{Post, Set, Clear};
ghost use Rattle.lw_mbox.specs.Changes.{posted, is_on, Shows};
ghost use Rattle.lw_mbox.specs.Trail.{saw, met, both, start};
ghost use Rattle.lw_mbox.specs.History.{IsWord, Told};
ghost use Rattle.lw_mbox.specs.Plays.{steps};
ghost use Rattle.lw_mbox.specs.Tokens.{IsOf, IsAnswer, Offers};

use crate::answers::PostFault;
use crate::mbox::Mbox;
use crate::note::Note;
use crate::plays::{Announced, ClearsFlag, Gathers, Jot, Looked, SetsFlag, Taken, Tells};
use crate::rule::{Mail, Place, Ring};
use crate::taker::Taker;
use crate::words::{POST, read};
use lw_base::{Flag, Word};
use std::marker::Model;

// So many posts wear a mailbox out.
const WORN: u32 = 268_435_455;

/// The one that posts. It has no lifetime and takes no memory.
pub struct Poster<T: Mail<K>, K> {
    pub(crate) next: u32,
    pub(crate) refusals: u64,
    pub(crate) seat: Place<T, K>,
}

impl<T: Mail<K>, K> Model for Poster<T, K> {
    ghost use Rattle.std.specs.Prelude.{◌≡◌, ◌^◌, ◌<◌, [], true, false};
    ghost use Rattle.std.specs.Coded.{codes};
    ghost use Rattle.atomic_table.specs.Seated.{table_id_coded};
    ghost use Rattle.lw_mbox.specs.Coded.{trail_coded};
    ghost use Rattle.lw_mbox.specs.Changes.{posted};
    ghost use Rattle.lw_mbox.specs.Tokens.{Desk};

    ghost Value = { Desk T K };

    ghost coded = { Prim.hlevel (codes, table_id_coded, trail_coded) };

    ghost view = { λ p. let v = p.seat.me.0 in record { board = p.seat.table_id; key = v.key; changes = v.changes; refusals = p.refusals; marks = v.marks; trail = v.trail.met; parts = v.parts; settings = v.settings; back = v.back; got = v.got } };

    ghost invariant = { λ p. (p.seat.me.1 ≡ []) × (p.seat.me.0.lead ≡ true) × (p.seat.me.0.posting ≡ false) × (p.next ≡ posted p.seat.me.0.changes) × (p.next < 2 ^ 28) };
}

impl<T: Mail<K>, K> Drop for Poster<T, K> {
    fn drop(self) {
        let Self {
            next: _,
            refusals: _,
            seat: _seat,
        } = self;
    }
}

impl<T: Mail<K>, K> Poster<T, K> {
    /// Whether, after so many more posts, one more has a place. A place that was found stays until this Poster posts there.
    pub fn has_place(&mut self, mbox: &Mbox<T, K>, ahead: u32) -> Result<(), PostFault>
        requires own { IsOf mbox.now self.old.board self.old.key }
        requires ahead { ahead < mbox.now.capacity }
        ensures { Offers mbox.now.capacity self.old ahead result self.new }
    {
        let capacity = mbox.capacity;
        let ticket = self.next + ahead;
        if ticket >= WORN {
            self.refusals = self.refusals.saturating_add(1);
            return Err(PostFault::Worn);
        }
        let place = (ticket % capacity) as usize;
        let found = mbox.table.shared.load::<Looked>(&mut self.seat, 1 + place);
        if found != ticket as u64 {
            self.refusals = self.refusals.saturating_add(1);
            return Err(PostFault::Full);
        }
        Ok(())
    }

    /// Posts the item at the place that was found for it, and gives its ticket.
    pub fn post(&mut self, mbox: &Mbox<T, K>, item: T) -> u32
        requires own { IsOf mbox.now self.old.board self.old.key }
        requires place { Contains self.old.marks (posted self.old.changes) }
        requires unclosed { is_on Closed self.old.changes ≡ false }
        requires fits { T.fits mbox.now.key item }
        ensures ticket { result ≡ posted self.old.changes }
        ensures after { self.new ≡ record self.old { changes = self.old.changes ++ Post item ∷ []; marks = self.old.marks ++ result ∷ [] } }
    {
        let ticket = self.next;
        let place = (ticket % mbox.capacity) as usize;
        mbox.table.shared.load::<Taken>(&mut self.seat, 1 + place);
        put(&mbox.table, &mut self.seat, place, item);
        self.next += 1;
        ticket
    }

    /// Sets a flag, and gives the event word as it was.
    pub fn set(&mut self, mbox: &Mbox<T, K>, flag: Flag) -> Word
        requires own { IsOf mbox.now self.old.board self.old.key }
        requires other { flag ≢ Rest }
        ensures after { self.new ≡ record self.old { trail = saw self.old.trail result; changes = self.old.changes ++ Set flag ∷ [] } }
        ensures before { IsWord result × Shows self.old.changes result }
        ensures answer { IsAnswer self.old.trail self.old.got result }
    {
        let bit = flag.bit() as u64;
        read(
            mbox.table
                .shared
                .fetch_or::<SetsFlag>(&mut self.seat, 0, bit),
        )
    }

    /// Clears a flag, and gives the event word as it was.
    pub fn clear(&mut self, mbox: &Mbox<T, K>, flag: Flag) -> Word
        requires own { IsOf mbox.now self.old.board self.old.key }
        requires other { (flag ≢ Rest) × (flag ≢ Closed) }
        ensures after { self.new ≡ record self.old { trail = saw self.old.trail result; changes = self.old.changes ++ Clear flag ∷ [] } }
        ensures before { IsWord result × Shows self.old.changes result }
        ensures answer { IsAnswer self.old.trail self.old.got result }
    {
        let mask = u64::MAX - flag.bit() as u64;
        read(
            mbox.table
                .shared
                .fetch_and::<ClearsFlag>(&mut self.seat, 0, mask),
        )
    }

    /// A note of all changes so far, for a Taker to `meet`.
    pub fn note(&mut self, mbox: &Mbox<T, K>) -> Note<T, K>
        requires own { IsOf mbox.now self.old.board self.old.key }
        ensures same { self.new ≡ self.old }
        ensures note { result ≡ record { board = self.old.board; key = self.old.key; changes = length self.old.changes; closed = is_on Closed self.old.changes } }
    {
        Note {
            seat: mbox.table.shared.split_seat::<Jot>(&mut self.seat),
        }
    }

    /// Takes a Taker back, and tells what it saw and got.
    pub fn gather(&mut self, mbox: &Mbox<T, K>, taker: Taker<T, K>)
        requires own { IsOf mbox.now self.old.board self.old.key }
        requires theirs { IsOf mbox.now taker.board taker.key }
        ensures after { self.new ≡ record self.old { trail = both self.old.trail taker.trail; parts = self.old.parts + taker.parts; settings = self.old.settings + taker.settings; back = self.old.back ++ steps taker.trail ∷ []; got = self.old.got ++ taker.got } }
        ensures told { Told self.new.changes self.new.trail self.new.parts self.new.settings self.new.back self.new.got }
    {
        mbox.table
            .shared
            .join_seat::<Gathers>(&mut self.seat, taker.into_seat());
        mbox.table.shared.load::<Tells>(&mut self.seat, 0);
    }
}

// The item into the slot in hand, which is announced.
fn put<T: Mail<K>, K>(ring: &Ring<T, K>, seat: &mut Place<T, K>, place: usize, item: T)
    requires table { (seat.old.table_id ≡ ring.now.shared.table_id) × (0 < ring.now.shared.table_id.words) }
    requires hand { (seat.old.me.0.lead ≡ true) × (seat.old.me.0.posting ≡ true) × (seat.old.me.1 ≡ (place, None) ∷ []) × (place ≡ posted seat.old.me.0.changes % ring.now.shared.table_id.slots) }
    requires room { posted seat.old.me.0.changes + 1 < 2 ^ 28 }
    requires unclosed { is_on Closed seat.old.me.0.changes ≡ false }
    requires fits { T.fits ring.now.shared.key item }
    ensures { (seat.new.table_id ≡ seat.old.table_id) × (seat.new.me.0 ≡ record seat.old.me.0 { posting = false; changes = seat.old.me.0.changes ++ Post item ∷ [] }) × (seat.new.me.1 ≡ []) }
{
    let found = ring.shared.exchange(seat, place, Some(item));
    let None = found else { unreachable!() };
    ring.shared.fetch_add::<Announced>(seat, 0, POST);
}
