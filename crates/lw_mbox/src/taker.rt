//! One that fetches and drains.
ghost use Rattle.std.specs.Prelude.{◌≡◌, ◌≢◌, ℕ, ◌+◌, ◌-◌, ◌%◌, ◌<◌, ◌≤◌, ◌^◌, ◌++◌, ◌↔◌, [], ◌∷◌, Some, None, true, false, IsTrue};
ghost use Rattle.lw_base.specs.declared.event_word.Flag.TheVariants.{Rest};
ghost use Rattle.lw_base.specs.EventWord.{is_set};
ghost use Rattle.lw_mbox.specs.Trail.{start, met, both, IsOpen, IsClosed};
ghost use Rattle.lw_mbox.specs.Rule.{word_of};
ghost use Rattle.lw_mbox.specs.Plays.{Claims};
ghost use Rattle.lw_mbox.specs.History.{Parted, GotAll, times};
ghost use Rattle.lw_mbox.specs.Tokens.{IsOf, IsFor, IsAnswer, sees, Fetches, Drains, rested};

use crate::answers::{Drain, Fetch, Side};
use crate::mbox::Mbox;
use crate::note::Note;
use crate::plays::{
    Asks, Calmed, Deal, DrainStep, Emptied, FetchStep, Joins, Loaded, Rested, Tallied,
};
use crate::rule::{Mail, Place, Ring};
use crate::words::{CLAIM, REST, read};
use lw_base::{Flag, Word};
use std::marker::Model;

/// One that fetches and drains, with some of the mailbox's 256 parts. It has no lifetime and takes no memory.
pub struct Taker<T: Mail<K>, K> {
    pub(crate) seat: Place<T, K>,
}

impl<T: Mail<K>, K> Model for Taker<T, K> {
    ghost use Rattle.std.specs.Prelude.{◌≡◌, ◌<◌, [], false};
    ghost use Rattle.std.specs.Coded.{codes};
    ghost use Rattle.atomic_table.specs.Seated.{table_id_coded};
    ghost use Rattle.lw_mbox.specs.Coded.{trail_coded};
    ghost use Rattle.lw_mbox.specs.Tokens.{Hand};

    ghost Value = { Hand T K };

    ghost coded = { Prim.hlevel (codes, table_id_coded, trail_coded) };

    ghost view = { λ t. let v = t.seat.me.0 in record { board = t.seat.table_id; key = v.key; parts = v.parts; settings = v.settings; trail = v.trail.met; got = v.got } };

    ghost invariant = { λ t. (t.seat.me.1 ≡ []) × (t.seat.me.0.lead ≡ false) × (t.seat.me.0.back ≡ []) × (0 < t.seat.me.0.parts) };
}

impl<T: Mail<K>, K> Drop for Taker<T, K> {
    fn drop(self) {
        let Self { seat: _seat } = self;
    }
}

impl<T: Mail<K>, K> Taker<T, K> {
    /// Fetches the next ticket's item, where the side fits and the mailbox is not closed.
    pub fn try_fetch(&mut self, mbox: &Mbox<T, K>, side: Side) -> Fetch<T>
        requires own { IsOf mbox.now self.old.board self.old.key }
        ensures { Fetches (T.fits mbox.now.key) side self.old result self.new }
    {
        let ring = &mbox.table;
        let loaded = ring.shared.load::<Loaded>(&mut self.seat, 0);
        let word = read(loaded);
        if word.has(Flag::Closed) {
            return Fetch::Closed(word);
        }
        if !is_for(side, word) {
            return Fetch::Other(word);
        }
        if word.posted == word.claimed {
            return Fetch::Empty(word);
        }
        match fetch_at(ring, &mut self.seat, mbox.capacity, loaded, word) {
            Ok(item) => Fetch::Item(word.claimed, item),
            Err(found) => Fetch::Busy {
                loaded: word,
                found: read(found),
            },
        }
    }

    /// Takes the next ticket's item out of a closed mailbox. It answers `Alive` only to a Taker that has met no note and loaded no word with CLOSED.
    pub fn drain(&mut self, mbox: &Mbox<T, K>) -> Drain<T>
        requires own { IsOf mbox.now self.old.board self.old.key }
        ensures { Drains (T.fits mbox.now.key) self.old result self.new }
    {
        let ring = &mbox.table;
        let loaded = ring.shared.load::<Loaded>(&mut self.seat, 0);
        let word = read(loaded);
        if !word.has(Flag::Closed) {
            return Drain::Alive(word);
        }
        if word.posted == word.claimed {
            return Drain::Done(word);
        }
        match drain_at(ring, &mut self.seat, mbox.capacity, loaded, word) {
            Ok(item) => Drain::Item(word.claimed, item),
            Err(found) => Drain::Busy {
                loaded: word,
                found: read(found),
            },
        }
    }

    /// The event word.
    pub fn word(&mut self, mbox: &Mbox<T, K>) -> Word
        requires own { IsOf mbox.now self.old.board self.old.key }
        ensures after { self.new ≡ sees self.old result }
        ensures answer { IsAnswer self.old.trail self.old.got result }
        ensures parted { Parted self.old.got }
        ensures all { self.old.parts ≡ 256 → GotAll result.claimed self.old.got }
    {
        read(mbox.table.shared.load::<Loaded>(&mut self.seat, 0))
    }

    /// Sets or clears REST, and gives the event word that it leaves.
    pub fn rest(&mut self, mbox: &Mbox<T, K>, on: bool) -> Word
        requires own { IsOf mbox.now self.old.board self.old.key }
        ensures after { self.new ≡ sees (rested on self.old) result }
        ensures answer { IsAnswer self.old.trail self.old.got result }
        ensures rest { is_set Rest result.flags ≡ on }
    {
        if on {
            let found = mbox
                .table
                .shared
                .fetch_or::<Rested>(&mut self.seat, 0, REST);
            read(found | REST)
        } else {
            let mask = u64::MAX - REST;
            let found = mbox
                .table
                .shared
                .fetch_and::<Calmed>(&mut self.seat, 0, mask);
            read(found & mask)
        }
    }

    /// The event word, which is not older than the note. Nor are those that this Taker loads later.
    pub fn meet(&mut self, mbox: &Mbox<T, K>, note: Note<T, K>) -> Word
        requires own { IsOf mbox.now self.old.board self.old.key }
        requires theirs { IsOf mbox.now note.board note.key }
        ensures after { self.new ≡ sees (record self.old { trail = both self.old.trail (met start note.changes note.closed) }) result }
        ensures answer { IsAnswer (both self.old.trail (met start note.changes note.closed)) self.old.got result }
    {
        mbox.table
            .shared
            .join_seat::<Joins>(&mut self.seat, note.into_seat());
        read(mbox.table.shared.load::<Loaded>(&mut self.seat, 0))
    }

    /// Hands so many of its parts to a second Taker, which has seen as much.
    pub fn split(mut self, mbox: &Mbox<T, K>, parts: u32) -> (Taker<T, K>, Taker<T, K>)
        requires own { IsOf mbox.now self.board self.key }
        requires fewer { (0 < parts) × (parts < self.parts) }
        ensures first { result.0 ≡ record self { parts = self.parts - parts } }
        ensures second { result.1 ≡ record self { parts = parts; settings = 0; got = [] } }
    {
        mbox.table
            .shared
            .compare_exchange::<Asks>(&mut self.seat, 0, parts as u64, parts as u64);
        let second = mbox.table.shared.split_seat::<Deal>(&mut self.seat);
        (self, Taker { seat: second })
    }

    /// One Taker with the parts of both, and with what both saw and got.
    pub fn join(mut self, mbox: &Mbox<T, K>, other: Taker<T, K>) -> Taker<T, K>
        requires own { IsOf mbox.now self.board self.key }
        requires theirs { IsOf mbox.now other.board other.key }
        ensures joined { result ≡ record self { parts = self.parts + other.parts; settings = self.settings + other.settings; trail = both self.trail other.trail; got = self.got ++ other.got } }
        ensures once { (t : ℕ) → times t (self.got ++ other.got) ≤ 1 }
    {
        let Taker { seat: theirs } = other;
        mbox.table.shared.join_seat::<Joins>(&mut self.seat, theirs);
        mbox.table.shared.load::<Tallied>(&mut self.seat, 0);
        self
    }

    // What a Poster takes back.
    pub(crate) fn into_seat(self) -> Place<T, K>
        ensures seat { (result.table_id ≡ self.board) × (result.me.1 ≡ []) }
        ensures view { (result.me.0.key ≡ self.key) × (result.me.0.parts ≡ self.parts) × (result.me.0.settings ≡ self.settings) × (result.me.0.trail.met ≡ self.trail) × (result.me.0.got ≡ self.got) × (result.me.0.back ≡ []) }
    {
        let Taker { seat } = self;
        seat
    }
}

// Whether the word's LISTEN is that of the side.
fn is_for(side: Side, word: Word) -> bool
    ensures { IsTrue result ↔ IsFor side word }
{
    match side {
        Side::Accepts => word.has(Flag::Listen),
        Side::Reads => !word.has(Flag::Listen),
    }
}

// Claims the next ticket of an open mailbox at the word that was loaded.
fn fetch_at<T: Mail<K>, K>(
    ring: &Ring<T, K>,
    seat: &mut Place<T, K>,
    capacity: u32,
    loaded: u64,
    word: Word,
) -> Result<T, u64>
    requires table { (seat.old.table_id ≡ ring.now.shared.table_id) × (ring.now.shared.table_id.words ≡ capacity + 1) × (ring.now.shared.table_id.slots ≡ capacity) × (0 < capacity) × (capacity ≤ 1024) }
    requires idle { (seat.old.me.0.lead ≡ false) × (0 < seat.old.me.0.parts) × (seat.old.me.1 ≡ []) }
    requires word { (word ≡ word_of loaded) × (word.claimed < word.posted) × IsOpen word × (loaded + 256 < 2 ^ 64) }
    ensures table { (seat.new.table_id ≡ seat.old.table_id) × (seat.new.id ≡ seat.old.id) }
    ensures claims { Claims T.fits false loaded seat.old.me result seat.new.me }
{
    let found = ring
        .shared
        .compare_exchange::<FetchStep>(seat, 0, loaded, loaded + CLAIM);
    if found != loaded {
        return Err(found);
    }
    Ok(take(ring, seat, capacity, word.claimed))
}

// Claims the next ticket of a closed mailbox at the word that was loaded.
fn drain_at<T: Mail<K>, K>(
    ring: &Ring<T, K>,
    seat: &mut Place<T, K>,
    capacity: u32,
    loaded: u64,
    word: Word,
) -> Result<T, u64>
    requires table { (seat.old.table_id ≡ ring.now.shared.table_id) × (ring.now.shared.table_id.words ≡ capacity + 1) × (ring.now.shared.table_id.slots ≡ capacity) × (0 < capacity) × (capacity ≤ 1024) }
    requires idle { (seat.old.me.0.lead ≡ false) × (0 < seat.old.me.0.parts) × (seat.old.me.1 ≡ []) }
    requires word { (word ≡ word_of loaded) × (word.claimed < word.posted) × IsClosed word × (loaded + 256 < 2 ^ 64) }
    ensures table { (seat.new.table_id ≡ seat.old.table_id) × (seat.new.id ≡ seat.old.id) }
    ensures claims { Claims T.fits true loaded seat.old.me result seat.new.me }
{
    let found = ring
        .shared
        .compare_exchange::<DrainStep>(seat, 0, loaded, loaded + CLAIM);
    if found != loaded {
        return Err(found);
    }
    Ok(take(ring, seat, capacity, word.claimed))
}

// The item of the ticket that was claimed, whose place is marked emptied.
fn take<T: Mail<K>, K>(ring: &Ring<T, K>, seat: &mut Place<T, K>, capacity: u32, ticket: u32) -> T
    requires table { (seat.old.table_id ≡ ring.now.shared.table_id) × (ring.now.shared.table_id.words ≡ capacity + 1) × (ring.now.shared.table_id.slots ≡ capacity) × (0 < capacity) × (capacity ≤ 1024) }
    requires holds { seat.old.me.0.holds ≡ Some ticket }
    requires slot { (x : T) × (seat.old.me.1 ≡ (ticket % capacity, Some x) ∷ []) }
    ensures table { (seat.new.table_id ≡ seat.old.table_id) × (seat.new.id ≡ seat.old.id) }
    ensures seat { (seat.new.me.0 ≡ record seat.old.me.0 { holds = None }) × (seat.new.me.1 ≡ []) }
    ensures item { seat.old.me.1 ≡ (ticket % capacity, Some result) ∷ [] }
{
    let slot = (ticket % capacity) as usize;
    let item = ring.shared.exchange(seat, slot, None).unwrap();
    ring.shared
        .store::<Emptied>(seat, 1 + slot, ticket as u64 + capacity as u64);
    item
}
