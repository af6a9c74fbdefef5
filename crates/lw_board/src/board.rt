//! The board, its one writer and its lookers.
ghost use Rattle.std.specs.Prelude.{◌≡◌, ℕ, ◌<◌, [], ◌∷◌, ◌++◌, List, All, IfOk, length};
ghost use Rattle.lw_board.specs.Places.{Store, a_store, start, load, note, both, StandsAt, HasPlace, NotBefore};
ghost use Rattle.lw_board.specs.Tokens.{origin};

use crate::NoMemory;
use crate::sight::{
    Finding, Forms, Gathering, Joining, Key, Law, Looking, Noting, Sharing, Sight, Storing,
};
use atomic_table::{Seat, Table};
use std::alloc::Global;
use std::marker::Model;
use std::snapshot::Snapshot;

/// So many words, which threads share.
#[derive(Drop)]
pub struct Board<F: Forms> {
    // It has one word more than the board, so that there is a word to step on.
    table: Table<u8, Sight<F>, Key<F>, Law<F>, Global>,
}

impl<F: Forms> Model for Board<F> {
    ghost use Rattle.std.specs.Prelude.{◌<◌, ◌-◌};
    ghost use Rattle.lw_board.specs.Tokens.{Named};

    ghost Value = { Named F };

    ghost view = { λ b. record { id = b.table.shared.table_id; words = b.table.shared.table_id.words - 1; about = b.table.shared.key.about.value } };

    ghost invariant = { λ b. 0 < b.table.shared.table_id.words };
}

/// The only token that stores.
#[derive(Drop)]
pub struct Writer<F> {
    seat: Seat<u8, Sight<F>>,
}

impl<F> Model for Writer<F> {
    ghost use Rattle.std.specs.Prelude.{true};
    ghost use Rattle.std.specs.Coded.{codes};
    ghost use Rattle.lw_board.specs.Tokens.{Written, trail_coded};

    ghost Value = { Written F };

    ghost coded = { Prim.hlevel (codes, trail_coded) };

    ghost use Rattle.lw_board.specs.Law.{written, IsToken};

    ghost view = { λ w. written w.seat };

    ghost invariant = { λ w. IsToken true w.seat };
}

/// A token that loads. What it has seen only grows.
#[derive(Drop)]
pub struct Look<F> {
    seat: Seat<u8, Sight<F>>,
}

impl<F> Model for Look<F> {
    ghost use Rattle.std.specs.Prelude.{false};
    ghost use Rattle.std.specs.Coded.{codes};
    ghost use Rattle.lw_board.specs.Tokens.{Seen, trail_coded};

    ghost Value = { Seen F };

    ghost coded = { Prim.hlevel (codes, trail_coded) };

    ghost use Rattle.lw_board.specs.Law.{seen, IsToken};

    ghost view = { λ l. seen l.seat };

    ghost invariant = { λ l. IsToken false l.seat };
}

impl<F: Forms> Board<F> {
    /// A board of so many words, each 0, which hold only values that `about` says they may.
    pub fn new(
        alloc: Global,
        words: u32,
        about: &F,
    ) -> Result<(Board<F>, Writer<F>, Look<F>), NoMemory>
        requires zero { (i : ℕ) → i < words → F.may about.now i 0 }
        ensures words { IfOk result (λ t. t.0.words ≡ words) }
        ensures about { IfOk result (λ t. t.0.about ≡ about.now) }
        ensures writer { IfOk result (λ t. t.1 ≡ record { board = origin t.0; stores = []; back = [] }) }
        ensures look { IfOk result (λ t. t.2 ≡ record { board = origin t.0; trail = start }) }
    {
        let zeros = Vec::from_elem(alloc, 0u64, words as usize + 1)?;
        let key = Key {
            words: zeros.len(),
            about: Snapshot::of(about),
        };
        let (table, mut seat) = Table::of_words(alloc, zeros.as_slice(), &key)?;
        let look = Look {
            seat: table.shared.split_seat::<Sharing>(&mut seat),
        };
        Ok((Board { table }, Writer { seat }, look))
    }
}

impl<F: Forms> Writer<F> {
    /// Stores the value in the word, behind all stores so far.
    pub fn store(&mut self, b: &Board<F>, word: u32, v: u64)
        requires own { self.old.board ≡ origin b.now }
        requires within { word < b.now.words }
        requires may { F.may b.now.about word v }
        ensures { self.new ≡ record self.old { stores = self.old.stores ++ a_store word v ∷ [] } }
    {
        let shared = &b.table.shared;
        shared.store::<Storing>(&mut self.seat, word as usize, v);
    }

    /// A look that has seen all stores so far.
    pub fn note(&mut self, b: &Board<F>) -> Look<F>
        requires own { self.old.board ≡ origin b.now }
        ensures same { self.new ≡ self.old }
        ensures look { result ≡ record { board = self.old.board; trail = note start self.old.stores } }
        ensures place { StandsAt self.old.stores result.trail (length self.old.stores) }
    {
        Look {
            seat: b.table.shared.split_seat::<Noting>(&mut self.seat),
        }
    }

    /// Takes a look back. Each of its loads has then its place in the stores.
    pub fn gather(&mut self, b: &Board<F>, o: Look<F>)
        requires own { self.old.board ≡ origin b.now }
        requires other { o.board ≡ origin b.now }
        ensures back { self.new ≡ record self.old { back = self.old.back ++ o.trail ∷ [] } }
        ensures places { All (HasPlace self.new.stores) self.new.back }
    {
        let Look { seat: other } = o;
        let shared = &b.table.shared;
        shared.join_seat::<Gathering>(&mut self.seat, other);
        shared.load::<Finding>(&mut self.seat, 0);
    }
}

impl<F: Forms> Look<F> {
    /// The word's value after some store of the writer, and not before what this look has seen.
    pub fn look(&mut self, b: &Board<F>, word: u32) -> u64
        requires own { self.old.board ≡ origin b.now }
        requires within { word < b.now.words }
        ensures trail { self.new ≡ record self.old { trail = load self.old.trail word result } }
        ensures place { (stores : List Store) × HasPlace stores self.new.trail }
        ensures later { NotBefore self.old.trail self.new.trail }
        ensures may { F.may b.now.about word result }
    {
        let shared = &b.table.shared;
        shared.load::<Looking<F>>(&mut self.seat, word as usize)
    }

    /// Two looks, which have both seen what this one had.
    pub fn split(self, b: &Board<F>) -> (Look<F>, Look<F>)
        requires own { self.board ≡ origin b.now }
        ensures both { (result.0 ≡ self) × (result.1 ≡ self) }
    {
        let Look { mut seat } = self;
        let second = b.table.shared.split_seat::<Sharing>(&mut seat);
        (Look { seat }, Look { seat: second })
    }

    /// One look, which has seen what both had.
    pub fn join(self, b: &Board<F>, o: Look<F>) -> Look<F>
        requires own { self.board ≡ origin b.now }
        requires other { o.board ≡ origin b.now }
        ensures trail { result ≡ record self { trail = both self.trail o.trail } }
        ensures later { NotBefore self.trail result.trail × NotBefore o.trail result.trail }
    {
        let Look { mut seat } = self;
        let Look { seat: other } = o;
        let shared = &b.table.shared;
        shared.join_seat::<Joining>(&mut seat, other);
        Look { seat }
    }
}
