//! What a token knows of the board, the rule that the board keeps, and what each step tells.
ghost use Rattle.std.specs.Prelude.{ℕ};
ghost use base.Fml.{ftrue};
ghost use Rattle.lw_board.specs.Tokens.{History, history_coded};

use atomic_table::{Join, Play, Split, TableRule};
use std::marker::{Model, PhantomData};
use std::snapshot::Snapshot;

/// Says which values the words of a board may have.
pub trait Forms {
    // The word, and the value.
    ghost may: { Self → ℕ → ℕ → Type 0 };
}

/// What a token has stored, taken back and seen. It has no bytes.
pub struct Past {
    pub ghost history: { History } by { history_coded },
}

impl Model for Past {
    ghost also_owns = { λ _. ftrue };
}

/// What a token knows: what its board was told, and its own past. No value of it is made.
pub struct Sight<F> {
    pub about: Option<F>,
    pub past: Past,
}

/// What a board is told when it is made: how many words its table has, and what they may hold.
#[derive(Drop)]
pub struct Key<F> {
    pub words: usize,
    pub about: Snapshot<F>,
}

/// Each word has the value that the writer's stores left there.
pub struct Law<F> {
    forms: PhantomData<F>,
}

impl<F: Forms> TableRule<u8, Sight<F>, Key<F>> for Law<F> {
    ghost use Rattle.lw_board.specs.Law.{Ruled, newcomer};

    ghost holds = { λ key. Ruled F.may key.about.value };

    ghost first = { λ key. newcomer key.words key.about.value };
}

pub(crate) struct Storing;

impl<F> Play<u8, Sight<F>> for Storing {
    ghost use Rattle.lw_board.specs.Law.{stored};

    ghost then = { stored };
}

pub(crate) struct Looking<F> {
    forms: PhantomData<F>,
}

impl<F: Forms> Play<u8, Sight<F>> for Looking<F> {
    ghost use Rattle.lw_board.specs.Law.{looked};

    ghost then = { looked F.may };
}

// The writer finds the trails that it took back in its stores.
pub(crate) struct Finding;

impl<F> Play<u8, Sight<F>> for Finding {
    ghost use Rattle.lw_board.specs.Law.{found};

    ghost then = { found };
}

// A second looker has seen what the first had.
pub(crate) struct Sharing;

impl<F> Split<Sight<F>> for Sharing {
    ghost use Rattle.lw_board.specs.Law.{looker, trail_of};

    ghost left = { λ v. v };

    ghost right = { λ v. looker v (trail_of v) };
}

// A new looker has seen all stores of the writer.
pub(crate) struct Noting;

impl<F> Split<Sight<F>> for Noting {
    ghost use Rattle.lw_board.specs.Places.{note, start};
    ghost use Rattle.lw_board.specs.Law.{looker, stores_of};

    ghost left = { λ v. v };

    ghost right = { λ v. looker v (note start (stores_of v)) };
}

// One looker has then seen what both had.
pub(crate) struct Joining;

impl<F> Join<Sight<F>> for Joining {
    ghost use Rattle.lw_board.specs.Law.{joined, spent};

    ghost both = { joined };

    ghost spent = { spent };
}

// The writer takes a looker's trail back.
pub(crate) struct Gathering;

impl<F> Join<Sight<F>> for Gathering {
    ghost use Rattle.lw_board.specs.Law.{gathered, spent};

    ghost both = { gathered };

    ghost spent = { spent };
}
