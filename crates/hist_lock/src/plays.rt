//! What each step on the table tells.
ghost use Rattle.hist_lock.specs.Plays.{tried, gave, counted, heard};
ghost use Rattle.hist_lock.specs.Views.{with_one_more, newest, note_of, informed, gathered, spent};

use crate::serial::Serial;
use crate::table::{Held, View};
use atomic_table::{Join, Play, Split};
use std::marker::PhantomData;

pub(crate) struct Take<O> {
    object: PhantomData<O>,
}

impl<O: Serial> Play<Held<O, <O as Serial>::Entry>, View<O, <O as Serial>::Entry>> for Take<O> {
    ghost then = { tried O.state O.tag O.by O.steps };
}

pub(crate) struct Give<O> {
    object: PhantomData<O>,
}

impl<O: Serial> Play<Held<O, <O as Serial>::Entry>, View<O, <O as Serial>::Entry>> for Give<O> {
    ghost then = { gave O.by };
}

pub(crate) struct Count<O> {
    object: PhantomData<O>,
}

impl<O: Serial> Play<Held<O, <O as Serial>::Entry>, View<O, <O as Serial>::Entry>> for Count<O> {
    ghost then = { counted O.state O.by O.steps };
}

pub(crate) struct Hear<O> {
    object: PhantomData<O>,
}

impl<O: Serial> Play<Held<O, <O as Serial>::Entry>, View<O, <O as Serial>::Entry>> for Hear<O> {
    ghost then = { heard O.state O.by O.steps };
}

pub(crate) struct Make;

impl<O, E> Split<View<O, E>> for Make {
    ghost left = { with_one_more };

    ghost right = { newest };
}

pub(crate) struct Tell;

impl<O, E> Split<View<O, E>> for Tell {
    ghost left = { λ v. v };

    ghost right = { note_of };
}

pub(crate) struct Learn;

impl<O, E> Join<View<O, E>> for Learn {
    ghost both = { informed };

    ghost spent = { spent };
}

pub(crate) struct Gather;

impl<O, E> Join<View<O, E>> for Gather {
    ghost both = { gathered };

    ghost spent = { spent };
}
