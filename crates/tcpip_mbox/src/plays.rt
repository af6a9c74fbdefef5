//! What each step on the queue tells, and how passes are cut and joined.
ghost use Rattle.std.specs.Prelude.{◌≡◌, ℕ, ◌+◌, ◌≤◌, List, [], ◌∷◌, ◌++◌, length, Option, Some, None, true};
ghost use mathlib.Core.List.{IsPrefix};
ghost use Rattle.tcpip_mbox.specs.Letters.{sent_by, AllOf};
ghost use Rattle.tcpip_mbox.specs.Views.{nobody, with_one_more, newest, putting, getting, telling, met, gathered, sent_one, got_one, with_key};

use crate::message::Message;
use crate::view::{Letter, View};
use crossbeam_queue::protocol::{Join, Lesson, Outcome, Split};
use std::marker::{Brand, PhantomData};

/// What a mailbox's messages are to fit, as one call picks it.
pub trait Picks<K> {
    ghost picked: { Option K };
}

impl<K> Picks<K> for Brand {
    ghost picked = { None };
}

/// The first pass hands all that it may do to one that knows the key.
pub(crate) struct Keyed<N> {
    key: PhantomData<N>,
}

impl<M, K, N: Picks<K>> Split<View<M, K>> for Keyed<N> {
    ghost left = { λ _. nobody };

    ghost right = { with_key N.picked };
}

pub(crate) struct Hire;

impl<M, K> Split<View<M, K>> for Hire {
    ghost left = { with_one_more };

    ghost right = { newest };
}

pub(crate) struct Part;

impl<M, K> Split<View<M, K>> for Part {
    ghost left = { putting };

    ghost right = { getting };
}

pub(crate) struct Tell;

impl<M, K> Split<View<M, K>> for Tell {
    ghost left = { λ v. v };

    ghost right = { telling };
}

pub(crate) struct Meet;

impl<M, K> Join<View<M, K>> for Meet {
    ghost both = { met };

    ghost spent = { nobody };
}

// The Get takes a Put back.
pub(crate) struct Gather;

impl<M, K> Join<View<M, K>> for Gather {
    ghost both = { gathered };

    ghost spent = { nobody };
}

pub(crate) struct Sent;

impl<M, K> Outcome<Letter<M>, View<M, K>> for Sent {
    ghost then = { λ v x w. w ≡ sent_one v x };
}

// Where the mailbox is full, the first Put learns who may have filled it.
impl<M, K> Lesson<Letter<M>, View<M, K>> for Sent {
    ghost fact = { λ v items. v.number ≡ 0 → length items + v.known ≤ length v.sent + v.others };
}

pub(crate) struct Got;

impl<M: Message<K>, K> Outcome<Letter<M>, View<M, K>> for Got {
    ghost then = { λ v x w. (w ≡ got_one v x) × (x.from ≤ v.others) × ((key : K) → v.key ≡ Some key → M.fits key x.from (sent_by x.from v.given) x.message) };
}

// Where the mailbox is empty, all that the Puts which were taken back had put in was given.
impl<M: Message<K>, K> Lesson<Letter<M>, View<M, K>> for Got {
    ghost fact = { λ v items. AllOf (v.given ++ items) v.back };
}

pub(crate) struct Told;

impl<M, K> Lesson<Letter<M>, View<M, K>> for Told {
    ghost fact = { λ v _. IsPrefix (sent_by v.number v.given) v.sent };
}
