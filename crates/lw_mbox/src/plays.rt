//! What each step on a mailbox's table tells, and how seats are cut and joined.
ghost use Rattle.std.specs.Prelude.{◌-◌, true, false, length};
ghost use Rattle.lw_mbox.specs.Trail.{start, met};
ghost use Rattle.lw_mbox.specs.Plays.{fresh, looked, taken, announced, sets_flag, clears_flag, loaded, claimed_at, emptied, rested_at, calmed, asks, tallied, tells, joined, gathered, spent};

use crate::rule::Mail;
use crate::view::View;
use atomic_table::{Join, Play, Split};

pub(crate) struct Looked;

impl<T, K> Play<Option<T>, View<T, K>> for Looked {
    ghost then = { looked };
}

pub(crate) struct Taken;

impl<T, K> Play<Option<T>, View<T, K>> for Taken {
    ghost then = { taken };
}

pub(crate) struct Announced;

impl<T, K> Play<Option<T>, View<T, K>> for Announced {
    ghost then = { announced };
}

pub(crate) struct SetsFlag;

impl<T, K> Play<Option<T>, View<T, K>> for SetsFlag {
    ghost then = { sets_flag };
}

pub(crate) struct ClearsFlag;

impl<T, K> Play<Option<T>, View<T, K>> for ClearsFlag {
    ghost then = { clears_flag };
}

pub(crate) struct Loaded;

impl<T, K> Play<Option<T>, View<T, K>> for Loaded {
    ghost then = { loaded };
}

pub(crate) struct FetchStep;

impl<T: Mail<K>, K> Play<Option<T>, View<T, K>> for FetchStep {
    ghost then = { claimed_at T.fits false };
}

pub(crate) struct DrainStep;

impl<T: Mail<K>, K> Play<Option<T>, View<T, K>> for DrainStep {
    ghost then = { claimed_at T.fits true };
}

pub(crate) struct Emptied;

impl<T, K> Play<Option<T>, View<T, K>> for Emptied {
    ghost then = { emptied };
}

pub(crate) struct Rested;

impl<T, K> Play<Option<T>, View<T, K>> for Rested {
    ghost then = { rested_at };
}

pub(crate) struct Calmed;

impl<T, K> Play<Option<T>, View<T, K>> for Calmed {
    ghost then = { calmed };
}

pub(crate) struct Asks;

impl<T, K> Play<Option<T>, View<T, K>> for Asks {
    ghost then = { asks };
}

pub(crate) struct Tallied;

impl<T, K> Play<Option<T>, View<T, K>> for Tallied {
    ghost then = { tallied };
}

pub(crate) struct Tells;

impl<T, K> Play<Option<T>, View<T, K>> for Tells {
    ghost then = { tells };
}

// The first Taker gets all parts.
pub(crate) struct Hire;

impl<T, K> Split<View<T, K>> for Hire {
    ghost left = { λ v. record v { parts = 0 } };

    ghost right = { λ v. fresh v.key v.parts start };
}

// A Taker hands on the parts that it was asked for.
pub(crate) struct Deal;

impl<T, K> Split<View<T, K>> for Deal {
    ghost left = { λ v. record v { parts = v.parts - v.asked; asked = 0 } };

    ghost right = { λ v. fresh v.key v.asked v.trail.met };
}

// A note of the Poster's changes so far.
pub(crate) struct Jot;

impl<T, K> Split<View<T, K>> for Jot {
    ghost use Rattle.std.specs.Prelude.{length};
    ghost use Rattle.lw_base.specs.declared.event_word.Flag.TheVariants.{Closed};
    ghost use Rattle.lw_mbox.specs.Changes.{is_on};
    ghost use Rattle.lw_mbox.specs.Trail.{start, met};
    ghost use Rattle.lw_mbox.specs.Plays.{fresh};

    ghost left = { λ v. v };

    ghost right = { λ v. fresh v.key 0 (met start (length v.changes) (is_on Closed v.changes)) };
}

pub(crate) struct Joins;

impl<T, K> Join<View<T, K>> for Joins {
    ghost both = { joined };

    ghost spent = { spent };
}

pub(crate) struct Gathers;

impl<T, K> Join<View<T, K>> for Gathers {
    ghost both = { gathered };

    ghost spent = { spent };
}
