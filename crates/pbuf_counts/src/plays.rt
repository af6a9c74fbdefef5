//! What each step on a count tells, and how what a holder knows is cut and joined.
ghost use Rattle.std.specs.Prelude.{ℕ};

use crate::rule::View;
use atomic_table::{Join, Play, Split};
use std::marker::{Brand, PhantomData};

// A try to claim a pbuf.
pub(crate) struct Try;

impl Play<(), View> for Try {
    ghost use Rattle.pbuf_counts.specs.Plays.{tried};

    ghost then = { tried };
}

// One owner more.
pub(crate) struct Add;

impl Play<(), View> for Add {
    ghost use Rattle.pbuf_counts.specs.Plays.{added};

    ghost then = { added };
}

// One owner less.
pub(crate) struct Leave;

impl Play<(), View> for Leave {
    ghost use Rattle.pbuf_counts.specs.Plays.{left};

    ghost then = { left };
}

// A load of a count.
pub(crate) struct Look;

impl Play<(), View> for Look {
    ghost use Rattle.pbuf_counts.specs.Plays.{looked};

    ghost then = { looked };
}

// The pbuf that was claimed goes to a holder of its own, and the claiming one is idle again.
pub(crate) struct Birth;

impl Split<View> for Birth {
    ghost use Rattle.std.specs.Prelude.{◌-◌};
    ghost use Rattle.pbuf_counts.specs.Owners.{claim_weight, first_adds, owner};

    ghost left = { λ v. record v { place = 0; owners = 0; adds = 0; weight = v.weight - claim_weight } };

    ghost right = { λ v. owner v.place first_adds claim_weight };
}

// How many adds a cut hands on, which only its caller knows.
pub(crate) trait Handed {
    ghost adds: { ℕ };
}

impl Handed for Brand {
    ghost adds = { 0 };
}

// One of two owners goes to a holder of its own, with so many adds.
pub(crate) struct Cut<H> {
    handed: PhantomData<H>,
}

impl<H: Handed> Split<View> for Cut<H> {
    ghost use Rattle.std.specs.Prelude.{◌+◌, ◌-◌};
    ghost use Rattle.pbuf_counts.specs.Owners.{owner};

    ghost left = { λ v. record v { owners = 1; adds = v.adds - H.adds; weight = v.weight - (H.adds + 1) } };

    ghost right = { λ v. owner v.place H.adds (H.adds + 1) };
}

// A second idle holder, without the right to claim.
pub(crate) struct Part;

impl Split<View> for Part {
    ghost use Rattle.std.specs.Prelude.{◌-◌, []};
    ghost use Rattle.pbuf_counts.specs.Owners.{part_weight, idle};

    ghost left = { λ v. record v { weight = v.weight - part_weight } };

    ghost right = { λ _. idle part_weight 0 [] };
}

// A second idle holder, with the right to claim and what it has claimed.
pub(crate) struct PartRight;

impl Split<View> for PartRight {
    ghost use Rattle.std.specs.Prelude.{◌-◌, []};
    ghost use Rattle.pbuf_counts.specs.Owners.{part_weight, idle};

    ghost left = { λ v. record v { weight = v.weight - part_weight; rights = 0; got = [] } };

    ghost right = { λ v. idle part_weight 1 v.got };
}

// One holder with what both weighed and knew.
pub(crate) struct Unite;

impl Join<View> for Unite {
    ghost use Rattle.std.specs.Prelude.{◌+◌, ◌++◌, []};
    ghost use Rattle.pbuf_counts.specs.Owners.{idle};

    ghost both = { λ v w. record v { weight = v.weight + w.weight; rights = v.rights + w.rights; got = w.got ++ v.got; ended = w.ended ++ v.ended; found = w.found ++ v.found } };

    ghost spent = { idle 0 0 [] };
}
