//! One turn of the lock: it is taken, the object makes its step in place, and the lock is given back.
ghost use Rattle.std.specs.Prelude.{◌≡◌, ◌<◌, [], MatchBool, IfOk, IfErr};
ghost use Rattle.hist_lock.specs.Histories.{Legal};
ghost use Rattle.hist_lock.specs.Views.{alone, part_of, up_to};
ghost use Rattle.hist_lock.specs.Plays.{IsInside};
ghost use Rattle.hist_lock.specs.Callers.{IsBoard, AddsTo};
ghost use Rattle.hist_lock.specs.declared.table.Stage.TheVariants.{Idle};

use crate::plays::{Give, Take};
use crate::serial::Serial;
use crate::table::{Place, Steps};
use std::alloc::AllocError;
use std::sync::Wait;
use std::{hint, thread};

/// How often a caller pauses at most, before it looks again whether the lock is free.
const MOST_PAUSES: u32 = 63;

/// Takes the lock if its word is this one and says that it is free; whether it did.
#[inline(always)]
fn try_take<O: Serial>(steps: &Steps<O>, seat: &mut Place<O>, word: u64) -> bool
    requires board { (seat.old.table_id ≡ steps.now.table_id) × IsBoard steps.now.table_id }
    requires idle { seat.old.me ≡ (alone (Some steps.now.key.value) Idle (part_of seat.old.me.0), []) }
    ensures board { (seat.new.table_id ≡ seat.old.table_id) × (seat.new.id ≡ seat.old.id) }
    ensures taken { MatchBool result ((k : _) × IsInside O.state O.tag O.by O.steps steps.now.key.value (part_of seat.old.me.0) k seat.new.me) (seat.new.me ≡ seat.old.me) }
{
    word % 2 == 0 && steps.compare_exchange::<Take<O>>(seat, 0, word, word + 1) == word
}

/// Pauses, and says how often to pause the next time: twice as often and once more, up to the most. From then on the thread is yielded too.
#[cold]
#[inline(never)]
fn back_off(pauses: u32) -> u32 {
    for _ in 0..pauses {
        hint::spin_loop();
    }
    if pauses < MOST_PAUSES {
        return 2 * pauses + 1;
    }
    thread::yield_now();
    pauses
}

/// Waits until the lock is free, and takes it. Its word may be `last`, which is tried before the first look.
#[inline(always)]
pub(crate) fn take<O: Serial, R: Wait>(rt: &R, steps: &Steps<O>, seat: &mut Place<O>, last: u64)
    requires board { (seat.old.table_id ≡ steps.now.table_id) × IsBoard steps.now.table_id }
    requires idle { seat.old.me ≡ (alone (Some steps.now.key.value) Idle (part_of seat.old.me.0), []) }
    ensures board { (seat.new.table_id ≡ seat.old.table_id) × (seat.new.id ≡ seat.old.id) }
    ensures taken { (k : _) × IsInside O.state O.tag O.by O.steps steps.now.key.value (part_of seat.old.me.0) k seat.new.me }
{
    let mut word = last;
    let mut pauses = 0;
    for _ in rt.forever() {
        if try_take(steps, seat, word) {
            return;
        }
        pauses = back_off(pauses);
        word = steps.peek(0);
    }
    unreachable!()
}

/// Makes the step for which the lock was taken, and gives the lock back with the number of entries, by the word that is then in `left`.
#[inline(always)]
pub(crate) fn step_and_give<O: Serial>(
    steps: &Steps<O>,
    seat: &mut Place<O>,
    left: &mut u64,
    actor: u32,
    ev: O::Ev,
) -> Result<O::Reply, (AllocError, O::Ev)>
    requires board { (seat.old.table_id ≡ steps.now.table_id) × IsBoard steps.now.table_id }
    requires inside { (p : _) × (k : _) × IsInside O.state O.tag O.by O.steps steps.now.key.value p k seat.old.me }
    requires number { (part_of seat.old.me.0).number ≡ actor }
    requires fits { O.fits (O.tag steps.now.key.value) ev }
    ensures board { (seat.new.table_id ≡ seat.old.table_id) × (seat.new.id ≡ seat.old.id) }
    ensures idle { seat.new.me ≡ (alone (Some steps.now.key.value) Idle (part_of seat.new.me.0), []) }
    ensures ok { IfOk result (λ r. AddsTo O.by (O.tells (O.tag steps.now.key.value)) (part_of seat.old.me.0) ev r (part_of seat.new.me.0)) }
    ensures err { IfErr result (λ r. O.same ev r.1 × (part_of seat.new.me.0 ≡ part_of seat.old.me.0)) }
    ensures sees { (log : _) × (t : _) × (part_of seat.new.me.0 ≡ up_to O.by log (part_of seat.old.me.0)) × Legal O.steps (O.state steps.now.key.value) log t }
{
    let held = seat.slot_mut(steps, 0);
    let answer = held.step(actor, ev);
    *left = 2 * held.log.len() as u64;
    steps.store::<Give<O>>(seat, 0, *left);
    answer
}
