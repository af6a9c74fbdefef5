//! The object with its history, while a caller has them.
ghost use Rattle.std.specs.Prelude.{◌≡◌, ◌<◌, ◌^◌, length, vec_len, vec_capacity, OnOk, IfOk, IfErr};
ghost use Rattle.hist_lock.specs.Histories.{AddsOne};

use crate::serial::Serial;
use crate::table::Held;
use std::alloc::AllocError;

/// The most entries of a history.
const MOST_ENTRIES: u64 = (1 << 63) - 1;

/// Makes room for one entry more. A full log grows to eight times what it was, since whoever copies it has the lock; without memory for that, by as little as it can.
#[inline(always)]
fn make_room<E>(log: &mut Vec<E>) -> Result<(), AllocError>
    ensures items { log.new.items ≡ log.old.items }
    ensures room { OnOk result (vec_len log.new < vec_capacity log.new) }
{
    if log.len() < log.capacity() {
        return Ok(());
    }
    match log.reserve(log.len().saturating_mul(7).saturating_add(1)) {
        Ok(()) => Ok(()),
        Err(_) => log.reserve(1),
    }
}

impl<O: Serial> Held<O, <O as Serial>::Entry> {
    /// Makes one step and keeps its entry. There is room for the entry before the step is made, and its number fits the word of the lock.
    pub(crate) fn step(&mut self, actor: u32, ev: O::Ev) -> Result<O::Reply, (AllocError, O::Ev)>
        requires fits { O.fits (O.tag self.old.object) ev }
        requires few { length self.old.log.items < 2 ^ 63 }
        ensures ok { IfOk result (λ r. AddsOne O.state O.by (O.tells (O.tag self.old.object)) O.steps self.old self.new actor ev r) }
        ensures err { IfErr result (λ r. (O.state self.new.object ≡ O.state self.old.object) × (self.new.log.items ≡ self.old.log.items) × O.same ev r.1) }
        ensures few { length self.new.log.items < 2 ^ 63 }
        ensures tag { O.tag self.new.object ≡ O.tag self.old.object }
    {
        if self.log.len() as u64 == MOST_ENTRIES || make_room(&mut self.log).is_err() {
            return Err((AllocError, ev));
        }
        let (entry, reply) = self.object.step(actor, ev)?;
        if let Err(_) = self.log.push(entry) {
            unreachable!()
        }
        Ok(reply)
    }
}
