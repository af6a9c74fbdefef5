//! The lock.
ghost use Rattle.std.specs.Prelude.{◌≡◌, ◌<◌, [], length, map, All, Some};
ghost use Rattle.hist_lock.specs.Callers.{IsBoard, part_from};
ghost use Rattle.hist_lock.specs.declared.table.Stage.TheVariants.{Idle};

use crate::caller::Caller;
use crate::plays::{Count, Gather, Hear, Learn, Make, Tell};
use crate::serial::Serial;
use crate::table::{Board, Held, Place, Steps};
use crate::turn::{step_and_give, take};
use atomic_table::{Refused, Table};
use std::alloc::{AllocError, AllocFailed, Global};
use std::marker::Model;
use std::snapshot::Snapshot;
use std::sync::Wait;

/// The lock, which threads share by reference. Contracts see which one it is, and its object as it began.
/// Callers take it in no order, and no clause says that a caller ever gets it.
#[derive(Drop)]
pub struct HistLock<O: Serial> {
    table: Board<O>,
}

impl<O: Serial> Model for HistLock<O> {
    ghost use Rattle.hist_lock.specs.Callers.{Begun, IsBoard};

    ghost Value = { Begun O };

    ghost view = { λ h. record { lock = h.table.shared.table_id; start = h.table.shared.key.value } };

    ghost invariant = { λ h. IsBoard h.table.shared.table_id };
}

fn object_of<O, E>(held: Held<O, E>) -> O
    requires { held.log.items ≡ [] }
    ensures { result ≡ held.object }
{
    let Held { object, log } = held;
    log.destroy_empty();
    object
}

fn gather<O: Serial>(steps: &Steps<O>, mut callers: Vec<Caller<O>>) -> Place<O>
    requires board { IsBoard steps.now.table_id }
    requires some { 0 < length callers.items }
    requires own { All (λ c. (c.lock ≡ steps.now.table_id) × (c.start ≡ Some steps.now.key.value)) callers.items }
    ensures table { result.table_id ≡ steps.now.table_id }
    ensures parts { result.me ≡ (record { start = Some steps.now.key.value; stage = Idle; told = []; parts = map part_from callers.items }, []) }
{
    let Some(last) = callers.pop() else {
        unreachable!()
    };
    let mut seat = last.into_seat();
    while let Some(caller) = callers.pop() {
        steps.join_seat::<Gather>(&mut seat, caller.into_seat());
    }
    callers.destroy_empty();
    seat
}

impl<O: Serial> HistLock<O> {
    ghost use Rattle.std.specs.Prelude.{◌≡◌, ◌+◌, ◌<◌, ◌^◌, [], length, map, All, Some, IfOk, IfErr};
    ghost use mathlib.Core.List.{IsPrefix};
    ghost use Rattle.hist_lock.specs.Histories.{Legal, made_by, longer};
    ghost use Rattle.hist_lock.specs.Callers.{IsCallerOf, IsSameCaller, Extends, HasHistory, IsAll, IsNumbered};

    /// The lock with an empty history, and its first caller, whose number is 0. Without memory the object comes back.
    pub fn new(alloc: Global, object: O) -> Result<(HistLock<O>, Caller<O>), (AllocError, O)>
        ensures ok { IfOk result (λ r. (r.0.start ≡ object) × (r.1 ≡ record { lock = r.0.lock; start = Some object; number = 0; splits = 0; seen = []; mine = [] })) }
        ensures err { IfErr result (λ r. r.1 ≡ object) }
    {
        let start = Snapshot::of(&object);
        let mut slots = Vec::new(alloc);
        let held = Held {
            object,
            log: Vec::new(alloc),
        };
        if let Err(AllocFailed { value }) = slots.push(held) {
            slots.destroy_empty();
            return Err((AllocError, object_of(value)));
        }
        match Table::new(alloc, &[0; 16], slots, &start) {
            Ok((table, seat)) => Ok((
                HistLock { table },
                Caller {
                    seat,
                    number: 0,
                    splits: 0,
                    word: 0,
                },
            )),
            Err(Refused { mut slots }) => {
                let Some(slot) = slots.pop() else {
                    unreachable!()
                };
                slots.destroy_empty();
                Err((AllocError, object_of(slot)))
            }
        }
    }

    /// Waits until the lock is free, and makes one step. Without memory no entry is made, and the event comes back.
    pub fn call<R: Wait>(
        &self,
        rt: &R,
        who: &mut Caller<O>,
        ev: O::Ev,
    ) -> Result<O::Reply, (AllocError, O::Ev)>
        requires own { IsCallerOf self.now who.old }
        requires fits { O.fits (O.tag self.now.start) ev }
        ensures same { IsSameCaller who.old who.new }
        ensures ok { IfOk result (λ r. Extends O.by (O.tells (O.tag self.now.start)) who.old ev r who.new) }
        ensures err { IfErr result (λ r. O.same ev r.1 × IsPrefix who.old.seen who.new.seen × (who.new.mine ≡ who.old.mine)) }
        ensures history { HasHistory O.state O.by O.steps self.now.start who.new }
    {
        let steps = &self.table.shared;
        take(rt, steps, &mut who.seat, who.word);
        step_and_give(steps, &mut who.seat, &mut who.word, who.number, ev)
    }

    /// A second caller with the next number, which has seen what the first has, and made no entry.
    pub fn split(&self, mut who: Caller<O>) -> (Caller<O>, Caller<O>)
        requires own { IsCallerOf self.now who }
        requires first { (who.number ≡ 0) × (who.splits + 1 < 2 ^ 32) }
        ensures first { result.0 ≡ record who { splits = who.splits + 1 } }
        ensures second { result.1 ≡ record who { number = who.splits + 1; splits = 0; mine = [] } }
    {
        let seat = self.table.shared.split_seat::<Make>(&mut who.seat);
        who.splits += 1;
        let number = who.splits;
        (
            who,
            Caller {
                seat,
                number,
                splits: 0,
                word: 0,
            },
        )
    }

    /// How many entries the history has, which the caller has then seen. It waits for nobody.
    pub fn front(&self, who: &mut Caller<O>) -> u64
        requires own { IsCallerOf self.now who.old }
        ensures same { IsSameCaller who.old who.new × (who.new.mine ≡ who.old.mine) }
        ensures seen { (result ≡ length who.new.seen) × IsPrefix who.old.seen who.new.seen }
        ensures history { HasHistory O.state O.by O.steps self.now.start who.new }
    {
        self.table.shared.load::<Count<O>>(&mut who.seat, 0) / 2
    }

    /// The first caller has then seen the longer of what the two had seen. It waits for nobody.
    pub fn learn(&self, who: &mut Caller<O>, other: &mut Caller<O>)
        requires own { IsCallerOf self.now who.old }
        requires other { IsCallerOf self.now other.old }
        ensures who { who.new ≡ record who.old { seen = longer who.old.seen other.old.seen } }
        ensures both { IsPrefix who.old.seen who.new.seen × IsPrefix other.old.seen who.new.seen }
        ensures other { other.new ≡ other.old }
        ensures history { HasHistory O.state O.by O.steps self.now.start who.new }
    {
        let steps = &self.table.shared;
        let note = steps.split_seat::<Tell>(&mut other.seat);
        steps.join_seat::<Learn>(&mut who.seat, note);
        steps.load::<Hear<O>>(&mut who.seat, 0);
    }

    /// The object and the whole history, once all callers are given back. The first caller stands at the head.
    pub fn close(self, callers: Vec<Caller<O>>) -> (O, Vec<O::Entry>)
        requires own { All (λ c. IsCallerOf self c) callers.items }
        requires all { IsAll callers.items }
        ensures legal { Legal O.steps (O.state self.start) result.1.items (O.state result.0) }
        ensures tag { O.tag result.0 ≡ O.tag self.start }
        ensures seen { All (λ c. IsPrefix c.seen result.1.items) callers.items }
        ensures made { All (λ c. made_by O.by c.number result.1.items ≡ c.mine) callers.items }
        ensures entries { All (λ e. O.by e < length callers.items) result.1.items }
        ensures numbers { IsNumbered (map (λ c. c.number) callers.items) }
    {
        let Self { table } = self;
        let seat = gather(&table.shared, callers);
        let mut closed = table.close_with(seat);
        let Held { object, log } = closed.take(0);
        closed.free();
        (object, log)
    }
}
