//! Those who call the object under the lock.
use crate::serial::Serial;
use crate::table::Place;
use std::marker::Model;

/// One caller. Contracts see its number, how many it has split off, the beginning of the history that it has seen, and the entries that it made.
pub struct Caller<O: Serial> {
    pub(crate) seat: Place<O>,
    pub(crate) number: u32,
    pub(crate) splits: u32,
    /// The word of the lock as it left it last, which is tried first. No contract speaks of it.
    pub(crate) word: u64,
}

impl<O: Serial> Model for Caller<O> {
    ghost use Rattle.hist_lock.specs.Callers.{Known, known, IsResting};

    ghost Value = { Known O O.Entry };

    ghost view = { λ c. known c.seat c.number c.splits };

    ghost invariant = { λ c. IsResting c.seat c.number c.splits };
}

impl<O: Serial> Caller<O> {
    ghost use Rattle.std.specs.Prelude.{◌≡◌, []};
    ghost use Rattle.hist_lock.specs.Views.{alone};
    ghost use Rattle.hist_lock.specs.Callers.{part_from};
    ghost use Rattle.hist_lock.specs.declared.table.Stage.TheVariants.{Idle};

    /// The number that its entries bear.
    pub fn number(&self) -> u32
        ensures { result ≡ self.now.number }
    {
        self.number
    }

    pub(crate) fn into_seat(self) -> Place<O>
        ensures table { result.table_id ≡ self.lock }
        ensures resting { result.me ≡ (alone self.start Idle (part_from self), []) }
    {
        let Self {
            seat,
            number: _,
            splits: _,
            word: _,
        } = self;
        seat
    }
}

impl<O: Serial> Drop for Caller<O> {
    fn drop(self) {
        let Self {
            seat,
            number: _,
            splits: _,
            word: _,
        } = self;
        drop(seat);
    }
}
