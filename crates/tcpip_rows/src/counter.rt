//! A number to which calls add.
ghost use Rattle.std.specs.Prelude.{◌≡◌, ℕ, refl};
ghost use Rattle.tcpip_rows.specs.Additions.{IsAddition};

use hist_lock::Serial;
use std::alloc::AllocError;

/// The number. Its steps add an amount, and answer the sum.
#[derive(Drop)]
pub struct Counter {
    pub total: u64,
}

/// The entry of one step: who added how much.
#[derive(Drop)]
pub struct Addition {
    pub by: u32,
    pub amount: u64,
}

impl Serial for Counter {
    type Ev = u64;

    type Reply = u64;

    type Entry = Addition;

    ghost State = { ℕ };

    ghost Tag = { Unit {0} };

    ghost state = { λ c. c.total };

    ghost tag = { λ _. tt };

    ghost fits = { λ _ _. Unit {0} };

    ghost by = { λ e. e.by };

    ghost same = { λ amount back. back ≡ amount };

    ghost tells = { λ _ e amount _. e.amount ≡ amount };

    ghost steps = { IsAddition };

    ghost itself = { λ _. refl };

    fn step(&mut self, actor: u32, ev: u64) -> Result<(Addition, u64), (AllocError, u64)> {
        self.total = self.total.wrapping_add(ev);
        let entry = Addition {
            by: actor,
            amount: ev,
        };
        Ok((entry, self.total))
    }
}
