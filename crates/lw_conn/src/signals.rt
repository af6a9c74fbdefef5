ghost use Rattle.std.specs.Prelude.{◌≡◌, ◌<◌, length, slice_index_or};
ghost use Rattle.lw_conn.specs.Signals.{count, no_signals, raised};

use std::marker::Model;

/// How many signals there are.
const SIGNALS: usize = 16;

/// How often each signal came. Contracts see a list by their numbers from 0. A count stands still at its
/// last value.
#[derive(Drop)]
pub struct Signals {
    counts: [u32; SIGNALS],
}

impl Model for Signals {
    ghost use Rattle.std.specs.Prelude.{◌≡◌, ℕ, List, length};

    ghost Value = { List ℕ };

    ghost view = { λ s. s.counts };
}

impl Signals {
    /// No signal came.
    pub fn new() -> Signals
        ensures { result ≡ no_signals }
    {
        Signals {
            counts: [0; SIGNALS],
        }
    }

    /// How often a signal came.
    pub fn count(&self, signal: u32) -> u32
        requires there { signal < 16 }
        ensures { result ≡ count self.now signal }
    {
        self.counts[signal as usize]
    }

    /// A signal comes once more.
    pub fn raise(&mut self, signal: u32)
        requires there { signal < 16 }
        ensures { self.new ≡ raised self.old signal }
    {
        let count = self.counts[signal as usize];
        self.counts[signal as usize] = count.saturating_add(1);
    }
}
