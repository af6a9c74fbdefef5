//! What a sink took, in proofs alone.
ghost use Rattle.std.specs.Prelude.{◌≡◌, ◌++◌, ℕ, List, [], take};
ghost use Rattle.std.specs.Coded.{coded_ℕ, coded_list};
ghost use base.Fml.{ftrue};

use std::marker::Model;

// The octets that a sink took. It takes no memory.
#[derive(Drop)]
pub struct SinkLog {
    pub ghost took: { List ℕ } by { coded_list coded_ℕ },
}

impl Model for SinkLog {
    ghost also_owns = { λ _. ftrue };
}

// The front of a piece: so many of its octets.
#[derive(Clone, Copy, Drop)]
pub struct Front<'a> {
    pub piece: &'a [u8],
    pub count: usize,
}

impl SinkLog {
    // Nothing was taken.
    pub fn new() -> SinkLog
        ensures { result.took ≡ [] }
    {
        SinkLog {}
    }

    // A front of a piece more was taken.
    #[inline(always)]
    pub fn then(&self, _front: &Front<'_>) -> SinkLog
        ensures { result.took ≡ self.now.took ++ take _front.now.count _front.now.piece.now }
    {
        SinkLog {}
    }
}
