//! The frames that were sent, in proofs alone.
ghost use Rattle.std.specs.Prelude.{◌≡◌, ℕ, List, [], ◌∷◌, ◌++◌};
ghost use Rattle.std.specs.Coded.{coded_ℕ, coded_list};
ghost use base.Fml.{ftrue};

use crate::Octets;
use std::marker::Model;

/// The frames that were sent, in order. A contract reads them as `frames`; a program can't read
/// them, and keeps no octet of them.
#[derive(Drop)]
pub struct FrameLog {
    pub ghost frames: { List (List ℕ) } by { coded_list (coded_list coded_ℕ) },
}

impl Model for FrameLog {
    ghost also_owns = { λ _. ftrue };
}

impl FrameLog {
    /// No frame was sent.
    pub fn new() -> FrameLog
        ensures { result.frames ≡ [] }
    {
        FrameLog {}
    }

    /// One frame more was sent.
    #[inline(always)]
    pub fn then(&self, _frame: &Octets) -> FrameLog
        ensures { result.frames ≡ self.now.frames ++ _frame.now ∷ [] }
    {
        FrameLog {}
    }
}
