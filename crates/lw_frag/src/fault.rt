ghost use Rattle.std.specs.Prelude.{◌≡◌};
ghost use Rattle.lw_frag.specs.declared.fault.SplitFault.TheVariants.{NoMemory};

use std::alloc::AllocError;

/// Why a packet is not split: it may not be (DF is set) and does not fit, or memory is wanting.
#[derive(Clone, Copy, Debug, Drop, PartialEq, Eq)]
pub enum SplitFault {
    DontFragment,
    NoMemory,
}

impl From<AllocError> for SplitFault {
    ghost from_gives = { λ _ fault. fault ≡ NoMemory };

    fn from(_failed: AllocError) -> SplitFault {
        SplitFault::NoMemory
    }
}
