ghost use Rattle.std.specs.Prelude.{◌≡◌};
ghost use Rattle.lw_pcap.specs.Faults.{fault_at};
ghost use Rattle.lw_pcap.specs.declared.fault.PcapFault.TheVariants.{NoMemory};

use std::alloc::AllocError;
use thiserror::Error;

/// Why octets are no capture. `at` is the offset, in octets, of the record that fails, and 0 where
/// the file's header is cut.
#[derive(Clone, Copy, Debug, Drop, Error, PartialEq, Eq)]
pub enum PcapFault {
    #[error("no capture: the magic is unknown")]
    BadMagic,
    #[error("no capture of version 2.4")]
    BadVersion,
    #[error("no capture of Ethernet frames")]
    BadLink,
    #[error("the capture is cut at {at}")]
    Truncated { at: usize },
    #[error("the frame at {at} is too long")]
    TooLong { at: usize },
    #[error("out of memory")]
    NoMemory,
}

impl PcapFault {
    /// The offset of the header or record that fails, in octets.
    pub fn offset(self) -> usize
        ensures { result ≡ fault_at self }
    {
        match self {
            PcapFault::Truncated { at } | PcapFault::TooLong { at } => at,
            PcapFault::BadMagic | PcapFault::BadVersion | PcapFault::BadLink => 0,
            PcapFault::NoMemory => 0,
        }
    }
}

impl From<AllocError> for PcapFault {
    ghost from_gives = { λ _ fault. fault ≡ NoMemory };

    fn from(_failed: AllocError) -> PcapFault {
        PcapFault::NoMemory
    }
}
