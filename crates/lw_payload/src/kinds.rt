ghost use Rattle.std.specs.Prelude.{◌≡◌};
ghost use Rattle.lw_payload.specs.Views.{pbufs_of};
ghost use Rattle.lw_payload.specs.Fake.{same_kind, number_of};

use std::alloc::AllocError;

/// What the octets of a payload stand in (lwIP's `pbuf_type`).
#[derive(Clone, Copy, Debug, PartialEq, Eq)]
pub enum Kind {
    /// One slot of 1,600 octets.
    Ram,
    /// Pbufs of 512 octets each, the last with the rest.
    Pool,
    /// One descriptor, of octets that never change.
    Rom,
    /// One descriptor, of octets that somebody else keeps.
    Ref,
}

impl Kind {
    /// How many pbufs of this kind so many octets take.
    pub fn pbufs(self, octets: u32) -> u32
        ensures { result ≡ pbufs_of self octets }
    {
        match self {
            Kind::Pool => octets / 512 + u32::from(octets % 512 != 0),
            Kind::Ram | Kind::Rom | Kind::Ref => octets.min(1),
        }
    }

    fn number(self) -> u8
        ensures { result ≡ number_of self }
    {
        match self {
            Kind::Ram => 0,
            Kind::Pool => 1,
            Kind::Rom => 2,
            Kind::Ref => 3,
        }
    }

    /// Whether this is the same kind as `other`.
    pub fn is(self, other: Kind) -> bool
        ensures { result ≡ same_kind self other }
    {
        self.number() == other.number()
    }
}

/// Why no payload was made.
#[derive(Clone, Copy, Debug, PartialEq, Eq)]
pub enum MakeFault {
    /// Fewer pbufs of this kind are free than it takes.
    Empty(Kind),
    /// More octets than a payload of the kind can have.
    TooLong,
    NoMemory,
}

/// Why a payload wasn't shared.
#[derive(Clone, Copy, Debug, PartialEq, Eq)]
pub enum ShareFault {
    /// No share is left.
    TooMany,
    NoMemory,
}

impl From<AllocError> for MakeFault {
    ghost use Rattle.std.specs.Prelude.{◌≡◌};
    ghost use Rattle.lw_payload.specs.declared.kinds.MakeFault.{MakeFault};

    ghost from_gives = { λ _ fault. fault ≡ MakeFault.NoMemory };

    fn from(_error: AllocError) -> MakeFault {
        MakeFault::NoMemory
    }
}

impl From<AllocError> for ShareFault {
    ghost use Rattle.std.specs.Prelude.{◌≡◌};
    ghost use Rattle.lw_payload.specs.declared.kinds.ShareFault.{ShareFault};

    ghost from_gives = { λ _ fault. fault ≡ ShareFault.NoMemory };

    fn from(_error: AllocError) -> ShareFault {
        ShareFault::NoMemory
    }
}
