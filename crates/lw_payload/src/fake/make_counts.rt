ghost use Rattle.std.specs.Prelude.{◌≡◌, ◌+◌, ◌-◌, ◌*◌, ◌^◌, ◌<◌, ◌≤◌, min};
ghost use Rattle.lw_payload.specs.Views.{pool_one, pbufs_of};
ghost use Rattle.lw_payload.specs.Calls.{last_of, asked_after};

use crate::Kind;

/// What a pool counts of its makes of POOL: the payloads that it made, those that it refused as Empty, how many octets the
/// last of these was to have, and how many pbufs it was asked for.
#[derive(Clone, Copy, Debug, PartialEq, Eq)]
pub struct MakeCounts {
    pub made: u64,
    pub refused: u64,
    pub last_refused: u32,
    pub asked: u64,
}

impl MakeCounts {
    /// Counts a payload of so many octets that is made.
    pub(crate) fn granted(self, kind: Kind, octets: u32) -> MakeCounts
        requires { kind ≡ Kind.Pool → self.made + 1 < 2 ^ 64 }
        ensures least { self.asked ≤ result.asked }
        ensures more { min (self.asked + pool_one kind * pbufs_of kind octets) (2 ^ 64 - 1) ≤ result.asked }
        ensures exact { result ≡ record self { made = self.made + pool_one kind; asked = asked_after kind octets self.asked } }
    {
        match kind {
            Kind::Pool => MakeCounts {
                made: self.made + 1,
                asked: self.asked.saturating_add(u64::from(kind.pbufs(octets))),
                ..self
            },
            Kind::Ram | Kind::Rom | Kind::Ref => self,
        }
    }

    /// Counts one that is refused.
    pub(crate) fn denied(self, kind: Kind, octets: u32) -> MakeCounts
        requires { kind ≡ Kind.Pool → self.refused + 1 < 2 ^ 64 }
        ensures least { self.asked ≤ result.asked }
        ensures more { min (self.asked + pool_one kind * pbufs_of kind octets) (2 ^ 64 - 1) ≤ result.asked }
        ensures exact { result ≡ record self { refused = self.refused + pool_one kind; last_refused = last_of kind octets self.last_refused; asked = asked_after kind octets self.asked } }
    {
        match kind {
            Kind::Pool => MakeCounts {
                refused: self.refused + 1,
                last_refused: octets,
                asked: self.asked.saturating_add(u64::from(kind.pbufs(octets))),
                ..self
            },
            Kind::Ram | Kind::Rom | Kind::Ref => self,
        }
    }
}
