ghost use Rattle.std.specs.Prelude.{◌≡◌, ◌≤◌, ◌+◌, ◌++◌, length, take, drop, OnOk};

use crate::NoMemory;
use std::marker::Model;

/// The octets behind an IPv4 header, in two parts: a head, and the data behind it. Contracts see them
/// as one list; nothing is joined before it stands in its frame.
#[derive(Drop)]
pub struct Body<'a> {
    front: &'a [u8],
    rest: &'a [u8],
}

impl<'a> Model for Body<'a> {
    ghost use Rattle.std.specs.Prelude.{ℕ, List, ◌++◌};

    ghost Value = { List ℕ };

    ghost view = { λ b. b.front.now ++ b.rest.now };
}

impl<'a> Body<'a> {
    /// These octets, and behind them those.
    pub fn new(front: &'a [u8], rest: &'a [u8]) -> Body<'a>
        ensures { result ≡ front.now ++ rest.now }
    {
        Body { front, rest }
    }

    /// How many octets there are.
    pub fn len(&self) -> usize
        ensures { result ≡ length self.now }
    {
        self.front.len() + self.rest.len()
    }

    /// Appends `len` octets from a place on.
    pub(crate) fn write(&self, from: usize, len: usize, out: &mut Vec<u8>) -> Result<(), NoMemory>
        requires { from + len ≤ length self.now }
        ensures { OnOk result (out.new.items ≡ out.old.items ++ take len (drop from self.now)) }
    {
        out.extend_from_slice(range(self.front, from, len))?;
        let begun = from.max(self.front.len());
        let left = (from + len).saturating_sub(begun);
        out.extend_from_slice(range(self.rest, begun - self.front.len(), left))?;
        Ok(())
    }
}

/// As many of `len` octets from a place on as there are.
fn range(octets: &[u8], from: usize, len: usize) -> &[u8]
    ensures { result.now ≡ take len (drop from octets.now) }
{
    let (_, behind) = octets.split_at(from.min(octets.len()));
    let (part, _) = behind.split_at(len.min(behind.len()));
    part
}
