ghost use Rattle.std.specs.Prelude.{◌≡◌, ◌+◌, ◌%◌, ◌^◌, ◌<◌, ◌≤◌, ◌-◌, ◌↔◌, IsTrue};

/// A sequence number of TCP, which counts modulo 2^32 (RFC 9293, section 3.4).
#[derive(Clone, Copy, Debug, PartialEq, Eq)]
pub struct Seq(pub u32);

impl Seq {
    /// The sequence number `n` after this one.
    pub fn add(self, n: u32) -> Seq
        ensures { result.0 ≡ (self.0 + n) % 2 ^ 32 }
    {
        Seq(self.0.wrapping_add(n))
    }

    /// How far this one lies after `o`.
    pub fn minus(self, o: Seq) -> u32
        ensures { result ≡ (self.0 + 2 ^ 32 - o.0) % 2 ^ 32 }
    {
        self.0.wrapping_sub(o.0)
    }

    /// Whether this one lies before `o`, by less than half of the numbers.
    pub fn before(self, o: Seq) -> bool
        ensures { IsTrue result ↔ ((0 < (o.0 + 2 ^ 32 - self.0) % 2 ^ 32) × ((o.0 + 2 ^ 32 - self.0) % 2 ^ 32 < 2 ^ 31)) }
    {
        let distance = o.minus(self);
        0 < distance && distance < 1 << 31
    }
}
