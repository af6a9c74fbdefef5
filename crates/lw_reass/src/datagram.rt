ghost use Rattle.std.specs.Prelude.{◌≡◌, ℕ, ◌+◌, ◌^◌, ◌<◌, ◌≤◌, ◌&&◌, ◌||◌, true, false, List, [], ◌∷◌, length};
ghost use Rattle.std.specs.List.{All};
ghost use Rattle.lw_runs.specs.Positions.{overlaps};
ghost use Rattle.lw_runs.specs.Kept.{Holds, Stand};
ghost use Rattle.lw_reass.specs.Datagrams.{fits as fits_in, same_key, key_of, ends_behind as is_behind, opened, completes as makes_whole, with_fragment, end_with as the_end, head_with as the_head};
ghost use Rattle.lw_reass.specs.Opens.{datagram as seen_as, IsOpen};

use lw_base::{Ip, IpHead};
use lw_payload::Payload;
use lw_runs::Runs;

/// How many octets of data a datagram has at most.
pub const LONGEST: u32 = 65_535;

/// What the fragments of a datagram have in common.
#[derive(Clone, Copy, Debug, PartialEq, Eq)]
pub struct Key {
    pub src: Ip,
    pub dst: Ip,
    pub id: u16,
    pub proto: u8,
}

/// A datagram that is open.
#[derive(Drop)]
pub struct Open<P: Payload> {
    pub key: Key,
    pub age: u32,
    pub end: Option<u32>,
    pub head: Option<IpHead>,
    pub runs: Runs<P>,
}

impl<P: Payload> Open<P> {
    /// The datagram of a fragment before any came; `runs` is empty.
    pub fn new(h: &IpHead, runs: Runs<P>) -> Open<P>
        requires { runs.octets ≡ [] }
        ensures datagram { seen_as result ≡ opened h.now }
        ensures runs { result.runs ≡ runs }
    {
        Open {
            key: Key {
                src: h.src,
                dst: h.dst,
                id: h.id,
                proto: h.proto,
            },
            age: 0,
            end: None,
            head: None,
            runs,
        }
    }

    /// Whether a fragment is of this datagram, by its key.
    pub fn is_of(&self, h: &IpHead) -> bool
        ensures { result ≡ same_key self.now.key (key_of h.now) }
    {
        let key = &self.key;
        key.src.0 == h.src.0 && key.dst.0 == h.dst.0 && key.id == h.id && key.proto == h.proto
    }

    /// Whether a fragment of `n` octets has a length and an end that its datagram can have.
    pub fn fits(&self, h: &IpHead, n: u32) -> bool
        ensures { result ≡ fits_in (seen_as self.now) h.now n }
    {
        if n > LONGEST || h.offset > LONGEST - n {
            return false;
        }
        let to = h.offset + n;
        n > 0
            && (!h.mf || n % 8 == 0)
            && ends_behind(self.end, to)
            && (h.mf || self.runs.reach() <= to)
    }

    /// Whether a fragment of `n` octets that fits it and overlaps none makes it whole.
    pub fn completes(&self, h: &IpHead, n: u32) -> bool
        requires open { IsOpen P.seen self.now }
        requires fits { fits_in (seen_as self.now) h.now n ≡ true }
        requires free { overlaps self.now.runs.octets h.now.offset n ≡ false }
        ensures { result ≡ makes_whole (seen_as self.now) h.now n }
    {
        match end_with(self.end, h, n) {
            Some(end) => end == self.runs.count() + n,
            None => false,
        }
    }

    /// Puts a fragment in.
    pub fn keep(&mut self, h: &IpHead, body: P)
        requires short { length (P.seen body).octets < 2 ^ 32 }
        requires fits { fits_in (seen_as self.old) h.now (length (P.seen body).octets) ≡ true }
        requires free { overlaps self.old.runs.octets h.now.offset (length (P.seen body).octets) ≡ false }
        requires family { All (λ p. (P.seen p).family ≡ (P.seen body).family) self.old.runs.bodies }
        requires room { 0 < self.old.runs.room }
        ensures datagram { seen_as self.new ≡ with_fragment (seen_as self.old) h.now (P.seen body).octets }
        ensures bodies { Holds P.seen (body ∷ self.old.runs.bodies) self.new.runs.bodies }
        ensures stand { Stand P.seen self.new.runs.octets self.new.runs.bodies }
    {
        self.end = end_with(self.end, h, body.len());
        self.head = head_with(self.head, h);
        self.runs.keep(h.offset, body);
    }
}

/// Whether nothing is known to end before a position.
fn ends_behind(end: Option<u32>, to: u32) -> bool
    ensures { result ≡ is_behind end to }
{
    match end {
        Some(end) => to <= end,
        None => true,
    }
}

/// The end of a datagram after a fragment of `n` octets.
pub fn end_with(end: Option<u32>, h: &IpHead, n: u32) -> Option<u32>
    requires { h.now.offset + n < 2 ^ 32 }
    ensures { result ≡ the_end end h.now n }
{
    if h.mf { end } else { Some(h.offset + n) }
}

/// The header that the whole is to have, after a fragment.
pub fn head_with(head: Option<IpHead>, h: &IpHead) -> Option<IpHead>
    ensures { result ≡ the_head head h.now }
{
    if h.offset == 0 { Some(*h) } else { head }
}
