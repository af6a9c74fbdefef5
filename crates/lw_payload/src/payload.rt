ghost use Rattle.std.specs.Prelude.{◌≡◌, ℕ, ◌+◌, ◌-◌, ◌^◌, ◌<◌, ◌≤◌, ◌↔◌, ◌++◌, length, take, drop, slice_range, true, IsTrue, IsOk, IsSome, IfOk, OnOk, OnErr};
ghost use Rattle.lw_payload.specs.declared.kinds.Kind.{Kind};
ghost use Rattle.lw_payload.specs.Views.{View, HomeView, IsOf, IsShort, IsTooLong};
ghost use Rattle.lw_payload.specs.Calls.{IsMade, IsRefused, KeepsHome, IsCut, IsSameButRoom, IsJoined, IsShared, IsSpent};

use crate::{Kind, MakeFault, NoMemory, ShareFault};
use std::alloc::Global;

/// What the stack carries: octets in parts, which a `Home` gives out and takes back. Octets and parts are counted in
/// `u32`.
pub trait Payload: Drop + Sized {
    /// Where payloads are made and where they are given up: the pools of their pbufs.
    type Home;

    // What contracts see of a payload.
    ghost seen: { Self → View };

    // What contracts see of a Home.
    ghost home_seen: { Self.Home → HomeView };

    // When a make of so many octets of this kind may be refused as Empty, from the Home before and after it.
    ghost may_refuse: { Self.Home → Self.Home → Kind → ℕ → Type 0 };

    // When it has to be.
    ghost must_refuse: { Self.Home → Kind → ℕ → Type 0 };

    // How many pbufs end as the payload is given up, from the Home before and after it.
    ghost frees: { Self → Self.Home → Self.Home → ℕ → Type 0 };

    /// A payload of these octets. `TooLong` is looked at first. `Empty` names the kind that was asked for.
    fn make(
        alloc: Global,
        home: &mut Self::Home,
        kind: Kind,
        octets: &[u8],
    ) -> Result<Self, MakeFault>
        requires makes { IsTrue ((home_seen home.old).pools.makes kind) }
        requires countable { kind ≡ Kind.Pool → (home_seen home.old).counts.made + (home_seen home.old).counts.refused < 2 ^ 64 - 1 }
        requires short { length octets.now < 2 ^ 32 }
        ensures made { IfOk result (λ p. IsMade (home_seen home.old) (home_seen home.new) kind octets.now (seen p)) }

        // When it succeeds: not where it is too long, has to be refused, or too few pbufs of a kept kind are free.
        ensures fits { IsOk result → ¬ IsTooLong (home_seen home.old) kind (length octets.now) }
        ensures not_refused { IsOk result → ¬ must_refuse home.old kind (length octets.now) }
        ensures enough { IsOk result → ¬ IsShort (home_seen home.old) kind (length octets.now) }

        // When each fault comes, and what it leaves.
        ensures empty { (k : Kind) → result ≡ Err (MakeFault.Empty k) → (k ≡ kind)
            × may_refuse home.old home.new kind (length octets.now)
            × IsRefused (home_seen home.old) (home_seen home.new) kind (length octets.now) }
        ensures kept_short { (k : Kind) → result ≡ Err (MakeFault.Empty k)
            → IsSome ((home_seen home.old).pools.size kind) → IsShort (home_seen home.old) kind (length octets.now) }
        ensures empty_fits { (k : Kind) → result ≡ Err (MakeFault.Empty k) → ¬ IsTooLong (home_seen home.old) kind (length octets.now) }
        ensures too_long { result ≡ Err MakeFault.TooLong → IsTooLong (home_seen home.old) kind (length octets.now)
            × (home_seen home.new ≡ home_seen home.old) }
        ensures no_memory { result ≡ Err MakeFault.NoMemory → home_seen home.new ≡ home_seen home.old }
        ensures keeps { KeepsHome (home_seen home.old) (home_seen home.new) kind (length octets.now) };

    /// Puts these octets in the place of the old ones. Takes no memory.
    fn refill(&mut self, home: &mut Self::Home, octets: &[u8])
        requires of_home { IsOf (home_seen home.old) (seen self.old) }
        requires fresh { (seen self.old).fresh ≡ true }
        requires within { length octets.now ≤ length (seen self.old).octets }
        ensures { IsCut (home_seen home.old) (home_seen home.new) (seen self.old) (seen self.new) octets.now };

    /// How many octets there are.
    fn len(&self) -> u32
        requires { length (seen self.now).octets < 2 ^ 32 }
        ensures { result ≡ length (seen self.now).octets };

    /// In how many parts they stand; no part is without an octet.
    fn parts(&self) -> u32
        requires { length (seen self.now).octets < 2 ^ 32 }
        ensures exact { result ≡ (seen self.now).parts }
        ensures few { (seen self.now).parts ≤ length (seen self.now).octets };

    /// Copies the octets from `from` on until `out` is full.
    fn copy_at(&self, from: u32, out: &mut [u8])
        requires short { length (seen self.now).octets < 2 ^ 32 }
        requires within { from + length out.old ≤ length (seen self.now).octets }
        ensures { out.new ≡ slice_range (seen self.now).octets from (from + length out.old) };

    /// Cuts the first `n` octets off. Takes no memory.
    fn cut_front(&mut self, home: &mut Self::Home, n: u32)
        requires of_home { IsOf (home_seen home.old) (seen self.old) }
        requires within { n ≤ length (seen self.old).octets }
        ensures { IsCut (home_seen home.old) (home_seen home.new) (seen self.old) (seen self.new) (drop n (seen self.old).octets) };

    /// Cuts the last `n` octets off. Takes no memory.
    fn cut_back(&mut self, home: &mut Self::Home, n: u32)
        requires of_home { IsOf (home_seen home.old) (seen self.old) }
        requires within { n ≤ length (seen self.old).octets }
        ensures { IsCut (home_seen home.old) (home_seen home.new) (seen self.old) (seen self.new) (take (length (seen self.old).octets - n) (seen self.old).octets) };

    /// Makes room for `n` parts of others, all that `join` takes over together.
    fn room(&mut self, n: u32) -> Result<(), NoMemory>
        requires { length (seen self.old).octets < 2 ^ 32 }
        ensures same { IsSameButRoom (seen self.old) (seen self.new) }
        ensures ok { OnOk result (n ≤ (seen self.new).room) };

    /// Puts the octets of another payload behind these. Takes no memory, since it needs the room.
    fn join(&mut self, other: Self)
        requires family { (seen other).family ≡ (seen self.old).family }
        requires room { (seen other).parts ≤ (seen self.old).room }
        requires short { length (seen self.old).octets + length (seen other).octets < 2 ^ 32 }
        ensures { IsJoined (seen self.old) (seen other) (seen self.new) };

    /// A payload of the same octets, of which both are owners. `TooMany` is looked at first.
    fn share(&mut self, home: &mut Self::Home) -> Result<Self, ShareFault>
        requires { IsOf (home_seen home.old) (seen self.old) }
        ensures shared { IfOk result (λ other. IsShared (home_seen home.old) (home_seen home.new) (seen self.old) (seen self.new) (seen other)) }
        ensures too_many { (result ≡ Err ShareFault.TooMany) ↔ ((seen self.old).shares ≡ 0) }
        ensures err { OnErr result ((seen self.new ≡ seen self.old) × (home_seen home.new ≡ home_seen home.old)) };

    /// Gives the payload up, and answers how many pbufs ended by it. Takes no memory.
    fn spend(self, home: &mut Self::Home) -> u32
        requires { IsOf (home_seen home.old) (seen self) }
        ensures spent { IsSpent (home_seen home.old) (home_seen home.new) (seen self) }
        ensures frees { frees self home.old home.new result };
}
