//! The payloads that an event takes out of the Home: one of RAM, for the packet that will wait or of one
//! octet; and for a datagram that is sent one that describes its octets.
ghost use Rattle.std.specs.Prelude.{◌≡◌, ◌≤◌, ◌⊎◌, IfOk, IfSome, MatchOption, OnErr, length};
ghost use Rattle.lw_payload.specs.Views.{pbufs_of, pool_one};
ghost use Rattle.lw_payload.specs.declared.kinds.Kind.{Kind as Sort};
ghost use Rattle.lw_link.specs.Way.{IsPacket};
ghost use Rattle.lw_layers.specs.Claims.{AreClaimed, AreRefused, IsClaimed, IsRefusedKind, Makes, MakesPayloads};

use crate::NoMemory;
use lw_base::{Ip, Octets};
use lw_payload::{Kind, MakeFault, Payload, spend};
use std::alloc::Global;

/// A payload of RAM for the packet that waits, or of one octet where none does; none where RAM is short.
pub fn claim_for<P: Payload>(
    alloc: Global,
    home: &mut P::Home,
    waits: &Option<(Ip, Octets)>,
) -> Result<Option<P>, NoMemory>
    requires ram { Makes (P.home_seen home.old) Sort.Ram 1500 }
    requires packet { IfSome waits.now (λ w. IsPacket w.1) }
    ensures claimed { IfOk result (λ r. MatchOption r (IsRefusedKind P.may_refuse home.old (P.home_seen home.old) (P.home_seen home.new) Sort.Ram) (λ p. IsClaimed Sort.Ram (P.home_seen home.old) (P.home_seen home.new) (P.seen p))) }
    ensures octets { IfOk result (λ r. IfSome r (λ p. IfSome waits.now (λ w. (P.seen p).octets ≡ w.1))) }
    ensures err { OnErr result (P.home_seen home.new ≡ P.home_seen home.old) }
{
    match waits {
        Some((_, packet)) => claim(alloc, home, Kind::Ram, packet.as_slice()),
        None => claim(alloc, home, Kind::Ram, &[0]),
    }
}

/// What was claimed for a datagram that is sent: a payload of ROM or REF that describes its octets, and one
/// of RAM.
#[derive(Drop)]
pub struct Claimed<P> {
    pub rom: P,
    pub ram: P,
}

/// The payloads that a datagram takes: one of this kind, of one octet, and RAM as a frame takes it. None
/// where one of the kinds is short.
pub fn claim_both<P: Payload>(
    alloc: Global,
    home: &mut P::Home,
    kind: Kind,
    waits: &Option<(Ip, Octets)>,
) -> Result<Option<Claimed<P>>, NoMemory>
    requires kind { (kind ≡ Sort.Rom) ⊎ (kind ≡ Sort.Ref) }
    requires makes { MakesPayloads (P.home_seen home.old) }
    requires packet { IfSome waits.now (λ w. IsPacket w.1) }
    ensures claimed { IfOk result (λ r. MatchOption r (AreRefused P.seen P.may_refuse kind (P.home_seen home.old) (P.home_seen home.new)) (λ c. AreClaimed P.seen kind (P.home_seen home.old) (P.home_seen home.new) c.rom c.ram)) }
    ensures octets { IfOk result (λ r. IfSome r (λ c. IfSome waits.now (λ w. (P.seen c.ram).octets ≡ w.1))) }
    ensures err { OnErr result (P.home_seen home.new ≡ P.home_seen home.old) }
{
    let Some(rom) = claim::<P>(alloc, home, kind, &[0])? else {
        return Ok(None);
    };
    match claim_for(alloc, home, waits) {
        Ok(Some(ram)) => Ok(Some(Claimed { rom, ram })),
        Ok(None) => {
            spend(home, rom);
            Ok(None)
        }
        Err(none) => {
            spend(home, rom);
            Err(none)
        }
    }
}

/// A payload of a kind with these octets; none where the kind is short.
fn claim<P: Payload>(
    alloc: Global,
    home: &mut P::Home,
    kind: Kind,
    octets: &[u8],
) -> Result<Option<P>, NoMemory>
    requires kind { pool_one kind ≡ 0 }
    requires some { pbufs_of kind (length octets.now) ≡ pbufs_of kind 1 }
    requires makes { Makes (P.home_seen home.old) kind (length octets.now) }
    requires short { length octets.now ≤ 1500 }
    ensures claimed { IfOk result (λ r. MatchOption r (IsRefusedKind P.may_refuse home.old (P.home_seen home.old) (P.home_seen home.new) kind) (λ p. IsClaimed kind (P.home_seen home.old) (P.home_seen home.new) (P.seen p))) }
    ensures octets { IfOk result (λ r. IfSome r (λ p. (P.seen p).octets ≡ octets.now)) }
    ensures err { OnErr result (P.home_seen home.new ≡ P.home_seen home.old) }
{
    match P::make(alloc, home, kind, octets) {
        Ok(payload) => Ok(Some(payload)),
        Err(MakeFault::Empty(_)) => Ok(None),
        Err(MakeFault::TooLong) => unreachable!(),
        Err(MakeFault::NoMemory) => Err(NoMemory),
    }
}
