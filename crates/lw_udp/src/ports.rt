ghost use Rattle.std.specs.Prelude.{◌≡◌};
ghost use Rattle.std.specs.List.{list_any};
ghost use Rattle.lw_udp.specs.Ports.{port_after, has_port, is_used, first_free, clash, clashes, unless_taken, granted};

use crate::UdpEnd;
use lw_base::{Err, Ip, Port};

/// How many ephemeral ports there are.
pub(crate) const EPHEMERAL: u32 = 16_384;

/// The first of so many ephemeral ports after one that isn't in use.
#[tactic(auto, unfolding(crate::specs::Ports::first_free))]
pub(crate) fn first_free(ends: &[UdpEnd], given: Port, count: u32) -> Option<Port>
    ensures { result ≡ first_free ends.now given count }
{
    (0..count)
        .map(|k| port_after(given, k))
        .find(|port| !is_used(ends, *port))
}

/// The k-th ephemeral port after one, from 0.
fn port_after(given: Port, k: u32) -> Port
    ensures { result ≡ port_after given k }
{
    let place = (u64::from(given.0) + 1 + u64::from(k)) % 16_384;
    Port(49_152 + place as u16)
}

/// Whether an end has the port.
pub(crate) fn is_used(ends: &[UdpEnd], port: Port) -> bool
    ensures { result ≡ is_used ends.now port }
{
    ends.iter().any(|e| has_port(e, port))
}

/// Whether this end has the port.
fn has_port(end: &UdpEnd, port: Port) -> bool
    ensures { result ≡ has_port port end.now }
{
    match end.local {
        Some(local) => local.1.0 == port.0,
        None => false,
    }
}

/// The port that may be given at an address, or why none may be.
pub(crate) fn granted(ends: &[UdpEnd], ip: Ip, port: Option<Port>) -> Result<Port, Err>
    ensures { result ≡ granted ends.now ip port }
{
    match port {
        None => Err(Err::Buf),
        Some(port) => unless_taken(is_taken(ends, (ip, port)), port),
    }
}

/// The port, where it isn't taken.
fn unless_taken(taken: bool, port: Port) -> Result<Port, Err>
    ensures { result ≡ unless_taken taken port }
{
    if taken { Err(Err::Use) } else { Ok(port) }
}

/// Whether a socket clashes with that of an end.
fn is_taken(ends: &[UdpEnd], to: (Ip, Port)) -> bool
    ensures { result ≡ list_any (clashes to) ends.now }
{
    ends.iter().any(|e| clashes(e, to))
}

/// Whether a socket clashes with that of this end.
fn clashes(end: &UdpEnd, to: (Ip, Port)) -> bool
    ensures { result ≡ clashes to end.now }
{
    match end.local {
        Some(local) => clash(local, to),
        None => false,
    }
}

/// Whether two sockets clash.
fn clash(a: (Ip, Port), b: (Ip, Port)) -> bool
    ensures { result ≡ clash a b }
{
    a.1.0 == b.1.0 && (a.0.0 == 0 || b.0.0 == 0 || a.0.0 == b.0.0)
}
