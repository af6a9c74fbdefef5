ghost use Rattle.std.specs.Prelude.{◌≡◌, if◌then◌else◌};
ghost use Rattle.lw_udp.specs.Delivery.{is_bound_for, is_exact, class_by, class_of, rank, claim_of, goes_before, first_of, first_with, first_claim, best};

use crate::UdpEnd;
use crate::ends::same_socket;
use lw_base::{Ip, Port};

/// How an end matches a datagram, the best first: connected to its source, with exactly its destination
/// address or with any; then not connected, with exactly that address or with any.
#[derive(Clone, Copy, Debug, PartialEq, Eq)]
pub enum Class {
    ConnectedExact,
    ConnectedAny,
    Exact,
    Any,
}

impl Class {
    /// The place of the class in the order, from 0.
    pub fn rank(self) -> u8
        ensures { result ≡ rank self }
    {
        match self {
            Class::ConnectedExact => 0,
            Class::ConnectedAny => 1,
            Class::Exact => 2,
            Class::Any => 3,
        }
    }
}

/// The claim of a connection on a datagram.
#[derive(Clone, Copy, Debug, PartialEq, Eq)]
pub struct Claim {
    pub class: Class,
    pub conn: u32,
}

/// The connection that a datagram goes to.
pub(crate) fn best(ends: &[UdpEnd], src: (Ip, Port), dst: (Ip, Port)) -> Option<u32>
    ensures { result ≡ best src dst ends.now }
{
    first_claim(ends, src, dst).map(|c| c.conn)
}

/// The first of all claims on a datagram.
fn first_claim(ends: &[UdpEnd], src: (Ip, Port), dst: (Ip, Port)) -> Option<Claim>
    ensures { result ≡ first_claim src dst ends.now }
{
    let mut first = None;
    for end in ends {
        first = first_with(first, claim_of(end, src, dst));
    }
    first
}

/// The first of the claims so far and one more, where they are there.
fn first_with(first: Option<Claim>, claim: Option<Claim>) -> Option<Claim>
    ensures { result ≡ first_with first claim }
{
    match (first, claim) {
        (Some(a), Some(b)) => Some(first_of(a, b)),
        (Some(a), None) => Some(a),
        (None, claim) => claim,
    }
}

/// The claim of an end on a datagram.
fn claim_of(end: &UdpEnd, src: (Ip, Port), dst: (Ip, Port)) -> Option<Claim>
    ensures { result ≡ claim_of src dst end.now }
{
    let class = class_of(end, src, dst)?;
    Some(Claim {
        class,
        conn: end.conn,
    })
}

/// The class in which an end matches a datagram.
fn class_of(end: &UdpEnd, src: (Ip, Port), dst: (Ip, Port)) -> Option<Class>
    ensures { result ≡ class_of src dst end.now }
{
    let local = end.local?;
    if is_bound_for(local, dst) {
        class_by(local.0.0 == dst.0.0, src, end.remote)
    } else {
        None
    }
}

/// Whether an end with this local socket takes datagrams to `dst`.
fn is_bound_for(local: (Ip, Port), dst: (Ip, Port)) -> bool
    ensures { result ≡ is_bound_for dst local }
{
    local.1.0 == dst.1.0 && (local.0.0 == 0 || local.0.0 == dst.0.0)
}

/// The class of an end that is bound for a datagram.
fn class_by(exact: bool, src: (Ip, Port), remote: Option<(Ip, Port)>) -> Option<Class>
    ensures { result ≡ class_by exact src remote }
{
    match remote {
        None => Some(if exact { Class::Exact } else { Class::Any }),
        Some(peer) => connected_class(exact, same_socket(peer, src)),
    }
}

/// The class of a connected end, which matches what comes from its peer alone.
fn connected_class(exact: bool, from_peer: bool) -> Option<Class>
    ensures { result ≡ (if from_peer then Some (if exact then Class.ConnectedExact else Class.ConnectedAny) else None) }
{
    if !from_peer {
        None
    } else if exact {
        Some(Class::ConnectedExact)
    } else {
        Some(Class::ConnectedAny)
    }
}

/// Whether a claim goes before another.
fn goes_before(a: Claim, b: Claim) -> bool
    ensures { result ≡ goes_before a b }
{
    let (rank_a, rank_b) = (a.class.rank(), b.class.rank());
    rank_a < rank_b || (rank_a == rank_b && a.conn < b.conn)
}

/// Of two claims the one that goes first.
fn first_of(a: Claim, b: Claim) -> Claim
    ensures { result ≡ first_of a b }
{
    if goes_before(b, a) { b } else { a }
}
