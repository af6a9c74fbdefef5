//! Frames that are fed to a stack, round after round.
ghost use Rattle.std.specs.Prelude.{◌≡◌, ◌+◌, ◌-◌, ◌^◌, ◌<◌, ◌≤◌, length, IsTrue, OnSome};
ghost use Rattle.lw_payload.specs.declared.kinds.Kind.{Kind};
ghost use Rattle.lw_payload.specs.Totals.{total, IsOwned};
ghost use Rattle.lw_layers.specs.Boxes.{AreBoxesOf};
ghost use Rattle.lw_layers.specs.Claims.{MakesPayloads};
ghost use Rattle.lw_core.specs.Held.{held_by};

use lw_base::{Ip, Octets, Port};
use lw_boxes::{Boxes, Item};
use lw_core::Core;
use lw_events::Event;
use lw_payload::{Kind, Payload};
use std::alloc::Global;

/// Makes a payload of POOL with the octets of a frame, and lets the stack take it in. How many frames it sent; none where memory
/// or a pbuf was wanting.
fn feed<P: Payload, B: Boxes<P>>(
    alloc: Global,
    core: &mut Core<P>,
    home: &mut P::Home,
    boxes: &mut B,
    octets: &[u8],
) -> Option<u64>
    requires owned { IsOwned (P.home_seen home.old) (total P.seen (P.home_seen home.old).pools.family (held_by core.old)) }
    requires makes { MakesPayloads (P.home_seen home.old) }
    requires pool { IsTrue ((P.home_seen home.old).pools.makes Kind.Pool) }
    requires countable { (P.home_seen home.old).counts.made + (P.home_seen home.old).counts.refused < 2 ^ 64 - 1 }
    requires short { length octets.now < 2 ^ 32 }
    requires boxes { AreBoxesOf core.old.state.endpoints.conns (B.seen boxes.old) }
    requires fits { (ip : Ip) (port : Port) (p : P) → (P.seen p).family ≡ (P.home_seen home.old).pools.family → B.fits (B.terms boxes.old) (Item.Datagram ip port p) }
    ensures owned { OnSome result (IsOwned (P.home_seen home.new) (total P.seen (P.home_seen home.new).pools.family (held_by core.new))) }
    ensures pools { OnSome result ((P.home_seen home.new).pools ≡ (P.home_seen home.old).pools) }
    ensures counts { OnSome result ((P.home_seen home.new).counts.made + (P.home_seen home.new).counts.refused
        ≤ (P.home_seen home.old).counts.made + (P.home_seen home.old).counts.refused + 1) }
    ensures boxes { AreBoxesOf core.new.state.endpoints.conns (B.seen boxes.new) }
    ensures terms { B.terms boxes.new ≡ B.terms boxes.old }
{
    let Ok(frame) = P::make(alloc, home, Kind::Pool, octets) else {
        return None;
    };
    match core.step(alloc, 0, Event::Frame(frame), home, boxes) {
        Ok((entry, _)) => Some(entry.frames.len() as u64),
        Err(_) => None,
    }
}

/// Feeds so many frames, one after another and again from the first. How many went out.
pub fn rounds<P: Payload, B: Boxes<P>>(
    alloc: Global,
    core: &mut Core<P>,
    home: &mut P::Home,
    boxes: &mut B,
    frames: &[Octets],
    count: u32,
) -> u64
    requires owned { IsOwned (P.home_seen home.old) (total P.seen (P.home_seen home.old).pools.family (held_by core.old)) }
    requires makes { MakesPayloads (P.home_seen home.old) }
    requires pool { IsTrue ((P.home_seen home.old).pools.makes Kind.Pool) }
    requires countable { (P.home_seen home.old).counts.made + (P.home_seen home.old).counts.refused + count < 2 ^ 64 - 1 }
    requires boxes { AreBoxesOf core.old.state.endpoints.conns (B.seen boxes.old) }
    requires fits { (ip : Ip) (port : Port) (p : P) → (P.seen p).family ≡ (P.home_seen home.old).pools.family → B.fits (B.terms boxes.old) (Item.Datagram ip port p) }
{
    let mut sent = 0u64;
    let mut place = 0usize;
    for _fed in 0..count {
        let Some(octets) = frames.get(place) else {
            return sent;
        };
        place += 1;
        if place >= frames.len() {
            place = 0;
        }
        if octets.len() > 65_535 {
            return sent;
        }
        match feed(alloc, core, home, boxes, octets.as_slice()) {
            Some(out) => sent = sent.saturating_add(out),
            None => return sent,
        }
    }
    sent
}
