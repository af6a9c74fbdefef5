ghost use Rattle.std.specs.Prelude.{◌≡◌, ◌≤◌, ◌<◌, IfSome, not, position, remove, slice_get, option_and_then, length, vec_capacity, option_copied};
ghost use Rattle.std.specs.List.{list_any};
ghost use Rattle.lw_arp.specs.Neighbours.{entry_of, is_of, is_stable, goes_sooner, oldest_place, place_to_free, with_room, given_up, added};

use crate::{ArpEntry, ENTRIES};
use lw_base::Ip;

/// The entry of an address.
pub(crate) fn entry_of<P>(entries: &[ArpEntry<P>], ip: Ip) -> Option<&ArpEntry<P>>
    ensures { option_copied result ≡ entry_of entries.now ip }
{
    entries.iter().find(|e| e.ip.0 == ip.0)
}

/// Where the entry of an address stands.
pub(crate) fn place_of<P>(entries: &[ArpEntry<P>], ip: Ip) -> Option<usize>
    ensures value { result ≡ position (is_of ip) entries.now }
    ensures within { IfSome result (λ i. i < length entries.now) }
{
    entries.iter().position(|e| e.ip.0 == ip.0)
}

/// Adds an entry at the end. Where the table is full its oldest entry makes room, and the packet that
/// waited there comes back.
pub(crate) fn add<P>(entries: &mut Vec<ArpEntry<P>>, entry: ArpEntry<P>) -> Option<P>
    requires few { length entries.old.items ≤ 10 }
    requires room { 10 ≤ vec_capacity entries.old }
    ensures table { entries.new.items ≡ added entries.old.items entry }
    ensures gone { result ≡ given_up entries.old.items }
    ensures room { 10 ≤ vec_capacity entries.new }
{
    let gone = make_room(entries);
    entries.push(entry).unwrap();
    gone
}

/// Lets the oldest entry of a full table go, and gives its packet back.
fn make_room<P>(entries: &mut Vec<ArpEntry<P>>) -> Option<P>
    requires few { length entries.old.items ≤ 10 }
    requires room { 10 ≤ vec_capacity entries.old }
    ensures table { entries.new.items ≡ with_room entries.old.items }
    ensures gone { result ≡ given_up entries.old.items }
    ensures few { length entries.new.items < 10 }
    ensures room { 10 ≤ vec_capacity entries.new }
{
    let place = place_to_free(entries)?;
    take_packet(entries, place)
}

/// Removes an entry, and gives its packet.
pub(crate) fn take_packet<P>(entries: &mut Vec<ArpEntry<P>>, place: usize) -> Option<P>
    requires { place < length entries.old.items }
    ensures table { entries.new.items ≡ remove entries.old.items place }
    ensures packet { result ≡ option_and_then (λ e. e.packet) (slice_get entries.old.items place) }
    ensures room { vec_capacity entries.new ≡ vec_capacity entries.old }
{
    let ArpEntry { packet, .. } = entries.remove(place);
    packet
}

/// Where the entry stands that makes room for one more.
fn place_to_free<P>(entries: &[ArpEntry<P>]) -> Option<usize>
    ensures value { result ≡ place_to_free entries.now }
    ensures within { IfSome result (λ i. i < length entries.now) }
{
    if entries.len() < ENTRIES {
        None
    } else {
        oldest_place(entries)
    }
}

/// Where the oldest entry stands.
fn oldest_place<P>(entries: &[ArpEntry<P>]) -> Option<usize>
    ensures value { result ≡ oldest_place entries.now }
    ensures within { IfSome result (λ i. i < length entries.now) }
{
    entries.iter().position(|y| is_oldest(entries, y))
}

/// Whether no entry goes sooner than this one.
fn is_oldest<P>(entries: &[ArpEntry<P>], y: &ArpEntry<P>) -> bool
    ensures { result ≡ not (list_any (λ x. goes_sooner x y.now) entries.now) }
{
    for x in entries {
        if goes_sooner(x, y) {
            return false;
        }
    }
    true
}

/// Whether `x` is given up sooner than `y`.
fn goes_sooner<P>(x: &ArpEntry<P>, y: &ArpEntry<P>) -> bool
    ensures { result ≡ goes_sooner x.now y.now }
{
    if is_stable(x) {
        !is_stable(y) || y.age < x.age
    } else {
        !is_stable(y) && y.age < x.age
    }
}

/// Whether an entry has a hardware address.
pub(crate) fn is_stable<P>(entry: &ArpEntry<P>) -> bool
    ensures { result ≡ is_stable entry.now }
{
    entry.mac.is_some()
}
