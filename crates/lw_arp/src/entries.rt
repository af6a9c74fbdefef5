ghost use Rattle.std.specs.Prelude.{◌≡◌};
ghost use Rattle.lw_arp.specs.Neighbours.{key_of, pending, stable, state_by};

use lw_base::{Ip, Mac};

/// What is known of one address, for how many ticks, and the packet that waits for it. An entry with
/// a hardware address is stable, one without is pending.
#[derive(Debug, Drop, PartialEq, Eq)]
pub struct ArpEntry<P> {
    pub ip: Ip,
    pub mac: Option<Mac>,
    pub age: u32,
    pub packet: Option<P>,
}

/// A pending entry.
pub(crate) fn pending<P>(ip: Ip) -> ArpEntry<P>
    ensures { result ≡ pending ip }
{
    ArpEntry {
        ip,
        mac: None,
        age: 0,
        packet: None,
    }
}

/// An entry without the packet that waits: only whether one does.
pub(crate) fn key<P>(entry: &ArpEntry<P>) -> ArpEntry<()>
    ensures { result ≡ key_of entry.now }
{
    ArpEntry {
        ip: entry.ip,
        mac: entry.mac,
        age: entry.age,
        packet: entry.packet.as_ref().map(|_| ()),
    }
}

/// A stable entry.
pub(crate) fn stable<P>(ip: Ip, mac: Mac) -> ArpEntry<P>
    ensures { result ≡ stable ip mac }
{
    ArpEntry {
        ip,
        mac: Some(mac),
        age: 0,
        packet: None,
    }
}

/// What a table has of an address: a stable entry, a pending one, or none.
#[derive(Clone, Copy, Debug, PartialEq, Eq)]
pub enum EntryState {
    Stable(Mac),
    Pending,
    Empty,
}

/// The state of an entry with this hardware address, or without one.
pub(crate) fn state_by(mac: Option<Mac>) -> EntryState
    ensures { result ≡ state_by mac }
{
    match mac {
        Some(mac) => EntryState::Stable(mac),
        None => EntryState::Pending,
    }
}

/// What comes of looking an address up: its hardware address is known; it has to be asked for, which
/// gives back the packet of an entry that made room; or the answer to an earlier request is awaited.
#[derive(Debug, Drop, PartialEq, Eq)]
pub enum Next<P> {
    Known(Mac),
    Ask(Option<P>),
    Wait,
}

/// What an ARP packet is to a table: nothing, news of an entry that is there, or of one to be made.
#[derive(Clone, Copy, Debug, PartialEq, Eq)]
pub enum Lesson {
    Nothing,
    Update,
    Make,
}

/// What an ARP packet brings, by the table as it is: its lesson, whether it is to be answered, and the
/// addresses of its sender.
#[derive(Clone, Copy, Debug, PartialEq, Eq)]
pub struct LearnPlan {
    pub lesson: Lesson,
    pub answer: bool,
    pub ip: Ip,
    pub mac: Mac,
}
