ghost use Rattle.std.specs.Prelude.{◌≡◌, ◌≤◌, ◌<◌, ◌+◌, ◌++◌, [], ◌∷◌, All, IfOk, length, vec_capacity, option_to_list, if◌then◌else◌};
ghost use Rattle.lw_arp.specs.Neighbours.{lifetime, is_over, asks_again, older, aged, asked_again, expired};

use crate::places::{is_stable, take_packet};
use crate::{ArpEntry, NoMemory};
use lw_base::Ip;
use std::alloc::Global;

/// The addresses that a tick asks for again.
pub(crate) fn asked_again<P>(alloc: Global, entries: &[ArpEntry<P>]) -> Result<Vec<Ip>, NoMemory>
    requires young { All (λ e. e.age < lifetime e) entries.now }
    ensures { IfOk result (λ asked. asked.items ≡ asked_again entries.now) }
{
    let mut asked = Vec::new(alloc);
    for entry in entries {
        if asks_again(entry) {
            asked.push(entry.ip)?;
        }
    }
    Ok(asked)
}

/// Makes all entries a tick older. Appends the packets of the entries whose time is over.
pub(crate) fn tick<P>(entries: &mut Vec<ArpEntry<P>>, gone: &mut Vec<P>)
    requires few { length entries.old.items ≤ 10 }
    requires young { All (λ e. e.age < lifetime e) entries.old.items }
    requires gone_room { length gone.old.items + 10 ≤ vec_capacity gone.old }
    ensures table { entries.new.items ≡ aged entries.old.items }
    ensures gone { gone.new.items ≡ gone.old.items ++ expired entries.old.items }
    ensures room { vec_capacity entries.old ≤ vec_capacity entries.new }
    ensures gone_room { vec_capacity gone.old ≤ vec_capacity gone.new }
{
    let mut place = 0;
    while place < entries.len() {
        entries[place].age += 1;
        if is_over(&entries[place]) {
            put(take_packet(entries, place), gone);
        } else {
            place += 1;
        }
    }
}

/// Appends a packet, if there is one.
pub(crate) fn put<P>(packet: Option<P>, gone: &mut Vec<P>)
    requires { length gone.old.items < vec_capacity gone.old }
    ensures items { gone.new.items ≡ gone.old.items ++ option_to_list packet }
    ensures room { vec_capacity gone.old ≤ vec_capacity gone.new }
{
    if let Some(packet) = packet {
        gone.push(packet).unwrap();
    }
}

/// Whether the time of an entry is over.
fn is_over<P>(entry: &ArpEntry<P>) -> bool
    ensures { result ≡ is_over entry.now }
{
    let lifetime = if is_stable(entry) { 1200 } else { 20 };
    entry.age >= lifetime
}

/// Whether the request for an entry is repeated at a tick: where it is pending, at ages 4, 8, 12 and 16.
fn asks_again<P>(entry: &ArpEntry<P>) -> bool
    requires young { entry.now.age < lifetime entry.now }
    ensures { result ≡ asks_again (older entry.now) }
{
    let age = entry.age + 1;
    !is_stable(entry) && matches!(age, 4 | 8 | 12 | 16)
}
