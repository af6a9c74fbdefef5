ghost use Rattle.std.specs.Prelude.{◌≡◌, ◌≤◌, ◌<◌, ◌+◌, ◌++◌, [], ◌∷◌, IfOk, option_to_list, length, vec_capacity, option_copied};
ghost use Rattle.lw_arp.specs.Neighbours.{mac_of, waiting, state_of, entry_of, IsTable, given_up, looked_up, next_by, held, told, given_back, WeighAlike, changed, keys_of, lesson, learn_plan, taught_by, sent_by, displaced_by, is_answered, aged, asked_again, expired, packets};

use crate::entries::{LearnPlan, Lesson, key, pending, stable, state_by};
use crate::places::{add, entry_of, place_of, take_packet};
use crate::ticks::{asked_again, put, tick};
use crate::{ArpEntry, EntryState, Next};
use lw_base::{ArpPacket, Ip, Mac};
pub use std::alloc::AllocError as NoMemory;
use std::alloc::Global;
use std::marker::Model;

/// How many entries a table has at most.
pub const ENTRIES: usize = 10;

/// The table. Contracts see it as the list of its entries, in the order of their making. Its memory is
/// taken by `new` alone.
#[derive(Drop)]
pub struct ArpTable<P> {
    entries: Vec<ArpEntry<P>>,
}

impl<P> Model for ArpTable<P> {
    ghost use Rattle.std.specs.Prelude.{◌≤◌, List, vec_capacity};
    ghost use Rattle.lw_arp.specs.declared.entries.ArpEntry.{ArpEntry as Entry};
    ghost use Rattle.lw_arp.specs.Neighbours.{IsTable};

    ghost Value = { List (Entry P) };

    ghost view = { λ t. t.entries.items };

    ghost invariant = { λ t. IsTable t.entries.items × (10 ≤ vec_capacity t.entries) };
}

impl<P> ArpTable<P> {
    pub fn new(alloc: Global) -> Result<ArpTable<P>, NoMemory>
        ensures { IfOk result (λ t. t ≡ []) }
    {
        Ok(ArpTable {
            entries: Vec::with_capacity(alloc, ENTRIES)?,
        })
    }

    /// The entries, in the order of their making.
    pub fn entries(&self) -> &[ArpEntry<P>]
        ensures items { result.now ≡ self.now }
        ensures table { IsTable self.now }
    {
        &self.entries
    }

    /// The hardware address of an address that has a stable entry.
    pub fn mac_of(&self, ip: Ip) -> Option<Mac>
        ensures { result ≡ mac_of self.now ip }
    {
        entry_of(&self.entries, ip)?.mac
    }

    /// The packet that waits for an address.
    pub fn waiting(&self, ip: Ip) -> Option<&P>
        ensures { option_copied result ≡ waiting self.now ip }
    {
        entry_of(&self.entries, ip)?.packet.as_ref()
    }

    /// What the table has of an address. A lookup answers Known where that is Stable, Wait where it is
    /// Pending, and Ask where it is Empty.
    pub fn state_of(&self, ip: Ip) -> EntryState
        ensures { result ≡ state_of self.now ip }
    {
        match entry_of(&self.entries, ip) {
            Some(entry) => state_by(entry.mac),
            None => EntryState::Empty,
        }
    }

    /// Looks the hardware address of an address up, for a packet that is to be sent there now.
    pub fn lookup(&mut self, ip: Ip) -> Next<P>
        ensures table { self.new ≡ looked_up self.old ip }
        ensures answer { result ≡ next_by (state_of self.old ip) (given_up self.old) }
        // No packet is lost: each that waited still waits, or is given back.
        ensures kept { WeighAlike (packets self.old) (packets self.new ++ option_to_list (given_back result)) }
    {
        match self.state_of(ip) {
            EntryState::Stable(mac) => Next::Known(mac),
            EntryState::Pending => Next::Wait,
            EntryState::Empty => Next::Ask(add(&mut self.entries, pending(ip))),
        }
    }

    /// Lets a packet wait for an address, and gives the one back that waited before.
    pub fn hold(&mut self, ip: Ip, packet: P) -> Option<P>
        requires { state_of self.old ip ≡ EntryState.Pending }
        ensures table { self.new ≡ held self.old ip packet }
        ensures replaced { result ≡ waiting self.old ip }
        ensures kept { WeighAlike (packets self.old ++ packet ∷ []) (packets self.new ++ option_to_list result) }
    {
        let Some(place) = place_of(&self.entries, ip) else {
            unreachable!()
        };
        self.entries[place].packet.replace(packet)
    }

    /// What an ARP packet brings; `own` is the stack's address. `apply` carries it out.
    pub fn plan_learn(&self, a: &ArpPacket, own: Ip) -> LearnPlan
        ensures { result ≡ learn_plan own self.now a.now }
    {
        LearnPlan {
            lesson: self.lesson(a, own),
            answer: is_answered(a, own),
            ip: a.sip,
            mac: a.smac,
        }
    }

    /// Learns what an ARP packet brought: gives the packet that waited for its sender, which goes out
    /// now, and the packet of an entry that made room.
    pub fn apply(&mut self, plan: &LearnPlan) -> (Option<P>, Option<P>)
        requires { plan.now.lesson ≡ Lesson.Make → entry_of self.old plan.now.ip ≡ None }
        ensures table { self.new ≡ taught_by plan.now self.old }
        ensures send { result.0 ≡ sent_by plan.now self.old }
        ensures gone { result.1 ≡ displaced_by plan.now.lesson self.old }
        ensures kept { WeighAlike (packets self.old) (packets self.new ++ option_to_list result.0 ++ option_to_list result.1) }
    {
        match plan.lesson {
            Lesson::Nothing => (None, None),
            Lesson::Update => (self.update(plan.ip, plan.mac), None),
            Lesson::Make => (None, add(&mut self.entries, stable(plan.ip, plan.mac))),
        }
    }

    /// The table's copy without its packets, in which a plan can look addresses up.
    pub fn keys(&self, alloc: Global) -> Result<ArpTable<()>, NoMemory>
        ensures { IfOk result (λ keys. keys ≡ keys_of self.now) }
    {
        Ok(ArpTable {
            entries: keys(alloc, &self.entries)?,
        })
    }

    /// The addresses that a tick asks for again, in the order of the table.
    pub fn plan_age(&self, alloc: Global) -> Result<Vec<Ip>, NoMemory>
        ensures { IfOk result (λ asked. asked.items ≡ asked_again self.now) }
    {
        asked_again(alloc, &self.entries)
    }

    /// Lets a tick pass. Appends the packets of the entries that are removed.
    pub fn age(&mut self, gone: &mut Vec<P>)
        requires { length gone.old.items + 10 ≤ vec_capacity gone.old }
        ensures table { self.new ≡ aged self.old }
        ensures gone { gone.new.items ≡ gone.old.items ++ expired self.old }
        ensures kept { WeighAlike (packets self.old ++ gone.old.items) (packets self.new ++ gone.new.items) }
        ensures room { vec_capacity gone.old ≤ vec_capacity gone.new }
    {
        tick(&mut self.entries, gone);
    }

    /// The entries of a table that is given up, in the order of their making.
    pub fn into_vec(self) -> Vec<ArpEntry<P>>
        ensures { result.items ≡ self }
    {
        let ArpTable { entries } = self;
        entries
    }

    fn lesson(&self, a: &ArpPacket, own: Ip) -> Lesson
        ensures { result ≡ lesson own self.now a.now }
    {
        if a.sip.0 == own.0 {
            Lesson::Nothing
        } else if entry_of(&self.entries, a.sip).is_some() {
            Lesson::Update
        } else if a.tip.0 == own.0 && a.sip.0 != 0 {
            Lesson::Make
        } else {
            Lesson::Nothing
        }
    }

    /// Tells the entry of an address its hardware address, and gives the packet that waited there.
    fn update(&mut self, ip: Ip, mac: Mac) -> Option<P>
        ensures table { self.new ≡ changed self.old ip (told mac) }
        ensures send { result ≡ waiting self.old ip }
        ensures kept { WeighAlike (packets self.old) (packets self.new ++ option_to_list result) }
    {
        let place = place_of(&self.entries, ip)?;
        let entry = &mut self.entries[place];
        entry.mac = Some(mac);
        entry.age = 0;
        entry.packet.take()
    }
}

/// The entries without their packets, in a list with the room of a table.
fn keys<P>(alloc: Global, entries: &[ArpEntry<P>]) -> Result<Vec<ArpEntry<()>>, NoMemory>
    ensures items { IfOk result (λ keys. keys.items ≡ keys_of entries.now) }
    ensures room { IfOk result (λ keys. 10 ≤ vec_capacity keys) }
{
    let mut keys = Vec::with_capacity(alloc, ENTRIES)?;
    for entry in entries {
        keys.push(key(entry))?;
    }
    Ok(keys)
}

/// Whether a packet is to be answered by the stack with the address `own`.
pub fn is_answered(a: &ArpPacket, own: Ip) -> bool
    ensures { result ≡ is_answered own a.now }
{
    a.sip != own && a.tip == own && a.op == 1
}
