//! A tick, which is a quarter of a second: what is kept is one tick older, what is over goes to the Home,
//! and addresses that wait for an answer are asked for again.
ghost use Rattle.std.specs.Prelude.{◌≡◌, ◌≤◌, [], IfOk, OnErr, OnOk, length, vec_capacity};
ghost use Rattle.lw_arp.specs.Neighbours.{packets};
ghost use Rattle.lw_arp.specs.Neighbours.{aged as neighbours_aged};
ghost use Rattle.lw_link.specs.Way.{Link};
ghost use Rattle.lw_payload.specs.Totals.{total, IsOwned, Moves};
ghost use Rattle.lw_reass.specs.Datagrams.{aged as fragments_aged};
ghost use Rattle.lw_reass.specs.Table.{all_kept};
ghost use Rattle.lw_layers.specs.Layers.{held_in, state_of};
ghost use Rattle.lw_layers.specs.Outcomes.{counted};
ghost use Rattle.lw_layers.specs.Ticks.{asks_all, tick_step};

use crate::NoMemory;
use crate::layers::Layers;
use lw_arp::{ArpTable, ENTRIES};
use lw_base::{FrameList, Ip, Octets};
use lw_link::LinkPlan;
use lw_netif::Netif;
use lw_payload::{Payload, spend_all};
use lw_reass::Reass;
use std::alloc::Global;

impl<P: Payload> Layers<P> {
    /// Lets a tick pass, and answers the frames that go out. All memory is taken before anything changes.
    pub fn tick(&mut self, alloc: Global, home: &mut P::Home) -> Result<FrameList, NoMemory>
        requires owned { IsOwned (P.home_seen home.old) (total P.seen (P.home_seen home.old).pools.family (held_in self.old)) }
        ensures state { OnOk result (state_of P.seen self.new ≡ (tick_step (state_of P.seen self.old)).state) }
        ensures frames { IfOk result (λ frames. frames ≡ (tick_step (state_of P.seen self.old)).frames) }
        ensures moves { OnOk result (Moves (P.home_seen home.old) (P.home_seen home.new) (total P.seen (P.home_seen home.old).pools.family (held_in self.old)) (total P.seen (P.home_seen home.old).pools.family (held_in self.new))) }
        ensures err { OnErr result ((self.new ≡ self.old) × (P.home_seen home.new ≡ P.home_seen home.old)) }
    {
        let asked = self.neighbours.plan_age(alloc)?;
        let frames = requests(alloc, &self.netif, self.next_id, &asked)?;
        let kept = Vec::with_capacity(alloc, self.fragments.kept() as usize)?;
        let waiting = Vec::with_capacity(alloc, ENTRIES)?;
        age_fragments(&mut self.fragments, home, kept);
        age_neighbours(&mut self.neighbours, home, waiting);
        self.count_tick();
        Ok(self.send(frames))
    }

    /// Counts a tick.
    fn count_tick(&mut self)
        ensures { self.new ≡ record self.old { words = record self.old.words { ticks = counted self.old.words.ticks } } }
    {
        self.words.ticks = self.words.ticks.saturating_add(1);
    }
}

/// The frames that ask for these addresses, in order.
fn requests(
    alloc: Global,
    netif: &Netif,
    next_id: u16,
    asked: &[Ip],
) -> Result<Vec<Octets>, NoMemory>
    ensures { IfOk result (λ frames. (l : Link) → l.net ≡ netif.now → l.next_id ≡ next_id → frames.items ≡ (asks_all (record { link = l; out = [] }) asked.now).out) }
{
    let mut plan = LinkPlan::new(alloc, next_id);
    for ip in asked {
        plan.ask(alloc, netif, *ip)?;
    }
    let LinkPlan { frames, .. } = plan;
    Ok(frames)
}

/// Makes the datagrams of which fragments came a tick older. The fragments of those that are over are
/// given up, over `gone`, which is empty and has room for them.
fn age_fragments<P: Payload>(fragments: &mut Reass<P>, home: &mut P::Home, mut gone: Vec<P>)
    requires empty { gone.items ≡ [] }
    requires room { length (all_kept fragments.old) ≤ vec_capacity gone }
    requires owned { IsOwned (P.home_seen home.old) (total P.seen (P.home_seen home.old).pools.family (all_kept fragments.old)) }
    ensures datagrams { fragments.new.datagrams ≡ fragments_aged fragments.old.datagrams }
    ensures moves { Moves (P.home_seen home.old) (P.home_seen home.new) (total P.seen (P.home_seen home.old).pools.family (all_kept fragments.old)) (total P.seen (P.home_seen home.old).pools.family (all_kept fragments.new)) }
{
    fragments.age(&mut gone);
    spend_all(home, gone);
}

/// Makes what is known of neighbours a tick older. The packets that waited at entries that are over are
/// given up, over `gone`, which is empty and has room for them.
fn age_neighbours<P: Payload>(table: &mut ArpTable<P>, home: &mut P::Home, mut gone: Vec<P>)
    requires empty { gone.items ≡ [] }
    requires room { 10 ≤ vec_capacity gone }
    requires owned { IsOwned (P.home_seen home.old) (total P.seen (P.home_seen home.old).pools.family (packets table.old)) }
    ensures table { table.new ≡ neighbours_aged table.old }
    ensures moves { Moves (P.home_seen home.old) (P.home_seen home.new) (total P.seen (P.home_seen home.old).pools.family (packets table.old)) (total P.seen (P.home_seen home.old).pools.family (packets table.new)) }
{
    table.age(&mut gone);
    spend_all(home, gone);
}
