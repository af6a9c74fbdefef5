//! How a plan is carried out over a table and its Home: nothing here takes memory or can fail.
ghost use Rattle.std.specs.Prelude.{◌≡◌, ◌++◌, ◌∷◌, [], IfSome};
ghost use Rattle.lw_payload.specs.Totals.{total, IsOwned, Moves};
ghost use Rattle.lw_arp.specs.declared.entries.EntryState.{EntryState};
ghost use Rattle.lw_arp.specs.Neighbours.{held, looked_up, packets, state_of};
ghost use Rattle.lw_link.specs.Way.{asked_for, waiting_in};
ghost use Rattle.lw_link.specs.Plans.{waiter};

use lw_arp::{ArpTable, Next};
use lw_base::Ip;
use lw_payload::{Payload, spend_if};

/// Carries out what a plan does to the table: looks up the addresses that it asks for, and lets a packet
/// wait for its next hop. What has to leave the table is given up.
pub fn carry_out<P: Payload>(
    asked: &[Ip],
    waits: Option<(Ip, P)>,
    table: &mut ArpTable<P>,
    home: &mut P::Home,
)
    requires pending { IfSome waits (λ w. state_of (asked_for table.old asked.now) w.0 ≡ EntryState.Pending) }
    requires owned { IsOwned (P.home_seen home.old) (total P.seen (P.home_seen home.old).pools.family (packets table.old ++ waiter waits)) }
    ensures table { table.new ≡ waiting_in (asked_for table.old asked.now) waits }
    ensures moves { Moves (P.home_seen home.old) (P.home_seen home.new)
        (total P.seen (P.home_seen home.old).pools.family (packets table.old ++ waiter waits)) (total P.seen (P.home_seen home.old).pools.family (packets table.new)) }
{
    look_up_all(asked, table, home);
    if let Some((hop, packet)) = waits {
        hold(hop, packet, table, home);
    }
}

/// Looks addresses up, in order.
fn look_up_all<P: Payload>(asked: &[Ip], table: &mut ArpTable<P>, home: &mut P::Home)
    requires owned { IsOwned (P.home_seen home.old) (total P.seen (P.home_seen home.old).pools.family (packets table.old)) }
    ensures table { table.new ≡ asked_for table.old asked.now }
    ensures moves { Moves (P.home_seen home.old) (P.home_seen home.new)
        (total P.seen (P.home_seen home.old).pools.family (packets table.old)) (total P.seen (P.home_seen home.old).pools.family (packets table.new)) }
{
    for ip in asked {
        look_up(*ip, table, home);
    }
}

/// Looks an address up; the packet of an entry that makes room is given up.
fn look_up<P: Payload>(ip: Ip, table: &mut ArpTable<P>, home: &mut P::Home)
    requires owned { IsOwned (P.home_seen home.old) (total P.seen (P.home_seen home.old).pools.family (packets table.old)) }
    ensures table { table.new ≡ looked_up table.old ip }
    ensures moves { Moves (P.home_seen home.old) (P.home_seen home.new)
        (total P.seen (P.home_seen home.old).pools.family (packets table.old)) (total P.seen (P.home_seen home.old).pools.family (packets table.new)) }
{
    match table.lookup(ip) {
        Next::Ask(gone) => spend_if(home, gone),
        Next::Known(_) | Next::Wait => {}
    }
}

/// Lets a packet wait for a next hop; what waited there before is given up.
fn hold<P: Payload>(hop: Ip, packet: P, table: &mut ArpTable<P>, home: &mut P::Home)
    requires pending { state_of table.old hop ≡ EntryState.Pending }
    requires owned { IsOwned (P.home_seen home.old) (total P.seen (P.home_seen home.old).pools.family (packets table.old ++ packet ∷ [])) }
    ensures table { table.new ≡ held table.old hop packet }
    ensures moves { Moves (P.home_seen home.old) (P.home_seen home.new)
        (total P.seen (P.home_seen home.old).pools.family (packets table.old ++ packet ∷ [])) (total P.seen (P.home_seen home.old).pools.family (packets table.new)) }
{
    let replaced = table.hold(hop, packet);
    spend_if(home, replaced);
}
