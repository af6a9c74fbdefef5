//! Payloads that are given up.
ghost use Rattle.std.specs.Prelude.{[], ◌∷◌, option_to_list};
ghost use Rattle.lw_payload.specs.Totals.{total, IsOwned, Moves};

use crate::Payload;

/// Gives a payload up. Takes no memory.
pub fn spend<P: Payload>(home: &mut P::Home, payload: P)
    requires owned { IsOwned (P.home_seen home.old) (total P.seen (P.home_seen home.old).pools.family (payload ∷ [])) }
    ensures moves { Moves (P.home_seen home.old) (P.home_seen home.new)
        (total P.seen (P.home_seen home.old).pools.family (payload ∷ [])) (total P.seen (P.home_seen home.old).pools.family []) }
{
    payload.spend(home);
}

/// Gives a payload up, if there is one. Takes no memory.
pub fn spend_if<P: Payload>(home: &mut P::Home, payload: Option<P>)
    requires owned { IsOwned (P.home_seen home.old) (total P.seen (P.home_seen home.old).pools.family (option_to_list payload)) }
    ensures moves { Moves (P.home_seen home.old) (P.home_seen home.new)
        (total P.seen (P.home_seen home.old).pools.family (option_to_list payload)) (total P.seen (P.home_seen home.old).pools.family []) }
{
    if let Some(payload) = payload {
        spend(home, payload);
    }
}

/// Gives all of these payloads up. Takes no memory.
pub fn spend_all<P: Payload>(home: &mut P::Home, payloads: Vec<P>)
    requires owned { IsOwned (P.home_seen home.old) (total P.seen (P.home_seen home.old).pools.family payloads.items) }
    ensures moves { Moves (P.home_seen home.old) (P.home_seen home.new)
        (total P.seen (P.home_seen home.old).pools.family payloads.items) (total P.seen (P.home_seen home.old).pools.family []) }
{
    for payload in payloads {
        spend(home, payload);
    }
}
