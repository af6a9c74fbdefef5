//! A note of what was taken out of the mailbox.
ghost use Rattle.std.specs.Prelude.{◌≡◌, []};
ghost use Rattle.crossbeam_queue.specs.Passes.{view};
ghost use Rattle.tcpip_mbox.specs.Views.{teller};

use crate::message::Message;
use crate::rule::Place;
use std::marker::Model;

/// A note of what the Get had given when it was made.
pub struct Given<M: Message<K>, K> {
    pub(crate) pass: Place<M, K>,
}

impl<M: Message<K>, K> Model for Given<M, K> {
    ghost use Rattle.tcpip_mbox.specs.Tokens.{Noted, noted_at, IsNote};

    ghost Value = { Noted M };

    ghost view = { λ n. noted_at n.pass };

    ghost invariant = { λ n. IsNote n.pass };
}

impl<M: Message<K>, K> Given<M, K> {
    // What a Put takes in.
    pub(crate) fn into_pass(self) -> Place<M, K>
        ensures { (result.table_id ≡ self.table) × (result.me.1 ≡ []) × (view result ≡ teller self.given) }
    {
        let Given { pass } = self;
        pass
    }
}

impl<M: Message<K>, K> Drop for Given<M, K> {
    fn drop(self) {
        let Self { pass: _pass } = self;
    }
}
