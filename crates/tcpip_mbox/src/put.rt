//! One line's way into the mailbox.
ghost use Rattle.std.specs.Prelude.{◌≡◌, [], true, false};
ghost use Rattle.crossbeam_queue.specs.Passes.{view};

use crate::message::Message;
use crate::rule::Place;
use std::marker::Model;

/// The right of one line to put messages in. Contracts see its number, the number of the other Puts where it is the first, what it has put in,
/// and how many of these it knows as given.
pub struct Put<M: Message<K>, K> {
    pub(crate) pass: Place<M, K>,
    pub(crate) number: u32,
}

impl<M: Message<K>, K> Model for Put<M, K> {
    ghost use Rattle.tcpip_mbox.specs.Tokens.{Sender, sender_at, IsPutting};

    ghost Value = { Sender M K };

    ghost view = { λ p. sender_at p.pass p.number };

    ghost invariant = { λ p. IsPutting p.pass p.number };
}

impl<M: Message<K>, K> Put<M, K> {
    /// Its number, from 0 on.
    pub fn number(&self) -> u32
        ensures { result ≡ self.now.number }
    {
        self.number
    }

    // What the Get takes back.
    pub(crate) fn into_pass(self) -> Place<M, K>
        ensures table { (result.table_id ≡ self.table) × (result.me.1 ≡ []) }
        ensures view { ((view result).key ≡ self.key) × ((view result).puts ≡ true) × ((view result).gets ≡ false) × ((view result).number ≡ self.number) × ((view result).sent ≡ self.sent) }
    {
        let Self { pass, number: _ } = self;
        pass
    }
}

impl<M: Message<K>, K> Drop for Put<M, K> {
    fn drop(self) {
        let Self {
            pass: _pass,
            number: _,
        } = self;
    }
}
