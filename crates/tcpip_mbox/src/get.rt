//! The way out of the mailbox.
use crate::message::Message;
use crate::rule::Place;
use std::marker::Model;

/// The right to take messages out. Contracts see what it gave, oldest first, each message with the number of its Put.
pub struct Get<M: Message<K>, K> {
    pub(crate) pass: Place<M, K>,
}

impl<M: Message<K>, K> Model for Get<M, K> {
    ghost use Rattle.tcpip_mbox.specs.Tokens.{Receiver, receiver_at, IsGetting};

    ghost Value = { Receiver M K };

    ghost view = { λ g. receiver_at g.pass };

    ghost invariant = { λ g. IsGetting g.pass };
}

impl<M: Message<K>, K> Drop for Get<M, K> {
    fn drop(self) {
        let Self { pass: _pass } = self;
    }
}
