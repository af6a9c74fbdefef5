//! The queue and its rule.
use crate::message::Message;
use crate::view::{Letter, View};
use crossbeam_queue::protocol::Protocol;
use crossbeam_queue::{Pass, RuledArrayQueue};
use std::alloc::Global;

/// The rule of a mailbox's queue.
pub struct InOrder;

impl<M: Message<K>, K> Protocol<Letter<M>, View<M, K>> for InOrder {
    ghost use Rattle.tcpip_mbox.specs.Rule.{Ruled};
    ghost use Rattle.tcpip_mbox.specs.Views.{firstborn};

    ghost holds = { Ruled M.fits };

    ghost first = { firstborn };
}

pub(crate) type Queue<M, K> = RuledArrayQueue<Letter<M>, View<M, K>, InOrder, Global>;

pub(crate) type Place<M, K> = Pass<Letter<M>, View<M, K>>;
