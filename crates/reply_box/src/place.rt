//! The place, and the rights of its two sides.
ghost use Rattle.std.specs.Prelude.{◌≡◌, ◌+◌, Some, IfOk};
ghost use Rattle.reply_box.specs.Places.{IsOf};

use crate::answer::{Answer, Carried};
use std::alloc::{AllocError, Global};
use std::marker::Model;
use std::sync::Wait;
use tcpip_mbox::{Get, Put, TcpipMbox};

/// A reply place. Contracts see which one it is, and what its replies answer.
/// It is Drop where its replies are.
pub struct ReplyBox<R: Answer<K>, K> {
    mbox: TcpipMbox<Carried<R>, K>,
}

impl<R: Answer<K>, K> Model for ReplyBox<R, K> {
    ghost use Rattle.reply_box.specs.Places.{Named};

    ghost Value = { Named K };

    ghost view = { λ b. record { place = b.mbox.table; key = b.mbox.key } };
}

impl<R: Answer<K> + Drop, K> Drop for ReplyBox<R, K> {
    fn drop(self) {
        let Self { mbox: _mbox } = self;
    }
}

/// The right to answer. Contracts see how many questions it has answered.
pub struct Pledge<R: Answer<K>, K> {
    put: Put<Carried<R>, K>,
}

impl<R: Answer<K>, K> Model for Pledge<R, K> {
    ghost use Rattle.std.specs.Prelude.{◌≡◌, ◌+◌, length};
    ghost use Rattle.reply_box.specs.Places.{Side};

    ghost Value = { Side K };

    ghost view = { λ p. record { place = p.put.table; key = p.put.key; count = length p.put.sent } };

    ghost invariant = { λ p. p.put.number ≡ 0 };
}

impl<R: Answer<K>, K> Drop for Pledge<R, K> {
    fn drop(self) {
        let Self { put: _put } = self;
    }
}

/// The right to take replies out. Contracts see how many it has taken.
pub struct Await<R: Answer<K>, K> {
    get: Get<Carried<R>, K>,
}

impl<R: Answer<K>, K> Model for Await<R, K> {
    ghost use Rattle.std.specs.Prelude.{◌≡◌, ◌+◌, length};
    ghost use Rattle.tcpip_mbox.specs.Letters.{sent_by};
    ghost use Rattle.reply_box.specs.Places.{Side};

    ghost Value = { Side K };

    ghost view = { λ a. record { place = a.get.table; key = a.get.key; count = length (sent_by 0 a.get.given) } };

    ghost invariant = { λ a. a.get.others ≡ 0 };
}

impl<R: Answer<K>, K> Drop for Await<R, K> {
    fn drop(self) {
        let Self { get: _get } = self;
    }
}

impl<R: Answer<K>, K> ReplyBox<R, K> {
    /// An empty place with the rights of its two sides.
    pub fn new(
        alloc: Global,
        key: &K,
    ) -> Result<(ReplyBox<R, K>, Pledge<R, K>, Await<R, K>), AllocError>
        ensures key { IfOk result (λ r. r.0.key ≡ key.now) }
        ensures pledge { IfOk result (λ r. r.1 ≡ record { place = r.0.place; key = Some key.now; count = 0 }) }
        ensures waits { IfOk result (λ r. r.2 ≡ record { place = r.0.place; key = Some key.now; count = 0 }) }
    {
        let (mbox, mut puts, get) = TcpipMbox::new(alloc, 1, 1, key)?;
        let Some(put) = puts.pop() else {
            unreachable!()
        };
        Ok((ReplyBox { mbox }, Pledge { put }, Await { get }))
    }

    /// Waits until the place is free, and puts in the answer to the next question.
    pub fn give<W: Wait>(&self, rt: &W, pledge: &mut Pledge<R, K>, reply: R)
        requires own { IsOf self.now pledge.old }
        requires answers { R.answers self.now.key pledge.old.count reply }
        ensures given { pledge.new ≡ record pledge.old { count = pledge.old.count + 1 } }
    {
        self.mbox.post(rt, &mut pledge.put, Carried { reply });
    }

    /// Waits for the answer to the next question, and takes it out.
    pub fn get<W: Wait>(&self, rt: &W, waits: &mut Await<R, K>) -> R
        requires own { IsOf self.now waits.old }
        ensures answers { R.answers self.now.key waits.old.count result }
        ensures got { waits.new ≡ record waits.old { count = waits.old.count + 1 } }
    {
        let Carried { reply } = self.mbox.fetch(rt, &mut waits.get);
        reply
    }
}
