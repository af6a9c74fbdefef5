//! The mailbox, and how it is made.
ghost use Rattle.std.specs.Prelude.{◌≡◌, ◌≢◌, ℕ, ◌+◌, ◌-◌, ◌<◌, ◌≤◌, [], ◌∷◌, ◌++◌, length, max, vec_capacity, Some, IfOk, IfErr, OnOk, IfSome, IfNone};
ghost use mathlib.Core.List.{IsPrefix};
ghost use Rattle.crossbeam_queue.specs.Passes.{view, IsPassOf, ruled_capacity};
ghost use Rattle.tcpip_mbox.specs.Letters.{sent_by, AllOf};
ghost use Rattle.tcpip_mbox.specs.Views.{both_ways, firstborn, returned};
ghost use Rattle.tcpip_mbox.specs.Tokens.{IsOf, letter, AreNumbered, ArePuts};

use crate::bell::{BEGUN, Bell};
use crate::get::Get;
use crate::given::Given;
use crate::message::Message;
use crate::plays::{Gather, Got, Hire, Keyed, Meet, Part, Picks, Sent, Tell, Told};
use crate::put::Put;
use crate::rule::{Place, Queue};
use crate::shown::Shown;
use crate::view::Letter;
use std::alloc::{AllocError, Global};
use std::marker::{Brand, Model};
use std::sync::Wait;

/// A mailbox, which threads share by reference. Contracts see which one it is, how many places it has, and what its messages fit.
/// It is Drop where its messages are.
pub struct TcpipMbox<M: Message<K>, K> {
    queue: Queue<M, K>,
    key: Shown<K>,
    filled: Bell,
    freed: Bell,
}

impl<M: Message<K>, K> Model for TcpipMbox<M, K> {
    ghost use Rattle.tcpip_mbox.specs.Tokens.{Named};

    ghost Value = { Named K };

    ghost view = { λ m. record { table = m.queue.table.shared.table_id; places = m.queue.cap; key = m.key.value } };
}

impl<M: Message<K> + Drop, K> Drop for TcpipMbox<M, K> {
    fn drop(self) {
        let Self {
            queue: _queue,
            key: _,
            filled: _filled,
            freed: _freed,
        } = self;
    }
}

// The pass that knows the key, in place of the first one.
fn keyed<M: Message<K>, K, N: Picks<K>>(
    queue: &Queue<M, K>,
    mut first: Place<M, K>,
    key: &K,
) -> Place<M, K>
    requires picked { N.picked ≡ Some key.now }
    requires pass { IsPassOf queue.now first × (view first ≡ firstborn) }
    ensures { IsPassOf queue.now result × (view result ≡ both_ways (Some key.now) 0) }
{
    queue.another::<Keyed<N>>(&mut first)
}

// Makes the Puts with the numbers from 1 on, for which there is room.
fn hire<M: Message<K>, K>(
    queue: &Queue<M, K>,
    first: &mut Place<M, K>,
    key: &K,
    others: u32,
    puts: &mut Vec<Put<M, K>>,
)
    requires first { IsPassOf queue.now first.old × (view first.old ≡ both_ways (Some key.now) 0) }
    requires room { (puts.old.items ≡ []) × (others < vec_capacity puts.old) }
    ensures pass { IsPassOf queue.now first.new }
    ensures first { view first.new ≡ both_ways (Some key.now) others }
    ensures puts { AreNumbered queue.now.table.shared.table_id (Some key.now) 1 puts.new.items × (length puts.new.items ≡ others) }
    ensures room { vec_capacity puts.new ≡ vec_capacity puts.old }
{
    for number in 0..others {
        let pass = queue.another::<Hire>(first);
        puts.push_reserved(Put {
            pass,
            number: number + 1,
        });
    }
}

impl<M: Message<K>, K> TcpipMbox<M, K> {
    /// An empty mailbox of so many places, with a Put for each line, the first at the head, and its Get.
    pub fn new(
        alloc: Global,
        places: u32,
        lines: u32,
        key: &K,
    ) -> Result<(TcpipMbox<M, K>, Vec<Put<M, K>>, Get<M, K>), AllocError>
        requires { (0 < places) × (0 < lines) }
        ensures mbox { IfOk result (λ r. (r.0.places ≡ places) × (r.0.key ≡ key.now)) }
        ensures puts { IfOk result (λ r. ArePuts r.0 lines r.1.items) }
        ensures get { IfOk result (λ r. r.2 ≡ record { table = r.0.table; key = Some key.now; others = lines - 1; given = []; back = [] }) }
    {
        let mut puts = Vec::with_capacity(alloc, lines as usize)?;
        let (queue, first) = Queue::<M, K>::ruled(alloc, places as usize)?;
        let mut first = keyed::<M, K, Brand>(&queue, first, key);
        hire(&queue, &mut first, key, lines - 1, &mut puts);
        let pass = queue.another::<Part>(&mut first);
        let head = Put {
            pass: first,
            number: 0,
        };
        if puts.insert(0, head).is_err() {
            unreachable!()
        }
        let mbox = TcpipMbox {
            queue,
            key: Shown::of(key),
            filled: Bell::new(),
            freed: Bell::new(),
        };
        Ok((mbox, puts, Get { pass }))
    }

    /// Puts a message in, at the end. It comes back only where the mailbox was full at a moment of the call, and to the first Put only where
    /// those of its messages that it doesn't know as given, with one of each other Put, are as many as there are places.
    pub fn put<R: Wait>(&self, rt: &R, put: &mut Put<M, K>, message: M) -> Result<(), M>
        requires own { IsOf self.now put.old.table put.old.key }
        requires fits { M.fits self.now.key put.old.number put.old.sent message }
        requires known { put.old.number ≢ 0 → put.old.known ≡ length put.old.sent }
        ensures ok { OnOk result (put.new ≡ record put.old { sent = put.old.sent ++ message ∷ [] }) }
        ensures err { IfErr result (λ back. (back ≡ message) × (put.new ≡ put.old)) }
        ensures full { IfErr result (λ _. put.old.number ≡ 0 → self.now.places + put.old.known ≤ length put.old.sent + put.old.others) }
    {
        let letter = Letter {
            from: put.number,
            message,
        };
        match self.queue.push_as::<Sent, R>(rt, &mut put.pass, letter) {
            Ok(()) => {
                self.filled.ring();
                Ok(())
            }
            Err(Letter { from: _, message }) => Err(message),
        }
    }

    /// Waits until the mailbox has a place, and puts a message in, at the end.
    pub fn post<R: Wait>(&self, rt: &R, put: &mut Put<M, K>, mut message: M)
        requires own { IsOf self.now put.old.table put.old.key }
        requires fits { M.fits self.now.key put.old.number put.old.sent message }
        requires known { put.old.number ≢ 0 → put.old.known ≡ length put.old.sent }
        ensures { put.new ≡ record put.old { sent = put.old.sent ++ message ∷ [] } }
    {
        let mut watch = BEGUN;
        for _ in rt.forever() {
            match self.put(rt, put, message) {
                Ok(()) => return,
                Err(back) => message = back,
            }
            watch = self.freed.wait(rt, watch);
        }
        unreachable!()
    }

    /// Takes the oldest message out. None only where the mailbox was empty at a moment of the call: all that the Puts which were taken back
    /// had put in was given then.
    pub fn get<R: Wait>(&self, rt: &R, get: &mut Get<M, K>) -> Option<M>
        requires own { IsOf self.now get.old.table get.old.key }
        ensures same { (get.new.table ≡ get.old.table) × (get.new.key ≡ get.old.key) × (get.new.others ≡ get.old.others) }
        ensures back { get.new.back ≡ get.old.back }
        ensures some { IfSome result (λ m. (n : ℕ) × (n ≤ get.old.others) × M.fits self.now.key n (sent_by n get.old.given) m × (get.new.given ≡ get.old.given ++ letter n m ∷ [])) }
        ensures none { IfNone result (get.new ≡ get.old) }
        ensures empty { IfNone result (AllOf get.old.given get.old.back) }
    {
        let letter = self.queue.pop_as::<Got, R>(rt, &mut get.pass)?;
        let Letter { from: _, message } = letter;
        self.freed.ring();
        Some(message)
    }

    /// Waits until a message lies in the mailbox, and takes the oldest one out.
    pub fn fetch<R: Wait>(&self, rt: &R, get: &mut Get<M, K>) -> M
        requires own { IsOf self.now get.old.table get.old.key }
        ensures same { (get.new.table ≡ get.old.table) × (get.new.key ≡ get.old.key) × (get.new.others ≡ get.old.others) }
        ensures back { get.new.back ≡ get.old.back }
        ensures got { (n : ℕ) × (n ≤ get.old.others) × M.fits self.now.key n (sent_by n get.old.given) result × (get.new.given ≡ get.old.given ++ letter n result ∷ []) }
    {
        let mut watch = BEGUN;
        for _ in rt.forever() {
            if let Some(message) = self.get(rt, get) {
                return message;
            }
            watch = self.filled.wait(rt, watch);
        }
        unreachable!()
    }

    /// A note of what was given so far. It waits for nobody.
    pub fn note(&self, get: &mut Get<M, K>) -> Given<M, K>
        requires own { IsOf self.now get.old.table get.old.key }
        ensures same { get.new ≡ get.old }
        ensures note { result ≡ record { table = get.old.table; given = get.old.given } }
    {
        let pass = self.queue.another::<Tell>(&mut get.pass);
        Given { pass }
    }

    /// The Put then knows as given all its messages that the note has. They are the first that it put in. It waits for nobody.
    pub fn meet(&self, put: &mut Put<M, K>, note: Given<M, K>)
        requires own { IsOf self.now put.old.table put.old.key }
        requires note { note.table ≡ self.now.table }
        ensures known { put.new ≡ record put.old { known = max put.old.known (length (sent_by put.old.number note.given)) } }
        ensures prefix { IsPrefix (sent_by put.old.number note.given) put.old.sent }
    {
        self.queue.absorb::<Meet>(&mut put.pass, note.into_pass());
        self.queue.learn_as::<Told>(&mut put.pass);
    }

    /// Takes a Put back. What was given of it is the beginning of what it put in.
    pub fn gather(&self, get: &mut Get<M, K>, mut put: Put<M, K>)
        requires own { IsOf self.now get.old.table get.old.key }
        requires put { IsOf self.now put.table put.key }
        ensures back { get.new ≡ record get.old { back = get.old.back ++ returned put.number put.sent ∷ [] } }
        ensures prefix { IsPrefix (sent_by put.number get.old.given) put.sent }
    {
        let note = self.note(get);
        self.meet(&mut put, note);
        self.queue.absorb::<Gather>(&mut get.pass, put.into_pass());
    }
}
