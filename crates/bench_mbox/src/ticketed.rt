//! One poster and its takers at a ticketed mailbox.
ghost use Rattle.std.specs.Prelude.{◌≡◌, ◌<◌, All, IfOk, false};
ghost use Rattle.std.specs.Thread.{IsSync};
ghost use Rattle.lw_base.specs.declared.event_word.Flag.TheVariants.{Closed};
ghost use Rattle.lw_mbox.specs.Changes.{is_on};
ghost use Rattle.lw_mbox.specs.Tokens.{IsOf};

use crate::PLACES;
use lw_base::Flag;
use lw_mbox::{Drain, Fetch, Mail, Mbox, PostFault, Poster, Side, Taker, make};
use std::alloc::{AllocError, Global};
use std::io;
use std::rt::Clock;
use std::thread::{Threads, for_each_mut, join, yield_now};
use std::time::Instant;

// So often an actor tries again before it gives up.
const TRIES: u64 = 1_000_000_000_000;

/// What is posted.
#[derive(Clone, Copy, Drop)]
pub struct Item(u32);

/// The key of a mailbox that takes any item.
#[derive(Clone, Copy, Drop)]
pub struct Any;

impl Mail<Any> for Item {
    ghost fits = { λ _ _. Unit {0} };
}

// Posts the item where there is a place for it.
fn post(
    poster: &mut Poster<Item, Any>,
    mbox: &Mbox<Item, Any>,
    item: Item,
) -> Result<u32, PostFault>
    requires own { IsOf mbox.now poster.old.board poster.old.key }
    requires places { 0 < mbox.now.capacity }
    requires unclosed { is_on Closed poster.old.changes ≡ false }
    ensures own { IsOf mbox.now poster.new.board poster.new.key }
    ensures unclosed { is_on Closed poster.new.changes ≡ false }
{
    poster.has_place(mbox, 0)?;
    Ok(poster.post(mbox, item))
}

fn fetch(taker: &mut Taker<Item, Any>, mbox: &Mbox<Item, Any>) -> Fetch<Item>
    requires { IsOf mbox.now taker.old.board taker.old.key }
    ensures { IsOf mbox.now taker.new.board taker.new.key }
{
    taker.try_fetch(mbox, Side::Reads)
}

fn drain(taker: &mut Taker<Item, Any>, mbox: &Mbox<Item, Any>) -> Drain<Item>
    requires { IsOf mbox.now taker.old.board taker.old.key }
    ensures { IsOf mbox.now taker.new.board taker.new.key }
{
    taker.drain(mbox)
}

// Posts the item as soon as there is room.
fn post_soon(poster: &mut Poster<Item, Any>, mbox: &Mbox<Item, Any>, item: u32)
    requires places { 0 < mbox.now.capacity }
    requires own { IsOf mbox.now poster.old.board poster.old.key }
    requires unclosed { is_on Closed poster.old.changes ≡ false }
    ensures own { IsOf mbox.now poster.new.board poster.new.key }
    ensures unclosed { is_on Closed poster.new.changes ≡ false }
{
    for _ in 0..TRIES {
        if post(poster, mbox, Item(item)).is_ok() {
            return;
        }
        yield_now();
    }
}

// Posts so many items, and closes the mailbox.
fn post_all(mut poster: Poster<Item, Any>, mbox: &Mbox<Item, Any>, items: u32)
    requires places { 0 < mbox.now.capacity }
    requires own { IsOf mbox.now poster.board poster.key }
    requires unclosed { is_on Closed poster.changes ≡ false }
{
    for item in 0..items {
        post_soon(&mut poster, mbox, item);
    }
    poster.set(mbox, Flag::Closed);
}

// Fetches until the mailbox is closed, and drains it then.
fn take_all(mbox: &Mbox<Item, Any>, taker: &mut Taker<Item, Any>)
    requires { IsOf mbox.now taker.old.board taker.old.key }
{
    for _ in 0..TRIES {
        match fetch(taker, mbox) {
            Fetch::Item(_, _) => (),
            Fetch::Closed(_) => break,
            _ => yield_now(),
        }
    }
    for _ in 0..TRIES {
        match drain(taker, mbox) {
            Drain::Item(_, _) => (),
            Drain::Done(_) => break,
            _ => yield_now(),
        }
    }
}

// The Taker with the parts that are left, and so many others.
fn line_up(
    alloc: Global,
    mbox: &Mbox<Item, Any>,
    mut last: Taker<Item, Any>,
    takers: u32,
) -> Result<(Taker<Item, Any>, Vec<Taker<Item, Any>>), AllocError>
    requires own { IsOf mbox.now last.board last.key }
    requires parts { (last.parts ≡ 256) × (takers < 256) }
    ensures { IfOk result (λ r. IsOf mbox.now r.0.board r.0.key × All (λ t. IsOf mbox.now t.board t.key) r.1.items) }
{
    let mut others = Vec::new(alloc);
    for index in 0..takers {
        let (again, other) = last.split(mbox, 1);
        last = again;
        others.push(other)?;
    }
    Ok((last, others))
}

// Each Taker on a thread of its own.
fn take_each<R: Threads + Sync>(rt: &R, mbox: &Mbox<Item, Any>, mut takers: Vec<Taker<Item, Any>>)
    requires { All (λ t. IsOf mbox.now t.board t.key) takers.items }
{
    let threads = takers.len();
    if threads == 0 {
        return;
    }
    for_each_mut(
        rt,
        takers.as_mut_slice(),
        threads,
        &|_: usize, taker: &mut Taker<Item, Any>|
            requires { IsOf mbox.now taker.old.board taker.old.key }
        { take_all(mbox, taker) },
    );
}

/// The nanoseconds until all items were taken, and how many that were.
pub fn time_items<R: Threads + Clock + Sync>(
    rt: &R,
    alloc: Global,
    takers: u32,
    items: u32,
) -> io::Result<(u128, u32)>
    requires { takers < 256 }
{
    let (mbox, poster, last) = make(alloc, PLACES, &Any)?;
    let (mut last, others) = line_up(alloc, &mbox, last, takers)?;
    let start = Instant::now(rt)?;
    join(
        rt,
        ||
            requires { IsOf mbox poster.board poster.key × (0 < mbox.capacity) × (is_on Closed poster.changes ≡ false) }
        { post_all(poster, &mbox, items) },
        ||
            requires { IsSync R.row × All (λ t. IsOf mbox t.board t.key) others.items }
        { take_each(rt, &mbox, others) },
    );
    let spent = start.elapsed(rt)?;
    Ok((spent.as_nanos(), last.word(&mbox).claimed))
}
