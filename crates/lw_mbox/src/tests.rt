ghost use Rattle.std.specs.Prelude.{◌≡◌, ◌<◌, false};
ghost use Rattle.lw_base.specs.declared.event_word.Flag.TheVariants.{Closed};
ghost use Rattle.lw_mbox.specs.Changes.{is_on};
ghost use Rattle.lw_mbox.specs.Tokens.{IsOf};

use crate::{Drain, Fetch, Mail, Mbox, PostFault, Poster, Side, Taker, make};
use lw_base::Flag;
use std::alloc::{AllocError, Global};
use std::test::Fail;
use std::thread::{join, yield_now};

const ITEMS: u32 = 100_000;

// So often an actor tries again before it gives up.
const TRIES: u32 = 100_000_000;

impl Mail<u8> for u32 {
    ghost fits = { λ _ _. Unit {0} };
}

// Posts the item where there is a place for it.
fn post(poster: &mut Poster<u32, u8>, mbox: &Mbox<u32, u8>, item: u32) -> Result<u32, PostFault>
    requires places { 0 < mbox.now.capacity }
    requires own { IsOf mbox.now poster.old.board poster.old.key }
    requires unclosed { is_on Closed poster.old.changes ≡ false }
    ensures own { IsOf mbox.now poster.new.board poster.new.key }
    ensures unclosed { is_on Closed poster.new.changes ≡ false }
{
    poster.has_place(mbox, 0)?;
    Ok(poster.post(mbox, item))
}

// Posts both items, where there are places for both.
fn post_both(
    poster: &mut Poster<u32, u8>,
    mbox: &Mbox<u32, u8>,
    first: u32,
    second: u32,
) -> Result<(u32, u32), PostFault>
    requires own { IsOf mbox.now poster.old.board poster.old.key }
    requires places { 1 < mbox.now.capacity }
    requires unclosed { is_on Closed poster.old.changes ≡ false }
    ensures own { IsOf mbox.now poster.new.board poster.new.key }
    ensures unclosed { is_on Closed poster.new.changes ≡ false }
{
    poster.has_place(mbox, 0)?;
    poster.has_place(mbox, 1)?;
    let before = poster.post(mbox, first);
    Ok((before, poster.post(mbox, second)))
}

fn fetch(taker: &mut Taker<u32, u8>, mbox: &Mbox<u32, u8>) -> Fetch<u32>
    requires { IsOf mbox.now taker.old.board taker.old.key }
    ensures { IsOf mbox.now taker.new.board taker.new.key }
{
    taker.try_fetch(mbox, Side::Reads)
}

fn drain(taker: &mut Taker<u32, u8>, mbox: &Mbox<u32, u8>) -> Drain<u32>
    requires { IsOf mbox.now taker.old.board taker.old.key }
    ensures { IsOf mbox.now taker.new.board taker.new.key }
{
    taker.drain(mbox)
}

fn closed_at(answer: Fetch<u32>) -> Option<(u32, u32)> {
    match answer {
        Fetch::Closed(word) => Some((word.posted, word.claimed)),
        _ => None,
    }
}

#[test]
fn a_mailbox_of_two(rt: HostRuntime) -> Result<(), Fail> {
    let (mbox, mut poster, mut taker): (Mbox<u32, u8>, _, _) = make(rt.alloc(), 2, &0u8)?;
    assert_eq!(rt; post_both(&mut poster, &mbox, 10, 11), Ok((0, 1)));
    assert_eq!(rt; post(&mut poster, &mbox, 12), Err(PostFault::Full));
    assert!(rt; matches!(fetch(&mut taker, &mbox), Fetch::Item(0, 10)));
    assert_eq!(rt; poster.has_place(&mbox, 1), Err(PostFault::Full));
    assert_eq!(rt; post(&mut poster, &mbox, 12), Ok(2));
    poster.set(&mbox, Flag::Closed);
    assert_eq!(rt; closed_at(fetch(&mut taker, &mbox)), Some((3, 1)));
    assert!(rt; matches!(drain(&mut taker, &mbox), Drain::Item(1, 11)));
    assert!(rt; matches!(drain(&mut taker, &mbox), Drain::Item(2, 12)));
    assert!(rt; matches!(drain(&mut taker, &mbox), Drain::Done(_)));
    Ok(())
}

// Posts the item as soon as there is room.
fn post_soon(poster: &mut Poster<u32, u8>, mbox: &Mbox<u32, u8>, item: u32) -> bool
    requires places { 0 < mbox.now.capacity }
    requires own { IsOf mbox.now poster.old.board poster.old.key }
    requires unclosed { is_on Closed poster.old.changes ≡ false }
    ensures own { IsOf mbox.now poster.new.board poster.new.key }
    ensures unclosed { is_on Closed poster.new.changes ≡ false }
{
    for _ in 0..TRIES {
        if post(poster, mbox, item).is_ok() {
            return true;
        }
        yield_now();
    }
    false
}

// Posts each number below ITEMS, and closes the mailbox.
fn post_all(mut poster: Poster<u32, u8>, mbox: &Mbox<u32, u8>) -> Poster<u32, u8>
    requires places { 0 < mbox.now.capacity }
    requires own { IsOf mbox.now poster.board poster.key }
    requires unclosed { is_on Closed poster.changes ≡ false }
    ensures { IsOf mbox.now result.board result.key }
{
    for item in 0..ITEMS {
        if !post_soon(&mut poster, mbox, item) {
            break;
        }
    }
    poster.set(mbox, Flag::Closed);
    poster
}

// One more of the ticket, where its item is the number that was posted as it.
fn count(counts: &mut Vec<u8>, ticket: u32, item: u32) {
    if ticket != item {
        return;
    }
    if let Some(seen) = counts.get_mut(ticket as usize) {
        *seen = seen.saturating_add(1);
    }
}

// Fetches until the mailbox is closed.
fn fetch_all(taker: &mut Taker<u32, u8>, mbox: &Mbox<u32, u8>, counts: &mut Vec<u8>)
    requires { IsOf mbox.now taker.old.board taker.old.key }
    ensures { IsOf mbox.now taker.new.board taker.new.key }
{
    for _ in 0..TRIES {
        match fetch(taker, mbox) {
            Fetch::Item(ticket, item) => count(counts, ticket, item),
            Fetch::Closed(_) => return,
            _ => yield_now(),
        }
    }
}

// Drains what is left of a closed mailbox.
fn drain_all(taker: &mut Taker<u32, u8>, mbox: &Mbox<u32, u8>, counts: &mut Vec<u8>)
    requires { IsOf mbox.now taker.old.board taker.old.key }
    ensures { IsOf mbox.now taker.new.board taker.new.key }
{
    for _ in 0..TRIES {
        match drain(taker, mbox) {
            Drain::Item(ticket, item) => count(counts, ticket, item),
            Drain::Done(_) => return,
            _ => yield_now(),
        }
    }
}

// How often each ticket came to this Taker.
fn take_all(
    mut taker: Taker<u32, u8>,
    mbox: &Mbox<u32, u8>,
    mut counts: Vec<u8>,
) -> (Taker<u32, u8>, Vec<u8>)
    requires { IsOf mbox.now taker.board taker.key }
    ensures { IsOf mbox.now result.0.board result.0.key }
{
    fetch_all(&mut taker, mbox, &mut counts);
    drain_all(&mut taker, mbox, &mut counts);
    (taker, counts)
}

// No ticket came yet.
fn blank(alloc: Global) -> Result<Vec<u8>, AllocError> {
    Vec::from_elem(alloc, 0u8, ITEMS as usize)
}

#[test]
fn each_ticket_is_taken_once(rt: HostRuntime) -> Result<(), Fail> {
    let (mbox, poster, taker): (Mbox<u32, u8>, _, _) = make(rt.alloc(), 64, &0u8)?;
    let (taker, third) = taker.split(&mbox, 85);
    let (first, second) = taker.split(&mbox, 85);
    let (one, two, three) = (blank(rt.alloc())?, blank(rt.alloc())?, blank(rt.alloc())?);
    let (mut poster, ((first, one), ((second, two), (third, three)))) = join(
        &rt,
        || post_all(poster, &mbox),
        ||
            requires { IsOf mbox first.board first.key × IsOf mbox second.board second.key × IsOf mbox third.board third.key }
        {
            join(
                &rt,
                || take_all(first, &mbox, one),
                ||
                    requires { IsOf mbox second.board second.key × IsOf mbox third.board third.key }
                {
                    join(
                        &rt,
                        || take_all(second, &mbox, two),
                        || take_all(third, &mbox, three),
                    )
                },
            )
        },
    );
    let counts = one.iter().zip(two.iter()).zip(three.iter());
    assert!(rt;
        counts
            .map(|((a, b), c)| *a as u32 + *b as u32 + *c as u32)
            .all(|n| n == 1)
    );
    assert_eq!(rt; one.len(), ITEMS as usize);
    poster.gather(&mbox, first.join(&mbox, second).join(&mbox, third));
    Ok(())
}
