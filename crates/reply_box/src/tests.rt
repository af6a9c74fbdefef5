//! Both sides of a place in turn, and a mailbox that is full.
ghost use Rattle.std.specs.Prelude.{◌≡◌, ℕ};
ghost use Rattle.reply_box.specs.Places.{IsOf};

use crate::{Answer, Await, Pledge, ReplyBox};
use std::alloc::{AllocError, Global};
use std::sync::Wait;
use std::test::Fail;
use tcpip_mbox::{Message, TcpipMbox};

const REPLIES: u64 = 1_000;

#[derive(Drop)]
struct Number {
    value: u64,
}

// The answer to the question n is n.
impl Answer<u64> for Number {
    ghost answers = { λ _ n r. r.value ≡ n };
}

// How many replies had the number of their question.
fn turns<R: Wait>(
    rt: &R,
    place: &ReplyBox<Number, u64>,
    mut pledge: Pledge<Number, u64>,
    mut waits: Await<Number, u64>,
) -> u64
    requires pledge { IsOf place.now pledge × (pledge.count ≡ 0) }
    requires waits { IsOf place.now waits }
{
    let mut right = 0;
    for n in 0..REPLIES {
        place.give(rt, &mut pledge, Number { value: n });
        let reply = place.get(rt, &mut waits);
        if reply.value == n {
            right += 1;
        }
    }
    right
}

fn through_a_place<R: Wait>(rt: &R, alloc: Global) -> Result<u64, AllocError> {
    let (place, pledge, waits) = ReplyBox::new(alloc, &0)?;
    Ok(turns(rt, &place, pledge, waits))
}

#[test]
fn each_reply_answers_its_question(rt: HostRuntime) -> Result<(), Fail> {
    assert_eq!(rt; through_a_place(&rt, rt.alloc())?, REPLIES);
    Ok(())
}

// Any message may be put in.
impl Message<u64> for Number {
    ghost fits = { λ _ _ _ _. Unit {0} };
}

// What two places take of three messages, and then of one more once one was taken out.
fn past_two_places<R: Wait>(rt: &R, alloc: Global) -> Result<(bool, bool, bool, u64), AllocError> {
    let (mbox, mut puts, mut get) = TcpipMbox::new(alloc, 2, 1, &0)?;
    let Some(mut put) = puts.pop() else {
        return Err(AllocError);
    };
    let _ = mbox.put(rt, &mut put, Number { value: 7 });
    let second = mbox.put(rt, &mut put, Number { value: 8 }).is_ok();
    let third = mbox.put(rt, &mut put, Number { value: 9 }).is_ok();
    let first_out = match mbox.get(rt, &mut get) {
        Some(number) => number.value,
        None => 0,
    };
    let fourth = mbox.put(rt, &mut put, Number { value: 9 }).is_ok();
    mbox.gather(&mut get, put);
    Ok((second, third, fourth, first_out))
}

#[test]
fn a_full_mailbox_refuses(rt: HostRuntime) -> Result<(), Fail> {
    assert_eq!(rt; past_two_places(&rt, rt.alloc())?, (true, false, true, 7));
    Ok(())
}
