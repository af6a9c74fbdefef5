//! Where the tcpip thread answers.
ghost use Rattle.std.specs.Prelude.{◌≡◌, ◌<◌, All, length, slice_get, slice_set, true, Some};
ghost use Rattle.reply_box.specs.Places.{IsOf};
ghost use Rattle.lw_tcpip.specs.Replies.{Answers};
ghost use Rattle.lw_tcpip.specs.Tokens.{answered};

use crate::reply::{Answered, Clerk, Counter};
use hist_lock::Serial;
use std::marker::Model;
use std::sync::{Arc, Wait};

/// Where one line is answered.
#[derive(Drop)]
pub struct Seat<O: Serial> {
    pub(crate) place: Arc<Counter<O>>,
    pub(crate) pledge: Clerk<O>,
    pub(crate) left: bool,
}

impl<O: Serial> Model for Seat<O> {
    ghost use Rattle.std.specs.Arc.{arc_value};
    ghost use Rattle.hist_lock.specs.Callers.{Begun};
    ghost use Rattle.tcpip_mbox.specs.Tokens.{Named};
    ghost use Rattle.lw_tcpip.specs.declared.message.Service.{Service};
    ghost use Rattle.lw_tcpip.specs.declared.reply.LineKey.{LineKey};
    ghost use Rattle.lw_tcpip.specs.Tokens.{SeatSeen};

    ghost Value = { SeatSeen (LineKey (Named (Service (Begun O)))) };

    ghost view = { λ s. record { place = arc_value s.place; pledge = s.pledge; left = s.left } };
}

/// Waits until the place of this line is free, and puts the reply in.
pub(crate) fn give<O: Serial, R: Wait>(rt: &R, seats: &mut [Seat<O>], line: u32, reply: Answered<O>)
    requires line { line < length seats.old }
    requires seat { (s : _) → slice_get seats.old line ≡ Some s → IsOf s.place s.pledge × Answers O.state O.tag O.by O.same O.tells O.steps s.place.key s.pledge.count reply }
    ensures { (s : _) → slice_get seats.old line ≡ Some s → seats.new ≡ slice_set seats.old line (answered s) }
{
    let seat = &mut seats[line as usize];
    seat.place.give(rt, &mut seat.pledge, reply);
}

/// The line of this number has left.
pub(crate) fn leave<O: Serial>(seats: &mut [Seat<O>], line: u32)
    requires { line < length seats.old }
    ensures { (s : _) → slice_get seats.old line ≡ Some s → seats.new ≡ slice_set seats.old line (record s { left = true }) }
{
    let seat = &mut seats[line as usize];
    seat.left = true;
}

/// Whether every line has left.
pub(crate) fn all_left<O: Serial>(seats: &[Seat<O>]) -> bool
    ensures { result ≡ true → All (λ s. s.left ≡ true) seats.now }
{
    seats.iter().all(|seat| seat.left)
}
