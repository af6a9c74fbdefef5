//! The tcpip thread's side of the mailbox.
use crate::desk::Seat;
use crate::message::Exit;
use hist_lock::Serial;
use std::marker::Model;

/// The right to serve. Contracts see the frames that it took, whether every line has left, and whether a frame was given up.
#[derive(Drop)]
pub struct Server<O: Serial> {
    pub(crate) get: Exit<O>,
    pub(crate) seats: Vec<Seat<O>>,
    pub(crate) ended: bool,
    pub(crate) lost: bool,
}

impl<O: Serial> Model for Server<O> {
    ghost use Rattle.hist_lock.specs.Callers.{Begun};
    ghost use Rattle.tcpip_mbox.specs.Letters.{sent_by};
    ghost use Rattle.lw_tcpip.specs.Tasks.{frames_of};
    ghost use Rattle.lw_tcpip.specs.Tokens.{ServerSeen, IsServer};

    ghost Value = { ServerSeen (Begun O) O.Ev };

    ghost view = { λ s. record { mbox = s.get.table; terms = s.get.key; taken = frames_of (sent_by 0 s.get.given); ended = s.ended; lost = s.lost } };

    ghost invariant = { λ s. IsServer s.get s.seats.items s.ended };
}
