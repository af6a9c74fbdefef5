//! How the way by messages is made.
ghost use Rattle.std.specs.Prelude.{◌≡◌, ◌<◌, [], false, Some, IfOk};
ghost use Rattle.lw_tcpip.specs.Tokens.{AreLines};

use crate::line::Line;
use crate::lines::open_lines;
use crate::message::Service;
use crate::server::Server;
use crate::tcpip::Tcpip;
use hist_lock::{HistLock, Serial};
use std::alloc::{AllocError, Global};
use std::snapshot::Snapshot;
use tcpip_mbox::TcpipMbox;

impl<O: Serial> Tcpip<O>
where
    O::Ev: Drop,
    O::Reply: Drop,
{
    /// A way to the object under this lock, by a mailbox of so many places, for so many lines. The caller of the number `server` is to serve.
    pub fn new(
        alloc: Global,
        lock: &HistLock<O>,
        server: u32,
        places: u32,
        lines: u32,
    ) -> Result<(Tcpip<O>, Server<O>, Vec<Line<O>>), AllocError>
        requires { (0 < places) × (0 < lines) }
        ensures tcpip { IfOk result (λ r. (r.0.key.lock.value ≡ lock.now) × (r.0.key.server ≡ server) × (r.0.places ≡ places)) }
        ensures server { IfOk result (λ r. r.1 ≡ record { mbox = r.0.table; terms = Some r.0.key; taken = []; ended = false; lost = false }) }
        ensures lines { IfOk result (λ r. AreLines r.0 lines r.2.items) }
    {
        let terms = Service {
            lock: Snapshot::of(lock),
            server,
        };
        let (mbox, puts, get) = TcpipMbox::new(alloc, places, lines, &terms)?;
        let (opened, seats) = open_lines(alloc, &mbox, puts, places)?;
        let server = Server {
            get,
            seats,
            ended: false,
            lost: false,
        };
        Ok((Tcpip { mbox }, server, opened))
    }
}
