ghost use Rattle.std.specs.Prelude.{◌≡◌, ◌<◌, ◌-◌, ◌^◌, IsTrue, is_some, IfSome};
ghost use Rattle.lw_conn.specs.Connections.{changed, connection, with_post};
ghost use Rattle.lw_udp.specs.Delivery.{best};

use crate::Endpoints;
use lw_base::{Ip, Port};

impl Endpoints {
    /// The live connection that a datagram of UDP from `src` to `dst` goes to.
    pub fn best(&self, src: (Ip, Port), dst: (Ip, Port)) -> Option<u32>
        ensures best { result ≡ best src dst self.now.udp.ends }
        ensures live { IfSome result (λ conn. IsTrue (is_some (connection self.now.conns conn))) }
    {
        self.udp.best(src, dst)
    }

    /// Counts an item that was posted to a live connection.
    pub fn count_post(&mut self, conn: u32)
        requires few { IfSome (connection self.old.conns conn) (λ c. c.posted < 2 ^ 32 - 1) }
        requires live { IsTrue (is_some (connection self.old.conns conn)) }
        ensures { self.new ≡ record self.old { conns = changed self.old.conns conn with_post } }
    {
        self.conns.count_post(conn);
    }
}
