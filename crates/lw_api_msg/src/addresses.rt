ghost use Rattle.std.specs.Prelude.{◌≡◌};
ghost use Rattle.lw_api_msg.specs.Endpoints.{bind, connect, is_peer, reply_of};

use crate::Endpoints;
use lw_base::{Err, Ip, Net, Port};
use lw_events::Reply;
use lw_netif::{Netif, is_host};

impl Endpoints {
    /// Binds a connection to an address, 0.0.0.0 for any, and a port, 0 for the ephemeral one that comes
    /// next; `own` is the stack's address.
    pub fn bind(&mut self, own: Ip, conn: u32, ip: Ip, port: Port) -> Reply
        ensures { (result, self.new) ≡ bind own self.old conn ip port }
    {
        if self.conns.get(conn).is_none() {
            return Reply::Fail(Err::Conn);
        }
        reply_of(self.udp.bind(conn, own, ip, port))
    }

    /// Connects a connection to a peer.
    pub fn connect(&mut self, netif: &Netif, conn: u32, ip: Ip, port: Port) -> Reply
        ensures { (result, self.new) ≡ connect netif.now self.old conn ip port }
    {
        if self.conns.get(conn).is_none() {
            return Reply::Fail(Err::Conn);
        }
        if !is_peer(netif.net(), ip, port) {
            return Reply::Fail(Err::Val);
        }
        if self.udp.local(conn).is_none() && self.udp.free_port().is_none() {
            return Reply::Fail(Err::Buf);
        }
        if let Err(fault) = netif.route(ip) {
            return Reply::Fail(fault);
        }
        reply_of(self.udp.connect(conn, (ip, port)))
    }
}

/// Whether a peer can be there: at a port that isn't 0 of one host that isn't 0.0.0.0.
pub fn is_peer(net: &Net, ip: Ip, port: Port) -> bool
    ensures { result ≡ is_peer net.now ip port }
{
    ip.0 != 0 && is_host(net, ip) && port.0 != 0
}

/// The reply that a table's answer is.
fn reply_of(answer: Result<(), Err>) -> Reply
    ensures { result ≡ reply_of answer }
{
    match answer {
        Ok(()) => Reply::Done,
        Err(fault) => Reply::Fail(fault),
    }
}
