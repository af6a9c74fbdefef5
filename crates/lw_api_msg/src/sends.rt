ghost use Rattle.std.specs.Prelude.{◌≡◌, ◌≤◌, IfOk};
ghost use Rattle.lw_udp.specs.Ends.{local_of};
ghost use Rattle.lw_udp.specs.Ports.{free_port};
ghost use Rattle.lw_api_msg.specs.Sends.{connected_peer, named_peer, peer_of, plan_to, port_of, send_plan, sent_by, source_by};

use crate::Endpoints;
use crate::addresses::is_peer;
use lw_base::{Err, Ip, Net, Port};
use lw_netif::Netif;

/// How many octets a datagram has at most: 65,535 without the heads of IPv4 and UDP.
pub const LONGEST: usize = 65_507;

/// The port that a datagram goes from: one to which its connection is bound, or an ephemeral one to which
/// it is to be bound, at 0.0.0.0.
#[derive(Clone, Copy, Debug, PartialEq, Eq)]
pub enum Source {
    Bound(Port),
    Fresh(Port),
}

impl Source {
    /// The port.
    pub fn port(self) -> Port
        ensures { result ≡ port_of self }
    {
        match self {
            Source::Bound(port) => port,
            Source::Fresh(port) => port,
        }
    }
}

/// A datagram that may go: from a port of this connection to an address and port.
#[derive(Clone, Copy, Debug, PartialEq, Eq)]
pub struct SendPlan {
    pub conn: u32,
    pub source: Source,
    pub to: (Ip, Port),
}

impl Endpoints {
    /// Plans a datagram of so many octets to an address and a port, 0.0.0.0 and port 0 for the connected
    /// peer; or says why none may go.
    pub fn plan_send(
        &self,
        netif: &Netif,
        conn: u32,
        ip: Ip,
        port: Port,
        len: usize,
    ) -> Result<SendPlan, Err>
        ensures exact { result ≡ send_plan netif.now self.now conn ip port len }
        ensures fits { IfOk result (λ _. len ≤ 65507) }
    {
        if self.conns.get(conn).is_none() {
            return Err(Err::Conn);
        }
        let peer = self.peer(netif.net(), conn, ip, port);
        self.plan_to(netif, conn, len, peer)
    }

    /// Binds a connection that isn't bound to the port that a datagram of it goes from.
    pub fn apply_send(&mut self, plan: &SendPlan)
        ensures { self.new ≡ sent_by plan.now self.old }
    {
        match plan.source {
            Source::Bound(_) => {}
            Source::Fresh(port) => self.udp.bind_ephemeral(plan.conn, port),
        }
    }

    /// Where a datagram goes.
    fn peer(&self, net: &Net, conn: u32, ip: Ip, port: Port) -> Result<(Ip, Port), Err>
        ensures { result ≡ peer_of net.now self.now conn ip port }
    {
        if ip.0 == 0 && port.0 == 0 {
            connected_peer(self.udp.remote(conn))
        } else {
            named_peer(net, ip, port)
        }
    }

    /// Plans a datagram to a peer.
    fn plan_to(
        &self,
        netif: &Netif,
        conn: u32,
        len: usize,
        peer: Result<(Ip, Port), Err>,
    ) -> Result<SendPlan, Err>
        ensures exact { result ≡ plan_to netif.now self.now conn len peer }
        ensures fits { IfOk result (λ _. len ≤ 65507) }
    {
        let to = match peer {
            Ok(to) => to,
            Err(fault) => return Err(fault),
        };
        if len > LONGEST {
            return Err(Err::Val);
        }
        match (self.source(conn), netif.route(to.0)) {
            (Err(fault), _) => Err(fault),
            (Ok(_), Err(fault)) => Err(fault),
            (Ok(source), Ok(_)) => Ok(SendPlan { conn, source, to }),
        }
    }

    /// The port that a datagram goes from.
    fn source(&self, conn: u32) -> Result<Source, Err>
        ensures { result ≡ source_by (local_of self.now.udp.ends conn) (free_port self.now.udp) }
    {
        match (self.udp.local(conn), self.udp.free_port()) {
            (Some((_, port)), _) => Ok(Source::Bound(port)),
            (None, Some(port)) => Ok(Source::Fresh(port)),
            (None, None) => Err(Err::Buf),
        }
    }
}

/// The peer that a connection is connected to.
fn connected_peer(peer: Option<(Ip, Port)>) -> Result<(Ip, Port), Err>
    ensures { result ≡ connected_peer peer }
{
    match peer {
        Some(to) => Ok(to),
        None => Err(Err::Conn),
    }
}

/// The peer at an address and a port.
fn named_peer(net: &Net, ip: Ip, port: Port) -> Result<(Ip, Port), Err>
    ensures { result ≡ named_peer net.now ip port }
{
    if is_peer(net, ip, port) {
        Ok((ip, port))
    } else {
        Err(Err::Val)
    }
}
