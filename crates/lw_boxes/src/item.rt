use lw_base::{Ip, Port};

/// What is posted to a connection: octets of TCP, a datagram of UDP with the address and port that sent
/// it, or the number of a connection that was accepted.
#[derive(Drop)]
pub enum Item<P> {
    Segment(P),
    Datagram(Ip, Port, P),
    Accepted(u32),
}
