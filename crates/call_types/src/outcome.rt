use crate::SelectList;
use lw_base::{Err, Ip, Port};

/// What a call gives.
#[derive(Drop)]
pub enum Outcome {
    Ok,
    Conn(u32),
    Fd(u32),
    /// So many octets were sent.
    Sent(u32),
    /// So many octets were received.
    Read(u32),
    /// So many octets of a datagram were received, which came from there.
    From(Ip, Port, u32),
    Addr(Ip, Port),
    /// These tests of a `select` hold.
    Ready(SelectList),
    /// No test of a `select` holds.
    Nothing,
    /// So many frames were fed.
    Fed(u32),
    Fail(Err),
}
