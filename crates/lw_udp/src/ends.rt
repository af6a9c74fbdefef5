ghost use Rattle.std.specs.Prelude.{◌≡◌, if◌then◌else◌, Some, not, filter, option_copied};
ghost use Rattle.lw_udp.specs.Ends.{is_of, end_of, changed, unbound, with_local, with_remote, same_socket};

use lw_base::{Ip, Port};

/// An end of UDP: the number of its connection, the address and port that it is bound to, and those that
/// it is connected to. One that is bound to 0.0.0.0 takes datagrams to any address (RFC 1122, section
/// 4.1.3.5).
#[derive(Clone, Copy, Debug, PartialEq, Eq)]
pub struct UdpEnd {
    pub conn: u32,
    pub local: Option<(Ip, Port)>,
    pub remote: Option<(Ip, Port)>,
}

/// A new end.
pub(crate) fn unbound(conn: u32) -> UdpEnd
    ensures { result ≡ unbound conn }
{
    UdpEnd {
        conn,
        local: None,
        remote: None,
    }
}

/// The end of a connection.
pub(crate) fn end_of(ends: &[UdpEnd], conn: u32) -> Option<&UdpEnd>
    ensures { option_copied result ≡ end_of ends.now conn }
{
    ends.iter().find(|e| e.conn == conn)
}

/// Takes the end of a connection off.
pub(crate) fn take_off(ends: &mut Vec<UdpEnd>, conn: u32)
    ensures { ends.new.items ≡ filter (λ e. not (is_of conn e)) ends.old.items }
{
    ends.retain(|e| e.conn != conn);
}

/// Binds the end of a connection.
pub(crate) fn set_local(ends: &mut [UdpEnd], conn: u32, to: (Ip, Port))
    ensures { ends.new ≡ changed ends.old conn (with_local to) }
{
    for end in ends.iter_mut() {
        *end = bound_at(end, conn, to);
    }
}

/// Connects the end of a connection.
pub(crate) fn set_remote(ends: &mut [UdpEnd], conn: u32, to: (Ip, Port))
    ensures { ends.new ≡ changed ends.old conn (with_remote to) }
{
    for end in ends.iter_mut() {
        *end = connected_at(end, conn, to);
    }
}

/// The end, bound where it is that of the connection.
fn bound_at(end: &UdpEnd, conn: u32, to: (Ip, Port)) -> UdpEnd
    ensures { result ≡ (if is_of conn end.now then with_local to end.now else end.now) }
{
    if end.conn == conn {
        UdpEnd {
            conn,
            local: Some(to),
            remote: end.remote,
        }
    } else {
        *end
    }
}

/// The end, connected where it is that of the connection.
fn connected_at(end: &UdpEnd, conn: u32, to: (Ip, Port)) -> UdpEnd
    ensures { result ≡ (if is_of conn end.now then with_remote to end.now else end.now) }
{
    if end.conn == conn {
        UdpEnd {
            conn,
            local: end.local,
            remote: Some(to),
        }
    } else {
        *end
    }
}

/// Whether two addresses and their ports are the same.
pub(crate) fn same_socket(a: (Ip, Port), b: (Ip, Port)) -> bool
    ensures { result ≡ same_socket a b }
{
    a.0.0 == b.0.0 && a.1.0 == b.1.0
}
