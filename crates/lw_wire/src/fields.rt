ghost use Rattle.std.specs.Prelude.{◌≡◌, ◌+◌, ◌≤◌, ◌++◌, length, OnErr, OnOk, IsOk};
ghost use Rattle.std.specs.Vec.{vec_capacity, vec_len};
ghost use Rattle.lw_wire.specs.Fields.{ip_at, mac_at, port_at, u8_at, u16_at, u32_at};

use crate::NoMemory;
use byteorder::{BigEndian, ByteOrder};
use lw_base::{Ip, Mac, Port};

/// The octet at a place.
#[inline]
pub fn read_u8(octets: &[u8], place: usize) -> u8
    requires { place + 1 ≤ length octets.now }
    ensures { result ≡ u8_at place octets.now }
{
    octets[place]
}

/// The number in the two octets at a place.
#[inline]
pub fn read_u16(octets: &[u8], place: usize) -> u16
    requires { place + 2 ≤ length octets.now }
    ensures { result ≡ u16_at place octets.now }
{
    let (_, field) = octets.split_at(place);
    BigEndian::read_u16(field)
}

/// The number in the four octets at a place.
#[inline]
pub fn read_u32(octets: &[u8], place: usize) -> u32
    requires { place + 4 ≤ length octets.now }
    ensures { result ≡ u32_at place octets.now }
{
    let (_, field) = octets.split_at(place);
    BigEndian::read_u32(field)
}

/// The protocol address in the four octets at a place.
#[inline]
pub fn read_address(octets: &[u8], place: usize) -> Ip
    requires { place + 4 ≤ length octets.now }
    ensures { result ≡ ip_at place octets.now }
{
    Ip(read_u32(octets, place))
}

/// The hardware address in the six octets at a place.
#[inline]
pub fn read_mac(octets: &[u8], place: usize) -> Mac
    requires { place + 6 ≤ length octets.now }
    ensures { result ≡ mac_at place octets.now }
{
    let mut mac = [0; 6];
    mac.copy_from_slice(&octets[place..place + 6]);
    Mac(mac)
}

/// Appends octets to a list that has room for them.
#[inline]
pub fn put(octets: &[u8], out: &mut Vec<u8>)
    requires { vec_len out.old + length octets.now ≤ vec_capacity out.old }
    ensures items { out.new.items ≡ out.old.items ++ octets.now }
    ensures len { vec_len out.new ≡ vec_len out.old + length octets.now }
    ensures room { vec_capacity out.old ≤ vec_capacity out.new }
{
    let _ = out.extend_from_slice(octets);
}

/// The port in the two octets at a place.
#[inline]
pub fn read_port(octets: &[u8], place: usize) -> Port
    requires { place + 2 ≤ length octets.now }
    ensures { result ≡ port_at place octets.now }
{
    Port(read_u16(octets, place))
}

/// Appends a head and the data behind it; what they take is reserved before.
#[inline]
pub fn append(head: &[u8], body: &[u8], out: &mut Vec<u8>) -> Result<(), NoMemory>
    ensures ok { OnOk result (out.new.items ≡ out.old.items ++ (head.now ++ body.now)) }
    ensures err { OnErr result (out.new.items ≡ out.old.items) }
    ensures room { vec_len out.old + (length head.now + length body.now) ≤ vec_capacity out.old → IsOk result }
    ensures len { OnOk result (vec_len out.new ≡ vec_len out.old + (length head.now + length body.now)) }
    ensures capacity { vec_capacity out.old ≤ vec_capacity out.new }
{
    out.reserve(head.len() + body.len())?;
    put(head, out);
    put(body, out);
    Ok(())
}
