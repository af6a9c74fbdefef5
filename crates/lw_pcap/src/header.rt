ghost use Rattle.std.specs.Prelude.{◌≡◌, ◌==◌, ◌+◌, ◌≤◌, length};
ghost use Rattle.lw_pcap.specs.Header.{number_at, is_magic, endian_of, has_version, has_link, header_of};

use crate::PcapFault;
use byteorder::{BigEndian, ByteOrder, LittleEndian};

/// The octets of a file's header.
pub(crate) const HEADER_LEN: usize = 24;

/// The order of the octets of a capture's numbers, which its magic shows.
#[derive(Clone, Copy, Debug, PartialEq, Eq)]
pub enum Endian {
    /// The highest octet comes first.
    Big,
    /// The lowest octet comes first.
    Little,
}

impl Endian {
    /// The number of two octets at a place.
    pub(crate) fn read_u16(self, octets: &[u8], place: usize) -> u16
        requires { place + 2 ≤ length octets.now }
        ensures { result ≡ number_at self place 2 octets.now }
    {
        let (_, number) = octets.split_at(place);
        match self {
            Endian::Big => BigEndian::read_u16(number),
            Endian::Little => LittleEndian::read_u16(number),
        }
    }

    /// The number of four octets at a place.
    pub(crate) fn read_u32(self, octets: &[u8], place: usize) -> u32
        requires { place + 4 ≤ length octets.now }
        ensures { result ≡ number_at self place 4 octets.now }
    {
        let (_, number) = octets.split_at(place);
        match self {
            Endian::Big => BigEndian::read_u32(number),
            Endian::Little => LittleEndian::read_u32(number),
        }
    }
}

fn is_known(magic: u32) -> bool
    ensures { result ≡ is_magic magic }
{
    magic == 0xA1B2_C3D4 || magic == 0xA1B2_3C4D
}

fn read_endian(octets: &[u8]) -> Option<Endian>
    requires { 4 ≤ length octets.now }
    ensures { result ≡ endian_of octets.now }
{
    if is_known(Endian::Big.read_u32(octets, 0)) {
        Some(Endian::Big)
    } else if is_known(Endian::Little.read_u32(octets, 0)) {
        Some(Endian::Little)
    } else {
        None
    }
}

/// Reads the header of a capture (the libpcap file format): a magic, version 2.4 and link type 1.
pub(crate) fn read_header(octets: &[u8]) -> Result<Endian, PcapFault>
    ensures exact { result ≡ header_of octets.now }
{
    if octets.len() < HEADER_LEN {
        return Err(PcapFault::Truncated { at: 0 });
    }
    let Some(endian) = read_endian(octets) else {
        return Err(PcapFault::BadMagic);
    };
    if endian.read_u16(octets, 4) != 2 || endian.read_u16(octets, 6) != 4 {
        return Err(PcapFault::BadVersion);
    }
    if endian.read_u32(octets, 20) != 1 {
        return Err(PcapFault::BadLink);
    }
    Ok(endian)
}
