use crate::{Ip, Mac, Port, Seq};

/// An Ethernet head (IEEE 802.3): destination, source and the type of what follows.
#[derive(Clone, Copy, Debug, PartialEq, Eq)]
pub struct EthHead {
    pub dst: Mac,
    pub src: Mac,
    pub ethertype: u16,
}

/// An ARP packet for Ethernet and IPv4 (RFC 826): operation 1 asks, 2 answers; the sender's hardware
/// and protocol address, then the target's.
#[derive(Clone, Copy, Debug, PartialEq, Eq)]
pub struct ArpPacket {
    pub op: u16,
    pub smac: Mac,
    pub sip: Ip,
    pub tmac: Mac,
    pub tip: Ip,
}

/// An IPv4 header (RFC 791, section 3.1); `head_len`, `total` and `offset` in octets.
#[derive(Clone, Copy, Debug, PartialEq, Eq)]
pub struct IpHead {
    pub head_len: u8,
    pub tos: u8,
    pub total: u16,
    pub id: u16,
    pub df: bool,
    pub mf: bool,
    pub offset: u32,
    pub ttl: u8,
    pub proto: u8,
    pub src: Ip,
    pub dst: Ip,
}

/// An ICMP head (RFC 792): type, code, and the four octets behind the checksum.
#[derive(Clone, Copy, Debug, PartialEq, Eq)]
pub struct IcmpHead {
    pub kind: u8,
    pub code: u8,
    pub rest: u32,
}

/// A UDP head (RFC 768); `total` counts the head and the data in octets.
#[derive(Clone, Copy, Debug, PartialEq, Eq)]
pub struct UdpHead {
    pub sport: Port,
    pub dport: Port,
    pub total: u16,
}

/// A TCP head (RFC 9293, section 3.1); `head_len` in octets, options included. Flags are FIN 1, SYN 2,
/// RST 4, PSH 8, ACK 16 and URG 32. `mss` and `wscale` are the options 2 and 3 (RFC 7323), where they
/// are there.
#[derive(Clone, Copy, Debug, PartialEq, Eq)]
pub struct SegHead {
    pub sport: Port,
    pub dport: Port,
    pub seq: Seq,
    pub ack: Seq,
    pub head_len: u8,
    pub flags: u8,
    pub window: u16,
    pub mss: Option<u16>,
    pub wscale: Option<u8>,
}
