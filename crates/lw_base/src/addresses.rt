/// A hardware address (IEEE 802), its octets in the order in which they are sent.
#[derive(Clone, Copy, Debug, PartialEq, Eq)]
pub struct Mac(pub [u8; 6]);

impl Mac {
    /// The broadcast address, ff:ff:ff:ff:ff:ff.
    pub const BROADCAST: Mac = Mac([255; 6]);
}

/// An IPv4 address (RFC 791, section 3.2); its first octet is the highest.
#[derive(Clone, Copy, Debug, PartialEq, Eq)]
pub struct Ip(pub u32);

/// A port of UDP (RFC 768) or TCP (RFC 9293).
#[derive(Clone, Copy, Debug, PartialEq, Eq)]
pub struct Port(pub u16);

/// Where a stack stands: its address, the mask of its subnet, its gateway (0.0.0.0 for none) and its
/// hardware address.
#[derive(Clone, Copy, Debug, PartialEq, Eq)]
pub struct Net {
    pub ip: Ip,
    pub mask: Ip,
    pub gateway: Ip,
    pub mac: Mac,
}
