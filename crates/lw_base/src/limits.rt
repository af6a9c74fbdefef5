/// The sizes of a stack: pbufs of each kind (`ram` slots of 1,600 octets, `pool` pbufs of 512, `rom`
/// and `reference` descriptors), places of a connection's mailbox and of the tcpip mailbox,
/// descriptors, the limit of the receive window in octets, live connections, TCP ends and variables.
#[derive(Clone, Copy, Debug, PartialEq, Eq)]
pub struct Limits {
    pub ram: u32,
    pub pool: u32,
    pub rom: u32,
    pub reference: u32,
    pub mailbox: u32,
    pub tcpip: u32,
    pub descriptors: u32,
    pub window: u32,
    pub live: u32,
    pub ends: u32,
    pub variables: u32,
}
