//! The layers of a stack, and what each of them keeps.
use lw_api_msg::Endpoints;
use lw_arp::ArpTable;
use lw_base::Limits;
use lw_netif::{Netif, Sent};
use lw_payload::Payload;
use lw_reass::Reass;

/// The words that a stack shows: how many frames came, how many ticks went by, and whether the run was
/// stopped.
#[derive(Clone, Copy, Debug, PartialEq, Eq)]
pub struct Words {
    pub frames: u32,
    pub ticks: u32,
    pub stopped: bool,
}

/// What a stack is made of: its interface, the table of its neighbours and the identification of the
/// next datagram; the fragments that are kept; the frames that were sent; the connections, with their ends
/// and names; and its words.
#[derive(Drop)]
pub struct Layers<P: Payload> {
    pub limits: Limits,
    pub netif: Netif,
    pub neighbours: ArpTable<P>,
    pub next_id: u16,
    pub fragments: Reass<P>,
    pub sent: Sent,
    pub endpoints: Endpoints,
    pub words: Words,
}
