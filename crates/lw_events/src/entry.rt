use crate::{EventText, Reply};
use lw_base::{FrameList, Ip, Octets, Port, Series};

/// What was posted to a connection, its payload as octets: octets of TCP, a datagram of UDP with the
/// address and port that sent it, or the number of a connection that was accepted.
#[derive(Drop)]
pub enum ItemText {
    Segment(Octets),
    Datagram(Ip, Port, Octets),
    Accepted(u32),
}

/// A post that an event tried: an item, with the number of its connection and its ticket; or none,
/// since the mailbox of this connection was full.
#[derive(Drop)]
pub enum Post {
    Item {
        conn: u32,
        ticket: u32,
        text: ItemText,
    },
    Full(u32),
}

/// Posts in the order in which they were tried.
pub type PostList = Series<Post>;

/// One event that the core made: whose it was, the event, whether a pool was short for it, the posts
/// that it tried, the frames that it sent in their order, and the answer.
#[derive(Drop)]
pub struct Entry {
    pub actor: u32,
    pub event: EventText,
    pub short: bool,
    pub posts: PostList,
    pub frames: FrameList,
    pub reply: Reply,
}
