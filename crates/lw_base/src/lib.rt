//! What every crate of the stack shares: error codes, addresses, sequence numbers, heads of packets,
//! lists of octets, and the log of the frames that were sent.
#![tactic(auto)]

mod addresses;
mod errors;
mod event_word;
mod frame_log;
mod heads;
mod limits;
mod sequence;
mod series;

pub use addresses::{Ip, Mac, Net, Port};
pub use errors::Err;
pub use event_word::{Flag, Word};
pub use frame_log::FrameLog;
pub use heads::{ArpPacket, EthHead, IcmpHead, IpHead, SegHead, UdpHead};
pub use limits::Limits;
pub use sequence::Seq;
pub use series::{FrameList, Octets, Series};
pub use std::alloc::AllocError as NoMemory;
