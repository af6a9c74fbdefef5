//! The queue to the tcpip thread. Several lines put messages in, and one thread takes them out, first in first out.
#![tactic(auto)]

mod bell;
mod get;
mod given;
mod mbox;
mod message;
mod plays;
mod put;
mod rule;
mod shown;
mod view;

pub use get::Get;
pub use given::Given;
pub use mbox::TcpipMbox;
pub use message::Message;
pub use put::Put;
pub use std::alloc::AllocError as NoMemory;
pub use view::{Letter, Returned};
