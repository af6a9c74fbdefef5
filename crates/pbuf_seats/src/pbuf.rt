//! One pbuf of a chain.
use crate::owner::Owner;

/// An owner of a pbuf, and how many of its octets the chain has.
#[derive(Drop)]
pub struct Pbuf {
    pub owner: Owner,
    pub len: u32,
}
