//! Memory that a share of many spans takes before the first owner is added.
use crate::window::Window;
use pbuf_seats::Pbuf;

/// Windows on one body, for a span and for its share, and an empty list for the owners of the share.
#[derive(Drop)]
pub struct Twin {
    pub first: Window,
    pub second: Window,
    pub pbufs: Vec<Pbuf>,
}
