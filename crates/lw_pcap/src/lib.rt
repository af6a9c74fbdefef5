//! Capture files: a header of 24 octets and a record for each frame, as tcpdump writes them.
#![tactic(auto)]

mod capture;
mod fault;
mod header;
mod record;

pub use capture::{Capture, read_capture};
pub use fault::PcapFault;
pub use header::Endian;
