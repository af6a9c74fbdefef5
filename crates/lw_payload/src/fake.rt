//! A pool for tests: one kind of pbuf is kept, so that a make can be refused as Empty and a payload has rows, and shares
//! run out.
mod counts;
mod make_counts;
mod pool;
mod slots;
mod slotted;

pub use make_counts::MakeCounts;
pub use slots::Slots;
pub use slotted::Slotted;
