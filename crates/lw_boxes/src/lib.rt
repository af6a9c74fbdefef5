//! The mailboxes of connections, as the core sees them: it asks for a place, posts, and sets flags. And
//! such mailboxes for one thread.
#![tactic(auto)]

mod boxes;
mod item;
mod list_boxes;
mod one_box;

pub use boxes::Boxes;
pub use item::Item;
pub use list_boxes::ListBoxes;
pub use std::alloc::AllocError as NoMemory;
