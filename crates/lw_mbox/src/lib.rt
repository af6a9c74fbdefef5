//! A ticketed mailbox of one poster and many takers, with an event word.
#![tactic(auto)]

mod answers;
mod mbox;
mod note;
mod plays;
mod poster;
mod rule;
mod taker;
#[cfg(test)]
mod tests;
mod view;
mod words;

pub use answers::{Drain, Fetch, PostFault, Side};
pub use mbox::{Mbox, make};
pub use note::Note;
pub use poster::Poster;
pub use rule::{Mail, Ticketed};
pub use taker::Taker;
pub use view::{Change, Got, Steps, View};
