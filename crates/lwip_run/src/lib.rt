//! The loops through which the program reads its files and writes its texts.
#![tactic(auto)]

mod files_in;
mod history;
mod inputs;
mod lines;
mod one_thread;
mod plain;
mod plain_api;
mod refusal;
mod texts;

pub use history::History;
pub use inputs::{InputFault, read_whole};
pub use one_thread::serial;
pub use plain::lwip_plain;
pub use plain_api::PlainApi;
pub use refusal::Refusal;
pub use texts::write_serial;
