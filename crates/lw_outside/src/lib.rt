//! The traits of files and sinks, through which the outside is reached, with those of the operating
//! system and those in memory, for tests.
#![tactic(auto)]

mod file_log;
mod files;
mod memory;
mod named_file;
mod shelf;
mod sink;
mod sink_log;
mod standard;
mod sure;
mod writing;

pub use files::{Failed, Files, tells};
pub use memory::{MemFiles, MemSink};
pub use named_file::NamedFile;
pub use sink::Sink;
pub use standard::{StdFiles, StdSink};
pub use sure::{SureFiles, SureSink};
pub use writing::write_all;
