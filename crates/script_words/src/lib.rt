//! The words of a script's lines: addresses, numbers, data, and the calls of actors, of the driver and of the
//! wire, each with its one spelling.
#![tactic(auto)]

mod addresses;
mod arguments;
mod calls;
mod commands;
mod laws;
mod net;
mod numbers;
mod send_data;
mod version;
mod words;
mod writing;

pub use calls::parse_call;
pub use commands::{parse_command, parse_wire_command};
pub use laws::a_line_spells_one_call;
pub use net::parse_net;
pub use version::Version;
pub use words::{Words, cut, is_text};
pub use writing::write_call;
