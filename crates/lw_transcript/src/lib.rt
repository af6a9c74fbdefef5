//! The transcript of a run: its lines as values, and their text.
#![tactic(auto)]

mod call_text;
mod core_text;
mod fields;
mod laws;
mod lines;
mod page;
mod spelling;

pub use laws::a_text_is_of_one_transcript;
pub use lines::{
    ActorPart, ActorPartList, Body, CallPart, CallPartList, CoreLine, CoreLineList, EndLine,
    Evidence, EvidenceList, Form, Left, LeftList, Pools, Share, Sizes, Transcript, Version,
};
pub use page::WriteFault;
pub use spelling::write_transcript;
