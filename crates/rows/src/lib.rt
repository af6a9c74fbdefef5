//! Worked runs of the program over files and sinks in memory, with their inputs and outputs octet by
//! octet: as tests, and two of them by the definitions alone, as contracts.
#![tactic(auto)]

#[cfg(test)]
mod answers;
#[cfg(test)]
mod captures;
#[cfg(test)]
mod echo_cases;
#[cfg(test)]
mod exchange;
#[cfg(test)]
mod narrow;
#[cfg(test)]
mod overlap_cases;
#[cfg(test)]
mod program;
#[cfg(test)]
mod reassembly_cases;
#[cfg(test)]
mod taken_cases;
#[cfg(test)]
mod tests;
#[cfg(test)]
mod unreachable_cases;
#[cfg(test)]
mod waiting_cases;
#[cfg(test)]
mod whole_cases;
mod worked;

pub use worked::{an_arp_request_is_answered, no_frames_are_fed, the_text_is_the_script};
