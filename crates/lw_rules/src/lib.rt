//! Definitions alone: the serial schedule, and which transcripts are legal. `specs/` has them, `proofs/`
//! has the laws that tie them together.
#![tactic(auto)]
