//! Scripts, as `play` runs them: labelled lines of requests, over sessions and a device in memory.
//!
//! What a script prints stands in `specs/Transcript.antt`, and which bytes are a line and what is printed for a reply in
//! `specs/Lines.antt`.
#![tactic(auto)]

mod faults;
mod lines;
mod playing;

pub use faults::ScriptFault;
pub use playing::{MEMORY_SECTORS_MAX, play};
