//! The program's command line: its words are read as a command with its options, or refused with a text that says why.
#![tactic(auto)]

mod commands;
mod invocation;
mod reading;
mod refusals;
mod texts;

pub use invocation::Invocation;
pub use reading::parse;
pub use refusals::Refusal;
