//! Why no command is run: help was asked for, the words were refused, or memory was refused.

/// Why a command line asks for no command. A text ends with a line feed.
#[derive(PartialEq, Eq, Debug, Drop)]
pub enum Refusal {
    /// Help or the version was asked for, and this is its text.
    Help(String),
    /// The words name no command, or not what it needs; this text says why.
    Refused(String),
    /// Memory was refused.
    Memory,
}
