//! The program's commands, each over traits for what it uses of the system: words, files, ports, scripts and outputs. So a command's
//! contract names each call that it makes.
#![tactic(auto)]

mod compacting;
mod data;
mod endings;
mod faults;
mod lines;
mod running;
mod serving;
mod streams;
mod system;

pub use compacting::{compact, copy_count, copy_device};
pub use data::{check, check_device, create, format_device};
pub use endings::{Ending, Reported, finish, report};
pub use faults::Fault;
pub use running::run_command;
pub use serving::{serve, serve_turns};
pub use streams::{NullDevice, Opener, keep_standard};
pub use system::{
    CommandLine, DataFiles, Environment, Lines, Ports, Scripts, SystemFiles, Turns, Unserved, Words,
};

/// The status of a command that was done, or of help that was asked for.
pub const DONE: u8 = 0;

/// The status of a command line that was refused.
pub const REFUSED: u8 = 1;

/// The status of a line of `play` that was refused.
pub const BAD_LINE: u8 = 2;

/// The status of every other fault.
pub const FAULT: u8 = 3;
