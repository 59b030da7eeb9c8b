//! The program's commands over the operating system: its files, its ports, and the loop over its sockets.
#![tactic(auto)]

mod ports;
mod running;

pub use ports::{SystemPorts, SystemServer};
pub use running::{run, run_watched};
