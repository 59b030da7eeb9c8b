//! What a transaction has written: the last write of each key.
#![tactic(auto)]

mod buffer;
mod faults;
mod written;

pub use buffer::{WRITES_MAX, WriteBuffer};
pub use faults::WritesFault;
pub use written::Written;
