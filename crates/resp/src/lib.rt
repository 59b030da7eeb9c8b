//! The wire format, RESP2: requests are decoded and read as commands, and replies are written, each so that it is read in one way.
#![tactic(auto)]

mod commands;
mod decoding;
mod parts;
mod writing;

pub use commands::command;
pub use decoding::{Decoded, decode, law_one_spelling, read_decimal};
pub use parts::Request;
pub use writing::{
    BRIEF_MAX, law_one_reading, write_array_line, write_pair, write_pairs, write_reply,
    write_request,
};
