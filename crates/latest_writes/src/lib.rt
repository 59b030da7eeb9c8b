//! The map that the writes of a log make, for recovery.
//!
//! A map that takes keys in no order loads keys from memory to find each one's place, and moves the pairs above it. So the writes are only
//! collected, sorted once by numbers that stand with them, and then put into the map by rising key, each at its end.
#![tactic(auto)]

mod entries;
mod heads;
mod latest;
mod sweep;

pub use latest::LatestWrites;
