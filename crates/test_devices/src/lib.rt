//! Devices for the tests of several crates.
#![tactic(auto)]

mod stopping;

pub use stopping::Stopping;
