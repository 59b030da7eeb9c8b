//! Hubs over devices in memory, and peers in memory, for the tests of several crates.
#![tactic(auto)]

mod driven;
mod hubs;
mod script;

pub use driven::Driven;
pub use hubs::{Pieces, new_hub, open_hub};
pub use script::{Script, Trouble};
