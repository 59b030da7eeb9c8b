//! The storage engine: open transactions over one store. Each call is a step of the machine in `model`.
#![tactic(auto)]

mod begins;
mod commits;
mod engine;
mod faults;
mod history;
mod opening;
mod reads;
mod records;
mod validating;

pub use engine::Engine;
pub use faults::{EngineFault, ReadFault};
pub use snapshot::Rows;
