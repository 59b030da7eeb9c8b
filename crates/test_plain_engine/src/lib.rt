//! The store in its plainest body, which others are compared with: each open transaction owns a copy of the map, the committed
//! ones stand in one list, and nothing is ever forgotten. No clause says what it answers: the rows compare it with the engine, which is
//! proved, and the harnesses compare both with a model that is written in another language.
#![tactic(auto)]

mod commits;
mod copies;
mod engine;
mod faults;
mod marks;
mod pairs;

pub use engine::Engine;
pub use faults::EngineFault;
pub use pairs::Value;
