//! Worked rows: what sessions ask, line by line, and what each line is answered. Each runs over a plain engine and over the engine, and
//! its committed transactions run again one at a time. Three commits run with a crash and a failure at each device call, over the
//! engine and over a hub.
#![tactic(auto)]

#[cfg(test)]
mod crashes;
#[cfg(test)]
mod hub_store;
#[cfg(test)]
mod largest;
mod lines;
mod plain;
#[cfg(test)]
mod replays;
#[cfg(test)]
mod side_by_side;
mod stored;
mod stores;
#[cfg(test)]
mod tests;
pub mod worked;

pub use lines::{frame_of, shown, with_number};
pub use plain::PlainStore;
pub use stored::EngineStore;
pub use stores::{Decoding, Serves, Store, first_difference, reply_to};
