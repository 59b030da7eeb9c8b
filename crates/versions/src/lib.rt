//! The versions of the store's values: a chain of them for each key, by commit number.
//!
//! A reader asks by number and is lent what the commits up to that number left, so a transaction that began at a number sees one map as
//! long as that number is active. Old versions are collected where no active number sees them.
#![tactic(auto)]

mod boxed;
mod chain;
mod collected;
mod installing;
mod laws;
mod listing;
mod pairs;
mod reclaiming;
mod several;
mod value;
mod versions;

pub use laws::{law_history_has_maps, law_numbers_change, law_read_only_record_follows};
pub use pairs::Pairs;
pub use versions::Versions;
