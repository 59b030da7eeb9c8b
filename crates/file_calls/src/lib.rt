//! An open file whose calls are counted and named, so that contracts can speak of each.
//!
//! What a call of the system did is an open word, of which nothing follows. `proofs/` shows of each call that it happened, by the lemmas of
//! `HappenedCalls`. Only the crate `sector` lists this one: a crate that doesn't cannot name those lemmas.
#![tactic(auto)]

mod counted;
mod opened;

pub use counted::CountedFile;
pub use opened::OpenedFile;
