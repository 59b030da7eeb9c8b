//! The last reader of each key among committed transactions.
//!
//! Of what committed transactions have read, a later commit needs no more than this: for each key, the number of the last commit that read
//! it. Commit numbers rise, so the marks of a new commit replace what lies under them, and what is kept grows with the keys and the ends of
//! ranges that were read, not with the commits.
#![tactic(auto)]

mod gathering;
mod last_readers;
mod merging;
mod naming;
mod run;
mod runs;
mod step;
mod steps;
mod sweeping;

pub use last_readers::LastReaders;
pub use runs::BEGINS_MAX;
