//! What a transaction has read: keys, and ranges of keys.
//!
//! A mark does what a SIREAD lock does in Cahill, Röhm, Fekete 2008. A range is marked whole, or up to the last key of a reply that reached
//! its limit, so that a key that was absent when it was read is among the reads too, and no phantom is missed.
#![tactic(auto)]

mod faults;
mod lent;
mod marks;
mod owned;

pub use faults::MarksFault;
pub use lent::MarkRef;
pub use marks::{MARKS_MAX, Marks};
pub use owned::OwnedMark;
