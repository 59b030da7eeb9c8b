//! A connection, a poll and a listening socket whose calls are counted and named, so that contracts can speak of each.
//!
//! What a call of the system did is an open word, of which nothing follows. `proofs/` shows of each call that it happened, by the lemmas of
//! `HappenedCalls`. Only the crate `event_loop` lists this one: a crate that doesn't cannot name those lemmas.
#![tactic(auto)]

mod counted;
mod listening;
mod polled;

pub use counted::{AcceptedSocket, CountedSocket};
pub use listening::ListeningSocket;
pub use polled::CountedPoll;
