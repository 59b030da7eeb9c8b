//! The check of a commit: serializable snapshot isolation.
//!
//! `Committed` keeps of each committed transaction what the check of a later commit needs, until no open transaction can be concurrent with
//! it. A commit is refused where it would overwrite a concurrent commit, or where some transaction would be a dangerous pivot: have a
//! concurrent read-write dependency in and one out (Fekete et al. 2005; Cahill, Röhm, Fekete 2008), the target of which committed before it
//! and no later than the source of the other (Ports, Grittner 2012).
#![tactic(auto)]

mod active;
mod bound;
mod by_start;
mod committed;
mod laws;
mod merges;
mod merging;
mod part;
mod ready;
mod run;
mod runs;
mod scan;
mod sources;
mod verdict;
mod written;

pub use committed::Committed;
pub use laws::{law_few_kept, law_few_postings};
pub use verdict::{Cleared, Verdict};
