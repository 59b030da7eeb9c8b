//! Runs that are merged in steps, as a log-structured merge does it.
//!
//! A run is what consecutive commits have left, with their numbers. Each commit adds a run. Two neighbouring runs of a similar size are
//! merged, so that few are left, and a merge goes on a little with each commit, so that no commit is long. A run of which all numbers are
//! forgotten is freed, a bounded part of it in each step; one that has forgotten numbers and later ones is swept.
#![tactic(auto)]

mod free_part;
mod laws;
mod merges;
mod next;
mod old;
mod run;
mod runs;
mod sweeps;

pub use free_part::FreePart;
pub use laws::{law_merge_limits, law_runs_hold_little};
pub use next::next_of;
pub use run::Run;
pub use runs::Runs;
