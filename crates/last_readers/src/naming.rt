//! The least commit number above a given one in a list of steps.
ghost use Rattle.std.specs.Prelude.{◌≡◌, ◌||◌, ℕ, Bool};
ghost use Rattle.std.specs.List.{list_any};
ghost use Rattle.merging_runs.specs.Next.{IsNext};
ghost use Rattle.last_readers.specs.Steps.{names};

use crate::step::Step;
use crate::steps::Steps;
use merging_runs::next_of;

// The number above `n` that was found, or the least that the step names, where that is less.
fn next_in(step: &Step, found: Option<u64>, n: u64) -> Option<u64>
    ensures { (p : ℕ → Bool) → IsNext p n found → IsNext (λ k. p k || names step.now k) n result }
{
    next_of(next_of(found, n, step.at()), n, step.number_above())
}

// The number above `n` that was found, or the least that one of the steps names, where that is less.
pub(crate) fn next_named(steps: &Steps, found: Option<u64>, n: u64) -> Option<u64>
    ensures { (p : ℕ → Bool) → IsNext p n found
        → IsNext (λ k. p k || list_any (λ s. names s k) steps.now.items) n result }
{
    let mut found = found;
    for i in 0..steps.len() {
        found = next_in(steps.at(i), found, n);
    }
    found
}
