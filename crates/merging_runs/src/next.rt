//! The least number above a given one in runs.
ghost use Rattle.std.specs.Prelude.{◌≡◌, ◌||◌, ◌==◌, ℕ, Bool};
ghost use Rattle.std.specs.List.{list_any};
ghost use Rattle.merging_runs.specs.Next.{IsNext};

use crate::run::Run;

/// The number above `n` that was found, or the other, where that is above `n` and less. Takes no memory.
pub fn next_of(found: Option<u64>, n: u64, other: u64) -> Option<u64>
    ensures { (p : ℕ → Bool) → IsNext p n found → IsNext (λ k. p k || k == other) n result }
{
    if other <= n {
        return found;
    }
    match found {
        None => Some(other),
        Some(number) => Some(number.min(other)),
    }
}

// The number that was found, or the least above `n` of these runs where that is less.
pub(crate) fn next_in<R: Run>(runs: &[R], found: Option<u64>, n: u64) -> Option<u64>
    ensures { (p : ℕ → Bool) → IsNext p n found → IsNext (λ k. p k || list_any (λ r. R.has r k) runs.now) n result }
{
    let mut found = found;
    for run in runs {
        found = run.next_number(found, n);
    }
    found
}
