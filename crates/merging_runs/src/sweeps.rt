//! Sweeps runs that have forgotten numbers and later ones: it drops the elements with the former.
ghost use Rattle.std.specs.Prelude.{◌≡◌, ◌<◌, ◌^◌, IfSome, nat_le, All, None};
ghost use Rattle.std.specs.List.{position};
ghost use Rattle.merging_runs.specs.KeptRuns.{StaySound};
ghost use Rattle.merging_runs.specs.Value.{AreSwept, LooksAt, LooksFor, size_partial, size_old};

use crate::run::Run;

/// What a look at an element of a run counts. As a step does 1,024 of work, a run is swept once in so many steps as it has elements by 128.
const LOOK: usize = 8;

/// The most that a run counts for that is looked at.
const LOOKED_MAX: usize = 1 << 63;

// The place of the first run that may have a number up to `oldest`.
fn first_from<R: Run>(runs: &[R], oldest: u64) -> Option<usize>
    ensures { result ≡ position (λ r. nat_le (R.from r) oldest) runs.now }
{
    runs.iter().position(|run| run.earliest() <= oldest)
}

// Sweeps the first run that may have a number up to `oldest`, where that is no more work than this. How much it is, `None` where there is
// no such run.
fn sweep_first<R: Run>(runs: &mut Vec<R>, oldest: u64, most: usize) -> Option<usize>
    requires { size_old R.from R.sizes R.elements oldest runs.old.items ≡ 0 }
    ensures swept { AreSwept R.agree R.from R.sizes R.elements oldest runs.old.items runs.new.items }
    ensures looked { LooksAt result most (size_partial R.from R.sizes R.elements oldest runs.old.items)
        (size_partial R.from R.sizes R.elements oldest runs.new.items) }
    ensures none { result ≡ None → All (R.above oldest) runs.new.items }
    ensures kept { (active : R.Active) → StaySound (R.holds active) R.from R.sizes runs.old.items runs.new.items }
{
    let place = first_from(runs, oldest)?;
    let work = runs[place].size().saturating_mul(LOOK).min(LOOKED_MAX);
    if work <= most {
        runs[place].sweep(oldest);
    }
    Some(work)
}

// Sweeps runs that may have numbers up to `oldest`, as far as so much work goes. What is left of it where that isn't enough for the next of
// them, `None` where there is no more.
pub(crate) fn sweep_for<R: Run>(runs: &mut Vec<R>, oldest: u64, most: usize) -> Option<usize>
    requires { size_old R.from R.sizes R.elements oldest runs.old.items ≡ 0 }
    ensures swept { AreSwept R.agree R.from R.sizes R.elements oldest runs.old.items runs.new.items }
    ensures few { IfSome result (λ n. n < 2 ^ 63) }
    ensures looked { LooksFor result most (size_partial R.from R.sizes R.elements oldest runs.old.items)
        (size_partial R.from R.sizes R.elements oldest runs.new.items) }
    ensures none { result ≡ None → All (R.above oldest) runs.new.items }
    ensures kept { (active : R.Active) → StaySound (R.holds active) R.from R.sizes runs.old.items runs.new.items }
{
    let mut rest = most;
    'runs: while let Some(work) = sweep_first(runs, oldest, rest) {
        if rest < work {
            return Some(rest);
        }
        rest -= work;
    }
    None
}

// Sweeps all runs that may have numbers up to `oldest`.
pub(crate) fn sweep_all<R: Run>(runs: &mut Vec<R>, oldest: u64)
    requires { size_old R.from R.sizes R.elements oldest runs.old.items ≡ 0 }
    ensures swept { AreSwept R.agree R.from R.sizes R.elements oldest runs.old.items runs.new.items }
    ensures partial { size_partial R.from R.sizes R.elements oldest runs.new.items ≡ 0 }
    ensures none { All (R.above oldest) runs.new.items }
    ensures kept { (active : R.Active) → StaySound (R.holds active) R.from R.sizes runs.old.items runs.new.items }
{
    'runs: while sweep_first(runs, oldest, LOOKED_MAX).is_some() {}
}
