//! Runs of which all numbers are forgotten: whether there is one, and taking it out.
ghost use Rattle.std.specs.Prelude.{◌≡◌, ◌+◌, nat_lt, nat_le, map, None};
ghost use Rattle.std.specs.List.{position};
ghost use Rattle.merging_runs.specs.KeptRuns.{StaySound};
ghost use Rattle.merging_runs.specs.RunSizes.{left_above};
ghost use Rattle.merging_runs.specs.Value.{size_partial, size_of, size_old};

use crate::run::Run;

// The place of the first run that has no number above `oldest`.
fn first_old<R: Run>(runs: &[R], oldest: u64) -> Option<usize>
    ensures { result ≡ position (λ r. nat_le (R.sizes r).last oldest) runs.now }
{
    runs.iter().position(|run| run.last() <= oldest)
}

// Has some run no number above `oldest`?
pub(crate) fn is_one_old<R: Run>(runs: &[R], oldest: u64) -> bool
    ensures { result ≡ nat_lt 0 (size_old R.from R.sizes R.elements oldest runs.now) }
{
    first_old(runs, oldest).is_some()
}

// Takes out a run that has no number above `oldest`, if there is one.
pub(crate) fn take_old<R: Run>(runs: &mut Vec<R>, oldest: u64) -> Option<R>
    ensures agree { R.agree (nat_le oldest) runs.new.items runs.old.items }
    ensures none { result ≡ None → size_old R.from R.sizes R.elements oldest runs.new.items ≡ 0 }
    ensures size { size_old R.from R.sizes R.elements oldest runs.old.items
        ≡ size_of R.elements result + size_old R.from R.sizes R.elements oldest runs.new.items }
    ensures partial { size_partial R.from R.sizes R.elements oldest runs.new.items
        ≡ size_partial R.from R.sizes R.elements oldest runs.old.items }
    ensures left { left_above oldest (map R.sizes runs.new.items) ≡ left_above oldest (map R.sizes runs.old.items) }
    ensures kept { (active : R.Active) → StaySound (R.holds active) R.from R.sizes runs.old.items runs.new.items }
{
    match first_old(runs, oldest) {
        Some(place) => Some(runs.remove(place)),
        None => None,
    }
}
