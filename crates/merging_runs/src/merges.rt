//! Merges two neighbouring runs of a similar size, some elements at a time.
ghost use Rattle.std.specs.Prelude.{◌≡◌, ◌≤◌, ◌<◌, ◌-◌, ◌&&◌, ℕ, Bool, [], ◌∷◌, true, false, length, map, nat_le};
ghost use Rattle.std.specs.Prelude.{take, drop};
ghost use Rattle.std.specs.Vec.{vec_len};
ghost use Rattle.merging_runs.specs.KeptRuns.{ReplacesRun, StaySound, StaySoundUpto};
ghost use Rattle.merging_runs.specs.MadeRuns.{AreMade, ChangesOne, IsMade, IsMovedOn};
ghost use Rattle.merging_runs.specs.RunSizes.{AreMerged, EndsIf, IsMerged, IsMoved, IsTried, IsUnchanged, RestsFrom};
ghost use Rattle.merging_runs.specs.RunSizes.{are_outside, become_one, released_of, has_alike, is_finished};
ghost use Rattle.merging_runs.specs.RunSizes.{last_after};

use crate::run::Run;

/// The most elements of a run that may hold what is forgotten beside what isn't, since it is swept at once.
const SWEPT_MAX: usize = 16_384;

/// For how many elements of a run memory is released at once, at most.
const RELEASED_MAX: usize = 4_096;

// Is nothing left to move, and no memory to release?
fn is_finished<R: Run>(run: &R) -> bool
    ensures { result ≡ is_finished (R.sizes run.now) }
{
    run.is_at_rest() && run.room() == 0
}

// Does none of these numbers part the numbers above `before` from those up to `last`?
fn are_outside(begins: &[u64], before: u64, last: u64) -> bool
    ensures { result ≡ are_outside begins.now before last }
{
    begins
        .iter()
        .all(|begin| *begin <= before || last <= *begin)
}

// Are two runs to become one, where these are the numbers at which those began who may still ask, and the last number before the two?
fn are_alike<R: Run>(first: &R, second: &R, begins: &[u64], oldest: u64, before: u64) -> bool
    ensures { result ≡ become_one begins.now oldest before (R.sizes first.now) (R.sizes second.now) }
{
    oldest < first.last()
        && is_finished(first)
        && is_finished(second)
        && first.made() / 2 <= second.made()
        && (first.made().saturating_add(second.made()) <= SWEPT_MAX
            || are_outside(begins, oldest.max(before), second.last()))
}

// The last number of the run before the place, 0 where there is none.
fn last_before<R: Run>(runs: &[R], place: usize) -> u64
    requires { place ≤ length runs.now }
    ensures { result ≡ last_after 0 (take place (map R.sizes runs.now)) }
{
    if place == 0 {
        return 0;
    }
    runs[place - 1].last()
}

// Begins to make one run of that at the place and the one before it, where they are alike. It takes memory; where that is refused, it
// counts the refusal, and the runs stay. Are they alike?
fn open_at<R: Run>(
    runs: &mut Vec<R>,
    place: usize,
    active: &R::Active,
    oldest: u64,
    refused: &mut u64,
) -> bool
    requires some { 0 < place }
    requires within { place < vec_len runs.old }
    ensures agree { (begins : ℕ → Bool) → R.agree begins runs.new.items runs.old.items }
    ensures alike { EndsIf result (become_one (R.begin_numbers active.now) oldest) (map R.sizes runs.old.items)
        (map R.sizes runs.new.items) refused.old refused.new }
    ensures none { result ≡ false → has_alike (become_one (R.begin_numbers active.now) oldest)
        (last_after 0 (take (place - 1) (map R.sizes runs.old.items)))
        (take 2 (drop (place - 1) (map R.sizes runs.old.items))) ≡ false }
    ensures stays { result ≡ false → IsUnchanged runs.old runs.new refused.old refused.new }
    ensures kept { StaySoundUpto (R.since active.now) (R.holds active.now) R.from R.sizes runs.old.items
        runs.new.items }
{
    let before = last_before(runs, place - 1);
    if !are_alike(
        &runs[place - 1],
        &runs[place],
        R::begin_numbers(active),
        oldest,
        before,
    ) {
        return false;
    }
    let alloc = *runs.allocator();
    let Some(places) = R::places_for(alloc, &runs[place - 1], &runs[place]) else {
        *refused = refused.saturating_add(1);
        return true;
    };
    let second = runs.remove(place);
    runs[place - 1].join(second, places);
    true
}

// Begins to make one run of the last two beside one another that are alike. It takes memory; where that is refused, it counts the refusal,
// and the runs stay.
pub(crate) fn open_last<R: Run>(
    runs: &mut Vec<R>,
    active: &R::Active,
    oldest: u64,
    refused: &mut u64,
)
    ensures agree { (begins : ℕ → Bool) → R.agree begins runs.new.items runs.old.items }
    ensures tried { IsTried (become_one (R.begin_numbers active.now) oldest) (map R.sizes runs.old.items)
        (map R.sizes runs.new.items) refused.old refused.new }
    ensures kept { StaySoundUpto (R.since active.now) (R.holds active.now) R.from R.sizes runs.old.items
        runs.new.items }
{
    for after in 1..runs.len() {
        let place = runs.len() - after;
        if open_at(runs, place, active, oldest, refused) {
            return;
        }
    }
}

// Moves elements of a run so many times at most, and releases memory once nothing is left to move: how many moves are left, which are
// none while there is something to move.
fn move_on<R: Run>(run: &mut R, oldest: u64, active: &R::Active, most: usize) -> usize
    requires { oldest < (R.sizes run.old).last }
    ensures agree { R.agree (λ b. nat_le oldest b && R.asks active.now b) (run.new ∷ []) (run.old ∷ []) }
    ensures moved { IsMovedOn (R.makes active.now oldest) R.sizes oldest run.old run.new }
    ensures most { result ≤ most }
    ensures merged { IsMerged R.each (most - result) (R.sizes run.old) (R.sizes run.new) }
    ensures ended { 0 < result → (R.sizes run.new).left ≡ 0 }
    ensures kept { ReplacesRun (R.holds active.now) R.from R.sizes run.old run.new }
{
    let mut rest = most;
    'moves: while 0 < rest && !run.is_at_rest() {
        run.move_one(oldest, active);
        rest -= 1;
    }
    if run.is_at_rest() {
        run.release(RELEASED_MAX);
    }
    rest
}

// Moves elements so many times at most in the run at the place, where there is one with numbers above `oldest`: how many moves are left.
fn move_at<R: Run>(
    runs: &mut Vec<R>,
    place: usize,
    oldest: u64,
    active: &R::Active,
    most: usize,
) -> usize
    ensures agree { R.agree (λ b. nat_le oldest b && R.asks active.now b) runs.new.items runs.old.items }
    ensures moved { ChangesOne (IsMovedOn (R.makes active.now oldest) R.sizes oldest) runs.old.items place
        runs.new.items }
    ensures most { result ≤ most }
    ensures len { vec_len runs.new ≡ vec_len runs.old }
    ensures merged { AreMerged R.each oldest (most - result) (map R.sizes runs.old.items) (map R.sizes runs.new.items) }
    ensures ended { 0 < result → RestsFrom oldest place (map R.sizes runs.old.items) (map R.sizes runs.new.items) }
    ensures kept { StaySound (R.holds active.now) R.from R.sizes runs.old.items runs.new.items }
{
    if place >= runs.len() {
        return most;
    }
    if runs[place].last() <= oldest {
        return most;
    }
    move_on(&mut runs[place], oldest, active, most)
}

// Moves elements so many times at most in the runs that are being made of two, in the last runs first: these are the shortest.
pub(crate) fn move_runs<R: Run>(runs: &mut Vec<R>, oldest: u64, active: &R::Active, most: usize)
    ensures agree { R.agree (λ b. nat_le oldest b && R.asks active.now b) runs.new.items runs.old.items }
    ensures made { AreMade (R.makes active.now oldest) runs.old.items runs.new.items }
    ensures moved { IsMoved R.each oldest most (map R.sizes runs.old.items) (map R.sizes runs.new.items) }
    ensures kept { StaySound (R.holds active.now) R.from R.sizes runs.old.items runs.new.items }
{
    let mut rest = most;
    for after in 0..runs.len() {
        let place = runs.len() - after - 1;
        rest = move_at(runs, place, oldest, active, rest);
    }
}
