//! The list of runs: a commit adds one, merges go on in steps, and what is forgotten is dropped.
ghost use Rattle.std.specs.Prelude.{◌≡◌, ◌≤◌, ◌<◌, ◌+◌, ◌-◌, ◌++◌, ◌&&◌, ◌||◌, ℕ, Bool, [], ◌∷◌, length, nat_le};
ghost use Rattle.std.specs.Prelude.{nat_lt, map, All, OnOk, None, false};
ghost use Rattle.std.specs.List.{list_any};
ghost use Rattle.merging_runs.specs.Contents.{ForgetsNone, FreesGarbage, HasSamePartial, MaySweep, garbage_upto};
ghost use Rattle.merging_runs.specs.Contents.{freed_a_forget, size_in, whole_upto};
ghost use Rattle.merging_runs.specs.KeptRuns.{StaySound, StaySoundUpto};
ghost use Rattle.merging_runs.specs.MadeRuns.{AreMade};
ghost use Rattle.merging_runs.specs.Next.{IsNext};
ghost use Rattle.merging_runs.specs.RunSizes.{IsMoved, IsTried, KeepsMerges, LeavesMerges, become_one, moves_for};
ghost use Rattle.merging_runs.specs.Value.{OnlyFrees, size_of};

use crate::free_part::FreePart;
use crate::merges::{move_runs, open_last};
use crate::next::next_in;
use crate::old::{is_one_old, take_old};
use crate::run::Run;
use crate::sweeps::{sweep_all, sweep_for};
use std::alloc::{AllocError, Global};
use std::marker::Model;

/// How many moves the merges get for each element that is noted: more than there are lengths of runs that are merged into one another.
const MOVES_EACH: usize = 16;

/// How many more they get for a commit.
const MOVES_MORE: usize = 64;

/// How much work a step does: each element that is freed counts as one, and each run as one more.
const FREED_MAX: usize = 1_024;

/// Runs of commits one after another, the earliest first. A clause sees the runs, how many more fit (`places`), how far each is merged
/// (`sizes`), how much they hold (`contents`), and how often memory for a merge was refused (`refused`).
#[derive(Drop)]
pub struct Runs<R: Run> {
    runs: Vec<R>,
    // a run of which nothing is asked any more
    stale: Option<R::Stale>,
    // how much work earlier steps have left over, since it wasn't enough for a run
    credit: usize,
    // how often memory for a merge was refused. It stays at 2^64 - 1
    refused: u64,
}

impl<R: Run> Model for Runs<R> {
    ghost use Rattle.std.specs.Prelude.{◌<◌, ◌-◌, ◌^◌, map};
    ghost use Rattle.std.specs.Vec.{vec_len, vec_capacity};
    ghost use Rattle.merging_runs.specs.Value.{RunsValue, contents_of, taken_of};

    ghost Value = { RunsValue R };

    ghost view = { λ s. record {
      runs = s.runs.items;
      places = vec_capacity s.runs - vec_len s.runs;
      sizes = map R.sizes s.runs.items;
      contents = record {
        runs = map (contents_of R.from R.sizes R.elements) s.runs.items;
        taken = taken_of R.Stale.left s.stale;
        credit = s.credit;
      };
      refused = s.refused;
    } };

    ghost invariant = { λ s. s.credit < 2 ^ 63 };
}

impl<R: Run> Runs<R> {
    /// No runs. Takes no memory.
    pub fn new(alloc: Global) -> Runs<R>
        ensures runs { result.runs ≡ [] }
        ensures sizes { result.sizes ≡ [] }
        ensures contents { result.contents ≡ record { runs = []; taken = 0; credit = 0 } }
        ensures refused { result.refused ≡ 0 }
    {
        Runs {
            runs: Vec::new(alloc),
            stale: None,
            credit: 0,
            refused: 0,
        }
    }

    /// The runs, the earliest first. Takes no memory.
    pub fn as_slice(&self) -> &[R]
        ensures runs { result.now ≡ self.now.runs }
        ensures len { length result.now ≡ length self.now.sizes }
    {
        self.runs.as_slice()
    }

    /// What the runs hold, each counted as one more: 2^64 - 1 where there was more. Looks at each run, and takes no memory.
    pub fn size(&self) -> usize
        ensures { result ≡ size_in self.now.contents.runs }
    {
        self.runs
            .iter()
            .fold(0, |sum: usize, run| sum.saturating_add(run.size()))
    }

    /// The number above `n` that was found, or the least above `n` that an element of a run has, where that is less. It looks at each
    /// element, and takes no memory.
    pub fn next_number(&self, found: Option<u64>, n: u64) -> Option<u64>
        ensures { (p : ℕ → Bool) → IsNext p n found
            → IsNext (λ k. p k || list_any (λ r. R.has r k) self.now.runs) n result }
    {
        next_in(self.runs.as_slice(), found, n)
    }

    /// How often memory for a merge was refused, 2^64 - 1 at most: each time two runs of a like size stayed. Takes no memory.
    pub fn refused(&self) -> u64
        ensures { result ≡ self.now.refused }
    {
        self.refused
    }

    /// The allocator from which it takes memory.
    pub fn allocator(&self) -> Global {
        *self.runs.allocator()
    }

    /// Makes room for one more run, and begins to merge the last two runs beside one another that are to become one, where there are such:
    /// they are of a like size, and short together, or nobody who may still ask began between their numbers (`become_one`). Where memory
    /// for the merge is refused, it counts the refusal, and these two stay. `AllocError` where memory for the place of the run is refused.
    /// The runs answer as they did in each case. It takes the places of a run for the merge, and looks at each run.
    pub fn reserve(&mut self, active: &R::Active, oldest: u64) -> Result<(), AllocError>
        ensures agree { (begins : ℕ → Bool) → R.agree begins self.new.runs self.old.runs }
        ensures tried { IsTried (become_one (R.begin_numbers active.now) oldest) self.old.sizes self.new.sizes
            self.old.refused self.new.refused }
        ensures room { OnOk result (0 < self.new.places) }
        ensures forgets { ForgetsNone self.old.contents self.new.contents }
        ensures kept { StaySoundUpto (R.since active.now) (R.holds active.now) R.from R.sizes self.old.runs
            self.new.runs }
        ensures sizes { self.new.sizes ≡ map R.sizes self.new.runs }
    {
        open_last(&mut self.runs, active, oldest, &mut self.refused);
        self.runs.reserve(1)
    }

    /// Adds a run behind the others, in the room that was made for it. Takes no memory.
    pub fn push(&mut self, run: R)
        requires { 0 < self.old.places }
        ensures runs { self.new.runs ≡ self.old.runs ++ run ∷ [] }
        ensures sizes { self.new.sizes ≡ self.old.sizes ++ R.sizes run ∷ [] }
        ensures refused { self.new.refused ≡ self.old.refused }
        ensures forgets { ForgetsNone self.old.contents self.new.contents }
    {
        match self.runs.push(run) {
            Ok(()) => {}
            Err(_) => unreachable!(),
        }
    }

    /// Moves on the merges that are under way, by 16 moves for each of so many elements, and 64, until nothing is left to move. The memory
    /// of the two that a run was made of is released then, for 4,096 elements of the longer one in each call. The runs answer as they
    /// did, whoever asks that may still and didn't begin before `oldest`. Takes no memory.
    pub fn move_on(&mut self, oldest: u64, active: &R::Active, count: usize)
        ensures agree { R.agree (λ b. nat_le oldest b && R.asks active.now b) self.new.runs self.old.runs }
        ensures made { AreMade (R.makes active.now oldest) self.old.runs self.new.runs }
        ensures moved { IsMoved R.each oldest (moves_for count) self.old.sizes self.new.sizes }
        ensures refused { self.new.refused ≡ self.old.refused }
        ensures forgets { ForgetsNone self.old.contents self.new.contents }
        ensures kept { StaySound (R.holds active.now) R.from R.sizes self.old.runs self.new.runs }
        ensures sizes { self.new.sizes ≡ map R.sizes self.new.runs }
    {
        let most = count.saturating_mul(MOVES_EACH).saturating_add(MOVES_MORE);
        move_runs(&mut self.runs, oldest, active, most);
    }

    // Takes out a run that has no number above `oldest`, if there is one.
    fn take_old(&mut self, oldest: u64) -> Option<R>
        ensures agree { R.agree (nat_le oldest) self.new.runs self.old.runs }
        ensures whole { whole_upto oldest self.old.contents
            ≡ size_of R.elements result + whole_upto oldest self.new.contents }
        ensures partial { HasSamePartial oldest self.old.contents self.new.contents }
        ensures taken { self.new.contents.taken ≡ self.old.contents.taken }
        ensures none { result ≡ None → whole_upto oldest self.new.contents ≡ self.new.contents.taken }
        ensures merges { KeepsMerges oldest self.old.sizes self.new.sizes self.old.refused self.new.refused }
        ensures kept { (active : R.Active) → StaySound (R.holds active) R.from R.sizes self.old.runs self.new.runs }
    {
        take_old(&mut self.runs, oldest)
    }

    // Frees so much at most of the run that is being freed, if there is one: how much more may be freed, which is none while something is
    // left of it.
    fn free_part(&mut self, most: usize) -> usize
        ensures others { OnlyFrees self.old self.new }
        ensures taken { self.old.contents.taken + result ≡ self.new.contents.taken + most }
        ensures ended { 0 < result → self.new.contents.taken ≡ 0 }
    {
        let Some(stale) = &mut self.stale else {
            return most;
        };
        let left = stale.free_part(most);
        if left == 0 {
            return 0;
        }
        self.stale = None;
        left - 1
    }

    // Frees so much at most of a run that was taken out, the whole of it at once where that is enough.
    fn free_run(&mut self, run: R, most: usize) -> usize
        requires none { self.old.contents.taken ≡ 0 }
        requires some { 0 < most }
        requires most { most ≤ freed_a_forget }
        ensures others { OnlyFrees self.old self.new }
        ensures taken { R.elements run + 1 + result ≡ self.new.contents.taken + most }
        ensures ended { 0 < result → self.new.contents.taken ≡ 0 }
    {
        let size = run.size();
        if size <= most {
            return most - size;
        }
        self.stale = Some(run.into_stale());
        self.free_part(most)
    }

    // Frees runs that have no number above `oldest`, 1,024 of their elements at most: how many more may be freed, which are none while such
    // a run is left.
    fn free_old(&mut self, oldest: u64) -> usize
        ensures agree { R.agree (nat_le oldest) self.new.runs self.old.runs }
        ensures whole { whole_upto oldest self.old.contents + result
            ≡ whole_upto oldest self.new.contents + freed_a_forget }
        ensures ended { 0 < result → whole_upto oldest self.new.contents ≡ 0 }
        ensures partial { HasSamePartial oldest self.old.contents self.new.contents }
        ensures merges { KeepsMerges oldest self.old.sizes self.new.sizes self.old.refused self.new.refused }
        ensures kept { (active : R.Active) → StaySound (R.holds active) R.from R.sizes self.old.runs self.new.runs }
    {
        let mut left = self.free_part(FREED_MAX);
        'runs: while left > 0 {
            let Some(run) = self.take_old(oldest) else {
                return left;
            };
            left = self.free_run(run, left);
        }
        0
    }

    // Sweeps runs that hold what is old beside what isn't, as far as so much work goes, with what earlier steps have left over. Are there
    // more?
    fn sweep(&mut self, oldest: u64, most: usize) -> bool
        requires { MaySweep oldest most self.old.contents }
        ensures agree { R.agree (nat_le oldest) self.new.runs self.old.runs }
        ensures frees { FreesGarbage oldest most self.old.contents self.new.contents result }
        ensures above { result ≡ false → All (R.above oldest) self.new.runs }
        ensures merges { LeavesMerges oldest self.old.sizes self.new.sizes self.old.refused self.new.refused }
        ensures kept { (active : R.Active) → StaySound (R.holds active) R.from R.sizes self.old.runs self.new.runs }
        ensures sizes { self.new.sizes ≡ map R.sizes self.new.runs }
    {
        let rest = sweep_for(&mut self.runs, oldest, self.credit + most);
        self.credit = rest.unwrap_or(0);
        rest.is_some()
    }

    /// Does a part of what `forget` does: it frees runs that have no number above `oldest`, 1,024 of their elements at most, where a run
    /// counts as one more. Once no such run is left, it sweeps runs that hold what is old beside what isn't, as far as what is left of the
    /// 1,024 goes, where each element that is looked at counts as 8. What isn't enough for a run is left over for the next step. So a run
    /// of n elements is swept at once, but only after n / 128 steps. Answers whether it has to be called again until all that is old is
    /// gone. Takes no memory.
    pub fn forget_step(&mut self, oldest: u64) -> bool
        ensures agree { R.agree (nat_le oldest) self.new.runs self.old.runs }
        ensures garbage { garbage_upto oldest self.new.contents
            ≡ garbage_upto oldest self.old.contents - freed_a_forget }
        ensures still { result ≡ nat_lt 0 (garbage_upto oldest self.new.contents) }
        ensures above { result ≡ false → All (R.above oldest) self.new.runs }
        ensures merges { LeavesMerges oldest self.old.sizes self.new.sizes self.old.refused self.new.refused }
        ensures kept { (active : R.Active) → StaySound (R.holds active) R.from R.sizes self.old.runs self.new.runs }
        ensures sizes { self.new.sizes ≡ map R.sizes self.new.runs }
    {
        let most = self.free_old(oldest);
        if self.stale.is_some() || is_one_old(&self.runs, oldest) {
            return true;
        }
        self.sweep(oldest, most)
    }

    /// Drops all that has a number up to `oldest`: it frees the runs that have no other, and sweeps those that have. It takes the time of a
    /// look at each element of these runs, and no memory.
    pub fn forget(&mut self, oldest: u64)
        ensures agree { R.agree (nat_le oldest) self.new.runs self.old.runs }
        ensures garbage { garbage_upto oldest self.new.contents ≡ 0 }
        ensures above { All (R.above oldest) self.new.runs }
        ensures merges { LeavesMerges oldest self.old.sizes self.new.sizes self.old.refused self.new.refused }
        ensures kept { (active : R.Active) → StaySound (R.holds active) R.from R.sizes self.old.runs self.new.runs }
        ensures sizes { self.new.sizes ≡ map R.sizes self.new.runs }
    {
        'old: while self.free_old(oldest) == 0 {}
        sweep_all(&mut self.runs, oldest);
    }
}
