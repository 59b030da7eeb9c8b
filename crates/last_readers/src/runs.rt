//! Sorted runs of last readers, as `merging_runs` merges, frees and sweeps them.
ghost use Rattle.std.specs.Prelude.{◌≡◌, ◌≤◌, ◌<◌, ◌+◌, ◌++◌, [], ◌∷◌, IsTrue, length, max, true};
ghost use Rattle.last_readers.specs.Readers.{IsWithRun, greatest_at};
ghost use Rattle.last_readers.specs.Steps.{cut, is_named_in, is_run_from};
ghost use Rattle.last_readers.specs.Inside.{run_of, runs_in, steps_count, read_run_size};
ghost use Rattle.last_readers.specs.Merging.{IsStepMade};
ghost use Rattle.last_readers.specs.Agreeing.{ReadersAgree, readers_agree_between, run_from_later, no_old_readers};
ghost use Rattle.std.proofs.Common.{refl, ◌∙◌};

use crate::merging::{are_empty, move_greatest};
use crate::naming::next_named;
use crate::run::ReadRun;
use crate::steps::Steps;
use crate::sweeping::{number_in_force, sweep};
use arrayvec::ArrayVec;
use merging_runs::{Run, Runs};
use model::KeyRef;
use std::alloc::Global;
use std::mem;

/// The most begin numbers that are named.
pub const BEGINS_MAX: usize = 64;

// The greatest number that a run has at the key, where it is above `begin`. Runs without such a number are passed over.
pub(crate) fn greatest_in(runs: &[ReadRun], key: KeyRef<'_>, begin: u64) -> u64
    ensures { cut begin result ≡ cut begin (greatest_at (runs_in runs.now) key.entry.bytes.now) }
{
    let mut greatest = 0;
    for run in runs {
        if begin < run.last {
            greatest = greatest.max(run.number(key));
        }
    }
    greatest
}

// Adds a run in the room that is there.
pub(crate) fn add_run(runs: &mut Runs<ReadRun>, run: ReadRun)
    requires { 0 < runs.old.places }
    ensures sizes { runs.new.sizes ≡ runs.old.sizes ++ read_run_size run ∷ [] }
    ensures numbers { IsWithRun (runs_in runs.new.runs) (runs_in runs.old.runs) (run_of run) }
    ensures refused { runs.new.refused ≡ runs.old.refused }
{
    runs.push(run);
}

impl Run for ReadRun {
    type Places = Steps;

    type Stale = (Steps, Steps, Steps);

    // the numbers with which active transactions began
    type Active = ArrayVec<u64, BEGINS_MAX>;

    ghost sizes = { read_run_size };

    ghost elements = { steps_count };

    ghost from = { λ r. r.earliest };

    ghost above = { λ o r. IsTrue (is_run_from (o + 1) (run_of r)) };

    ghost has = { λ r. is_named_in (run_of r) };

    ghost capacity = { λ r. r.first.capacity + r.second.capacity };

    ghost fit = { λ n places. (length places.items ≡ 0) × (n ≤ places.capacity) };

    // one step, or two of one key
    ghost each = { 2 };

    ghost begin_numbers = { λ begins. begins.items };

    ghost makes = { λ active o old new. IsStepMade o new.first.items new.second.items old.made.items new.made.items };

    // a merge drops nothing that someone could ask for
    ghost asks = { λ _ _. true };

    ghost agree = { ReadersAgree };

    fn last(&self) -> u64 {
        self.last
    }

    fn earliest(&self) -> u64 {
        self.earliest
    }

    fn size(&self) -> usize {
        self.first
            .len()
            .saturating_add(self.second.len())
            .saturating_add(self.made.len())
            .saturating_add(1)
    }

    fn next_number(&self, found: Option<u64>, n: u64) -> Option<u64> {
        let in_first = next_named(&self.first, found, n);
        let in_second = next_named(&self.second, in_first, n);
        next_named(&self.made, in_second, n)
    }

    fn made(&self) -> usize {
        self.made.len()
    }

    fn room(&self) -> usize {
        self.room
    }

    fn begin_numbers(begins: &ArrayVec<u64, BEGINS_MAX>) -> &[u64] {
        begins.as_slice()
    }

    fn is_at_rest(&self) -> bool {
        are_empty(&self.first, &self.second)
    }

    fn places_for(alloc: Global, first: &ReadRun, second: &ReadRun) -> Option<Steps> {
        match Steps::with_capacity(alloc, first.made.len().saturating_add(second.made.len())) {
            Ok(places) => Some(places),
            Err(_) => None,
        }
    }

    fn join(&mut self, second: ReadRun, places: Steps) {
        let ReadRun {
            last,
            earliest,
            made,
            ..
        } = second;
        self.last = self.last.max(last);
        self.earliest = self.earliest.min(earliest);
        self.room = self.made.len().max(made.len());
        self.second = made;
        self.first = mem::replace(&mut self.made, places);
    }

    // What a run says of a key is needed whoever is active.
    fn move_one(&mut self, oldest: u64, _begins: &ArrayVec<u64, BEGINS_MAX>) {
        move_greatest(&mut self.first, &mut self.second, &mut self.made, oldest);
    }

    fn release(&mut self, most: usize) {
        self.room = self.room.saturating_sub(most);
        self.first.shrink_to(self.room);
        self.second.shrink_to(self.room);
    }

    fn sweep(&mut self, oldest: u64) {
        sweep(&mut self.first, oldest, Some(0));
        sweep(&mut self.second, oldest, Some(0));
        let in_force = number_in_force(&self.first, &self.second);
        sweep(&mut self.made, oldest, in_force);
        self.earliest = self.earliest.max(oldest + 1);
    }

    fn into_stale(self) -> (Steps, Steps, Steps) {
        let ReadRun {
            first,
            second,
            made,
            ..
        } = self;
        (first, second, made)
    }

    ghost same = { λ begins rs b asks k. refl };

    ghost through = { λ begins xs ys zs first second b asks k. first b asks k ∙ second b asks k };

    ghost between = { readers_agree_between };

    ghost old = { no_old_readers };

    ghost later = { run_from_later };
}
