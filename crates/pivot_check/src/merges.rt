//! Runs of written keys, as `merging_runs` merges, frees and sweeps them.
ghost use Rattle.std.specs.Prelude.{◌≡◌, ◌≤◌, ◌+◌, ◌==◌, IsTrue, length};
ghost use Rattle.last_readers.specs.declared.runs.TheConstants.{BEGINS_MAX};
ghost use Rattle.std.specs.List.{list_any};
ghost use Rattle.std.specs.Vec.{vec_capacity};
ghost use Rattle.std.proofs.Common.{refl, ◌∙◌};
ghost use Rattle.pivot_check.specs.Inside.{AreFreePlaces, number_bound, postings_count, in_run, is_run_later};
ghost use Rattle.pivot_check.specs.Active.{reach_of};
ghost use Rattle.pivot_check.specs.Inside.{written_run_size};
ghost use Rattle.pivot_check.specs.KeptShort.{IsKeptShort};
ghost use Rattle.pivot_check.specs.Reach.{may_ask};
ghost use Rattle.pivot_check.specs.Parts.{remaining};
ghost use Rattle.pivot_check.specs.Redundant.{StaySpaced};
ghost use Rattle.pivot_check.specs.Agreeing.{PostingsAgree, postings_agree_between, later_from_number};
ghost use Rattle.pivot_check.specs.Agreeing.{no_old_postings};

use crate::active::ActiveBegins;
use crate::bound::{BLOCK, Bound};
use crate::merging::move_least;
use crate::part::Part;
use crate::run::WrittenRun;
use crate::written::Written;
use merging_runs::Run;
use std::alloc::Global;
use std::mem;

// Room for the bounds of so many postings; none where there is no memory.
fn bounds_for(alloc: Global, count: usize) -> Vec<Bound>
    ensures { length result.items ≡ 0 }
{
    match Vec::with_capacity(alloc, count / BLOCK) {
        Ok(bounds) => bounds,
        Err(_) => Vec::new(alloc),
    }
}

impl Run for WrittenRun {
    type Places = Part;

    type Stale = (Vec<Written>, Vec<Written>, Vec<Written>);

    type Active = ActiveBegins;

    ghost sizes = { written_run_size };

    ghost elements = { postings_count };

    ghost from = { number_bound };

    ghost above = { λ o r. IsTrue (is_run_later o r) };

    ghost has = { λ r k. list_any (λ q. k == q.number) (in_run r) };

    ghost capacity = { λ r. vec_capacity r.first.written + vec_capacity r.second.written };

    ghost fit = { AreFreePlaces };

    ghost each = { 1 };

    ghost begin_numbers = { λ active. active.begins.items };

    // of what a move leaves none is made redundant by the one before it
    ghost makes = { λ active o old new. StaySpaced (reach_of active) (remaining old.made) (remaining new.made) };

    ghost since = { λ active. active.since };

    // where they began at as few numbers as can be told
    ghost holds = { λ active r. length active.begins.items ≤ BEGINS_MAX → IsKeptShort (reach_of active) r };

    ghost asks = { λ active. may_ask (reach_of active) };

    ghost agree = { PostingsAgree };

    fn last(&self) -> u64 {
        self.last
    }

    fn earliest(&self) -> u64 {
        self.made
            .bound
            .number
            .min(self.first.bound.number.min(self.second.bound.number))
    }

    fn size(&self) -> usize {
        self.first
            .written
            .len()
            .saturating_add(self.second.written.len())
            .saturating_add(self.made.written.len())
            .saturating_add(1)
    }

    fn next_number(&self, found: Option<u64>, n: u64) -> Option<u64> {
        let in_made = self.made.next_number(found, n);
        let in_first = self.first.next_number(in_made, n);
        self.second.next_number(in_first, n)
    }

    fn is_at_rest(&self) -> bool {
        self.first.len() == 0 && self.second.len() == 0
    }

    fn made(&self) -> usize {
        self.made.len()
    }

    fn room(&self) -> usize {
        self.room
    }

    fn begin_numbers(active: &ActiveBegins) -> &[u64] {
        active.begins.as_slice()
    }

    fn places_for(alloc: Global, first: &WrittenRun, second: &WrittenRun) -> Option<Part> {
        match Vec::with_capacity(alloc, first.made.len().saturating_add(second.made.len())) {
            Ok(places) => {
                let bounds = bounds_for(alloc, places.capacity());
                Some(Part::of(places, bounds))
            }
            Err(_) => None,
        }
    }

    fn join(&mut self, second: WrittenRun, places: Part) {
        let WrittenRun { last, made, .. } = second;
        self.last = self.last.max(last);
        self.room = self.made.len().max(made.len());
        self.second = made;
        self.first = mem::replace(&mut self.made, places);
    }

    fn move_one(&mut self, _oldest: u64, active: &ActiveBegins) {
        move_least(&mut self.first, &mut self.second, &mut self.made, active);
    }

    fn release(&mut self, most: usize) {
        self.room = self.room.saturating_sub(most);
        self.first.shrink_to(self.room);
        self.second.shrink_to(self.room);
    }

    fn sweep(&mut self, oldest: u64) {
        // Shows that `last` is a u64, and so `oldest` less than the greatest one.
        let _last = self.last;
        self.first.sweep(oldest);
        self.second.sweep(oldest);
        self.made.sweep(oldest);
    }

    fn into_stale(self) -> (Vec<Written>, Vec<Written>, Vec<Written>) {
        let WrittenRun {
            first,
            second,
            made,
            ..
        } = self;
        (
            first.into_written(),
            second.into_written(),
            made.into_written(),
        )
    }

    ghost same = { λ begins rs b asks keys flagged. refl };

    ghost through = { λ begins xs ys zs first second b asks keys flagged. first b asks keys flagged
        ∙ second b asks keys flagged };

    ghost between = { postings_agree_between };

    ghost old = { no_old_postings };

    ghost later = { later_from_number };
}
