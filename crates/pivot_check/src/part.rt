//! A part of a run: written keys by rising key, with a bound for each block of 64.
ghost use Rattle.std.specs.Prelude.{◌≡◌, ◌≤◌, ◌<◌, ◌+◌, ◌*◌, ◌-◌, ◌/◌, ◌^◌, ◌++◌, ◌||◌, ◌==◌, ℕ, Bool, IsTrue};
ghost use Rattle.std.specs.Prelude.{length, drop, min, [], ◌∷◌};
ghost use Rattle.std.specs.List.{list_any};
ghost use Rattle.std.specs.Vec.{vec_capacity};
ghost use Rattle.merging_runs.specs.Next.{IsNext};
ghost use Rattle.pivot_check.specs.declared.bound.TheConstants.{BLOCK};
ghost use Rattle.pivot_check.specs.Postings.{keys_rise, later_than, postings_from};
ghost use Rattle.pivot_check.specs.Bounds.{are_from_bound, AreBounds, bound_count};
ghost use Rattle.pivot_check.specs.Active.{reach_of};
ghost use Rattle.pivot_check.specs.Redundant.{is_redundant_behind};

use crate::active::ActiveBegins;
use crate::bound::{BLOCK, Bound};
use crate::written::{Written, count_later, next_written};

/// Written keys by rising key. Those before `start` were taken: their numbers and flags stay, so that the bounds stay true. The bounds of
/// its blocks may be missing.
#[derive(Drop)]
pub(crate) struct Part {
    pub(crate) written: Vec<Written>,
    pub(crate) start: usize,
    pub(crate) bound: Bound,
    pub(crate) bounds: Vec<Bound>,
    ghost within: { start ≤ length written.items },
    ghost rising: { IsTrue (keys_rise (drop start written.items)) },
    ghost bounded: { IsTrue (are_from_bound bound written.items) },
    ghost blocks: { AreBounds bounds.items written.items },
    ghost whole: { BLOCK * length bounds.items ≤ length written.items },
}

impl Part {
    // A part of these postings, with room for bounds.
    pub(crate) fn of(written: Vec<Written>, bounds: Vec<Bound>) -> Part
        requires rising { IsTrue (keys_rise written.items) }
        requires none { length bounds.items ≡ 0 }
        ensures written { result.written ≡ written }
        ensures start { result.start ≡ 0 }
        ensures from { (n : ℕ) → n < 2 ^ 64 → IsTrue (postings_from n written.items) → n ≤ result.bound.number }
    {
        let bound = Bound::of(&written);
        Part {
            written,
            start: 0,
            bound,
            bounds,
        }
    }

    // The postings, also those that were taken.
    pub(crate) fn into_written(self) -> Vec<Written>
        ensures { result ≡ self.written }
    {
        let Part { written, .. } = self;
        written
    }

    // What is left.
    pub(crate) fn postings(&self) -> &[Written]
        ensures { result.now ≡ drop self.now.start self.now.written.items }
    {
        &self.written[self.start..]
    }

    // How many are left.
    pub(crate) fn len(&self) -> usize
        ensures { result ≡ length self.now.written.items - self.now.start }
    {
        self.written.len() - self.start
    }

    // The number above `n` that was found, or the least of what is left above it where that is less.
    pub(crate) fn next_number(&self, found: Option<u64>, n: u64) -> Option<u64>
        ensures { (p : ℕ → Bool) → IsNext p n found
            → IsNext (λ k. p k || list_any (λ q. k == q.number) (drop self.now.start self.now.written.items)) n result }
    {
        next_written(self.postings(), found, n)
    }

    // Takes the first of what is left, of which there is some.
    pub(crate) fn take_first(&mut self) -> Written
        requires { self.old.start < length self.old.written.items }
        ensures taken { drop self.old.start self.old.written.items ≡ result
            ∷ drop self.new.start self.new.written.items }
        ensures from { self.old.bound.number ≤ result.number }
        ensures start { self.new.start ≡ self.old.start + 1 }
        ensures len { length self.new.written.items ≡ length self.old.written.items }
        ensures bound { self.new.bound ≡ self.old.bound }
    {
        let alloc = *self.written.allocator();
        let written = self.written[self.start].take(alloc);
        self.start += 1;
        written
    }

    // Does the last of what is left answer whoever may ask wherever this posting would?
    pub(crate) fn makes_redundant(&self, written: &Written, active: &ActiveBegins) -> bool
        ensures { result ≡ is_redundant_behind (reach_of active.now) (drop self.now.start self.now.written.items)
            written.now }
    {
        match self.postings().last() {
            Some(last) => last.makes_redundant(written, active),
            None => false,
        }
    }

    // Adds the bound of the first whole block that has none, in the room that was made for it.
    fn add_bound(&mut self)
        ensures written { self.new.written ≡ self.old.written }
        ensures start { self.new.start ≡ self.old.start }
        ensures bound { self.new.bound ≡ self.old.bound }
        ensures room { vec_capacity self.new.bounds ≡ vec_capacity self.old.bounds }
        ensures bounds { length self.new.bounds.items ≡ bound_count (length self.old.written.items)
            (vec_capacity self.old.bounds) (length self.old.bounds.items) }
    {
        let first = BLOCK * self.bounds.len();
        if self.written.len() - first >= BLOCK && self.bounds.len() < self.bounds.capacity() {
            self.bounds
                .push_reserved(Bound::of(&self.written[first..first + BLOCK]));
        }
    }

    // Adds a posting behind the others, in the room that was made for it.
    pub(crate) fn push(&mut self, written: Written)
        requires rising { IsTrue (keys_rise (drop self.old.start self.old.written.items ++ written ∷ [])) }
        requires room { length self.old.written.items < vec_capacity self.old.written }
        ensures written { self.new.written.items ≡ self.old.written.items ++ written ∷ [] }
        ensures start { self.new.start ≡ self.old.start }
        ensures from { min self.old.bound.number written.number ≤ self.new.bound.number }
        ensures bounds { length self.new.bounds.items ≡ bound_count (length self.old.written.items + 1)
            (vec_capacity self.old.bounds) (length self.old.bounds.items) }
        ensures capacity { vec_capacity self.old.written ≤ vec_capacity self.new.written }
    {
        self.bound = self.bound.with(&written);
        self.written.push_reserved(written);
        self.add_bound();
    }

    // Adds the bounds of the whole blocks that have none, in the room that was made for them.
    fn add_bounds(&mut self)
        requires none { length self.old.bounds.items ≡ 0 }
        ensures written { self.new.written ≡ self.old.written }
        ensures start { self.new.start ≡ self.old.start }
        ensures bound { self.new.bound ≡ self.old.bound }
        ensures bounds { length self.new.bounds.items
            ≡ min (length self.old.written.items / BLOCK) (vec_capacity self.old.bounds) }
    {
        for _block in 0..self.written.len() / BLOCK {
            self.add_bound();
        }
    }

    // Releases its memory but for so many of those that were taken. Nothing is left of it.
    pub(crate) fn shrink_to(&mut self, most: usize)
        requires none { self.old.start ≡ length self.old.written.items }
        ensures none { self.new.start ≡ length self.new.written.items }
        ensures bound { self.new.bound ≡ self.old.bound }
        ensures fewer { length self.new.written.items ≤ length self.old.written.items }
        ensures freed { most ≡ 0 → vec_capacity self.new.written ≡ 0 }
        ensures kept { min most (vec_capacity self.old.written) ≤ vec_capacity self.new.written }
    {
        self.bounds.clear();
        self.bounds.shrink_to(0);
        self.written.truncate(most);
        self.written.shrink_to(most);
        self.start = self.written.len();
    }

    // Drops those with numbers up to `oldest`, also of those that were taken. It looks at each of them.
    pub(crate) fn sweep(&mut self, oldest: u64)
        requires { oldest < 2 ^ 64 - 1 }
        ensures written { self.new.written.items ≡ later_than oldest self.old.written.items }
        ensures left { drop self.new.start self.new.written.items
            ≡ later_than oldest (drop self.old.start self.old.written.items) }
        ensures number { oldest < self.new.bound.number }
        ensures rises { self.old.bound.number ≤ self.new.bound.number }
        ensures capacity { vec_capacity self.new.written ≡ vec_capacity self.old.written }
        ensures bounds { length self.new.bounds.items
            ≡ min (length self.new.written.items / BLOCK) (vec_capacity self.old.bounds) }
    {
        let start = count_later(&self.written[..self.start], oldest);
        self.bounds.clear();
        self.written.retain(|written| oldest < written.number());
        self.start = start;
        self.bound = self.bound.above(oldest);
        self.add_bounds();
    }
}
