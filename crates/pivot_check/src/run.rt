//! A sorted run of the keys that consecutive commits wrote, at rest or being merged of two.
ghost use Rattle.std.specs.Prelude.{◌≡◌, ◌≤◌, ◌<◌, ◌+◌, ◌-◌, ◌^◌, ◌++◌, IsTrue, ℕ, length, min};
ghost use Rattle.std.specs.Vec.{vec_capacity};
ghost use Rattle.pivot_check.specs.Postings.{are_upto, keys_rise, postings_from};
ghost use Rattle.pivot_check.specs.Parts.{remaining, left, remaining_in};

use crate::bound::Bound;
use crate::part::Part;
use crate::written::Written;
use std::alloc::Global;

/// What transactions that committed one after another have written, by rising key, and a number that none of their numbers is above: one
/// run for several commits. It is at rest, with all of it in `made`, or is being made of two runs. Then it has places for what is left of
/// them.
#[derive(Drop)]
pub(crate) struct WrittenRun {
    pub(crate) last: u64,
    // what is left of the two runs that it is made of
    pub(crate) first: Part,
    pub(crate) second: Part,
    // what was made of their least keys
    pub(crate) made: Part,
    // for how many postings of the longer of the two the memory is still to be released
    pub(crate) room: usize,
    ghost first_rises: { IsTrue (keys_rise (remaining made ++ remaining first)) },
    ghost second_rises: { IsTrue (keys_rise (remaining made ++ remaining second)) },
    ghost places: { left first + left second ≤ vec_capacity made.written - length made.written.items },
    ghost upto: { IsTrue (are_upto last (remaining_in made first second)) },
}

// No postings.
fn nothing(alloc: Global) -> Part
    ensures none { length result.written.items ≡ 0 }
    ensures places { vec_capacity result.written ≡ 0 }
    ensures number { result.bound.number ≡ 2 ^ 64 - 1 }
{
    Part {
        written: Vec::new(alloc),
        start: 0,
        bound: Bound::of_none(),
        bounds: Vec::new(alloc),
    }
}

impl WrittenRun {
    // A run of these postings, at rest. None of them has a number above `last`.
    pub(crate) fn of(written: Vec<Written>, last: u64) -> WrittenRun
        requires rising { IsTrue (keys_rise written.items) }
        requires upto { IsTrue (are_upto last written.items) }
        ensures made { remaining result.made ≡ written.items }
        ensures last { result.last ≡ last }
        ensures left { left result.first + left result.second ≡ 0 }
        ensures room { result.room ≡ 0 }
        ensures from { (n : ℕ) → n < 2 ^ 64 → IsTrue (postings_from n written.items)
            → n ≤ min result.made.bound.number (min result.first.bound.number result.second.bound.number) }
    {
        let alloc = *written.allocator();
        WrittenRun {
            last,
            first: nothing(alloc),
            second: nothing(alloc),
            made: Part::of(written, Vec::new(alloc)),
            room: 0,
        }
    }
}
