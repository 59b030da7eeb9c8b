//! One step of a merge: the least key of two parts of a run goes to the end of a third, where someone who may ask is answered by it.
ghost use Rattle.std.specs.Prelude.{◌≡◌, ◌≤◌, ◌<◌, ◌+◌, ◌++◌, IsTrue, true, false, length, min};
ghost use Rattle.std.specs.Vec.{vec_capacity};
ghost use Rattle.pivot_check.specs.Active.{reach_of};
ghost use Rattle.pivot_check.specs.Postings.{keys_rise};
ghost use Rattle.pivot_check.specs.Redundant.{MakesFor};
ghost use Rattle.pivot_check.specs.Parts.{remaining, left, remaining_in};
ghost use Rattle.pivot_check.specs.Merging.{BeginsBelow, BeginsUnder, KeepNumbers, RiseBehind, TakesFirst};
ghost use Rattle.pivot_check.specs.Merging.{TakesPosting};

use crate::active::ActiveBegins;
use crate::part::Part;

// Does a least key stand first in the first part?
fn is_in_first(first: &Part, second: &Part) -> bool
    ensures first { result ≡ true → BeginsBelow (remaining first.now) (remaining second.now) }
    ensures first_some { result ≡ true → 0 < left first.now }
    ensures second { result ≡ false → BeginsUnder (remaining second.now) (remaining first.now) }
    ensures second_some { result ≡ false → 0 < left first.now + left second.now → 0 < left second.now }
{
    let Some(x) = first.first() else {
        return false;
    };
    let Some(y) = second.first() else {
        return true;
    };
    x.key().order(y.key()).is_le()
}

// Moves the first of what is left of a part, below which no key of another stands, behind a third, in the room that it has. Where the last
// posting of that answers whoever may ask in its place, it is dropped.
fn move_first(from: &mut Part, to: &mut Part, active: &ActiveBegins)
    requires some { 0 < left from.old }
    requires rising { IsTrue (keys_rise (remaining to.old ++ remaining from.old)) }
    requires room { length to.old.written.items < vec_capacity to.old.written }
    ensures taken { TakesFirst (reach_of active.now) (remaining to.old) (remaining from.old) (remaining to.new)
        (remaining from.new) }
    ensures from { min to.old.bound.number from.old.bound.number ≤ min to.new.bound.number from.new.bound.number }
    ensures moved { TakesPosting (left from.old) (left from.new) to.old to.new }
{
    let written = from.take_first();
    if !to.makes_redundant(&written, active) {
        to.push(written);
    }
}

// Moves the posting of a least key of two parts behind a third, in the room that it has, or drops it. Whoever may ask is answered by all
// three as before, and of two postings of one key beside one another in the third the first doesn't answer in the place of the second.
pub(crate) fn move_least(first: &mut Part, second: &mut Part, to: &mut Part, active: &ActiveBegins)
    requires rising { RiseBehind to.old first.old second.old }
    requires some { 0 < left first.old + left second.old }
    requires room { length to.old.written.items < vec_capacity to.old.written }
    ensures made { MakesFor (reach_of active.now) (remaining to.old) (remaining to.new)
        (remaining_in to.new first.new second.new)
        (remaining_in to.old first.old second.old) }
    ensures rising { RiseBehind to.new first.new second.new }
    ensures numbers { KeepNumbers to.old first.old second.old to.new first.new second.new }
    ensures moved { TakesPosting (left first.old + left second.old) (left first.new + left second.new) to.old to.new }
{
    if is_in_first(first, second) {
        move_first(first, to, active);
    } else {
        move_first(second, to, active);
    }
}
