//! Merges two lists of steps, from the greatest key down: at each key the later reader is kept.
ghost use Rattle.std.specs.Prelude.{◌≡◌, ◌≤◌, ◌<◌, ◌+◌, IsTrue, Bool, true, false, length};
ghost use Rattle.std.specs.declared.cmp.Ordering.TheVariants.{Less, Equal, Greater};
ghost use Rattle.model.specs.Map.{Bytes};
ghost use Rattle.last_readers.specs.Steps.{number_at, end_of, steps_rise};
ghost use Rattle.last_readers.specs.Merging.{EndsEqual, EndsOver, IsJoined, MakesOneStep, MovesGreatest, RiseBefore};
ghost use Rattle.last_readers.specs.Merging.{later, with_step};

use crate::step::Step;
use crate::steps::{Steps, end_of};
use std::cmp::Ordering;

// The number that is kept of two: the greater, where it is above `oldest`.
fn later(oldest: u64, first: u64, second: u64) -> u64
    ensures { result ≡ later oldest first second }
{
    let number = first.max(second);
    if oldest < number { number } else { 0 }
}

// Which of two lists has the greater key at its end. They aren't both empty.
fn order_of_ends(first: &Steps, second: &Steps) -> Ordering
    requires some { 0 < length first.now.items + length second.now.items }
    requires first { IsTrue (steps_rise first.now.items) }
    requires second { IsTrue (steps_rise second.now.items) }
    ensures greater { result ≡ Greater → EndsOver first.now.items second.now.items }
    ensures less { result ≡ Less → EndsOver second.now.items first.now.items }
    ensures equal { result ≡ Equal → EndsEqual first.now.items second.now.items }
{
    let Some(x) = first.greatest() else {
        return Ordering::Less;
    };
    let Some(y) = second.greatest() else {
        return Ordering::Greater;
    };
    x.key().order(y.key())
}

// Takes the last step off the first list, which has a greater key than the second at its end: the step in both as one.
fn take_one(first: &mut Steps, second: &Steps, oldest: u64) -> Step
    requires first { IsTrue (steps_rise first.old.items) }
    requires ends { EndsOver first.old.items second.now.items }
    ensures joined { IsJoined oldest first.old.items first.new.items second.now.items second.now.items result }
    ensures len { length first.new.items + 1 ≡ length first.old.items }
{
    let beyond = end_of(second);
    let Some(step) = first.take_greatest() else {
        unreachable!()
    };
    let at = later(oldest, step.at(), beyond);
    let above = later(oldest, step.number_above(), beyond);
    Step::new(step.into_key(), at, above)
}

// Takes the last step off both lists, which have one key at their ends: both as one.
fn take_both(first: &mut Steps, second: &mut Steps, oldest: u64) -> Step
    requires first { IsTrue (steps_rise first.old.items) }
    requires second { IsTrue (steps_rise second.old.items) }
    requires ends { EndsEqual first.old.items second.old.items }
    ensures joined { IsJoined oldest first.old.items first.new.items second.old.items second.new.items result }
    ensures first_len { length first.new.items + 1 ≡ length first.old.items }
    ensures second_len { length second.new.items + 1 ≡ length second.old.items }
{
    let Some(x) = first.take_greatest() else {
        unreachable!()
    };
    let Some(y) = second.take_greatest() else {
        unreachable!()
    };
    let at = later(oldest, x.at(), y.at());
    let above = later(oldest, x.number_above(), y.number_above());
    Step::new(x.into_key(), at, above)
}

// Takes the greatest key off two lists: its step in both as one.
fn take_greatest(first: &mut Steps, second: &mut Steps, oldest: u64) -> Step
    requires some { 0 < length first.old.items + length second.old.items }
    requires first { IsTrue (steps_rise first.old.items) }
    requires second { IsTrue (steps_rise second.old.items) }
    ensures joined { IsJoined oldest first.old.items first.new.items second.old.items second.new.items result }
    ensures fewer { length first.new.items + length second.new.items
        < length first.old.items + length second.old.items }
    ensures two { length first.old.items + length second.old.items
        ≤ length first.new.items + length second.new.items + 2 }
{
    match order_of_ends(first, second) {
        Ordering::Greater => take_one(first, second, oldest),
        Ordering::Less => take_one(second, first, oldest),
        Ordering::Equal => take_both(first, second, oldest),
    }
}

// Puts the step in front of those that are above it, in the room that is there, unless it says no more than that the numbers from its key
// on are those below it.
fn add_step(to: &mut Steps, step: Step, below: u64)
    requires { length to.old.items < to.old.capacity }
    ensures added { to.new.items ≡ with_step step below to.old.items }
    ensures len { length to.new.items ≤ length to.old.items + 1 }
    ensures capacity { to.new.capacity ≡ to.old.capacity }
{
    if !step.is_level(below) {
        to.put_least(step);
    }
}

// Moves the greatest key of two lists to the front of a third, in the room that it has. At each key the numbers are as they were, where
// those up to `oldest` count as none.
pub(crate) fn move_greatest(first: &mut Steps, second: &mut Steps, to: &mut Steps, oldest: u64)
    requires rising { RiseBefore first.old.items second.old.items to.old.items }
    requires some { 0 < length first.old.items + length second.old.items }
    requires room { length to.old.items < to.old.capacity }
    ensures moved { MovesGreatest oldest first.new.items second.new.items to.new.items first.old.items second.old.items
        to.old.items }
    ensures rising { RiseBefore first.new.items second.new.items to.new.items }
    ensures step { MakesOneStep (length first.old.items + length second.old.items)
        (length first.new.items + length second.new.items) (length to.old.items) (length to.new.items) }
    ensures capacity { to.new.capacity ≡ to.old.capacity }
{
    let step = take_greatest(first, second, oldest);
    let below = later(oldest, end_of(first), end_of(second));
    add_step(to, step, below);
}

// Is there no step in either list?
pub(crate) fn are_empty(first: &Steps, second: &Steps) -> bool
    ensures none { result ≡ true → length first.now.items + length second.now.items ≡ 0 }
    ensures some { result ≡ false → 0 < length first.now.items + length second.now.items }
{
    first.is_empty() && second.is_empty()
}

// The steps of both lists as one, in the places that were made for them: at each key the greater number.
pub(crate) fn merge(mut first: Steps, mut second: Steps, mut places: Steps) -> Steps
    requires first { IsTrue (steps_rise first.items) }
    requires second { IsTrue (steps_rise second.items) }
    requires none { length places.items ≡ 0 }
    requires room { length first.items + length second.items ≤ places.capacity }
    ensures rising { IsTrue (steps_rise result.items) }
    ensures later { (k : Bytes)
        → number_at result.items k ≡ later 0 (number_at first.items k) (number_at second.items k) }
{
    'steps: while !are_empty(&first, &second) {
        move_greatest(&mut first, &mut second, &mut places, 0);
    }
    places
}
