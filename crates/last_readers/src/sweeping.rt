//! Drops forgotten readers from a list of steps, and the steps that then repeat the one before them.
ghost use Rattle.std.specs.Prelude.{◌≡◌, ◌≤◌, ◌<◌, Some, length};
ghost use Rattle.last_readers.specs.Steps.{is_level_in, swept};
ghost use Rattle.last_readers.specs.Sweeping.{IsInForce, IsTurned};

use crate::merging::are_empty;
use crate::step::Step;
use crate::steps::Steps;

// Does the step say no more than that the numbers from its key on are the one in force, if one is?
fn is_level_in(in_force: Option<u64>, step: &Step) -> bool
    ensures { result ≡ is_level_in in_force step.now }
{
    match in_force {
        None => false,
        Some(number) => step.is_level(number),
    }
}

// Takes the first step off, and puts it behind the others with 0 in the place of each number up to `oldest`, unless it says then what is
// in force. The number that is in force from then on.
fn turn(steps: &mut Steps, oldest: u64, in_force: Option<u64>) -> Option<u64>
    requires some { 0 < length steps.old.items }
    ensures turned { IsTurned oldest in_force result steps.old.items steps.new.items }
    ensures len { length steps.new.items ≤ length steps.old.items }
    ensures capacity { steps.new.capacity ≡ steps.old.capacity }
{
    let Some(step) = steps.take_least() else {
        unreachable!()
    };
    let step = step.cut(oldest);
    if is_level_in(in_force, &step) {
        return in_force;
    }
    let above = step.number_above();
    steps.put_greatest(step);
    Some(above)
}

// 0 in the place of each number up to `oldest`. A step goes that says no more then than the one before it, or than the number in force at
// the keys below all steps.
pub(crate) fn sweep(steps: &mut Steps, oldest: u64, in_force: Option<u64>)
    ensures swept { steps.new.items ≡ swept oldest in_force steps.old.items }
    ensures len { length steps.new.items ≤ length steps.old.items }
    ensures capacity { steps.new.capacity ≡ steps.old.capacity }
{
    let mut in_force = in_force;
    for _turn in 0..steps.len() {
        in_force = turn(steps, oldest, in_force);
    }
    steps.move_to_start();
}

// The number in force at the keys above all steps of two lists: none, where neither has a step.
pub(crate) fn number_in_force(first: &Steps, second: &Steps) -> Option<u64>
    ensures { IsInForce result first.now.items second.now.items }
{
    if are_empty(first, second) {
        Some(0)
    } else {
        None
    }
}
