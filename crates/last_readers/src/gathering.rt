//! The steps of a transaction's marks: 1 at each key that it read, 0 at the others.
ghost use Rattle.std.specs.Prelude.{◌≡◌, ◌≤◌, IsTrue, IfOk, [], ◌∷◌, length, if◌then◌else◌};
ghost use Rattle.model.specs.Map.{Bytes};
ghost use Rattle.model.specs.PrivateCopy.{covers, is_covered};
ghost use Rattle.marks.specs.Marked.{mark_of, marks_of};
ghost use Rattle.marks.specs.Lent.{lent_mark};
ghost use Rattle.last_readers.specs.Steps.{number_at, steps_rise, span_at, steps_between};

use crate::merging::merge;
use crate::step::Step;
use crate::steps::Steps;
use marks::{MarkRef, OwnedMark};
use model::{Key, KeyRef, Memory};
use std::alloc::Global;
use std::cmp::Ordering;

// A step at this key.
fn step_at(alloc: Global, key: KeyRef<'_>, at: u64, above: u64) -> Result<Step, Memory>
    ensures { IfOk result (λ s. s ≡ record { key = key.entry.bytes.now; at = at; above = above }) }
{
    Ok(Step::new(Key::from_ref(alloc, key)?, at, above))
}

// One step, at this key.
fn from_on(alloc: Global, lo: KeyRef<'_>, at: u64, above: u64) -> Result<Steps, Memory>
    ensures { IfOk result (λ v. v.items ≡ record { key = lo.entry.bytes.now; at = at; above = above } ∷ []) }
{
    let mut steps = Steps::with_capacity(alloc, 1)?;
    steps.put_least(step_at(alloc, lo, at, above)?);
    Ok(steps)
}

// 1 from a key on, and from another on 0, but `at` at this itself.
fn from_to(alloc: Global, lo: KeyRef<'_>, end: KeyRef<'_>, at: u64) -> Result<Steps, Memory>
    ensures { IfOk result (λ v. v.items ≡ steps_between lo.entry.bytes.now end.entry.bytes.now at) }
{
    let mut steps = Steps::with_capacity(alloc, 2)?;
    steps.put_least(step_at(alloc, end, at, 0)?);
    steps.put_least(step_at(alloc, lo, 1, 1)?);
    Ok(steps)
}

// 1 at the keys from `lo` to below `end`, and `at` at `end`, where that isn't below `lo`.
fn span(alloc: Global, lo: KeyRef<'_>, end: KeyRef<'_>, at: u64) -> Result<Steps, Memory>
    ensures rising { IfOk result (λ v. IsTrue (steps_rise v.items)) }
    ensures span { IfOk result
        (λ v. (k : Bytes) → number_at v.items k ≡ span_at lo.entry.bytes.now end.entry.bytes.now at k) }
{
    match lo.order(end) {
        Ordering::Less => from_to(alloc, lo, end, at),
        Ordering::Equal => from_on(alloc, lo, at, 0),
        Ordering::Greater => Ok(Steps::new(alloc)),
    }
}

// 1 at the keys that the mark covers, 0 at the others.
fn steps_of_mark(alloc: Global, mark: MarkRef<'_>) -> Result<Steps, Memory>
    ensures rising { IfOk result (λ v. IsTrue (steps_rise v.items)) }
    ensures covers { IfOk result
        (λ v. (k : Bytes) → number_at v.items k ≡ (if covers (lent_mark mark.entry) k then 1 else 0)) }
{
    match mark {
        MarkRef::Key(key) => from_on(alloc, key, 1, 0),
        MarkRef::Range(range) => match range.hi {
            None => from_on(alloc, range.lo, 1, 1),
            Some(hi) => span(alloc, range.lo, hi, 0),
        },
        MarkRef::ClosedRange { lo, last } => span(alloc, lo, last, 1),
    }
}

// 1 at the keys that the first mark covers, if there is one, 0 at the others.
fn steps_of_first(alloc: Global, marks: &[OwnedMark]) -> Result<Steps, Memory>
    requires { length marks.now ≤ 1 }
    ensures rising { IfOk result (λ v. IsTrue (steps_rise v.items)) }
    ensures covers { IfOk result
        (λ v. (k : Bytes) → number_at v.items k ≡ (if is_covered (marks_of marks.now) k then 1 else 0)) }
{
    match marks.first() {
        None => Ok(Steps::new(alloc)),
        Some(mark) => steps_of_mark(alloc, mark.lend()),
    }
}

// 1 at the keys that some mark covers, 0 at the others: each half of the marks by itself, and then both as one.
pub(crate) fn steps_of(alloc: Global, marks: &[OwnedMark]) -> Result<Steps, Memory>
    ensures rising { IfOk result (λ v. IsTrue (steps_rise v.items)) }
    ensures covers { IfOk result
        (λ v. (k : Bytes) → number_at v.items k ≡ (if is_covered (marks_of marks.now) k then 1 else 0)) }
{
    if marks.len() <= 1 {
        return steps_of_first(alloc, marks);
    }
    let middle = marks.len() / 2;
    let first = steps_of(alloc, &marks[..middle])?;
    let second = steps_of(alloc, &marks[middle..])?;
    let places = Steps::with_capacity(alloc, first.len().saturating_add(second.len()))?;
    Ok(merge(first, second, places))
}
