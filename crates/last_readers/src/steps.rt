//! Steps in one block of memory, which is released from its end.
ghost use Rattle.std.specs.Prelude.{◌≡◌, ◌≤◌, ◌<◌, ◌+◌, ◌^◌, ◌++◌, ◌==◌, ◌↔◌, [], ◌∷◌, IsSome, IsTrue, IfOk};
ghost use Rattle.std.specs.Prelude.{IfSome, MatchOption, length, map, min, slice_index_or};
ghost use Rattle.std.specs.Option.{option_to_list};
ghost use Rattle.std.specs.VecDeque.{deque_len, deque_capacity};
ghost use Rattle.last_readers.specs.Steps.{IsLast, end_of, number_from, renumbered, steps_rise};

use crate::step::Step;
use merging_runs::FreePart;
use model::KeyRef;
use std::alloc::{AllocError, Global};
use std::collections::VecDeque;
use std::marker::Model;
use std::mem;

/// Steps by rising key. The one with the greatest key stands first in their block of memory, and what is put below the others stands behind
/// them. So a merge, which goes from the greatest key down, fills a block from its beginning, and the block can be released from its end.
#[derive(Drop)]
pub(crate) struct Steps {
    falling: VecDeque<Step>,
    // how many places before the first one those left that were taken
    taken: usize,
}

impl Model for Steps {
    ghost use Rattle.std.specs.Prelude.{reverse};
    ghost use Rattle.std.specs.VecDeque.{deque_capacity};
    ghost use Rattle.last_readers.specs.Steps.{StepsValue};

    ghost Value = { StepsValue };

    ghost view = { λ s. record { items = reverse s.falling.items; capacity = deque_capacity s.falling } };
}

impl Steps {
    // No steps, and no places. Takes no memory.
    pub(crate) fn new(alloc: Global) -> Steps
        ensures { result.items ≡ [] }
    {
        Steps {
            falling: VecDeque::new(alloc),
            taken: 0,
        }
    }

    // No steps, and places for so many. `AllocError` where memory for that is refused.
    pub(crate) fn with_capacity(alloc: Global, capacity: usize) -> Result<Steps, AllocError>
        ensures items { IfOk result (λ s. s.items ≡ []) }
        ensures capacity { IfOk result (λ s. s.capacity ≡ capacity) }
    {
        let falling = VecDeque::with_capacity(alloc, capacity)?;
        Ok(Steps { falling, taken: 0 })
    }

    // What its memory comes from.
    pub(crate) fn allocator(&self) -> Global {
        *self.falling.allocator()
    }

    // How many steps there are, 2^63 - 1 at most.
    pub(crate) fn len(&self) -> usize
        ensures len { result ≡ length self.now.items }
        ensures few { result < 2 ^ 63 }
    {
        self.falling.len()
    }

    // Is there no step?
    pub(crate) fn is_empty(&self) -> bool
        ensures { result ≡ (length self.now.items == 0) }
    {
        self.falling.is_empty()
    }

    // The step at that place by rising key.
    pub(crate) fn at(&self, i: usize) -> &Step
        requires { i < length self.now.items }
        ensures { result.now ≡ slice_index_or self.now.items i result.now }
    {
        &self.falling[self.falling.len() - 1 - i]
    }

    // The step with the greatest key, if there is one.
    pub(crate) fn greatest(&self) -> Option<&Step>
        ensures some { IsSome result ↔ (0 < length self.now.items) }
        ensures last { IfSome result (λ s. IsLast s.now self.now.items) }
    {
        self.falling.front()
    }

    // Takes the step with the greatest key off, if there is one.
    pub(crate) fn take_greatest(&mut self) -> Option<Step>
        ensures items { self.old.items ≡ self.new.items ++ option_to_list result }
        ensures len { MatchOption result ((length self.old.items ≡ 0) × (length self.new.items ≡ 0))
            (λ _. length self.new.items + 1 ≡ length self.old.items) }
        ensures capacity { self.new.capacity ≡ self.old.capacity }
    {
        self.taken = self.taken.saturating_add(1);
        self.falling.pop_front()
    }

    // Takes the step with the least key off, if there is one.
    pub(crate) fn take_least(&mut self) -> Option<Step>
        ensures items { self.old.items ≡ option_to_list result ++ self.new.items }
        ensures len { MatchOption result ((length self.old.items ≡ 0) × (length self.new.items ≡ 0))
            (λ _. length self.new.items + 1 ≡ length self.old.items) }
        ensures room { IfSome result (λ _. length self.new.items < self.new.capacity) }
        ensures capacity { self.new.capacity ≡ self.old.capacity }
    {
        self.falling.pop_back()
    }

    // Puts a step below all others, in the room that is there.
    pub(crate) fn put_least(&mut self, step: Step)
        requires { length self.old.items < self.old.capacity }
        ensures items { self.new.items ≡ step ∷ self.old.items }
        ensures capacity { self.new.capacity ≡ self.old.capacity }
    {
        self.falling.push_back_reserved(step);
    }

    // Puts a step above all others, in the room that is there. Until `move_to_start` they don't stand at the beginning of their block then.
    pub(crate) fn put_greatest(&mut self, step: Step)
        requires { length self.old.items < self.old.capacity }
        ensures items { self.new.items ≡ self.old.items ++ step ∷ [] }
        ensures capacity { self.new.capacity ≡ self.old.capacity }
    {
        self.falling.push_front_reserved(step);
    }

    // Moves the steps to the beginning of their block. It takes the time of a copy of them, and no memory.
    pub(crate) fn move_to_start(&mut self)
        ensures { self.new ≡ self.old }
    {
        let empty = VecDeque::new(self.allocator());
        let falling = mem::replace(&mut self.falling, empty);
        self.falling = VecDeque::from_vec(falling.into_vec());
        self.taken = 0;
    }

    // This number in the place of each that isn't 0.
    pub(crate) fn renumber(&mut self, number: u64)
        ensures { self.new.items ≡ map (renumbered number) self.old.items }
    {
        renumber(&mut self.falling, number);
    }

    // Releases the memory of all places but so many, and of none that has a step. It moves the steps where some were taken.
    pub(crate) fn shrink_to(&mut self, capacity: usize)
        ensures items { self.new.items ≡ self.old.items }
        ensures capacity { self.new.capacity ≤ self.old.capacity }
        ensures kept { min capacity self.old.capacity ≤ self.new.capacity }
        ensures released { length self.old.items ≡ 0 → capacity ≡ 0 → self.new.capacity ≡ 0 }
    {
        self.falling.shrink_to(capacity);
    }
}

// This number in the place of each that isn't 0.
fn renumber(steps: &mut VecDeque<Step>, number: u64)
    ensures { steps.new.items ≡ map (renumbered number) steps.old.items }
{
    for i in 0..steps.len() {
        steps[i].renumber(number);
    }
}

// The number at the keys above all steps.
pub(crate) fn end_of(steps: &Steps) -> u64
    ensures { result ≡ end_of steps.now.items }
{
    match steps.greatest() {
        None => 0,
        Some(step) => step.number_above(),
    }
}

// The number at the key, where `below` is the one below all steps. A binary search.
pub(crate) fn number_from(steps: &Steps, below: u64, key: KeyRef<'_>) -> u64
    requires { IsTrue (steps_rise steps.now.items) }
    ensures { result ≡ number_from below steps.now.items key.entry.bytes.now }
{
    let above = steps
        .falling
        .partition_point(|step| step.key().order(key).is_gt());
    if above == steps.falling.len() {
        return below;
    }
    steps.falling[above].number(key)
}

// Puts the last step before the first, if there is one.
fn turn_back(ring: &mut VecDeque<Step>)
    ensures { deque_len ring.new ≡ deque_len ring.old }
{
    if let Some(step) = ring.pop_back() {
        ring.push_front_reserved(step);
    }
}

// Puts the last step before the first, so many times.
fn turn_back_all(ring: &mut VecDeque<Step>, count: usize)
    ensures { deque_len ring.new ≡ deque_len ring.old }
{
    for _turn in 0..count {
        turn_back(ring);
    }
}

impl FreePart for Steps {
    ghost left = { λ s. length s.items };

    // The memory goes from the end of the block with the steps, for four times as many places at most. Where a merge took some, the last
    // steps come into the places of these first, `most` with each call. So no call moves many steps, or returns much memory.
    fn free_part(&mut self, most: usize) -> usize {
        let count = self.falling.len().min(most);
        self.falling.truncate(self.falling.len() - count);
        let moved = self.taken.min(most);
        turn_back_all(&mut self.falling, moved);
        self.taken -= moved;
        if self.taken == 0 || self.falling.is_empty() {
            let places = self
                .falling
                .capacity()
                .saturating_sub(most.saturating_mul(4));
            self.falling.shrink_to(places);
        }
        most - count
    }
}
