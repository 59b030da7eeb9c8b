//! A step: the reader at a key, and the one at the keys above it up to the next step.
ghost use Rattle.std.specs.Prelude.{◌≡◌, if◌then◌else◌};
ghost use Rattle.std.specs.Ordering.{is_eq};
ghost use Rattle.model.specs.Map.{key_cmp};
ghost use Rattle.last_readers.specs.Steps.{StepValue, cut, cut_step, is_level, in_place_of, renumbered};

use model::{Key, KeyRef};
use std::marker::Model;

/// The number at a key, and the one at the keys above it up to the next step.
#[derive(Drop)]
pub(crate) struct Step {
    key: Key,
    at: u64,
    above: u64,
}

impl Model for Step {
    ghost use Rattle.last_readers.specs.Steps.{StepValue};

    ghost Value = { StepValue };

    ghost view = { λ s. record { key = s.key; at = s.at; above = s.above } };
}

impl Step {
    pub(crate) fn new(key: Key, at: u64, above: u64) -> Step
        ensures { result ≡ record { key = key; at = at; above = above } }
    {
        Step { key, at, above }
    }

    pub(crate) fn key(&self) -> KeyRef<'_>
        ensures { result.bytes.now ≡ self.now.key }
    {
        self.key.lend()
    }

    // The key, given away.
    pub(crate) fn into_key(self) -> Key
        ensures { result ≡ self.key }
    {
        let Step { key, .. } = self;
        key
    }

    pub(crate) fn at(&self) -> u64
        ensures { result ≡ self.now.at }
    {
        self.at
    }

    pub(crate) fn number_above(&self) -> u64
        ensures { result ≡ self.now.above }
    {
        self.above
    }

    // The number at its key or, for another key, above it.
    pub(crate) fn number(&self, key: KeyRef<'_>) -> u64
        ensures { result ≡ (if is_eq (key_cmp self.now.key key.entry.bytes.now) then self.now.at else self.now.above) }
    {
        if self.key().order(key).is_eq() {
            self.at
        } else {
            self.above
        }
    }

    // Does it say no more than that the numbers from its key on are this one?
    pub(crate) fn is_level(&self, number: u64) -> bool
        ensures { result ≡ is_level number self.now }
    {
        self.at == number && self.above == number
    }

    // 0 in the place of each number up to `oldest`.
    pub(crate) fn cut(self, oldest: u64) -> Step
        ensures { result ≡ cut_step oldest self }
    {
        let Step { key, at, above } = self;
        Step {
            key,
            at: cut(oldest, at),
            above: cut(oldest, above),
        }
    }

    // This number in the place of each that isn't 0.
    pub(crate) fn renumber(&mut self, number: u64)
        ensures { self.new ≡ renumbered number self.old }
    {
        self.at = in_place_of(self.at, number);
        self.above = in_place_of(self.above, number);
    }
}

// The number, where it is above `oldest`, else 0.
pub(crate) fn cut(oldest: u64, number: u64) -> u64
    ensures { result ≡ cut oldest number }
{
    if oldest < number { number } else { 0 }
}

// The number, where there was one.
fn in_place_of(was: u64, number: u64) -> u64
    ensures { result ≡ in_place_of number was }
{
    if was == 0 { 0 } else { number }
}
