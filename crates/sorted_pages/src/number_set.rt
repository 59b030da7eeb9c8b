//! Numbers of which most are found at once.
ghost use Rattle.std.specs.Prelude.{◌≡◌, ◌<◌, ◌%◌};
ghost use Rattle.sorted_pages.specs.Held.{is_among};

use crate::held::FREE;
use std::marker::Model;

// How many places a set has: more than the most numbers that are held, so that few of them share a place where they are near one another.
const PLACES: usize = 128;

/// A set of numbers, each of which has a place by its remainder. One that stands in its place is found in constant time, and any other in
/// that of a look at all: so it is of those that share a place with a later one, and of those that aren't in the set.
#[derive(Drop)]
pub struct NumberSet<'a> {
    numbers: &'a [u64],
    places: [u64; PLACES],
}

impl<'a> Model for NumberSet<'a> {
    ghost use Rattle.std.specs.Prelude.{ℕ, List};
    ghost use Rattle.sorted_pages.specs.Held.{AreAmong};

    ghost Value = { List ℕ };

    ghost view = { λ s. s.numbers.now };

    ghost invariant = { λ s. AreAmong s.numbers.now s.places };
}

// Where a number stands, unless a later one that shares the place has taken it.
fn home_of(number: u64) -> usize
    ensures home { result ≡ number % PLACES }
    ensures place { result < PLACES }
{
    (number % PLACES as u64) as usize
}

impl<'a> NumberSet<'a> {
    /// These numbers. It takes the time of a look at each, and no memory.
    pub fn of(numbers: &'a [u64]) -> NumberSet<'a>
        ensures { result ≡ numbers.now }
    {
        let mut places = [FREE; PLACES];
        for number in numbers {
            places[home_of(*number)] = *number;
        }
        NumberSet { numbers, places }
    }

    /// All of them, in the order in which they came. Takes no memory.
    pub fn numbers(&self) -> &'a [u64]
        ensures { result.now ≡ self.now }
    {
        self.numbers
    }

    /// Is the number one of them? Takes no memory.
    pub fn contains(&self, number: u64) -> bool
        ensures { result ≡ is_among self.now number }
    {
        let is_placed = number < FREE && self.places[home_of(number)] == number;
        is_placed || self.numbers.contains(&number)
    }
}
