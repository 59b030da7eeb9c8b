//! The begin numbers of the open transactions, by which garbage is found.
ghost use Rattle.std.specs.Prelude.{◌≡◌, ◌≤◌, Some, None, IfSome, length, take};
ghost use Rattle.engine.specs.Begins.{AreGathered, begins_of};
ghost use Rattle.engine.specs.Least.{IsLeast};

use crate::engine::OPEN_MAX;
use snapshot::Transaction;
use std::collections::BTreeMap;
use std::marker::Model;

/// The begin numbers of the open transactions, in the order of their sessions, where none of these has begun or ended since they were
/// gathered.
#[derive(Drop)]
pub(crate) struct Begins {
    numbers: [u64; OPEN_MAX],
    count: usize,
    are_gathered: bool,
}

impl Model for Begins {
    ghost use Rattle.std.specs.Prelude.{ℕ, List, Option, Some, None, ◌≤◌, if◌then◌else◌, take};
    ghost use Rattle.engine.specs.declared.engine.TheConstants.{OPEN_MAX};

    ghost Value = { Option (List ℕ) };

    ghost view = { λ b. if b.are_gathered then Some (take b.count b.numbers) else None };

    ghost invariant = { λ b. b.count ≤ OPEN_MAX };
}

// Puts the begin numbers of the transactions, of which there are 64 at most, into the front of `numbers`. Answers how many these are.
fn copy_begins(running: &BTreeMap<u64, Transaction>, numbers: &mut [u64; OPEN_MAX]) -> usize
    ensures few { result ≤ OPEN_MAX }
    ensures numbers { length running.now.entries ≤ OPEN_MAX
        → take result numbers.new ≡ begins_of running.now.entries }
{
    let mut count = 0;
    for transaction in running.values() {
        if count < OPEN_MAX {
            numbers[count] = transaction.begin();
            count += 1;
        }
    }
    count
}

// The least of the numbers, or `last` where none is less.
pub(crate) fn least_of(numbers: &[u64], last: u64) -> u64
    ensures { IsLeast (λ n. n) last numbers.now result }
{
    let mut least = last;
    for number in numbers {
        least = least.min(*number);
    }
    least
}

impl Begins {
    // None is gathered.
    pub(crate) fn none() -> Begins
        ensures { result ≡ None }
    {
        Begins {
            numbers: [0; OPEN_MAX],
            count: 0,
            are_gathered: false,
        }
    }

    // Gathers those of the open transactions, of which there are 64 at most, unless that is done.
    pub(crate) fn gather(&mut self, running: &BTreeMap<u64, Transaction>)
        ensures { AreGathered self.old running.now.entries → length running.now.entries ≤ OPEN_MAX
            → self.new ≡ Some (begins_of running.now.entries) }
    {
        if !self.are_gathered {
            self.count = copy_begins(running, &mut self.numbers);
            self.are_gathered = true;
        }
    }

    // Those that were gathered.
    pub(crate) fn numbers(&self) -> &[u64]
        ensures gathered { IfSome self.now (λ numbers. result.now ≡ numbers) }
        ensures few { length result.now ≤ OPEN_MAX }
    {
        &self.numbers[..self.count]
    }

    // A transaction begins or ends: they have to be gathered again.
    pub(crate) fn forget(&mut self)
        ensures { self.new ≡ None }
    {
        self.are_gathered = false;
    }
}
