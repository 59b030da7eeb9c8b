//! For which active numbers all garbage is collected.
ghost use Rattle.std.specs.Prelude.{◌≡◌, ◌↔◌, ◌&&◌, true, nat_le, if◌then◌else◌, length, Some, None};
ghost use Rattle.sorted_pages.specs.declared.held.TheConstants.{HELD_MAX};

use sorted_pages::HELD_MAX;
use std::marker::Model;

/// The numbers for which a step of a reclaim left nothing to do, if nothing has changed since. With other numbers there may be something.
#[derive(Drop)]
pub(crate) struct CollectedFor {
    numbers: [u64; HELD_MAX],
    // more than there are places where there are no such numbers
    count: usize,
}

// More numbers than are noted.
const NOT_NOTED: usize = HELD_MAX + 1;

impl Model for CollectedFor {
    ghost use Rattle.std.specs.Prelude.{ℕ, Option, Some, None, List, take, nat_le, if◌then◌else◌};
    ghost use Rattle.sorted_pages.specs.declared.held.TheConstants.{HELD_MAX};

    ghost Value = { Option (List ℕ) };

    ghost view = { λ c. if nat_le c.count HELD_MAX then Some (take c.count c.numbers) else None };
}

impl CollectedFor {
    // For none.
    pub(crate) fn none() -> CollectedFor
        ensures { result ≡ None }
    {
        CollectedFor {
            numbers: [0; HELD_MAX],
            count: NOT_NOTED,
        }
    }

    // Is it for these?
    pub(crate) fn is_for(&self, begins: &[u64]) -> bool
        ensures { (result ≡ true) ↔ (self.now ≡ Some begins.now) }
    {
        self.count <= HELD_MAX && begins == &self.numbers[..self.count]
    }

    // It is for these now, where all is collected and they aren't too many to be noted, and else for none.
    pub(crate) fn note(&mut self, begins: &[u64], are_collected: bool)
        ensures { self.new ≡ (if are_collected && nat_le (length begins.now) HELD_MAX then Some begins.now else None) }
    {
        self.count = NOT_NOTED;
        if are_collected && begins.len() <= HELD_MAX {
            self.numbers[..begins.len()].copy_from_slice(begins);
            self.count = begins.len();
        }
    }

    // Something changes: it is for none.
    pub(crate) fn clear(&mut self)
        ensures { self.new ≡ None }
    {
        self.count = NOT_NOTED;
    }
}
