//! The trait of values with several versions: what is added to one, which numbers see something of it, and what can be dropped of it.
ghost use Rattle.std.specs.Prelude.{◌≡◌, ℕ, ◌<◌, ◌≤◌, Bool, List, IsOk, OnOk, not};
ghost use Rattle.sorted_pages.specs.Values.{IsChangedAt, IsSeenAlike, IsTrimmed};

use std::alloc::{AllocError, Global};

/// A value that keeps things for numbers, and of which less is needed once fewer numbers are left.
pub trait Versioned {
    /// What is added to a value.
    type Version: Drop;

    // the number with which it changes a value
    ghost change_number: { Self.Version → ℕ };

    // the second value is the first with that added
    ghost adds: { Self.Version → Self → Self → Type 0 };

    // for how many more there is room
    ghost room: { Self → ℕ };

    // the second value is the first, with no less room
    ghost is_roomier: { Self → Self → Type 0 };

    // what is left of it for these numbers
    ghost trimmed: { List ℕ → Self → Self };

    // it keeps something of this number
    ghost has: { ℕ → Self → Bool };

    // this number sees nothing of it
    ghost hides: { ℕ → Self → Bool };

    // the greatest numbers see something of it
    ghost shows: { Self → Bool };

    // from this number on, numbers see something of it where it shows
    ghost last: { Self → ℕ };

    /// Makes room for one version more. Where memory is refused the room is as it was.
    fn reserve(&mut self, alloc: Global) -> Result<(), AllocError>
        ensures roomier { is_roomier self.old self.new }
        ensures alike { IsSeenAlike hides shows last self.old self.new }
        ensures made { OnOk result (0 < room self.new) }
        ensures known { 0 < room self.old → IsOk result };

    /// Adds a version, in the room that was made for it. Takes no memory.
    fn add(&mut self, version: Self::Version)
        requires { 0 < room self.old }
        ensures added { adds version self.old self.new }
        ensures changed { IsChangedAt hides last (change_number version) self.old self.new };

    /// Drops what none of the numbers needs. Takes no memory.
    fn trim(&mut self, numbers: &[u64])
        ensures value { self.new ≡ trimmed numbers.now self.old }
        ensures trimmed { IsTrimmed hides shows last numbers.now self.old self.new };

    /// Does it keep something of this number? Takes no memory.
    fn has(&self, number: u64) -> bool
        ensures { result ≡ has number self.now };

    /// Does this number see nothing of it? Takes no memory.
    fn hides(&self, number: u64) -> bool
        ensures { result ≡ hides number self.now };

    /// Do the greatest numbers see something of it? Takes no memory.
    fn shows(&self) -> bool
        ensures { result ≡ shows self.now };

    /// A number from which on numbers see something of it where it shows, and nothing else. Takes no memory.
    fn last(&self) -> u64
        ensures value { result ≡ last self.now }
        ensures seen { (n : ℕ) → result ≤ n → hides n self.now ≡ not (shows self.now) };

    /// The number with which a version changes a value. Takes no memory.
    fn change_number(version: &Self::Version) -> u64
        ensures { result ≡ change_number version.now };
}
