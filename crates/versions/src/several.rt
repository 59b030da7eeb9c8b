//! A key that has several versions, or room for more than one.
ghost use Rattle.std.specs.Prelude.{◌≡◌, ◌==◌, ◌+◌, ◌<◌, ◌≤◌, ℕ, true, length, IfSome, IsOk, OnOk, Some};
ghost use Rattle.std.specs.Prelude.{option_copied};
ghost use Rattle.model.specs.Key.{IsValue};
ghost use Rattle.versions.specs.Chains.{HidesFrom, is_between, seen, shows, longer_chain, thinned};
ghost use Rattle.versions.specs.Listings.{has_version};

use crate::value::KeptValue;
use std::alloc::AllocError;
use std::marker::Model;
use std::mem;

/// What a commit left at a key: a value, or `None` for a deletion.
#[derive(Drop)]
pub(crate) struct Version {
    pub(crate) number: u64,
    pub(crate) value: Option<KeptValue>,
}

impl Model for Version {
    ghost use Rattle.versions.specs.Chains.{Stamped};

    ghost Value = { Stamped };

    ghost view = { λ v. record { number = v.number; value = v.value } };
}

/// The newest version of a key, and those before it by rising number, or room for them.
#[derive(Drop)]
pub(crate) struct Several {
    pub(crate) newest: Version,
    pub(crate) older: Vec<Version>,
}

impl Model for Several {
    ghost use Rattle.std.specs.Prelude.{◌-◌};
    ghost use Rattle.std.specs.Vec.{vec_len, vec_capacity};
    ghost use Rattle.versions.specs.Chains.{ChainValue};

    ghost Value = { ChainValue };

    ghost view = { λ c. record {
      older = c.older.items;
      newest = c.newest;
      room = vec_capacity c.older - vec_len c.older;
    } };
}

impl Several {
    // The number of the newest version.
    pub(crate) fn number(&self) -> u64
        ensures { result ≡ self.now.newest.number }
    {
        self.newest.number
    }

    // How many versions are kept.
    pub(crate) fn len(&self) -> usize
        ensures { result ≡ length self.now.older + 1 }
    {
        self.older.len() + 1
    }

    // What number `n` sees. The walk starts at the newest, which most readers see.
    pub(crate) fn seen(&self, n: u64) -> Option<&[u8]>
        ensures value { option_copied result ≡ seen n self.now }
        ensures short { IfSome result (λ v. IsValue v.now) }
    {
        if self.newest.number <= n {
            return lend_value(&self.newest);
        }
        for version in self.older.iter().rev() {
            if version.number <= n {
                return lend_value(version);
            }
        }
        None
    }

    // Makes room for a version.
    pub(crate) fn reserve(&mut self) -> Result<(), AllocError>
        ensures older { self.new.older ≡ self.old.older }
        ensures newest { self.new.newest ≡ self.old.newest }
        ensures room { self.old.room ≤ self.new.room }
        ensures made { OnOk result (0 < self.new.room) }
        ensures known { 0 < self.old.room → IsOk result }
    {
        self.older.reserve(1)
    }

    // Adds a version in the room that was made for it.
    pub(crate) fn add(&mut self, version: Version)
        requires { 0 < self.old.room }
        ensures { self.new ≡ longer_chain self.old version self.new.room }
    {
        let before = mem::replace(&mut self.newest, version);
        match self.older.push(before) {
            Ok(()) => {}
            Err(_) => unreachable!(),
        }
    }

    // Drops the older versions that none of the numbers sees, in one walk.
    pub(crate) fn reclaim(&mut self, begins: &[u64])
        ensures { self.new ≡ thinned begins.now self.old }
    {
        let last = self.newest.number;
        let mut kept = 0;
        for i in 0..self.older.len() {
            let next = if i + 1 < self.older.len() {
                self.older[i + 1].number
            } else {
                last
            };
            if is_any_between(begins, self.older[i].number, next) {
                self.older.swap(kept, i);
                kept += 1;
            }
        }
        self.older.truncate(kept);
    }

    // Is there a version of this number before the newest?
    pub(crate) fn has(&self, number: u64) -> bool
        ensures { result ≡ has_version number (Some self.now) }
    {
        // Shows the view of the newest version, which the chain's view contains.
        let _ = &self.newest;
        self.older.iter().any(|version| version.number == number)
    }

    // From which number on, up to the newest's, none sees a value: the first of the deletions right before the newest.
    pub(crate) fn hides_from(&self) -> u64
        ensures { HidesFrom result self.now }
    {
        let mut from = self.newest.number;
        for version in self.older.iter().rev() {
            if version.value.is_some() {
                return from;
            }
            from = version.number;
        }
        0
    }

    // Is the newest version a value?
    pub(crate) fn shows(&self) -> bool
        ensures { result ≡ shows self.now }
    {
        self.newest.value.is_some()
    }
}

fn lend_value(version: &Version) -> Option<&[u8]>
    ensures value { option_copied result ≡ version.now.value }
    ensures short { IfSome result (λ v. IsValue v.now) }
{
    match &version.value {
        None => None,
        Some(value) => Some(value.as_slice()),
    }
}

// Is some number at least `low` and below `high`?
fn is_any_between(numbers: &[u64], low: u64, high: u64) -> bool
    ensures { result ≡ is_between numbers.now low high }
{
    numbers
        .iter()
        .any(|number| low <= *number && *number < high)
}
