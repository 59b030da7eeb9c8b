//! Several versions of a key in a box, and beside it what readers ask most, so that a range needn't look into each box that it passes.
ghost use Rattle.std.specs.Prelude.{◌≡◌, ◌+◌, ◌<◌, ◌≤◌, [], length, IfSome, IsOk, OnOk, option_copied};
ghost use Rattle.model.specs.Key.{IsValue};
ghost use Rattle.versions.specs.Chains.{longer_chain, seen, shows, thinned};
ghost use Rattle.versions.specs.Listings.{has_version};

use crate::several::{Several, Version};
use std::alloc::AllocError;
use std::boxed::Box;
use std::marker::Model;

/// Several versions, or room for them.
#[derive(Drop)]
pub(crate) struct BoxedVersions {
    several: Box<Several>,
    // the number of the newest
    number: u64,
    // from this number on, up to the newest's, none sees a value
    hides_from: u64,
}

impl Model for BoxedVersions {
    ghost use Rattle.std.specs.Prelude.{◌≡◌};
    ghost use Rattle.versions.specs.Chains.{ChainValue, HidesFrom};

    ghost Value = { ChainValue };

    ghost view = { λ b. b.several.value };

    ghost invariant = { λ b. (b.number ≡ b.several.value.newest.number) × HidesFrom b.hides_from b.several.value };
}

impl BoxedVersions {
    // A single version with room for more.
    pub(crate) fn new(several: Box<Several>) -> BoxedVersions
        requires { several.value.older ≡ [] }
        ensures { result ≡ several.value }
    {
        BoxedVersions {
            number: several.as_ref().number(),
            several,
            hides_from: 0,
        }
    }

    // The newest of them.
    pub(crate) fn into_newest(self) -> Version
        ensures { result ≡ self.newest }
    {
        Box::into_inner(self.several).newest
    }

    // The number of the newest version.
    pub(crate) fn number(&self) -> u64
        ensures { result ≡ self.now.newest.number }
    {
        self.number
    }

    // How many versions are kept.
    pub(crate) fn len(&self) -> usize
        ensures { result ≡ length self.now.older + 1 }
    {
        self.several.as_ref().len()
    }

    // What number `n` sees. One that is known to see no value needs no look at the versions before the newest.
    pub(crate) fn seen(&self, n: u64) -> Option<&[u8]>
        ensures value { option_copied result ≡ seen n self.now }
        ensures short { IfSome result (λ v. IsValue v.now) }
    {
        if self.hides_from <= n && n < self.number {
            return None;
        }
        self.several.as_ref().seen(n)
    }

    // Makes room for a version.
    pub(crate) fn reserve(&mut self) -> Result<(), AllocError>
        ensures older { self.new.older ≡ self.old.older }
        ensures newest { self.new.newest ≡ self.old.newest }
        ensures room { self.old.room ≤ self.new.room }
        ensures made { OnOk result (0 < self.new.room) }
        ensures known { 0 < self.old.room → IsOk result }
    {
        self.several.as_mut().reserve()
    }

    // Adds a version in the room that was made for it.
    pub(crate) fn add(&mut self, version: Version)
        requires { 0 < self.old.room }
        ensures { self.new ≡ longer_chain self.old version self.new.room }
    {
        // A deletion lengthens what is hidden; behind a value nothing is.
        if self.several.as_ref().shows() {
            self.hides_from = version.number;
        }
        self.number = version.number;
        self.several.as_mut().add(version);
    }

    // Drops the older versions that none of the numbers sees, in one walk.
    pub(crate) fn reclaim(&mut self, begins: &[u64])
        ensures { self.new ≡ thinned begins.now self.old }
    {
        self.several.as_mut().reclaim(begins);
        self.hides_from = self.several.as_ref().hides_from();
    }

    // Is there a version of this number before the newest?
    pub(crate) fn has(&self, number: u64) -> bool
        ensures { result ≡ has_version number (Some self.now) }
    {
        self.several.as_ref().has(number)
    }

    // Is the newest version a value?
    pub(crate) fn shows(&self) -> bool
        ensures { result ≡ shows self.now }
    {
        self.several.as_ref().shows()
    }
}
