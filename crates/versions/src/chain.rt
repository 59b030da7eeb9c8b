//! The versions of one key. A single version, which most keys have, allocates nothing but its value.
ghost use Rattle.std.specs.Prelude.{◌≡◌, ◌+◌, ◌<◌, ◌≤◌, [], length, IfSome, IsOk, OnOk, Some, option_copied};
ghost use Rattle.model.specs.Key.{IsValue};
ghost use Rattle.versions.specs.Chains.{IsRoomierChain, seen, hides, shows, longer_chain, fresh_chain, reclaimed};
ghost use Rattle.versions.specs.Kept.{kept_chain};
ghost use Rattle.versions.specs.Listings.{has_version};

use crate::boxed::BoxedVersions;
use crate::several::{Several, Version};
use crate::value::KeptValue;
use sorted_pages::Versioned;
use std::alloc::{AllocError, Global};
use std::boxed::Box;
use std::marker::Model;
use std::mem;

// The versions of one key. Most keys have a single one, for which there is no memory but that of its value.
#[derive(Drop)]
enum Kept {
    // one version, a value
    Value(u64, KeptValue),
    // one version, a deletion
    Deletion(u64),
    // several, or room for them
    More(BoxedVersions),
}

/// The newest version of a key, and those before it by rising number.
#[derive(Drop)]
pub(crate) struct Chain {
    kept: Kept,
}

// One stands in each entry of a page.
const _: () = prove!(size_of::<Chain>() == 40);

impl Model for Chain {
    ghost use Rattle.versions.specs.Chains.{ChainValue};
    ghost use Rattle.versions.specs.Kept.{kept_chain};

    ghost Value = { ChainValue };

    ghost view = { λ c. kept_chain c.kept };
}

impl Chain {
    // A chain of one version. Takes no memory.
    pub(crate) fn new(version: Version) -> Chain
        ensures { result ≡ fresh_chain version 0 }
    {
        let Version { number, value } = version;
        match value {
            Some(value) => Chain {
                kept: Kept::Value(number, value),
            },
            None => Chain {
                kept: Kept::Deletion(number),
            },
        }
    }

    // The number of the newest version.
    pub(crate) fn number(&self) -> u64
        ensures { result ≡ self.now.newest.number }
    {
        match &self.kept {
            Kept::Value(number, _) => *number,
            Kept::Deletion(number) => *number,
            Kept::More(boxed) => boxed.number(),
        }
    }

    // How many versions are kept.
    pub(crate) fn len(&self) -> usize
        ensures { result ≡ length self.now.older + 1 }
    {
        match &self.kept {
            Kept::Value(_, _) => 1,
            Kept::Deletion(_) => 1,
            Kept::More(boxed) => boxed.len(),
        }
    }

    // What number `n` sees.
    pub(crate) fn seen(&self, n: u64) -> Option<&[u8]>
        ensures value { option_copied result ≡ seen n self.now }
        ensures short { IfSome result (λ v. IsValue v.now) }
    {
        match &self.kept {
            Kept::Value(number, value) if *number <= n => Some(value.as_slice()),
            Kept::Value(_, _) => None,
            Kept::Deletion(_) => None,
            Kept::More(boxed) => boxed.seen(n),
        }
    }

    // Drops the older versions that none of the numbers sees, and frees the room for more with the last of them.
    fn reclaim(&mut self, begins: &[u64])
        ensures { self.new ≡ reclaimed begins.now self.old }
    {
        let count = self.len();
        if count == 1 {
            return;
        }
        if let Kept::More(boxed) = &mut self.kept {
            boxed.reclaim(begins);
        }
        if self.len() == 1 {
            self.free_spare();
        }
    }

    // Frees the room for more versions than the newest.
    fn free_spare(&mut self)
        requires { self.old.older ≡ [] }
        ensures { self.new ≡ fresh_chain self.old.newest 0 }
    {
        match mem::replace(&mut self.kept, Kept::Deletion(0)) {
            Kept::More(boxed) => *self = Chain::new(boxed.into_newest()),
            kept => self.kept = kept,
        }
    }
}

impl Versioned for Chain {
    type Version = Version;

    ghost change_number = { λ v. v.number };

    ghost adds = { λ v c d. d ≡ longer_chain c v d.room };

    ghost room = { λ c. c.room };

    ghost is_roomier = { IsRoomierChain };

    ghost trimmed = { reclaimed };

    ghost has = { λ n c. has_version n (Some c) };

    ghost hides = { hides };

    ghost shows = { shows };

    ghost last = { λ c. c.newest.number };

    // Makes room for a version.
    fn reserve(&mut self, alloc: Global) -> Result<(), AllocError> {
        let kept = mem::replace(&mut self.kept, Kept::Deletion(0));
        let (kept, result) = with_room(alloc, kept);
        self.kept = kept;
        result
    }

    // Adds a version in the room that was made for it.
    fn add(&mut self, version: Version) {
        match &mut self.kept {
            Kept::More(boxed) => boxed.add(version),
            _ => unreachable!(),
        }
    }

    fn trim(&mut self, numbers: &[u64]) {
        self.reclaim(numbers);
    }

    // Is there a version of this number before the newest?
    fn has(&self, number: u64) -> bool {
        match &self.kept {
            Kept::More(boxed) => boxed.has(number),
            _ => false,
        }
    }

    // Does the number see no value?
    fn hides(&self, number: u64) -> bool {
        self.seen(number).is_none()
    }

    // Is the newest version a value?
    fn shows(&self) -> bool {
        match &self.kept {
            Kept::Value(_, _) => true,
            Kept::Deletion(_) => false,
            Kept::More(boxed) => boxed.shows(),
        }
    }

    // The number of the newest version.
    fn last(&self) -> u64 {
        self.number()
    }

    // The number of the commit that leaves the version.
    fn change_number(version: &Version) -> u64 {
        version.number
    }
}

// The versions with room for one more. Where memory is refused, they are as they were.
fn with_room(alloc: Global, kept: Kept) -> (Kept, Result<(), AllocError>)
    ensures older { (kept_chain result.0).older ≡ (kept_chain kept).older }
    ensures newest { (kept_chain result.0).newest ≡ (kept_chain kept).newest }
    ensures room { (kept_chain kept).room ≤ (kept_chain result.0).room }
    ensures made { OnOk result.1 (0 < (kept_chain result.0).room) }
    ensures known { 0 < (kept_chain kept).room → IsOk result.1 }
{
    match kept {
        Kept::More(boxed) => {
            let mut boxed = boxed;
            let result = boxed.reserve();
            (Kept::More(boxed), result)
        }
        Kept::Value(number, value) => grown(
            alloc,
            Version {
                number,
                value: Some(value),
            },
        ),
        Kept::Deletion(number) => grown(
            alloc,
            Version {
                number,
                value: None,
            },
        ),
    }
}

// The one version with room for one more. Where memory is refused, it stands alone.
fn grown(alloc: Global, newest: Version) -> (Kept, Result<(), AllocError>)
    ensures older { (kept_chain result.0).older ≡ [] }
    ensures newest { (kept_chain result.0).newest ≡ newest }
    ensures made { OnOk result.1 (0 < (kept_chain result.0).room) }
{
    // Most keys never have more than one older version, so the first takes no room to spare.
    let mut older = Vec::new(alloc);
    match older.reserve_exact(1) {
        Ok(()) => {}
        Err(fault) => return (Chain::new(newest).kept, Err(fault)),
    }
    match Box::new(alloc, Several { newest, older }) {
        Ok(several) => (Kept::More(BoxedVersions::new(several)), Ok(())),
        Err(failed) => (Chain::new(failed.value.newest).kept, Err(AllocError)),
    }
}
