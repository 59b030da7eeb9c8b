//! Superseded versions in groups, each under a pinning snapshot: while that is active, the versions that it sees aren't garbage.
ghost use Rattle.std.specs.Prelude.{◌≡◌, ◌==◌, ◌≤◌, ◌<◌, ◌^◌, ℕ, List, nat_lt, length, true, [], IsOk, OnOk};
ghost use Rattle.std.specs.List.{list_all};
ghost use Rattle.std.specs.Vec.{vec_len};
ghost use Rattle.versions.specs.Listings.{AreSeenFrom, greatest_below, is_seen_by, is_seen_from, spare_in};
ghost use Rattle.versions.specs.Listings.{versions_in};
ghost use Rattle.versions.specs.Meaning.{garbage_for, is_among};

use model::{Key, Memory};
use sorted_pages::NumberSet;
use std::collections::LinkedList;
use std::marker::Model;

/// A superseded version of a key: its number, and that of the commit that superseded it.
#[derive(Drop)]
pub(crate) struct OldVersion {
    pub(crate) key: Key,
    pub(crate) number: u64,
    pub(crate) next: u64,
}

impl Model for OldVersion {
    ghost use Rattle.versions.specs.Groups.{Listed};

    ghost Value = { Listed };

    ghost view = { λ v. record { key = v.key; number = v.number; next = v.next } };
}

impl OldVersion {
    // Does the number see this version?
    pub(crate) fn is_seen_from(&self, n: u64) -> bool
        ensures { result ≡ is_seen_from n self.now }
    {
        self.number <= n && n < self.next
    }

    // Does the number see this version, where there is one?
    pub(crate) fn is_seen_by(&self, number: Option<u64>) -> bool
        ensures { result ≡ is_seen_by number self.now }
    {
        match number {
            None => false,
            Some(n) => self.is_seen_from(n),
        }
    }
}

/// Superseded versions, in one list for each commit that superseded them. One active number, the pin, sees all versions of `lists`: while
/// it is active none of them can be freed.
#[derive(Drop)]
pub(crate) struct Group {
    pub(crate) pin: u64,
    pub(crate) lists: LinkedList<Vec<OldVersion>>,
    // lists whose pin is no longer active: they are to be looked at
    pub(crate) garbage: LinkedList<Vec<OldVersion>>,
    // lists that were looked at and are needed, though the pin isn't active or doesn't see all of them. Each call looks at them. There are
    // none as long as each number that becomes active is at least the last commit's
    pub(crate) unclassified: LinkedList<Vec<OldVersion>>,
}

impl Model for Group {
    ghost use Rattle.std.specs.Prelude.{◌+◌, ◌<◌, ◌^◌, ◌++◌, length};
    ghost use Rattle.versions.specs.Listings.{ListsAreFilled, AreSeenFrom, versions_in};
    ghost use Rattle.versions.specs.Groups.{GroupValue};

    ghost Value = { GroupValue };

    ghost view = { λ g. record {
      pin = g.pin;
      versions = versions_in g.lists ++ (versions_in g.garbage ++ versions_in g.unclassified);
      unclassified = versions_in g.unclassified;
      seen = length g.lists;
      garbage = length g.garbage;
      lists = length g.lists + length g.garbage + length g.unclassified;
    } };

    ghost invariant = { λ g.
        AreSeenFrom g.pin (versions_in g.lists) × (length g.lists + length g.garbage + length g.unclassified < 2 ^ 63)
        × ListsAreFilled g.unclassified };
}

impl Group {
    // Versions that this number, their pin, sees. Takes no memory.
    pub(crate) fn new(pin: u64, lists: LinkedList<Vec<OldVersion>>) -> Group
        requires { AreSeenFrom pin (versions_in lists) }
        ensures versions { result.versions ≡ versions_in lists }
        ensures unclassified { result.unclassified ≡ [] }
        ensures pin { result.pin ≡ pin }
        ensures garbage { (bs : List ℕ) → garbage_for bs result ≤ length lists }
        ensures lists { result.lists ≡ length lists }
    {
        let alloc = *lists.allocator();
        // Shows that the lists can be counted, as the invariant asks.
        let _fits = lists.len();
        Group {
            pin,
            lists,
            garbage: LinkedList::new(alloc),
            unclassified: LinkedList::new(alloc),
        }
    }

    // The number that sees its lists.
    pub(crate) fn pin(&self) -> u64
        ensures { result ≡ self.now.pin }
    {
        self.pin
    }

    // Is its pin greater than this?
    pub(crate) fn is_above(&self, pin: u64) -> bool
        ensures { result ≡ nat_lt pin self.now.pin }
    {
        pin < self.pin
    }

    // How many lists are garbage.
    pub(crate) fn garbage(&self) -> usize
        ensures { result ≡ self.now.garbage }
    {
        self.garbage.len()
    }

    // How many lists there are.
    pub(crate) fn count(&self) -> usize
        ensures value { result ≡ self.now.lists }
        ensures fits { result < 2 ^ 63 }
    {
        self.lists.len() + self.garbage.len() + self.unclassified.len()
    }

    // Is there no list?
    pub(crate) fn is_empty(&self) -> bool
        ensures none { result ≡ true → self.now.versions ≡ [] }
        ensures garbage { result ≡ true → (bs : List ℕ) → garbage_for bs self.now ≡ 0 }
    {
        // Shows the view: its versions and its counts are those of the same lists.
        let _ = &self.pin;
        self.count() == 0
    }

    // Is a list garbage where these numbers are active?
    pub(crate) fn is_garbage(&self, begins: &NumberSet<'_>) -> bool
        ensures { result ≡ nat_lt 0 (garbage_for begins.now self.now) }
    {
        !self.garbage.is_empty() || !begins.contains(self.pin) && !self.lists.is_empty()
    }
}

// Is there no version in the lists?
pub(crate) fn are_empty(lists: &LinkedList<Vec<OldVersion>>) -> bool
    ensures { result ≡ list_all (λ list. vec_len list == 0) lists.now }
{
    lists.iter().all(|list| list.is_empty())
}

// Makes room for so many versions in the first list, and makes that list where there is none.
pub(crate) fn reserve_list(
    lists: &mut LinkedList<Vec<OldVersion>>,
    more: usize,
) -> Result<(), Memory>
    ensures none { versions_in lists.old ≡ [] → versions_in lists.new ≡ [] }
    ensures one { length lists.old ≤ 1 → length lists.new ≤ 1 }
    ensures made { OnOk result (more ≤ spare_in lists.new) }
    ensures known { more ≤ spare_in lists.old → IsOk result }
{
    if lists.is_empty() && more > 0 {
        let alloc = *lists.allocator();
        lists.push_back(Vec::new(alloc))?;
    }
    if let Some(list) = lists.front_mut() {
        list.reserve(more)?;
    }
    Ok(())
}

// The greatest of the numbers below this one, and 0 where none is.
pub(crate) fn greatest_below(numbers: &[u64], high: u64) -> u64
    ensures { result ≡ greatest_below numbers.now high }
{
    numbers.iter().fold(0, |greatest, number| {
        if *number < high {
            greatest.max(*number)
        } else {
            greatest
        }
    })
}

// Does the number see each of these versions?
pub(crate) fn are_seen_from(lists: &LinkedList<Vec<OldVersion>>, n: u64) -> bool
    ensures { result ≡ list_all (λ list. list_all (is_seen_from n) list.items) lists.now }
{
    lists.iter().all(|list| sees_each(n, list))
}

// Does the number see each version of the list?
fn sees_each(n: u64, versions: &[OldVersion]) -> bool
    ensures { result ≡ list_all (is_seen_from n) versions.now }
{
    versions.iter().all(|version| version.is_seen_from(n))
}
