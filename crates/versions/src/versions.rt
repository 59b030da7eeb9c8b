//! The versions of all keys: look-ups and ranges by begin number, installing, and collecting garbage.
ghost use Rattle.std.specs.Prelude.{◌≡◌, ◌≢◌, T, true, false, nat_lt, ◌^◌, ◌+◌, ◌≤◌, ◌<◌, List, [], ◌∷◌, ◌++◌};
ghost use Rattle.std.specs.Prelude.{length, IsOk, IfOk, IfSome, OnOk, option_copied};
ghost use Rattle.model.specs.Key.{IsValue};
ghost use Rattle.std.specs.Ordering.{nat_cmp};
ghost use Rattle.std.specs.Cmp.Lexicographic.{slice_cmp};
ghost use Rattle.std.specs.FinMap.Entries.{is_sorted};
ghost use Rattle.model.specs.KeyBytes.{end_bytes};
ghost use Rattle.model.specs.Map.{value_at, pairs_in_range};
ghost use Rattle.versions.specs.Chains.{IsPrepared, HasPlaceAt, ChainHasRoom, WhereRoom, count_together, find_chain};
ghost use Rattle.versions.specs.Chains.{hides};
ghost use Rattle.versions.specs.Meaning.{map_seen, newest_of, versions_kept, garbage_of, groups_of, IsSameMeaning};
ghost use Rattle.versions.specs.Meaning.{IsInstalled, IsReclaimed, IsReclaimedInPart, is_known};
ghost use Rattle.sorted_pages.specs.Pages.{places_in};
ghost use Rattle.std.specs.List.{AllByRecursion};
ghost use Rattle.versions.specs.Listings.{IsTrulyUnclassified};
ghost use Rattle.versions.specs.Installing.{HasMoreRoom};
ghost use Rattle.versions.specs.Reclaiming.{AreCollected};
ghost use Rattle.versions.specs.Lent.{pages_ahead, pages_looked_at, range_pairs};
ghost use Rattle.versions.specs.StandsFor.{StandForSame, StandWithCommit, StandWhereAmong, StandsFor};
ghost use Rattle.versions.specs.StandsFor.{AreHeldWhereKnown, ClassifiedWhereActive};
ghost use Rattle.sorted_pages.specs.Summaries.{AreSeen, HoldsAmong, HoldsKnown};
ghost use Rattle.sorted_pages.specs.declared.held.TheConstants.{HELD_MAX};

use crate::chain::Chain;
use crate::collected::CollectedFor;
use crate::installing::{add_all, make_room};
use crate::listing::{Group, OldVersion, reserve_list};
use crate::pairs::Pairs;
use crate::reclaiming::reclaim_versions;
use crate::several::Version;
use crate::value::KeptValue;
use model::{KeyRef, Map, Memory, RangeRef, Write};
use sorted_pages::SortedPages;
use std::alloc::{AllocError, Global};
use std::collections::LinkedList;
use std::marker::Model;
use std::mem;

/// The versions of all keys, in sorted pages. A clause sees the map that each number sees (`map_seen`), the number of each
/// key's newest version (`newest_of`), how many versions of it are kept (`versions_kept`), and the histories that these stand for
/// (`StandsFor`).
#[derive(Drop)]
pub struct Versions {
    // by rising key
    chains: SortedPages<Chain>,
    // the superseded versions by their pins, so that a reclaim need not look at all keys
    groups: Vec<Group>,
    // at most one list, empty, with room for the versions that the next commit supersedes
    listed: LinkedList<Vec<OldVersion>>,
    // the numbers for which no list is garbage, if a step has found so since the last change
    collected: CollectedFor,
    // the greatest number that was installed
    last: u64,
}

// Holds these numbers alone: what is known of each page is what they see.
fn hold(chains: &mut SortedPages<Chain>, begins: &[u64])
    ensures pages { chains.new.pages ≡ chains.old.pages }
    ensures last { chains.new.last ≡ chains.old.last }
    ensures among { HoldsAmong begins.now chains.new }
    ensures held { length begins.now ≤ HELD_MAX → HoldsKnown begins.now chains.old chains.new }
{
    chains.hold(begins);
}

impl Model for Versions {
    ghost use Rattle.std.specs.Prelude.{◌≡◌, ◌≤◌, ◌-◌, [], IfSome};
    ghost use Rattle.std.specs.Vec.{vec_len, vec_capacity};
    ghost use Rattle.sorted_pages.specs.Pages.{entries};
    ghost use Rattle.versions.specs.Chains.{ChainsValue, IsKept};
    ghost use Rattle.versions.specs.Listings.{HasFewLists, IsListed, spare_in, versions_in};
    ghost use Rattle.versions.specs.Reclaiming.{AreCollected};

    ghost Value = { ChainsValue };

    ghost view = { λ v. record {
      chains = entries v.chains.pages;
      pages = v.chains.pages;
      held = v.chains.held;
      listed_spare = spare_in v.listed;
      groups_spare = vec_capacity v.groups - vec_len v.groups;
      groups = v.groups.items;
      last = v.last;
    } };

    ghost invariant = { λ v.
        IsKept (entries v.chains.pages) v.last × IsListed (entries v.chains.pages) v.groups.items
        × (versions_in v.listed ≡ []) × HasFewLists v.groups.items v.listed v.last × (v.chains.last ≤ v.last)
        × IfSome v.collected (λ bs. AreCollected bs (entries v.chains.pages) v.groups.items) };
}

impl Versions {
    /// The versions of an opened map, all of number 0. It takes a chain for each key of the map; `Memory` where they are refused.
    pub fn from_map(alloc: Global, map: Map) -> Result<Versions, Memory>
        ensures { IfOk result (λ v. StandsFor v (λ _. true) map []) }
    {
        let mut chains = SortedPages::new(alloc);
        for pair in map.into_pairs() {
            let (key, value) = pair.into_parts();
            let newest = Version {
                number: 0,
                value: Some(KeptValue::new(value)),
            };
            chains.push(key, Chain::new(newest))?;
        }
        Ok(Versions {
            chains,
            groups: Vec::new(alloc),
            listed: LinkedList::new(alloc),
            collected: CollectedFor::none(),
            last: 0,
        })
    }

    /// Lends the value that number `n` sees at the key, of `VALUE_MAX` bytes at most, and `None` where it sees none. Takes no memory.
    pub fn at(&self, n: u64, key: KeyRef<'_>) -> Option<&[u8]>
        ensures value { option_copied result ≡ value_at (map_seen self.now n) key.entry.bytes.now }
        ensures short { IfSome result (λ v. IsValue v.now) }
    {
        match self.chains.get(key) {
            Some(chain) => chain.seen(n),
            None => None,
        }
    }

    /// Lends the pairs of the range that number `n` sees, by rising key. Where what it sees of each page is known, the pages that are
    /// looked at are the first and the last of the range, and those of which it sees a pair. Of the others 24 bytes are read, one after
    /// another. Takes no memory.
    pub fn range(&self, n: u64, range: RangeRef<'_>) -> Pairs<'_>
        ensures pairs { range_pairs result
            ≡ pairs_in_range (map_seen self.now n) range.entry.lo.bytes.now (end_bytes range.entry.hi) }
        ensures ahead { is_known n self.now ≡ true → AreSeen (hides n) (pages_ahead result) }
        ensures looked_at { pages_looked_at result ≡ 0 }
    {
        Pairs::new(self.chains.range(range, n), n)
    }

    /// The number of the key's newest version, be it a value or a deletion: that of its last commit, and 0 for a value of the opened
    /// map. `None` where the key was never there. Takes no memory.
    pub fn newest(&self, key: KeyRef<'_>) -> Option<u64>
        ensures { result ≡ newest_of self.now key.entry.bytes.now }
    {
        match self.chains.get(key) {
            Some(chain) => Some(chain.number()),
            None => None,
        }
    }

    /// How many versions of the key are kept; a deletion counts too. Takes no memory.
    pub fn kept(&self, key: KeyRef<'_>) -> usize
        ensures { result ≡ versions_kept self.now key.entry.bytes.now }
    {
        match self.chains.get(key) {
            Some(chain) => chain.len(),
            None => 0,
        }
    }

    /// In how many groups the superseded versions stand. Takes no memory.
    pub fn groups(&self) -> usize
        ensures { result ≡ groups_of self.now }
    {
        self.groups.len()
    }

    /// In how many pages the keys stand. Takes no memory.
    pub fn pages(&self) -> usize
        ensures { result ≡ length self.now.pages }
    {
        self.chains.pages()
    }

    /// How many keys the pages have places for, in use and free; 2^64 - 1 where there were more. Looks at each page, and takes no memory.
    pub fn places(&self) -> usize
        ensures { result ≡ places_in self.now.pages }
    {
        self.chains.places()
    }

    // Makes room for a version in the key's chain, or where it would stand, for a new chain for each of the first of the writes that come
    // to the same page.
    fn make_room(&mut self, key: KeyRef<'_>, writes: &[Write]) -> Result<(), AllocError>
        ensures roomier { HasMoreRoom self.old self.new }
        ensures room { OnOk result (ChainHasRoom (find_chain key.entry.bytes.now self.new.chains)) }
        ensures place { OnOk result (HasPlaceAt (count_together key.entry.bytes.now self.new.pages writes.now)
            key.entry.bytes.now self.new.pages self.new.chains) }
        ensures known { WhereRoom (count_together key.entry.bytes.now self.old.pages writes.now)
            key.entry.bytes.now self.old.pages self.old.chains (IsOk result) }
    {
        self.collected.clear();
        make_room(&mut self.chains, key, writes)
    }

    /// Makes the room in which these writes can be installed: in the page of each new key, for it and the writes right behind it that come
    /// to the same page, where a full page is split, once in the chain of each other key, and for a list of the keys. What the versions
    /// mean stays, also where memory is refused, which is answered by `Memory`. Where the room is there already, it takes none and
    /// succeeds.
    pub fn prepare(&mut self, writes: &[Write]) -> Result<(), Memory>
        ensures prepared { OnOk result (IsPrepared self.new writes.now) }
        ensures known { IsPrepared self.old writes.now → IsOk result }
        ensures same { IsSameMeaning self.old self.new }
        ensures stands { StandForSame self.old self.new }
    {
        for (i, write) in writes.iter().enumerate() {
            self.make_room(write.lend_key(), &writes[i..])?;
        }
        reserve_list(&mut self.listed, writes.len())?;
        self.groups.reserve(1)?;
        Ok(())
    }

    /// From now on these numbers alone are active, so what they see of each page is held, as far as it was known. Where they are more than
    /// 64, that of some isn't. Nothing else changes. Its time grows with how many there are times how many are held. Takes no memory.
    pub fn keep_active(&mut self, begins: &[u64])
        ensures kept { self.new ≡ record self.old { held = self.new.held } }
        ensures held { length begins.now ≤ HELD_MAX → AreHeldWhereKnown begins.now self.old self.new }
        ensures stands { length begins.now ≤ HELD_MAX → StandWhereAmong begins.now self.old self.new }
    {
        hold(&mut self.chains, begins);
    }

    /// Installs the writes of commit `n` in the room that `prepare` made for them: one version more for each. No number below `n` sees
    /// another map than before. Takes no memory.
    pub fn install(&mut self, n: u64, writes: Vec<Write>)
        requires some { writes.items ≢ [] }
        requires rising { T (is_sorted (slice_cmp nat_cmp) writes.items) }
        requires prepared { IsPrepared self.old writes.items }
        requires above { self.old.last < n }
        requires fits { n < 2 ^ 63 }
        ensures installed { IsInstalled self.old self.new n writes.items }
        ensures stands { StandWithCommit self.old self.new n writes.items }
    {
        self.collected.clear();
        self.last = n;
        let alloc = *self.listed.allocator();
        let mut listed = mem::replace(&mut self.listed, LinkedList::new(alloc));
        match listed.front_mut() {
            Some(list) => add_all(&mut self.chains, list, n, writes),
            None => unreachable!(),
        }
        match self.groups.push(Group::new(n - 1, listed)) {
            Ok(()) => {}
            Err(_) => unreachable!(),
        }
    }

    // Is it known that nothing is left to collect where these numbers are active?
    fn are_collected(&self, begins: &[u64]) -> bool
        ensures { result ≡ true → AreCollected begins.now self.now.chains self.now.groups }
    {
        self.groups.is_empty() || self.collected.is_for(begins)
    }

    /// A step of what `reclaim` does. Answers whether it has to be called again until all is done. Each key keeps all of its versions, or
    /// those that `reclaim` leaves it.
    ///
    /// What each commit superseded is a list, of at most as many versions as it wrote, under a number that sees them, its pin. Once the pin
    /// is none of these numbers, the list is garbage, and a call looks at 2 garbage lists, from the last group on: so a new
    /// list need not wait for those that an old number left. For each version in a list it walks the key's chain once, against the numbers
    /// themselves, and called again with the same numbers it ends. Takes no memory: where the lists of two commits come under one pin,
    /// they are linked. The lists under one pin are one group, so there are no more groups than numbers and one. Lists that are needed
    /// though their pin isn't active, or doesn't see all of them, are unclassified, and each call looks at them; no others are
    /// unclassified. Where each of the numbers was active at the calls before, or is at least that of the last commit, there are none.
    ///
    /// Where there is no group, a call does nothing, in constant time. Nor does it where the last call had these numbers and left nothing,
    /// and nothing was prepared or installed since: that takes a look at each of them, where they are `HELD_MAX` at most. Any other call
    /// holds what these numbers see of each page, as `keep_active` does. Either way, of the active numbers these alone stay so.
    pub fn reclaim_step(&mut self, begins: &[u64]) -> bool
        ensures reclaimed { IsReclaimedInPart self.old self.new begins.now }
        ensures still { result ≡ nat_lt 0 (garbage_of begins.now self.new) }
        ensures few { groups_of self.new ≤ length begins.now + 1 }
        ensures unclassified { AllByRecursion (IsTrulyUnclassified begins.now) self.new.groups }
        ensures classified { ClassifiedWhereActive begins.now self.old self.new }
        ensures stands { length begins.now ≤ HELD_MAX → StandWhereAmong begins.now self.old self.new }
    {
        if self.are_collected(begins) {
            return false;
        }
        hold(&mut self.chains, begins);
        let is_garbage = reclaim_versions(&mut self.chains, &mut self.groups, begins);
        self.collected.note(begins, !is_garbage);
        is_garbage
    }

    /// Drops the versions that are neither the newest of their keys nor seen from one of the numbers; there may be no number. A deletion
    /// that is the newest version of its key stays.
    ///
    /// It takes the steps of `reclaim_step` until no list is garbage. So its time grows with the versions in the garbage lists, for each of
    /// which it walks its key's chain against the numbers, and where lists are unclassified, with the versions in them for each step. Takes
    /// no memory.
    pub fn reclaim(&mut self, begins: &[u64])
        ensures reclaimed { IsReclaimed self.old self.new begins.now }
        ensures no_garbage { garbage_of begins.now self.new ≡ 0 }
        ensures few { groups_of self.new ≤ length begins.now + 1 }
        ensures unclassified { AllByRecursion (IsTrulyUnclassified begins.now) self.new.groups }
        ensures classified { length begins.now ≤ HELD_MAX → ClassifiedWhereActive begins.now self.old self.new }
        ensures stands { length begins.now ≤ HELD_MAX → StandWhereAmong begins.now self.old self.new }
    {
        'steps: while self.reclaim_step(begins) {}
    }
}
