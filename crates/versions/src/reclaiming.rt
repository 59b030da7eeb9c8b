//! Garbage collection: drops superseded versions that no active number sees, those of two commits in a step.
ghost use Rattle.std.specs.Prelude.{◌≡◌, ◌==◌, ℕ, [], T, false, IfSome, IsTrue, nat_lt, ◌<◌, ◌≤◌, ◌+◌, ◌-◌, ◌^◌};
ghost use Rattle.std.specs.Prelude.{◌++◌, length, take, drop, position};
ghost use Rattle.std.specs.List.{list_any};
ghost use Rattle.std.specs.Ordering.{nat_cmp};
ghost use Rattle.std.specs.Cmp.Lexicographic.{slice_cmp};
ghost use Rattle.std.specs.FinMap.Entries.{is_sorted};
ghost use Rattle.std.specs.Vec.{vec_len};
ghost use Rattle.sorted_pages.specs.Changes.{KeepsHeld};
ghost use Rattle.sorted_pages.specs.Pages.{entries};
ghost use Rattle.sorted_pages.specs.Summaries.{HoldsAmong};
ghost use Rattle.versions.specs.Chains.{IsReclaimedAt, find_chain};
ghost use Rattle.versions.specs.Pins.{GroupStaysUnder};
ghost use Rattle.versions.specs.Listings.{AreApart, ListsAreFilled, AreIn, CanJoin, IsListed, IsRepinned};
ghost use Rattle.versions.specs.Listings.{IsTrulyUnclassified, has_version, lists_in, versions_in, pin_for, pins};
ghost use Rattle.versions.specs.Reclaiming.{AreLookedAt, DropsFromGroup, DropsUnseen, IsLookedAfter, IsReclaimable};
ghost use Rattle.versions.specs.Reclaiming.{KeepsListed, ReclaimsPages, ReclaimsStep, StandsBehind, StaysApart};
ghost use Rattle.versions.specs.Reclaiming.{TakesGroup, TakesLists};
ghost use Rattle.versions.specs.Reclaiming.{TakesVersions};
ghost use Rattle.versions.specs.Meaning.{garbage_for, garbage_in, is_among};

use crate::chain::Chain;
use crate::listing::{Group, OldVersion, are_empty, are_seen_from, greatest_below};
use sorted_pages::{NumberSet, SortedPages};
use std::collections::LinkedList;
use std::mem;

// How many garbage lists one step looks at.
const LISTS_A_STEP: usize = 2;

// Drops the older versions of the key that none of the numbers sees. Is this one still there?
fn reclaim_version(chains: &mut SortedPages<Chain>, version: &OldVersion, begins: &[u64]) -> bool
    requires sorted { T (is_sorted (slice_cmp nat_cmp) (entries chains.old.pages)) }
    requires among { HoldsAmong begins.now chains.old }
    ensures reclaimed { IsReclaimedAt begins.now version.now.key (entries chains.old.pages) (entries chains.new.pages) }
    ensures left { result ≡ has_version version.now.number (find_chain version.now.key (entries chains.new.pages)) }
    ensures held { KeepsHeld chains.old chains.new }
{
    chains.trim_at(version.key.lend(), begins, version.number)
}

// Goes over the versions that `next`, one of the numbers, doesn't see: drops from their chains what none of the numbers sees, and from the
// list those that are no longer in their chains.
fn drop_unseen(
    chains: &mut SortedPages<Chain>,
    versions: &mut Vec<OldVersion>,
    begins: &[u64],
    next: Option<u64>,
)
    requires kept { IsReclaimable begins.now chains.old }
    requires next { IfSome next (λ n. IsTrue (is_among begins.now n)) }
    ensures chains { ReclaimsPages begins.now chains.old chains.new }
    ensures versions { DropsUnseen begins.now (entries chains.new.pages) versions.old.items versions.new.items }
{
    let mut left = versions.len();
    while left > 0 {
        left -= 1;
        let version = &versions[left];
        if !version.is_seen_by(next) && !reclaim_version(chains, version, begins) {
            let _ = versions.swap_remove(left);
        }
    }
}

// Takes the first `count` lists out of the lists. Takes no memory.
fn take_front(lists: &mut LinkedList<Vec<OldVersion>>, count: usize) -> LinkedList<Vec<OldVersion>>
    requires { count ≤ length lists.old }
    ensures front { result ≡ take count lists.old }
    ensures rest { lists.new ≡ drop count lists.old }
{
    match lists.split_off(count) {
        Ok(rest) => mem::replace(lists, rest),
        Err(_) => unreachable!(),
    }
}

// Moves lists behind others. Takes no memory.
fn append(lists: &mut LinkedList<Vec<OldVersion>>, more: LinkedList<Vec<OldVersion>>)
    requires { length lists.old + length more < 2 ^ 63 }
    ensures { lists.new ≡ lists.old ++ more }
{
    let mut more = more;
    match lists.append(&mut more) {
        Ok(()) => {}
        Err(_) => unreachable!(),
    }
}

// Goes over the versions of the one list, as `drop_unseen` does.
fn collect_first(
    chains: &mut SortedPages<Chain>,
    lists: &mut LinkedList<Vec<OldVersion>>,
    begins: &[u64],
    next: Option<u64>,
)
    requires one { length lists.old ≡ 1 }
    requires kept { IsReclaimable begins.now chains.old }
    requires next { IfSome next (λ n. IsTrue (is_among begins.now n)) }
    ensures one { length lists.new ≡ 1 }
    ensures chains { ReclaimsPages begins.now chains.old chains.new }
    ensures versions { DropsUnseen begins.now (entries chains.new.pages)
        (versions_in lists.old) (versions_in lists.new) }
{
    match lists.front_mut() {
        Some(list) => drop_unseen(chains, list, begins, next),
        None => unreachable!(),
    }
}

// Goes over the versions of each list, as `drop_unseen` does, and drops the lists that are then empty.
fn collect_lists(
    chains: &mut SortedPages<Chain>,
    lists: &mut LinkedList<Vec<OldVersion>>,
    begins: &[u64],
    next: Option<u64>,
)
    requires kept { IsReclaimable begins.now chains.old }
    requires next { IfSome next (λ n. IsTrue (is_among begins.now n)) }
    ensures fewer { length lists.new ≤ length lists.old }
    ensures filled { ListsAreFilled lists.new }
    ensures chains { ReclaimsPages begins.now chains.old chains.new }
    ensures versions { DropsUnseen begins.now (entries chains.new.pages)
        (versions_in lists.old) (versions_in lists.new) }
{
    let alloc = *lists.allocator();
    let mut rest = mem::replace(lists, LinkedList::new(alloc));
    for _ in 0..rest.len() {
        let mut first = take_front(&mut rest, 1);
        collect_first(chains, &mut first, begins, next);
        if !are_empty(&first) {
            append(lists, first);
        }
    }
}

impl Group {
    // Takes in which numbers are active. Where the pin is none of them, the greatest of them below it becomes the pin, or 0 where there is
    // none, and the lists that it saw are garbage, before those that already were.
    fn repin(&mut self, begins: &NumberSet<'_>)
        ensures found { AreIn self.old.versions self.new.versions }
        ensures garbage { self.new.garbage ≡ garbage_for begins.now self.old }
        ensures repinned { IsRepinned begins.now self.new }
        ensures pin { self.new.pin ≡ pin_for begins.now self.old.pin }
        ensures lists { self.new.lists ≡ self.old.lists }
        ensures each { GroupStaysUnder self.old self.new }
    {
        if begins.contains(self.pin) {
            return;
        }
        let alloc = *self.lists.allocator();
        let mut lists = mem::replace(&mut self.lists, LinkedList::new(alloc));
        append(
            &mut lists,
            mem::replace(&mut self.garbage, LinkedList::new(alloc)),
        );
        self.garbage = lists;
        self.pin = greatest_below(begins.numbers(), self.pin);
    }

    // Puts lists that were looked at under the pin, where it is active and sees all of them, and else leaves them unclassified. Takes no
    // memory.
    fn keep(&mut self, lists: LinkedList<Vec<OldVersion>>, begins: &NumberSet<'_>)
        requires fits { self.old.lists + length lists < 2 ^ 63 }
        requires filled { ListsAreFilled lists }
        requires repinned { IsRepinned begins.now self.old }
        ensures versions { TakesVersions begins.now self.old (versions_in lists) self.new }
        ensures lists { TakesLists self.old (length lists) self.new }
        ensures repinned { IsRepinned begins.now self.new }
        ensures truly { self.old.unclassified ≡ [] → IsTrulyUnclassified begins.now self.new }
    {
        if begins.contains(self.pin) && are_seen_from(&lists, self.pin) {
            append(&mut self.lists, lists);
        } else {
            append(&mut self.unclassified, lists);
        }
    }

    // Looks at the first `count` of the garbage lists.
    fn look_at_garbage(
        &mut self,
        chains: &mut SortedPages<Chain>,
        begins: &NumberSet<'_>,
        count: usize,
    )
        requires count { count ≤ self.old.garbage }
        requires repinned { IsRepinned begins.now self.old }
        requires kept { IsReclaimable begins.now chains.old }
        ensures chains { ReclaimsPages begins.now chains.old chains.new }
        ensures group { DropsFromGroup (entries chains.new.pages) self.old.pin self.old self.new }
        ensures garbage { self.new.garbage + count ≡ self.old.garbage }
        ensures repinned { IsRepinned begins.now self.new }
    {
        if count == 0 {
            return;
        }
        let pin = begins.contains(self.pin).then_some(self.pin);
        let mut lists = take_front(&mut self.garbage, count);
        collect_lists(chains, &mut lists, begins.numbers(), pin);
        self.keep(lists, begins);
    }

    // Looks at the unclassified lists, and puts them under the pin where it now sees all of them. If no list is garbage, the whole group
    // was then looked at.
    fn look_at_unclassified(&mut self, chains: &mut SortedPages<Chain>, begins: &NumberSet<'_>)
        requires repinned { IsRepinned begins.now self.old }
        requires kept { IsReclaimable begins.now chains.old }
        ensures chains { ReclaimsPages begins.now chains.old chains.new }
        ensures group { DropsFromGroup (entries chains.new.pages) self.old.pin self.old self.new }
        ensures garbage { garbage_for begins.now self.new ≡ self.old.garbage }
        ensures looked_after { IsLookedAfter begins.now (entries chains.new.pages) self.new }
    {
        if self.unclassified.is_empty() {
            return;
        }
        let alloc = *self.unclassified.allocator();
        let mut unclassified = mem::replace(&mut self.unclassified, LinkedList::new(alloc));
        collect_lists(chains, &mut unclassified, begins.numbers(), None);
        self.keep(unclassified, begins);
    }

    // Takes in which numbers are active, looks at up to `most` of the garbage lists, and answers how many fewer than `most` it looked at.
    fn reclaim(
        &mut self,
        chains: &mut SortedPages<Chain>,
        begins: &NumberSet<'_>,
        most: usize,
    ) -> usize
        requires kept { IsReclaimable begins.now chains.old }
        ensures spare { result ≡ most - garbage_for begins.now self.old }
        ensures garbage { garbage_for begins.now self.new ≡ garbage_for begins.now self.old - most }
        ensures chains { ReclaimsPages begins.now chains.old chains.new }
        ensures group { DropsFromGroup (entries chains.new.pages) (pin_for begins.now self.old.pin) self.old self.new }
        ensures looked_after { IsLookedAfter begins.now (entries chains.new.pages) self.new }
    {
        self.repin(begins);
        let count = self.garbage().min(most);
        self.look_at_garbage(chains, begins, count);
        self.look_at_unclassified(chains, begins);
        most - count
    }

    // Takes over the versions of a group with the same pin. Takes no memory.
    fn absorb(&mut self, other: Group)
        requires { CanJoin self.old other }
        ensures joined { TakesGroup self.old other self.new }
        ensures pin { self.new.pin ≡ self.old.pin }
        ensures lists { self.new.lists ≡ self.old.lists + other.lists }
    {
        append(&mut self.lists, other.lists);
        append(&mut self.garbage, other.garbage);
        append(&mut self.unclassified, other.unclassified);
    }
}

// Takes in which numbers are active, and looks at the first garbage lists, from the last group on: what none of the numbers sees goes. So
// the list of a commit is looked at before those that others left, and no chain grows while these are many. Answers how many fewer it
// looked at than a step may: where that is more than 0, no list is garbage any more.
fn reclaim_groups(
    chains: &mut SortedPages<Chain>,
    groups: &mut [Group],
    begins: &NumberSet<'_>,
) -> usize
    requires kept { IsReclaimable begins.now chains.old }
    requires listed { IsListed (entries chains.old.pages) groups.old }
    ensures step { ReclaimsStep begins.now chains.old chains.new groups.old groups.new }
    ensures groups { AreLookedAt begins.now (entries chains.new.pages) groups.old groups.new }
    ensures none_left { 0 < result → garbage_in begins.now groups.new ≡ 0 }
{
    let mut most = LISTS_A_STEP;
    let mut left = groups.len();
    while left > 0 {
        left -= 1;
        most = groups[left].reclaim(chains, begins, most);
    }
    most
}

// The first of the groups with this pin.
fn place_of(groups: &[Group], pin: u64) -> Option<usize>
    ensures { result ≡ position (λ g. g.pin == pin) groups.now }
{
    groups.iter().position(|group| group.pin == pin)
}

// Joins a group to one before it with the same pin. Is there one? The pins before it are no greater than `greatest`, so none is looked for
// where its own is. Takes no memory.
fn join(groups: &mut Vec<Group>, i: usize, greatest: u64) -> bool
    requires place { StandsBehind greatest i groups.old.items }
    requires few { lists_in groups.old.items < 2 ^ 63 }
    ensures keeps { KeepsListed groups.old.items groups.new.items }
    ensures lists { lists_in groups.new.items ≡ lists_in groups.old.items }
    ensures first { take i (pins groups.new.items) ≡ take i (pins groups.old.items) }
    ensures joined { IsTrue result → vec_len groups.new + 1 ≡ vec_len groups.old }
    ensures apart { result ≡ false → StaysApart groups.old.items i groups.new.items }
{
    if groups[i].is_above(greatest) {
        return false;
    }
    match place_of(&groups[..i], groups[i].pin) {
        Some(place) => {
            let group = groups.remove(i);
            groups[place].absorb(group);
            true
        }
        None => false,
    }
}

// Takes the empty groups out, and joins those with the same pin.
fn join_groups(groups: &mut Vec<Group>)
    requires { lists_in groups.old.items < 2 ^ 63 }
    ensures keeps { KeepsListed groups.old.items groups.new.items }
    ensures lists { lists_in groups.new.items ≤ lists_in groups.old.items }
    ensures apart { AreApart (pins groups.new.items) }
{
    let mut i = 0;
    let mut greatest = 0;
    while i < groups.len() {
        if groups[i].is_empty() {
            let _ = groups.remove(i);
        } else if !join(groups, i, greatest) {
            greatest = greatest.max(groups[i].pin());
            i += 1;
        }
    }
}

// Is a list of some group garbage where these numbers are active?
fn are_garbage(groups: &[Group], begins: &NumberSet<'_>) -> bool
    ensures { result ≡ list_any (λ g. nat_lt 0 (garbage_for begins.now g)) groups.now }
{
    groups.iter().any(|group| group.is_garbage(begins))
}

// Is a list still garbage after a step that might have looked at so many lists more? None is where it might.
fn is_garbage_left(spare: usize, groups: &[Group], begins: &NumberSet<'_>) -> bool
    requires { 0 < spare → garbage_in begins.now groups.now ≡ 0 }
    ensures { result ≡ nat_lt 0 (garbage_in begins.now groups.now) }
{
    spare == 0 && are_garbage(groups, begins)
}

// Looks at the first of the lists that are garbage where these numbers are active, and drops the versions that none of them sees. Is any
// list still garbage? Takes no memory.
pub(crate) fn reclaim_versions(
    chains: &mut SortedPages<Chain>,
    groups: &mut Vec<Group>,
    begins: &[u64],
) -> bool
    requires kept { IsReclaimable begins.now chains.old }
    requires listed { IsListed (entries chains.old.pages) groups.old.items }
    requires few { lists_in groups.old.items < 2 ^ 63 }
    ensures still { result ≡ nat_lt 0 (garbage_in begins.now groups.new.items) }
    ensures step { ReclaimsStep begins.now chains.old chains.new groups.old.items groups.new.items }
    ensures groups { AreLookedAt begins.now (entries chains.new.pages) groups.old.items groups.new.items }
    ensures few { length groups.new.items ≤ length begins.now + 1 }
{
    let begins = NumberSet::of(begins);
    let spare = reclaim_groups(chains, groups, &begins);
    join_groups(groups);
    is_garbage_left(spare, groups, &begins)
}
