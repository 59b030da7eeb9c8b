//! The pages with a summary for each, side by side, and the numbers that are held: a range that passes over many pages reads the summaries
//! alone.
ghost use Rattle.std.specs.Prelude.{◌≡◌, ◌<◌, ◌≤◌, T, [], length, is_ok, slice_index_or, IsOk, OnOk, OnErr};
ghost use Rattle.std.specs.Ordering.{nat_cmp};
ghost use Rattle.std.specs.Cmp.Lexicographic.{slice_cmp};
ghost use Rattle.std.specs.FinMap.Entries.{find, is_sorted};
ghost use Rattle.model.specs.Entries.{IsAt, IsGap};
ghost use Rattle.sorted_pages.specs.Changes.{AppliesAt, ChangesEntry, ChangesPage, HasRoomAt, InsertsEntry};
ghost use Rattle.sorted_pages.specs.Changes.{IsGrownFor};
ghost use Rattle.sorted_pages.specs.Changes.{IsLastRaised, IsPushedTo, KeepsHeld, KeepsHeldTo, PartsPage, with_page};
ghost use Rattle.sorted_pages.specs.Summaries.{AreOver, AreSummaries, HoldsAmong, HoldsKnown};
ghost use Rattle.sorted_pages.specs.Trims.{passes};
ghost use Rattle.sorted_pages.specs.Values.{IsFresh};
ghost use Rattle.sorted_pages.specs.declared.held.TheConstants.{HELD_MAX};

use crate::held::{Held, Reader};
use crate::page::Page;
use crate::summary::Summary;
use crate::versioned::Versioned;
use model::{Key, KeyRef};
use std::alloc::{AllocError, Global};
use std::marker::Model;

// Pages, and for each what held numbers see of it. A clause sees the pages, the held numbers, and the number of the last change.
#[derive(Drop)]
pub(crate) struct PageList<V: Versioned> {
    pages: Vec<Page<V>>,
    summaries: Vec<Summary>,
    held: Held,
    last: u64,
}

impl<V: Versioned> Model for PageList<V> {
    ghost use Rattle.sorted_pages.specs.Pages.{PagesValue};
    ghost use Rattle.sorted_pages.specs.Summaries.{HaveSummaries};

    ghost Value = { PagesValue V };

    ghost view = { λ l. record { pages = l.pages.items; held = l.held; last = l.last } };

    ghost invariant = { λ l. HaveSummaries V.hides V.shows V.last
        (record { pages = l.pages.items; held = l.held; last = l.last }) l.summaries.items };
}

impl<V: Versioned> PageList<V> {
    ghost use Rattle.std.specs.List.{AllByRecursion};
    ghost use Rattle.std.specs.Prelude.{true};
    ghost use Rattle.sorted_pages.specs.Held.{IsReader, is_among};
    ghost use Rattle.sorted_pages.specs.Pages.{Page as PageView};

    pub(crate) fn new(alloc: Global) -> PageList<V>
        ensures pages { result.pages ≡ [] }
        ensures last { result.last ≡ 0 }
    {
        PageList {
            pages: Vec::new(alloc),
            summaries: Vec::new(alloc),
            held: Held::none(),
            last: 0,
        }
    }

    // Lends the pages.
    pub(crate) fn as_slice(&self) -> &[Page<V>]
        ensures { result.now ≡ self.now.pages }
    {
        &self.pages
    }

    // Lends the summaries.
    pub(crate) fn summaries(&self) -> &[Summary]
        ensures summaries { AreSummaries V.hides V.shows V.last self.now.held self.now.pages result.now }
        ensures late { AllByRecursion (λ s. s.last ≤ self.now.last) result.now }
    {
        &self.summaries
    }

    // One who reads, and began at the number.
    pub(crate) fn reader(&self, number: u64) -> Reader
        ensures number { result.number ≡ number }
        ensures slot { IsReader self.now.held result }
        ensures known { is_among self.now.held number ≡ true → 0 < result.bit }
    {
        self.held.reader(number)
    }

    // The number of the last change.
    pub(crate) fn last(&self) -> u64
        ensures { result ≡ self.now.last }
    {
        self.last
    }

    pub(crate) fn allocator(&self) -> Global {
        *self.pages.allocator()
    }

    // Holds these numbers alone, as far as what they see is known, and as many as fit.
    pub(crate) fn hold(&mut self, numbers: &[u64])
        ensures pages { self.new.pages ≡ self.old.pages }
        ensures last { self.new.last ≡ self.old.last }
        ensures among { HoldsAmong numbers.now self.new }
        ensures held { length numbers.now ≤ HELD_MAX → HoldsKnown numbers.now self.old self.new }
    {
        self.held.hold(numbers, self.last);
    }

    // Makes room for `n` more entries in the page at `i`.
    pub(crate) fn reserve(&mut self, i: usize, n: usize) -> Result<(), AllocError>
        requires page { i < length self.old.pages }
        ensures changed { ChangesPage i (IsGrownFor n) self.old.pages self.new.pages }
        ensures made { OnOk result ((p : PageView V) → n ≤ (slice_index_or self.new.pages i p).1) }
        ensures held { KeepsHeld self.old self.new }
    {
        self.pages[i].reserve(n)
    }

    // Adds an entry of a new key to the page at `i`, at `at`, in the room that was made for it.
    pub(crate) fn insert(&mut self, i: usize, at: usize, key: Key, value: V)
        requires page { i < length self.old.pages }
        requires gap { (p : PageView V) → IsGap (slice_index_or self.old.pages i p).0 key at }
        requires room { (p : PageView V) → 0 < (slice_index_or self.old.pages i p).1 }
        requires fresh { IsFresh V.hides V.last value }
        requires late { self.old.last ≤ V.last value }
        ensures changed { ChangesPage i (InsertsEntry key value) self.old.pages self.new.pages }
        ensures held { KeepsHeldTo (V.last value) self.old self.new }
    {
        let number = value.last();
        self.pages[i].insert(at, key, value);
        self.summaries[i] = self.summaries[i].raised(&self.held, number, self.pages[i].shows());
        self.last = number;
    }

    // Makes room for a version more in the key's value, which stands in the page at `i`, at `j`.
    pub(crate) fn reserve_value(
        &mut self,
        i: usize,
        j: usize,
        key: KeyRef<'_>,
    ) -> Result<(), AllocError>
        requires page { i < length self.old.pages }
        requires sorted { (p : PageView V) → T (is_sorted (slice_cmp nat_cmp) (slice_index_or self.old.pages i p).0) }
        requires entry { (p : PageView V) → IsAt (slice_index_or self.old.pages i p).0 key.bytes.now j }
        ensures changed { ChangesPage i (ChangesEntry key.entry.bytes.now V.is_roomier) self.old.pages self.new.pages }
        ensures made { OnOk result ((p : PageView V)
            → HasRoomAt V.room key.entry.bytes.now (slice_index_or self.new.pages i p).0) }
        ensures known { (p : PageView V)
            → HasRoomAt V.room key.entry.bytes.now (slice_index_or self.old.pages i p).0 → IsOk result }
        ensures held { KeepsHeld self.old self.new }
    {
        let alloc = self.allocator();
        self.pages[i].reserve_value(key, j, alloc)
    }

    // Adds a version to the key's value, which stands in the page at `i`, at `j`, in the room that was made for it.
    pub(crate) fn add(&mut self, i: usize, j: usize, key: KeyRef<'_>, version: V::Version)
        requires page { i < length self.old.pages }
        requires sorted { (p : PageView V) → T (is_sorted (slice_cmp nat_cmp) (slice_index_or self.old.pages i p).0) }
        requires entry { (p : PageView V) → IsAt (slice_index_or self.old.pages i p).0 key.bytes.now j }
        requires room { (p : PageView V) → HasRoomAt V.room key.bytes.now (slice_index_or self.old.pages i p).0 }
        requires late { self.old.last ≤ V.change_number version }
        ensures changed { ChangesPage i (ChangesEntry key.entry.bytes.now (V.adds version))
            self.old.pages self.new.pages }
        ensures held { KeepsHeldTo (V.change_number version) self.old self.new }
    {
        let number = V::change_number(&version);
        self.pages[i].add(key, j, version);
        self.summaries[i] = self.summaries[i].raised(&self.held, number, self.pages[i].shows());
        self.last = number;
    }

    // Trims the key's value in the page at `i`, where it has one. Does it keep something of this number then?
    pub(crate) fn trim_at(
        &mut self,
        i: usize,
        key: KeyRef<'_>,
        numbers: &[u64],
        number: u64,
    ) -> bool
        requires page { i < length self.old.pages }
        requires sorted { (p : PageView V) → T (is_sorted (slice_cmp nat_cmp) (slice_index_or self.old.pages i p).0) }
        requires among { HoldsAmong numbers.now self.old }
        ensures changed { ChangesPage i (AppliesAt (V.trimmed numbers.now) key.entry.bytes.now)
            self.old.pages self.new.pages }
        ensures left { (p : PageView V) → result ≡ passes (V.has number)
            (find (slice_cmp nat_cmp) key.entry.bytes.now (slice_index_or self.new.pages i p).0) }
        ensures held { KeepsHeld self.old self.new }
    {
        self.pages[i].trim_at(key, numbers, number)
    }
}

impl<V: Versioned + Drop> PageList<V> {
    ghost use Rattle.sorted_pages.specs.Pages.{Page as PageView};

    // Adds an entry at the end of the page at `i`.
    pub(crate) fn push_to(&mut self, i: usize, key: Key, value: V) -> Result<(), AllocError>
        requires page { i < length self.old.pages }
        requires fresh { IsFresh V.hides V.last value }
        requires late { self.old.last ≤ V.last value }
        ensures changed { ChangesPage i (IsPushedTo (is_ok result) key value) self.old.pages self.new.pages }
        ensures held { IsLastRaised (V.last value) self.old self.new }
    {
        let number = value.last();
        self.pages[i].push(key, value)?;
        self.summaries[i] = self.summaries[i].raised(&self.held, number, self.pages[i].shows());
        self.last = number;
        Ok(())
    }

    // Adds a page at the end, of whose values none has changed after the number.
    pub(crate) fn push(&mut self, page: Page<V>, number: u64) -> Result<(), AllocError>
        requires over { AreOver V.hides V.shows V.last number page.0 }
        requires late { self.old.last ≤ number }
        ensures pages { self.new.pages ≡ with_page (is_ok result) self.old.pages page }
        ensures held { OnOk result (KeepsHeldTo number self.old self.new) }
        ensures refused { OnErr result (KeepsHeld self.old self.new) }
    {
        self.summaries.reserve(1)?;
        let summary = Summary::of(&self.held, &page, number, 0);
        self.pages.push(page)?;
        self.summaries.push_reserved(summary);
        self.last = number;
        Ok(())
    }

    // Splits the page at `i` before its entry `at`, and gives both parts room for `n` entries.
    pub(crate) fn split(&mut self, i: usize, at: usize, n: usize) -> Result<(), AllocError>
        requires page { i < length self.old.pages }
        requires within { (p : PageView V) → at ≤ length (slice_index_or self.old.pages i p).0 }
        ensures parts { OnOk result ((p : PageView V)
            → PartsPage i at n (slice_index_or self.old.pages i p) self.old.pages self.new.pages) }
        ensures failed { OnErr result (self.new.pages ≡ self.old.pages) }
        ensures held { KeepsHeld self.old self.new }
    {
        self.summaries.reserve(1)?;
        self.pages.reserve(1)?;
        // What sees nothing of the page sees nothing of its parts.
        let Summary { last, hidden, .. } = self.summaries[i];
        let upper = self.pages[i].split_off(at, n)?;
        self.summaries[i] = Summary::of(&self.held, &self.pages[i], last, hidden);
        let summary = Summary::of(&self.held, &upper, last, hidden);
        match self.pages.insert(i + 1, upper) {
            Ok(()) => {}
            Err(_) => unreachable!(),
        }
        match self.summaries.insert(i + 1, summary) {
            Ok(()) => {}
            Err(_) => unreachable!(),
        }
        Ok(())
    }
}
