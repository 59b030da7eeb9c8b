//! The map: look-ups, ranges, room for new keys, and new keys.
ghost use Rattle.std.specs.Prelude.{◌≡◌, ◌+◌, ◌<◌, ◌≤◌, T, [], ◌∷◌, ◌++◌, length, option_copied, is_ok, IsOk, OnOk};
ghost use Rattle.std.specs.Ordering.{nat_cmp};
ghost use Rattle.std.specs.Cmp.Lexicographic.{slice_cmp};
ghost use Rattle.std.specs.FinMap.Entries.{find, put, is_sorted};
ghost use Rattle.model.specs.Map.{Bytes};
ghost use Rattle.sorted_pages.specs.Pages.{AreFull, AreLoose, IsCrowded, StaysTight, entries, places_in, pushed};
ghost use Rattle.sorted_pages.specs.Pages.{IsInsertionPoint, is_together, room_at};
ghost use Rattle.sorted_pages.specs.declared.changing.TheConstants.{FILL_PLACES};
ghost use Rattle.sorted_pages.specs.Rooms.{MakesOnePage, MakesRoom, SplitsPage, TakesPlace};

use crate::insertion_point::InsertionPoint;
use crate::page_list::PageList;
use crate::placing::{self, place};
use crate::range::Entries;
use crate::ranging::{RangeEnd, up_to, within};
use crate::value_place::ValuePlace;
use crate::versioned::Versioned;
use crate::{changing, trimming};
use model::{Key, KeyRef, RangeRef};
use std::alloc::{AllocError, Global};
use std::marker::Model;

/// A map from keys to values of `V`, in pages. A clause sees the pages, each its entries and its room; `entries` of them is the map's
/// entries by strictly rising key. Each place takes what an entry does and a byte, which says whether its value shows. Each page takes some
/// 100 bytes besides.
///
/// Of the numbers at which readers began those are held that may still ask, 64 of them at most. A page knows of each held number whether it
/// sees something of the page, in one bit, and so of each number from the page's last change on.
#[derive(Drop)]
pub struct SortedPages<V: Versioned> {
    pages: PageList<V>,
}

impl<V: Versioned> Model for SortedPages<V> {
    ghost use Rattle.sorted_pages.specs.Pages.{IsInOrder, PagesValue};

    ghost Value = { PagesValue V };

    ghost view = { λ s. s.pages };

    ghost invariant = { λ s. IsInOrder s.pages.pages };
}

impl<V: Versioned> SortedPages<V> {
    /// An empty map. Takes no memory.
    pub fn new(alloc: Global) -> SortedPages<V>
        ensures pages { result.pages ≡ [] }
        ensures last { result.last ≡ 0 }
    {
        SortedPages {
            pages: PageList::new(alloc),
        }
    }

    /// Lends the key's value, and `None` where it has none. Takes no memory.
    pub fn get(&self, key: KeyRef<'_>) -> Option<&V>
        ensures { option_copied result ≡ find (slice_cmp nat_cmp) key.entry.bytes.now (entries self.now.pages) }
    {
        let pages = self.pages.as_slice();
        if pages.is_empty() {
            return None;
        }
        pages[place(pages, key)].get(key)
    }
}

impl<V: Versioned> SortedPages<V> {
    ghost use Rattle.std.specs.Prelude.{IfErr, IfOk, Some};
    ghost use Rattle.sorted_pages.specs.Changes.{ChangesValue, HasRoomAt, IsValuePlace, KeepsHeld, KeepsHeldTo};
    ghost use Rattle.sorted_pages.specs.Summaries.{HoldsAmong, HoldsKnown};
    ghost use Rattle.sorted_pages.specs.declared.held.TheConstants.{HELD_MAX};

    /// Where the key's value stands, or where it would be inserted if it has none. The key is looked up once. Takes no memory.
    pub fn find(&self, key: KeyRef<'_>) -> Result<ValuePlace, InsertionPoint>
        ensures found { IfOk result (λ at. IsValuePlace self.now.pages key.entry.bytes.now at.page at.entry) }
        ensures absent { IfErr result (λ at. IsInsertionPoint self.now.pages key.entry.bytes.now at.page at.entry) }
    {
        let pages = self.pages.as_slice();
        if pages.is_empty() {
            return Err(InsertionPoint { page: 0, entry: 0 });
        }
        let page = place(pages, key);
        match pages[page].search(key) {
            Ok(entry) => Ok(ValuePlace { page, entry }),
            Err(entry) => Err(InsertionPoint { page, entry }),
        }
    }

    /// Lends the key's value, which stands there. The key isn't looked up. Takes no memory.
    pub fn value(&self, at: ValuePlace, key: KeyRef<'_>) -> &V
        requires { IsValuePlace self.now.pages key.bytes.now at.page at.entry }
        ensures { find (slice_cmp nat_cmp) key.entry.bytes.now (entries self.now.pages) ≡ Some result.now }
    {
        self.pages.as_slice()[at.page].value(key, at.entry)
    }

    /// Makes room for one version more in the key's value, which stands there. The key isn't looked up. Where memory is refused the room is
    /// as it was, and where there is some, none is taken.
    pub fn reserve_value(&mut self, at: ValuePlace, key: KeyRef<'_>) -> Result<(), AllocError>
        requires { IsValuePlace self.old.pages key.bytes.now at.page at.entry }
        ensures changed { ChangesValue key.entry.bytes.now V.is_roomier self.old.pages self.new.pages }
        ensures made { OnOk result (HasRoomAt V.room key.entry.bytes.now (entries self.new.pages)) }
        ensures known { HasRoomAt V.room key.entry.bytes.now (entries self.old.pages) → IsOk result }
        ensures held { KeepsHeld self.old self.new }
    {
        self.pages.reserve_value(at.page, at.entry, key)
    }

    /// Adds a version to the key's value, which stands there, in the room that was made for it. The key isn't looked up. Its time grows
    /// with the numbers that are held, where the page hasn't changed since. Takes no memory.
    pub fn add(&mut self, at: ValuePlace, key: KeyRef<'_>, version: V::Version)
        requires place { IsValuePlace self.old.pages key.bytes.now at.page at.entry }
        requires room { HasRoomAt V.room key.bytes.now (entries self.old.pages) }
        requires late { self.old.last ≤ V.change_number version }
        ensures changed { ChangesValue key.entry.bytes.now (V.adds version) self.old.pages self.new.pages }
        ensures held { KeepsHeldTo (V.change_number version) self.old self.new }
    {
        self.pages.add(at.page, at.entry, key, version);
    }

    /// The number of the last change of a value. Takes no memory.
    pub fn last(&self) -> u64
        ensures { result ≡ self.now.last }
    {
        self.pages.last()
    }

    /// Holds these numbers alone: those that were held before, and those from the last change on. Where they are more than 64, some are
    /// left out. What others see isn't known from then on. Where the same were given last, it compares them and does nothing. Else its time
    /// grows with how many there are and with how many places are in use, up to the last of them, 64 at most; and for each that is
    /// released, or that a `NumberSet` doesn't find at once, with how many there are again. Takes no memory.
    pub fn hold(&mut self, numbers: &[u64])
        ensures pages { self.new.pages ≡ self.old.pages }
        ensures last { self.new.last ≡ self.old.last }
        ensures among { HoldsAmong numbers.now self.new }
        ensures held { length numbers.now ≤ HELD_MAX → HoldsKnown numbers.now self.old self.new }
    {
        self.pages.hold(numbers);
    }
}

impl<V: Versioned> SortedPages<V> {
    ghost use Rattle.model.specs.KeyBytes.{end_bytes};
    ghost use Rattle.std.specs.Prelude.{true};
    ghost use Rattle.sorted_pages.specs.Ranges.{entries_left, pages_ahead, shown_in};
    ghost use Rattle.sorted_pages.specs.Summaries.{AreSeen, is_known};

    /// Lends the entries of the range of which the number sees something, by rising key. Where the number is held, or nothing has changed
    /// since, the pages that are looked at are the first of the range and those of which the number sees something, and besides them that
    /// of its end; the others are passed over in one step, for which 24 bytes are read of each. Of a page that is looked at, a number from
    /// its last change on passes over the values that don't show, a byte for each, and a lesser one asks each value. Takes no memory.
    pub fn range(&self, range: RangeRef<'_>, number: u64) -> Entries<'_, V>
        ensures entries { entries_left V.hides result
            ≡ shown_in (V.hides number) self.now.pages range.entry.lo.bytes.now (end_bytes range.entry.hi) }
        ensures ahead { is_known number self.now ≡ true → AreSeen (V.hides number) (pages_ahead result) }
        ensures looked_at { result.pages_looked_at ≡ 0 }
    {
        let pages = self.pages.as_slice();
        let summaries = self.pages.summaries();
        let reader = self.pages.reader(number);
        match range.hi {
            None => within(pages, summaries, range.lo, None, reader),
            Some(hi) => {
                let RangeEnd { pages, least } = up_to(pages, hi);
                within(pages, summaries, range.lo, least, reader)
            }
        }
    }
}

impl<V: Versioned + Drop> SortedPages<V> {
    ghost use Rattle.sorted_pages.specs.Pages.{IsLastRaised, KeepsHeldTo};
    ghost use Rattle.sorted_pages.specs.Values.{IsNewFrom};

    /// How many more entries fit without memory where the key stands or would stand.
    pub fn room(&self, key: KeyRef<'_>) -> usize
        ensures { result ≡ room_at key.entry.bytes.now self.now.pages }
    {
        placing::room(self.pages.as_slice(), key)
    }

    /// How many more entries fit without memory where a new key would be inserted. The key isn't looked up. Takes no memory.
    pub fn room_in(&self, at: InsertionPoint) -> usize
        ensures { (k : Bytes) → IsInsertionPoint self.now.pages k at.page at.entry → result ≡ room_at k self.now.pages }
    {
        placing::room_in(self.pages.as_slice(), at.page)
    }

    /// Does the key stand, or would it, in the page where a new key would be inserted? Looks at the first keys of two pages. Takes no
    /// memory.
    pub fn is_placed_in(&self, at: InsertionPoint, key: KeyRef<'_>) -> bool
        ensures { (k : Bytes) → IsInsertionPoint self.now.pages k at.page at.entry
            → result ≡ is_together k key.entry.bytes.now self.now.pages }
    {
        placing::is_placed_in(self.pages.as_slice(), at.page, key)
    }

    /// Makes room for `n` more entries where a new key would be inserted. The entries stay, also where memory is refused, no key has less
    /// room than before, and none comes to the page of another. Where the room is there already, it takes none and succeeds. A page of 144
    /// entries is split where the `n` would make them more than 288: in the middle, or before its last entry where the key stands behind
    /// all of them. No other page is made, but for the first. No page gets room for more than `n` + 95 entries.
    pub fn reserve(
        &mut self,
        at: InsertionPoint,
        key: KeyRef<'_>,
        n: usize,
    ) -> Result<(), AllocError>
        requires { IsInsertionPoint self.old.pages key.bytes.now at.page at.entry }
        ensures room { MakesRoom n self.old self.new }
        ensures made { OnOk result (n ≤ room_at key.entry.bytes.now self.new.pages) }
        ensures known { n ≤ room_at key.entry.bytes.now self.old.pages → IsOk result }
        ensures split { OnOk result
            (IsCrowded key.entry.bytes.now n self.old.pages
            → SplitsPage key.entry.bytes.now self.old.pages self.new.pages) }
        ensures pages { MakesOnePage key.entry.bytes.now n self.old.pages self.new.pages }
    {
        changing::reserve(&mut self.pages, at, key, n)
    }

    /// Adds an entry of a new key where it would be inserted, in the room that was made for it: each key of its page has room for one entry
    /// less. Keys of other pages have the same room, and no key comes to another page. The key isn't looked up. Takes no memory.
    pub fn insert(&mut self, at: InsertionPoint, key: Key, value: V)
        requires point { IsInsertionPoint self.old.pages key at.page at.entry }
        requires room { 0 < room_at key self.old.pages }
        requires new { IsNewFrom V.hides V.last self.old.last value }
        ensures entries { entries self.new.pages ≡ put (slice_cmp nat_cmp) key value (entries self.old.pages) }
        ensures place { TakesPlace key self.old.pages self.new.pages }
        ensures held { KeepsHeldTo (V.last value) self.old self.new }
    {
        changing::insert(&mut self.pages, at, key, value);
    }

    /// Adds an entry above all others, in pages that are filled one after another up to 192 entries, with places for 256: each page but the
    /// last has 192. Where memory is refused the entries stay.
    pub fn push(&mut self, key: Key, value: V) -> Result<(), AllocError>
        requires sorted { T (is_sorted (slice_cmp nat_cmp) (entries self.old.pages ++ (key, value) ∷ [])) }
        requires new { IsNewFrom V.hides V.last self.old.last value }
        ensures entries { entries self.new.pages ≡ pushed (is_ok result) (entries self.old.pages) (key, value) }
        ensures loose { AreLoose self.old.pages → AreLoose self.new.pages }
        ensures full { AreFull self.old.pages → AreFull self.new.pages }
        ensures tight { StaysTight FILL_PLACES self.old.pages self.new.pages }
        ensures held { IsLastRaised (V.last value) self.old self.new }
    {
        changing::push(&mut self.pages, key, value)
    }
}

impl<V: Versioned> SortedPages<V> {
    ghost use Rattle.sorted_pages.specs.Changes.{KeepsHeld};
    ghost use Rattle.sorted_pages.specs.Summaries.{HoldsAmong};
    ghost use Rattle.sorted_pages.specs.Trims.{changed_at, passes};

    /// How many pages there are. Takes no memory.
    pub fn pages(&self) -> usize
        ensures { result ≡ length self.now.pages }
    {
        self.pages.as_slice().len()
    }

    /// How many entries all pages have places for, in use and free; 2^64 - 1 where there were more. Looks at each page, and takes no
    /// memory.
    pub fn places(&self) -> usize
        ensures { result ≡ places_in self.now.pages }
    {
        self.pages
            .as_slice()
            .iter()
            .fold(0, |sum: usize, page| sum.saturating_add(page.places()))
    }

    /// Drops what none of the numbers needs from the key's value, where it has one. Does the value keep something of `number` then?
    /// The numbers that are held are some of these. The key is looked up once. Takes no memory.
    pub fn trim_at(&mut self, key: KeyRef<'_>, numbers: &[u64], number: u64) -> bool
        requires { HoldsAmong numbers.now self.old }
        ensures entries { entries self.new.pages
            ≡ changed_at (V.trimmed numbers.now) key.entry.bytes.now (entries self.old.pages) }
        ensures left { result
            ≡ passes (V.has number) (find (slice_cmp nat_cmp) key.entry.bytes.now (entries self.new.pages)) }
        ensures held { KeepsHeld self.old self.new }
    {
        trimming::trim_at(&mut self.pages, key, numbers, number)
    }
}
