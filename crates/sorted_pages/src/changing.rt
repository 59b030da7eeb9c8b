//! Makes room for new entries, splits pages that would grow too large, and adds entries.
ghost use Rattle.std.specs.Prelude.{◌≡◌, ◌+◌, ◌<◌, ◌≤◌, T, true, [], ◌∷◌, ◌++◌, length, is_ok, IsOk, OnOk};
ghost use Rattle.std.specs.Ordering.{nat_cmp};
ghost use Rattle.std.specs.Cmp.Lexicographic.{slice_cmp};
ghost use Rattle.std.specs.FinMap.Entries.{put, is_sorted};
ghost use Rattle.model.specs.Map.{Bytes};
ghost use Rattle.sorted_pages.specs.Pages.{IsLastRaised, KeepsHeldTo};
ghost use Rattle.sorted_pages.specs.Pages.{AreAllFull, AreFull, AreLoose, IsCrowded, IsInOrder, IsInsertionPoint};
ghost use Rattle.sorted_pages.specs.Pages.{StaysTight, count_at, entries, pushed, room_at};
ghost use Rattle.sorted_pages.specs.Rooms.{IsPushed, MakesOnePage, MakesRoom, SplitsPage, TakesPlace};
ghost use Rattle.sorted_pages.specs.Values.{IsNewFrom};

use crate::insertion_point::InsertionPoint;
use crate::page::{PAGE_MAX, Page};
use crate::page_list::PageList;
use crate::placing::{count_in, place, room_in};
use crate::versioned::Versioned;
use model::{Key, KeyRef};
use std::alloc::AllocError;

// A page of fewer entries isn't split.
const SPLIT_MIN: usize = 144;

// How many entries a page is given where all come in by rising key. It has places for more, so that the first keys that come in between
// don't move it.
const FILL: usize = 192;

const FILL_PLACES: usize = 256;

// Adds an entry of a new key where it would stand, in the room that was made for it.
pub(crate) fn insert<V: Versioned>(pages: &mut PageList<V>, at: InsertionPoint, key: Key, value: V)
    requires order { IsInOrder pages.old.pages }
    requires point { IsInsertionPoint pages.old.pages key at.page at.entry }
    requires room { 0 < room_at key pages.old.pages }
    requires new { IsNewFrom V.hides V.last pages.old.last value }
    ensures entries { entries pages.new.pages ≡ put (slice_cmp nat_cmp) key value (entries pages.old.pages) }
    ensures place { TakesPlace key pages.old.pages pages.new.pages }
    ensures held { KeepsHeldTo (V.last value) pages.old pages.new }
{
    pages.insert(at.page, at.entry, key, value);
}

// Makes room for `n` more entries in the page where the key would stand.
fn grow<V: Versioned>(pages: &mut PageList<V>, key: KeyRef<'_>, n: usize) -> Result<(), AllocError>
    requires order { IsInOrder pages.old.pages }
    requires some { 0 < length pages.old.pages }
    ensures room { MakesRoom n pages.old pages.new }
    ensures made { OnOk result (n ≤ room_at key.entry.bytes.now pages.new.pages) }
    ensures pages { length pages.new.pages ≡ length pages.old.pages }
    ensures count { count_at key.entry.bytes.now pages.new.pages ≡ count_at key.entry.bytes.now pages.old.pages }
{
    let i = place(pages.as_slice(), key);
    pages.reserve(i, n)
}

// Splits the page where the key would stand, and gives both parts room for `n` entries.
fn split<V: Versioned + Drop>(
    pages: &mut PageList<V>,
    key: KeyRef<'_>,
    n: usize,
) -> Result<(), AllocError>
    requires order { IsInOrder pages.old.pages }
    requires some { 0 < length pages.old.pages }
    requires short { room_at key.bytes.now pages.old.pages < n }
    ensures room { MakesRoom n pages.old pages.new }
    ensures some { 0 < length pages.new.pages }
    ensures one { length pages.new.pages ≤ length pages.old.pages + 1 }
    ensures split { OnOk result (IsCrowded key.entry.bytes.now n pages.old.pages
        → SplitsPage key.entry.bytes.now pages.old.pages pages.new.pages) }
{
    let i = place(pages.as_slice(), key);
    let cut = pages.as_slice()[i].cut_for(key);
    if cut == 0 {
        return Ok(());
    }
    pages.split(i, cut, n)?;
    Ok(())
}

// Splits the page where the key would stand, and makes room for `n` more entries in the part where it stands then.
fn divide<V: Versioned + Drop>(
    pages: &mut PageList<V>,
    key: KeyRef<'_>,
    n: usize,
) -> Result<(), AllocError>
    requires order { IsInOrder pages.old.pages }
    requires some { 0 < length pages.old.pages }
    requires short { room_at key.bytes.now pages.old.pages < n }
    ensures room { MakesRoom n pages.old pages.new }
    ensures made { OnOk result (n ≤ room_at key.entry.bytes.now pages.new.pages) }
    ensures one { length pages.new.pages ≤ length pages.old.pages + 1 }
    ensures split { OnOk result (IsCrowded key.entry.bytes.now n pages.old.pages
        → SplitsPage key.entry.bytes.now pages.old.pages pages.new.pages) }
{
    split(pages, key, n)?;
    grow(pages, key, n)
}

// Are `n` entries more too many for a page that has `len`?
fn is_crowded(len: usize, n: usize) -> bool
    ensures crowded { 0 < n → SPLIT_MIN ≤ len → PAGE_MAX < len + n → result ≡ true }
    ensures many { result ≡ true → SPLIT_MIN ≤ len }
    ensures over { result ≡ true → PAGE_MAX < len + n }
{
    SPLIT_MIN <= len && PAGE_MAX.saturating_sub(len) < n
}

// Makes the first page.
fn start<V: Versioned + Drop>(pages: &mut PageList<V>, n: usize) -> Result<(), AllocError>
    requires { pages.old.pages ≡ [] }
    ensures room { MakesRoom n pages.old pages.new }
    ensures made { OnOk result ((k : Bytes) → n ≤ room_at k pages.new.pages) }
    ensures one { length pages.new.pages ≤ 1 }
{
    let last = pages.last();
    pages.push(Page::with_room_in_steps(pages.allocator(), n)?, last)
}

// Makes room for `n` more entries in the page where the key would stand. A page that they would make too large is split.
pub(crate) fn reserve<V: Versioned + Drop>(
    pages: &mut PageList<V>,
    at: InsertionPoint,
    key: KeyRef<'_>,
    n: usize,
) -> Result<(), AllocError>
    requires order { IsInOrder pages.old.pages }
    requires point { IsInsertionPoint pages.old.pages key.bytes.now at.page at.entry }
    ensures room { MakesRoom n pages.old pages.new }
    ensures made { OnOk result (n ≤ room_at key.entry.bytes.now pages.new.pages) }
    ensures known { n ≤ room_at key.entry.bytes.now pages.old.pages → IsOk result }
    ensures split { OnOk result (IsCrowded key.entry.bytes.now n pages.old.pages
        → SplitsPage key.entry.bytes.now pages.old.pages pages.new.pages) }
    ensures pages { MakesOnePage key.entry.bytes.now n pages.old.pages pages.new.pages }
{
    if n <= room_in(pages.as_slice(), at.page) {
        return Ok(());
    }
    if pages.as_slice().is_empty() {
        return start(pages, n);
    }
    if is_crowded(count_in(pages.as_slice(), at.page), n) {
        return divide(pages, key, n);
    }
    grow(pages, key, n)
}

// Adds a page of one entry.
fn push_page<V: Versioned + Drop>(
    pages: &mut PageList<V>,
    key: Key,
    value: V,
) -> Result<(), AllocError>
    requires order { IsInOrder pages.old.pages }
    requires sorted { T (is_sorted (slice_cmp nat_cmp) (entries pages.old.pages ++ (key, value) ∷ [])) }
    requires new { IsNewFrom V.hides V.last pages.old.last value }
    ensures pushed { IsPushed (is_ok result) (key, value) pages.old.pages pages.new.pages }
    ensures loose { AreLoose pages.old.pages → AreLoose pages.new.pages }
    ensures full { AreAllFull pages.old.pages → AreFull pages.old.pages → AreFull pages.new.pages }
    ensures held { IsLastRaised (V.last value) pages.old pages.new }
{
    let last = value.last();
    let mut page = Page::with_room(pages.allocator(), FILL_PLACES)?;
    page.push(key, value)?;
    pages.push(page, last)
}

// Adds an entry above all others.
pub(crate) fn push<V: Versioned + Drop>(
    pages: &mut PageList<V>,
    key: Key,
    value: V,
) -> Result<(), AllocError>
    requires order { IsInOrder pages.old.pages }
    requires sorted { T (is_sorted (slice_cmp nat_cmp) (entries pages.old.pages ++ (key, value) ∷ [])) }
    requires new { IsNewFrom V.hides V.last pages.old.last value }
    ensures pushed { IsPushed (is_ok result) (key, value) pages.old.pages pages.new.pages }
    ensures loose { AreLoose pages.old.pages → AreLoose pages.new.pages }
    ensures full { AreFull pages.old.pages → AreFull pages.new.pages }
    ensures held { IsLastRaised (V.last value) pages.old pages.new }
{
    let count = pages.as_slice().len();
    if count == 0 {
        return push_page(pages, key, value);
    }
    if FILL <= pages.as_slice()[count - 1].len() {
        return push_page(pages, key, value);
    }
    pages.push_to(count - 1, key, value)
}
