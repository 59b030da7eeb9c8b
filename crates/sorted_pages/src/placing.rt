//! Finds the page in which a key stands or would stand.
ghost use Rattle.std.specs.Prelude.{◌≡◌, ◌<◌, length};
ghost use Rattle.model.specs.Map.{Bytes};
ghost use Rattle.sorted_pages.specs.Pages.{IsInOrder, IsPlace, count_at, is_together, room_at};

use crate::heads::SoughtKey;
use crate::page::Page;
use crate::versioned::Versioned;
use model::KeyRef;

// The page where the key stands or would stand: the last one that doesn't start above it.
pub(crate) fn place<V: Versioned>(pages: &[Page<V>], key: KeyRef<'_>) -> usize
    requires order { IsInOrder pages.now }
    requires some { 0 < length pages.now }
    ensures { IsPlace pages.now key.entry.bytes.now result }
{
    let sought = SoughtKey::new(key);
    pages
        .partition_point(|page| page.starts_by(sought))
        .saturating_sub(1)
}

// How many more entries fit without memory in the page at `i`; 0 where there is none.
pub(crate) fn room_in<V: Versioned>(pages: &[Page<V>], i: usize) -> usize
    ensures { (k : Bytes) → (0 < length pages.now → IsPlace pages.now k i) → result ≡ room_at k pages.now }
{
    match pages.get(i) {
        Some(page) => page.room(),
        None => 0,
    }
}

// How many entries the page at `i` has; 0 where there is none.
pub(crate) fn count_in<V: Versioned>(pages: &[Page<V>], i: usize) -> usize
    ensures { (k : Bytes) → (0 < length pages.now → IsPlace pages.now k i) → result ≡ count_at k pages.now }
{
    match pages.get(i) {
        Some(page) => page.len(),
        None => 0,
    }
}

// Does the key stand in the page at `i`, or would it? So does each where there is none.
pub(crate) fn is_placed_in<V: Versioned>(pages: &[Page<V>], i: usize, key: KeyRef<'_>) -> bool
    requires { IsInOrder pages.now }
    ensures { (k : Bytes) → (0 < length pages.now → IsPlace pages.now k i)
        → result ≡ is_together k key.entry.bytes.now pages.now }
{
    if pages.len() <= i {
        return true;
    }
    let sought = SoughtKey::new(key);
    if i != 0 && !pages[i].starts_by(sought) {
        return false;
    }
    match pages.get(i + 1) {
        Some(next) => !next.starts_by(sought),
        None => true,
    }
}

// How many more entries fit without memory in the page where the key stands or would stand.
pub(crate) fn room<V: Versioned>(pages: &[Page<V>], key: KeyRef<'_>) -> usize
    requires { IsInOrder pages.now }
    ensures { result ≡ room_at key.entry.bytes.now pages.now }
{
    if pages.is_empty() {
        return 0;
    }
    pages[place(pages, key)].room()
}
