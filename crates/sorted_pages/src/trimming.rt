//! Drops what no active number needs from the value of a key.
ghost use Rattle.std.specs.Prelude.{◌≡◌};
ghost use Rattle.std.specs.Ordering.{nat_cmp};
ghost use Rattle.std.specs.Cmp.Lexicographic.{slice_cmp};
ghost use Rattle.std.specs.FinMap.Entries.{find};
ghost use Rattle.sorted_pages.specs.Changes.{KeepsHeld};
ghost use Rattle.sorted_pages.specs.Pages.{IsInOrder, entries};
ghost use Rattle.sorted_pages.specs.Summaries.{HoldsAmong};
ghost use Rattle.sorted_pages.specs.Trims.{changed_at, passes};

use crate::page_list::PageList;
use crate::placing::place;
use crate::versioned::Versioned;
use model::KeyRef;

// Trims the key's value, where it has one. Does it keep something of this number then?
pub(crate) fn trim_at<V: Versioned>(
    pages: &mut PageList<V>,
    key: KeyRef<'_>,
    numbers: &[u64],
    number: u64,
) -> bool
    requires order { IsInOrder pages.old.pages }
    requires among { HoldsAmong numbers.now pages.old }
    ensures order { IsInOrder pages.new.pages }
    ensures entries { entries pages.new.pages
        ≡ changed_at (V.trimmed numbers.now) key.entry.bytes.now (entries pages.old.pages) }
    ensures left { result
        ≡ passes (V.has number) (find (slice_cmp nat_cmp) key.entry.bytes.now (entries pages.new.pages)) }
    ensures held { KeepsHeld pages.old pages.new }
{
    if pages.as_slice().is_empty() {
        return false;
    }
    let i = place(pages.as_slice(), key);
    pages.trim_at(i, key, numbers, number)
}
