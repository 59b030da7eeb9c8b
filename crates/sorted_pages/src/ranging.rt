//! Where a range begins and ends: the page and the entry from which it goes on, and the page and the key up to which it goes.
ghost use Rattle.std.specs.Prelude.{◌≡◌, ℕ, List};
ghost use Rattle.model.specs.KeyBytes.{end_bytes};
ghost use Rattle.sorted_pages.specs.Held.{IsReader};
ghost use Rattle.sorted_pages.specs.Pages.{IsInOrder};
ghost use Rattle.sorted_pages.specs.Ranges.{IsCutAlike, KnowsPages, entries_left, pages_ahead, shown_in};
ghost use Rattle.sorted_pages.specs.Summaries.{AreSeen, AreSummaries};

use crate::held::Reader;
use crate::page::Page;
use crate::placing::place;
use crate::range::Entries;
use crate::summary::Summary;
use crate::versioned::Versioned;
use model::KeyRef;

// The end of a range: the pages up to the one where it stands, and the least key from it on in that page. What has no such key is below
// the end.
pub(crate) struct RangeEnd<'a, V: Versioned> {
    pub(crate) pages: &'a [Page<V>],
    pub(crate) least: Option<KeyRef<'a>>,
}

// Lends the entries from one key on, up to another, of which the number sees something.
pub(crate) fn within<'a, V: Versioned>(
    pages: &'a [Page<V>],
    summaries: &'a [Summary],
    lo: KeyRef<'_>,
    hi: Option<KeyRef<'a>>,
    reader: Reader,
) -> Entries<'a, V>
    requires order { IsInOrder pages.now }
    requires summaries { (held : List ℕ) × IsReader held reader
        × AreSummaries V.hides V.shows V.last held pages.now summaries.now }
    ensures entries { entries_left V.hides result
        ≡ shown_in (V.hides reader.number) pages.now lo.entry.bytes.now (end_bytes hi.entry) }
    ensures ahead { KnowsPages reader summaries.now → AreSeen (V.hides reader.number) (pages_ahead result) }
    ensures looked_at { result.pages_looked_at ≡ 0 }
{
    if pages.is_empty() {
        return Entries {
            pages,
            at: 0,
            summaries,
            hi,
            reader,
            pages_looked_at: 0,
        };
    }
    let i = place(pages, lo);
    Entries {
        pages: &pages[i..],
        at: pages[i].split_place(lo),
        summaries: &summaries[i..],
        hi,
        reader,
        pages_looked_at: 0,
    }
}

// Where a range ends that goes up to the key.
pub(crate) fn up_to<'a, V: Versioned>(pages: &'a [Page<V>], hi: KeyRef<'_>) -> RangeEnd<'a, V>
    requires { IsInOrder pages.now }
    ensures order { IsInOrder result.pages.now }
    ensures summaries { (held : List ℕ) (ss : List Summary) → AreSummaries V.hides V.shows V.last held pages.now ss
        → AreSummaries V.hides V.shows V.last held result.pages.now ss }
    ensures same { IsCutAlike pages.now hi.entry.bytes.now result.pages.now (end_bytes result.least) }
{
    if pages.is_empty() {
        return RangeEnd { pages, least: None };
    }
    let i = place(pages, hi);
    RangeEnd {
        pages: &pages[..i + 1],
        least: pages[i].first_from(hi),
    }
}
