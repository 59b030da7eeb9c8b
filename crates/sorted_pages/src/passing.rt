//! The pages that a range passes over.
ghost use Rattle.std.specs.List.{position};
ghost use Rattle.std.specs.Prelude.{◌≡◌, ◌≤◌, drop, length, not};
ghost use Rattle.sorted_pages.specs.Ranges.{looked_at, not_passed};
ghost use Rattle.sorted_pages.specs.Summaries.{is_passed};

use crate::held::Reader;
use crate::page::Page;
use crate::summary::Summary;
use crate::versioned::Versioned;

// The summaries behind the first.
pub(crate) fn behind_first(summaries: &[Summary]) -> &[Summary]
    ensures { result.now ≡ drop 1 summaries.now }
{
    match summaries.get(1..) {
        Some(rest) => rest,
        None => &[],
    }
}

// The place of the first summary of a page that the reader doesn't pass over.
fn first_looked_at(summaries: &[Summary], reader: Reader) -> Option<usize>
    ensures { result ≡ position (λ s. not (is_passed reader s)) summaries.now }
{
    summaries
        .iter()
        .position(|summary| !summary.is_passed(reader))
}

// How many of the first pages the reader passes over.
pub(crate) fn passed_pages<V: Versioned>(
    pages: &[Page<V>],
    summaries: &[Summary],
    reader: Reader,
) -> usize
    ensures within { result ≤ length pages.now }
    ensures known { result ≤ length summaries.now }
    ensures rest { looked_at reader (drop result pages.now) (drop result summaries.now)
        ≡ not_passed reader pages.now summaries.now }
{
    first_looked_at(summaries, reader)
        .unwrap_or(summaries.len())
        .min(pages.len())
}
