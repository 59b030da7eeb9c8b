//! How many pairs a RANGE answers, and the mark that it makes.
ghost use Rattle.std.specs.Prelude.{◌≡◌, List, ℕ, Some, IfOk, IsTrue, OnErr, OnOk, length};
ghost use Rattle.std.specs.Ordering.{is_le};
ghost use Rattle.model.specs.KeyBytes.{key_bytes, end_bytes};
ghost use Rattle.model.specs.Map.{key_cmp, IsInBounds};
ghost use Rattle.model.specs.PrivateCopy.{page_end};
ghost use Rattle.snapshot.specs.Ahead.{page_of};
ghost use Rattle.snapshot.specs.PageCounts.{CountsPagesBehind};
ghost use Rattle.snapshot.specs.Merged.{with_page_marks, is_full_for_page, has_page};
ghost use Rattle.snapshot.specs.Made.{MarkFaults};

use crate::faults::SnapshotFault;
use crate::merge::MergedPairs;
use crate::spans::{is_empty, mark_up_to};
use marks::Marks;
use model::{KeyRef, RangeRef};

// The first pairs of a range: how many there are, where they end if others may follow, and how many pages of keys the walk over them has
// looked at behind the first of the range.
#[derive(Drop)]
pub(crate) struct Page<'a> {
    pub(crate) len: usize,
    end: Option<KeyRef<'a>>,
    pub(crate) pages_looked_at: usize,
}

// Finds the first pairs, `limit` at most. Where there are as many, the last of their keys is their end.
fn find_page<'a>(pairs: MergedPairs<'a>, limit: u8) -> Page<'a>
    ensures len { result.len ≡ length (page_of limit pairs.entry) }
    ensures end { end_bytes result.end ≡ page_end limit (page_of limit pairs.entry) }
    ensures counts { CountsPagesBehind pairs.entry result.len result.pages_looked_at }
    ensures in_bounds { IsInBounds (page_of limit pairs.entry) }
{
    let mut rest = pairs;
    let mut len: usize = 0;
    let mut last = None;
    for _k in 0..limit {
        let Some((key, _value)) = rest.next() else {
            return Page {
                len,
                end: None,
                pages_looked_at: rest.pages_looked_at(),
            };
        };
        len += 1;
        last = Some(key);
    }
    Page {
        len,
        end: last,
        pages_looked_at: rest.pages_looked_at(),
    }
}

// Finds the first pairs of the range, `limit` at most, and makes the mark that a read of them asks for: none where the range is empty.
pub(crate) fn mark_page<'a>(
    marks: &mut Marks,
    pairs: MergedPairs<'a>,
    range: RangeRef<'_>,
    limit: u8,
) -> Result<Page<'a>, SnapshotFault>
    requires { (last : List ℕ) → page_end limit (page_of limit pairs) ≡ Some last
        → IsTrue (is_le (key_cmp (key_bytes range.lo) last)) }
    ensures ok { OnOk result (marks.new ≡ with_page_marks marks.old range.entry limit (page_of limit pairs.entry)) }
    ensures len { IfOk result (λ page. page.len ≡ length (page_of limit pairs.entry)) }
    ensures counts { IfOk result (λ page. CountsPagesBehind pairs.entry page.len page.pages_looked_at) }
    ensures in_bounds { IsInBounds (page_of limit pairs.entry) }
    ensures err { OnErr result (marks.new ≡ marks.old) }
    ensures faults { MarkFaults result (is_full_for_page marks.old range.entry limit (page_of limit pairs.entry))
        (has_page marks.old range.entry limit (page_of limit pairs.entry)) }
{
    let page = find_page(pairs, limit);
    if is_empty(range) {
        return Ok(page);
    }
    mark_up_to(marks, range, page.end)?;
    Ok(page)
}
