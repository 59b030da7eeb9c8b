//! The writes of a transaction within a range, and which keys a RANGE marks.
ghost use Rattle.std.specs.Prelude.{◌≡◌, ◌↔◌, T, Err, IfSome, IsOk, IsTrue, OnErr, OnOk};
ghost use Rattle.std.specs.Ordering.{is_le, nat_cmp};
ghost use Rattle.std.specs.Cmp.Lexicographic.{slice_cmp};
ghost use Rattle.std.specs.FinMap.Entries.{is_sorted, where_key};
ghost use Rattle.marks.specs.Marked.{has_mark, is_full_for_mark, with_mark};
ghost use Rattle.model.specs.KeyBytes.{key_bytes, end_bytes};
ghost use Rattle.model.specs.Map.{key_cmp, is_below, is_in_range, is_empty_range};
ghost use Rattle.model.specs.Entries.{IsSplit};
ghost use Rattle.snapshot.specs.Merged.{mark_to};

use marks::{Marks, MarksFault};
use model::{KeyRef, RangeRef, Write};

// Is the upper end at most the lower one?
pub(crate) fn is_empty(range: RangeRef<'_>) -> bool
    ensures { result ≡ is_empty_range (key_bytes range.entry.lo) (end_bytes range.entry.hi) }
{
    match range.hi {
        None => false,
        Some(hi) => !range.lo.order(hi).is_lt(),
    }
}

// How many of the writes, which stand by rising key, have keys below this one.
fn split_place(writes: &[Write], key: &[u8]) -> usize
    requires { T (is_sorted (slice_cmp nat_cmp) writes.now) }
    ensures { IsSplit writes.now key.now result }
{
    match writes.binary_search_by(|write| write.compare(key)) {
        Ok(i) => i,
        Err(i) => i,
    }
}

// The writes below the upper end, where there is one.
fn below<'a>(writes: &'a [Write], hi: Option<KeyRef<'_>>) -> &'a [Write]
    requires { T (is_sorted (slice_cmp nat_cmp) writes.now) }
    ensures below { result.now ≡ where_key (slice_cmp nat_cmp) (λ q. is_below q (end_bytes hi.entry)) writes.now }
    ensures sorted { T (is_sorted (slice_cmp nat_cmp) result.now) }
{
    match hi {
        None => writes,
        Some(hi) => &writes[..split_place(writes, hi.bytes())],
    }
}

// The writes of the range.
pub(crate) fn within<'a>(writes: &'a [Write], range: RangeRef<'_>) -> &'a [Write]
    requires { T (is_sorted (slice_cmp nat_cmp) writes.now) }
    ensures { result.now
        ≡ where_key (slice_cmp nat_cmp) (is_in_range (key_bytes range.entry.lo) (end_bytes range.entry.hi)) writes.now }
{
    let lower = below(writes, range.hi);
    let start = split_place(lower, range.lo.bytes());
    &lower[start..]
}

// Makes the mark of a read of the range: up to the end of its pairs, where others may follow them, else of the whole range.
pub(crate) fn mark_up_to(
    marks: &mut Marks,
    range: RangeRef<'_>,
    end: Option<KeyRef<'_>>,
) -> Result<(), MarksFault>
    requires { IfSome end (λ last. IsTrue (is_le (key_cmp (key_bytes range.lo) (key_bytes last)))) }
    ensures ok { OnOk result (marks.new ≡ with_mark marks.old (mark_to range.entry end.entry)) }
    ensures err { OnErr result (marks.new ≡ marks.old) }
    ensures full { (result ≡ Err MarksFault.FullMarks)
        ↔ IsTrue (is_full_for_mark marks.old (mark_to range.entry end.entry)) }
    ensures known { IsTrue (has_mark marks.old (mark_to range.entry end.entry)) → IsOk result }
{
    match end {
        Some(last) => marks.add_upto(range.lo, last),
        None => marks.add_range(range),
    }
}
