//! The flags of a page: for each entry one byte that says whether its value shows.
ghost use Rattle.std.specs.Prelude.{◌≡◌, ℕ, ◌<◌, ◌≤◌, true, false, IfOk, count_by, slice_index_or};
ghost use Rattle.std.specs.Vec.{vec_capacity};

use std::alloc::{AllocError, Global};

// The first place from this one on whose flag is true; where there is none, it is behind the last.
pub(crate) fn next_flagged(flags: &[bool], from: usize) -> usize
    ensures from { from ≤ result }
    ensures passed { (i : ℕ) → from ≤ i → i < result → slice_index_or flags.now i true ≡ false }
{
    let mut at = from;
    while at < flags.len() && !flags[at] {
        at += 1;
    }
    at
}

// How many of the flags are true.
pub(crate) fn count_flagged(flags: &[bool]) -> usize
    ensures { result ≡ count_by (λ f. f) flags.now }
{
    flags.iter().filter(|flag| **flag).count()
}

// A copy of these flags, with so many places.
pub(crate) fn copied_flags(
    alloc: Global,
    flags: &[bool],
    places: usize,
) -> Result<Vec<bool>, AllocError>
    ensures same { IfOk result (λ v. v.items ≡ flags.now) }
    ensures places { IfOk result (λ v. places ≤ vec_capacity v) }
{
    let mut copy = Vec::with_capacity(alloc, places)?;
    copy.extend_from_slice(flags)?;
    Ok(copy)
}
