//! The pairs that a RANGE answers, borrowed one by one.
ghost use Rattle.std.specs.Prelude.{◌≤◌, length};
ghost use Rattle.snapshot.specs.Ahead.{merged_pairs};

use crate::merge::MergedPairs;
use model::KeyRef;

/// The pairs that a range read answers, by rising key, lent from the transaction's writes and from the versions. Its calls take no
/// memory. A clause sees the pairs that are left (`row_pairs`).
#[derive(Drop)]
pub struct Rows<'a> {
    rest: MergedPairs<'a>,
    left: usize,
    // how many pages the walk that found the pairs has looked at
    pages_looked_at: usize,
    ghost counted: { left ≤ length (merged_pairs rest) },
}

impl<'a> Rows<'a> {
    ghost use Rattle.std.specs.Prelude.{◌≡◌, ◌≤◌, length, take};
    ghost use Rattle.std.specs.Iterator.{AlwaysYields, YieldsFirstBy};
    ghost use Rattle.model.specs.KeyBytes.{pair_bytes};
    ghost use Rattle.snapshot.specs.Ahead.{merged_pairs};
    ghost use Rattle.snapshot.specs.PageCounts.{CountsItsPages, CountsPagesBehind};
    ghost use Rattle.snapshot.specs.RowPairs.{row_pairs, rows_looked_at};

    // The first `left` of the pairs, with how many pages the walk that found them has looked at.
    pub(crate) fn new(rest: MergedPairs<'a>, left: usize, pages_looked_at: usize) -> Rows<'a>
        requires within { left ≤ length (merged_pairs rest) }
        requires counts { CountsPagesBehind rest left pages_looked_at }
        ensures pairs { row_pairs result ≡ take left (merged_pairs rest.entry) }
        ensures counts { CountsItsPages result }
    {
        Rows {
            rest,
            left,
            pages_looked_at,
        }
    }

    /// How many pairs are left.
    pub fn len(&self) -> usize
        ensures len { result ≡ length (row_pairs self.now) }
        // Whatever its calls give, it is these pairs, and then `None`.
        ensures gives { AlwaysYields (YieldsFirstBy pair_bytes row_pairs) pair_bytes self.now (row_pairs self.now) }
    {
        self.left
    }

    /// How many pages of keys were looked at to find the pairs, behind the first of the range. Takes no memory.
    pub fn pages_looked_at(&self) -> usize
        ensures { result ≡ rows_looked_at self.now }
    {
        self.pages_looked_at
    }
}

impl<'a> Iterator for Rows<'a> {
    type Item = (KeyRef<'a>, &'a [u8]);

    ghost use Rattle.std.specs.Iterator.{YieldsFirstBy, item_count};
    ghost use Rattle.model.specs.KeyBytes.{pair_bytes};
    ghost use Rattle.snapshot.specs.RowPairs.{row_pairs};

    ghost next_gives = { YieldsFirstBy pair_bytes row_pairs };

    ghost remaining = { item_count row_pairs };

    fn next(&mut self) -> Option<(KeyRef<'a>, &'a [u8])> {
        if self.left == 0 {
            return None;
        }
        self.left -= 1;
        self.rest.next()
    }
}
