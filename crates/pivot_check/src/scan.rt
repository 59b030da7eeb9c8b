//! Scans sorted written keys for the least commit number that wrote a key under marks.
ghost use Rattle.std.specs.Prelude.{◌≡◌, ◌≤◌, ◌<◌, ◌+◌, ◌*◌, ℕ, false, length, take, drop, Some, None, IfSome, ◌∷◌};
ghost use Rattle.marks.specs.Lent.{lent_mark};
ghost use Rattle.marks.specs.Marked.{marks_of};
ghost use Rattle.pivot_check.specs.Postings.{CountCovered, least, lesser, is_asked, asked_of, covered_of};
ghost use Rattle.pivot_check.specs.Parts.{remaining};
ghost use Rattle.pivot_check.specs.Bounds.{KeepsFound, IsScanned, in_span};
ghost use Rattle.pivot_check.specs.Places.{asked_there};

use crate::bound::BLOCK;
use crate::by_start::ByStart;
use crate::part::Part;
use crate::written::{Span, Written, covered, least_number};
use marks::{MarkRef, OwnedMark};

// The greatest number that is at most `last` and below the one that was found.
fn most_below(found: Option<u64>, last: u64) -> u64
    ensures { (n : ℕ) → n ≤ last → result < n → lesser found (Some n) ≡ found }
{
    match found {
        None => last,
        Some(number) => last.min(number.saturating_sub(1)),
    }
}

/// How far a scan has come: the number that was found, and the places that were scanned last.
#[derive(Clone, Copy)]
pub(crate) struct Scan {
    pub(crate) found: Option<u64>,
    pub(crate) seen: Span,
}

impl Part {
    // May some posting of the part that is asked for have a number below the one that was found? Only then can a scan improve on it.
    fn can_improve(&self, found: Option<u64>, begin: u64, flagged: bool) -> bool
        ensures { result ≡ false → KeepsFound found begin flagged self.now.written.items }
    {
        self.bound
            .allows(most_below(found, self.bound.last), begin, flagged)
    }

    // May some posting of this block that is asked for have a number below the one that was found?
    fn can_improve_in(&self, block: usize, found: Option<u64>, begin: u64, flagged: bool) -> bool
        ensures { result ≡ false
            → KeepsFound found begin flagged (take BLOCK (drop (BLOCK * block) self.now.written.items)) }
    {
        match self.bounds.get(block) {
            None => true,
            Some(bound) => bound.allows(most_below(found, self.bound.last), begin, flagged),
        }
    }

    // The number that was found, or the least that is asked for of these postings, which stand in one block, where that is lesser.
    fn least_in(
        &self,
        block: usize,
        span: Span,
        found: Option<u64>,
        begin: u64,
        flagged: bool,
    ) -> Option<u64>
        requires block { BLOCK * block ≤ span.first }
        requires order { span.first ≤ span.end }
        requires block_end { span.end ≤ BLOCK * block + BLOCK }
        requires within { span.end ≤ length self.now.written.items }
        ensures { result ≡ lesser found (least (is_asked begin flagged) (in_span span self.now.written.items)) }
    {
        if !self.can_improve_in(block, found, begin, flagged) {
            return found;
        }
        least_number(&self.written[span.first..span.end], found, begin, flagged)
    }

    // The number that was found, or the least that is asked for of these postings, where that is lesser. A block whose bound rules
    // out a lesser number is passed over.
    fn least_between(
        &self,
        span: Span,
        found: Option<u64>,
        begin: u64,
        flagged: bool,
    ) -> Option<u64>
        requires order { span.first ≤ span.end }
        requires within { span.end ≤ length self.now.written.items }
        ensures { result ≡ lesser found (least (is_asked begin flagged) (in_span span self.now.written.items)) }
    {
        let mut found = found;
        for block in span.first / BLOCK..span.end / BLOCK + 1 {
            let part = Span {
                first: span.first.max(BLOCK * block),
                end: span.end.min(BLOCK * block + BLOCK),
            };
            found = self.least_in(block, part, found, begin, flagged);
        }
        found
    }

    // The places of what is left that the mark covers. Two binary searches.
    fn covered_by(&self, mark: MarkRef<'_>) -> Span
        ensures order { result.first ≤ result.end }
        ensures within { result.end ≤ length self.now.written.items }
        ensures covered { CountCovered (lent_mark mark.entry) (remaining self.now)
            (in_span result self.now.written.items) }
    {
        let span = covered(&self.written[self.start..], mark);
        Span {
            first: self.start + span.first,
            end: self.start + span.end,
        }
    }

    // The number that was found, or the least commit number above `begin` that has written a key that the mark covers, of those with
    // the flag where these alone are asked for, where that is lesser. Two binary searches, and a look at the bound of each block
    // under the mark, unless the bound of the part rules out a lesser number.
    pub(crate) fn least(
        &self,
        mark: MarkRef<'_>,
        found: Option<u64>,
        begin: u64,
        flagged: bool,
    ) -> Option<u64>
        ensures { result ≡ lesser found (least (asked_of (lent_mark mark.entry) begin flagged) (remaining self.now)) }
    {
        if !self.can_improve(found, begin, flagged) {
            return found;
        }
        self.least_between(self.covered_by(mark), found, begin, flagged)
    }

    // Scans the postings of a span, but for those that were scanned just before.
    fn scan_span(&self, span: Span, scan: Scan, begin: u64, flagged: bool) -> Scan
        requires order { span.first ≤ span.end }
        requires within { span.end ≤ length self.now.written.items }
        requires looked { IsScanned scan begin flagged self.now.written.items }
        ensures found { result.found
            ≡ lesser scan.found (least (is_asked begin flagged) (in_span span self.now.written.items)) }
        ensures looked { IsScanned result begin flagged self.now.written.items }
    {
        let seen = scan.seen;
        if span.first < seen.first || seen.end < span.first {
            let found = self.least_between(span, scan.found, begin, flagged);
            return Scan { found, seen: span };
        }
        if span.end <= seen.end {
            return scan;
        }
        let rest = Span {
            first: seen.end,
            end: span.end,
        };
        let found = self.least_between(rest, scan.found, begin, flagged);
        let seen = Span {
            first: seen.first,
            end: span.end,
        };
        Scan { found, seen }
    }

    // Scans the postings that the mark covers.
    fn scan_mark(&self, mark: MarkRef<'_>, scan: Scan, begin: u64, flagged: bool) -> Scan
        requires { IsScanned scan begin flagged self.now.written.items }
        ensures found { result.found
            ≡ lesser scan.found (least (asked_of (lent_mark mark.entry) begin flagged) (remaining self.now)) }
        ensures looked { IsScanned result begin flagged self.now.written.items }
    {
        if !self.can_improve(scan.found, begin, flagged) {
            return scan;
        }
        self.scan_span(self.covered_by(mark), scan, begin, flagged)
    }

    // Scans the postings that the mark at a place covers, if there is one.
    fn scan_mark_at(
        &self,
        marks: &[OwnedMark],
        place: u8,
        scan: Scan,
        begin: u64,
        flagged: bool,
    ) -> Scan
        requires { IsScanned scan begin flagged self.now.written.items }
        ensures found { result.found
            ≡ lesser scan.found (least (asked_there (marks_of marks.now) place begin flagged) (remaining self.now)) }
        ensures looked { IsScanned result begin flagged self.now.written.items }
    {
        match marks.get(place as usize) {
            Some(mark) => self.scan_mark(mark.lend(), scan, begin, flagged),
            None => scan,
        }
    }

    // As `least`, for several marks. Each posting is scanned once, whatever the number of marks that cover it.
    pub(crate) fn least_covered(
        &self,
        order: &ByStart<'_>,
        found: Option<u64>,
        begin: u64,
        flagged: bool,
    ) -> Option<u64>
        ensures { result
            ≡ lesser found (least (covered_of (marks_of order.now.marks.now) begin flagged) (remaining self.now)) }
    {
        if !self.can_improve(found, begin, flagged) {
            return found;
        }
        let mut scan = Scan {
            found,
            seen: Span { first: 0, end: 0 },
        };
        let places = order.places.as_slice();
        for place in places {
            scan = self.scan_mark_at(order.marks, *place, scan, begin, flagged);
        }
        scan.found
    }

    // The first of what is left.
    pub(crate) fn first(&self) -> Option<&Written>
        ensures some { IfSome result (λ w. remaining self.now
            ≡ w.now ∷ drop (self.now.start + 1) self.now.written.items) }
        ensures there { IfSome result (λ w. self.now.start < length self.now.written.items) }
        ensures none { result ≡ None → length self.now.written.items ≤ self.now.start }
    {
        self.written.get(self.start)
    }
}
