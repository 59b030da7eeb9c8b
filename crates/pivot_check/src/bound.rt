//! Bounds of the commit numbers in a block of 64 written keys, by which a search passes over blocks.
ghost use Rattle.std.specs.Prelude.{◌≡◌, ◌≤◌, ◌<◌, ◌-◌, ◌^◌, IsTrue, ℕ, min, true, false};
ghost use Rattle.pivot_check.specs.Postings.{Posting, is_asked, postings_from};
ghost use Rattle.pivot_check.specs.Bounds.{allows, is_from_bound, are_from_bound};

use crate::written::Written;

/// How many postings have one bound.
pub(crate) const BLOCK: usize = 64;

/// A number that the commit number of no posting is below, one that that of no flagged posting is below, and one that none is above.
#[derive(Clone, Copy)]
pub(crate) struct Bound {
    pub(crate) number: u64,
    pub(crate) flagged: u64,
    pub(crate) last: u64,
}

impl Bound {
    // A bound of one posting more.
    pub(crate) fn with(self, posting: &Written) -> Bound
        ensures posting { IsTrue (is_from_bound result posting.now) }
        ensures number { result.number ≡ min self.number posting.now.number }
        ensures others { (p : Posting) → IsTrue (is_from_bound self p) → IsTrue (is_from_bound result p) }
    {
        let number = self.number.min(posting.number());
        let last = self.last.max(posting.number());
        let flagged = if posting.has_earlier_target() {
            self.flagged.min(posting.number())
        } else {
            self.flagged
        };
        Bound {
            number,
            flagged,
            last,
        }
    }

    // The same bound, of postings that all have a number above this one.
    pub(crate) fn above(self, oldest: u64) -> Bound
        requires { oldest < 2 ^ 64 - 1 }
        ensures postings { (p : Posting) → oldest < p.number → IsTrue (is_from_bound self p)
            → IsTrue (is_from_bound result p) }
        ensures number { oldest < result.number }
        ensures rises { self.number ≤ result.number }
    {
        Bound {
            number: self.number.max(oldest + 1),
            flagged: self.flagged,
            last: self.last,
        }
    }

    // The bound of no postings, by which none is asked for.
    pub(crate) fn of_none() -> Bound
        ensures { result.number ≡ 2 ^ 64 - 1 }
    {
        Bound {
            number: u64::MAX,
            flagged: u64::MAX,
            last: 0,
        }
    }

    // The bound of these postings.
    pub(crate) fn of(postings: &[Written]) -> Bound
        ensures bound { IsTrue (are_from_bound result postings.now) }
        ensures from { (n : ℕ) → n < 2 ^ 64 → IsTrue (postings_from n postings.now) → n ≤ result.number }
    {
        let mut bound = Bound::of_none();
        for posting in postings {
            bound = bound.with(posting);
        }
        bound
    }

    // May a posting of this bound that is asked for, above `begin`, have a number up to `most`?
    pub(crate) fn allows(self, most: u64, begin: u64, flagged: bool) -> bool
        ensures allows { result ≡ allows self most begin flagged }
        ensures none { result ≡ false → (p : Posting) → is_from_bound self p ≡ true → is_asked begin flagged p ≡ true
            → most < p.number }
    {
        let least = if flagged { self.flagged } else { self.number };
        begin < most && begin < self.last && least <= most
    }
}
