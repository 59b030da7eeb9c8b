//! Written keys by rising key, each with the commit number and the flag of its writer.
ghost use Rattle.std.specs.Prelude.{◌≡◌, ◌≤◌, ◌<◌, ◌+◌, ◌-◌, ◌&&◌, ◌||◌, ◌==◌, ℕ, [], ◌∷◌, if◌then◌else◌};
ghost use Rattle.std.specs.Prelude.{Bool, IsTrue, None, Some, count_by, length, nat_lt, not, take};
ghost use Rattle.std.specs.List.{insert, list_any};
ghost use Rattle.merging_runs.specs.Next.{IsNext};
ghost use Rattle.std.specs.Vec.{vec_len, vec_capacity};
ghost use Rattle.marks.specs.Lent.{lent_mark};
ghost use Rattle.marks.specs.Marked.{start_of};
ghost use Rattle.pivot_check.specs.Bounds.{in_span};
ghost use Rattle.pivot_check.specs.Active.{reach_of};
ghost use Rattle.pivot_check.specs.Redundant.{is_redundant};
ghost use Rattle.pivot_check.specs.Postings.{CountBoth, CountCovered, Posting, number_asked, postings_by, keys_rise};
ghost use Rattle.pivot_check.specs.Postings.{IsCountBelow, have_keys_from, least, lesser, is_asked};

use crate::active::ActiveBegins;
use marks::MarkRef;
use merging_runs::next_of;
use model::{Key, KeyRef};
use std::alloc::Global;
use std::marker::Model;
use std::mem;

/// A written key, with the commit number and the flag of the transaction that wrote it.
#[derive(Drop)]
pub(crate) struct Written {
    key: Key,
    number: u64,
    has_earlier_target: bool,
}

impl Model for Written {
    ghost use Rattle.pivot_check.specs.Postings.{Posting};

    ghost Value = { Posting };

    ghost view = { λ w. record { key = w.key; number = w.number; has_earlier_target = w.has_earlier_target } };
}

impl Written {
    pub(crate) fn number(&self) -> u64
        ensures { result ≡ self.now.number }
    {
        self.number
    }

    pub(crate) fn has_earlier_target(&self) -> bool
        ensures { result ≡ self.now.has_earlier_target }
    {
        self.has_earlier_target
    }

    pub(crate) fn key(&self) -> KeyRef<'_>
        ensures { result.bytes.now ≡ self.now.key }
    {
        self.key.lend()
    }

    // Does it answer whoever may ask wherever another of the same key would?
    pub(crate) fn makes_redundant(&self, other: &Written, active: &ActiveBegins) -> bool
        ensures { result ≡ is_redundant (reach_of active.now) self.now other.now }
    {
        self.key().order(other.key()).is_eq()
            && self.number <= other.number
            && (self.has_earlier_target || !other.has_earlier_target)
            && active.is_undivided(self.number, other.number)
    }

    // Takes it: in its place stays a key that takes no memory, with the same number and flag.
    pub(crate) fn take(&mut self, alloc: Global) -> Written
        ensures taken { result ≡ self.old }
        ensures number { self.new.number ≡ self.old.number }
        ensures flag { self.new.has_earlier_target ≡ self.old.has_earlier_target }
    {
        Written {
            key: mem::replace(&mut self.key, no_memory(alloc)),
            number: self.number,
            has_earlier_target: self.has_earlier_target,
        }
    }
}

// A key that takes no memory.
fn no_memory(alloc: Global) -> Key {
    let Some(key) = KeyRef::new(b"-") else {
        unreachable!()
    };
    match Key::from_ref(alloc, key) {
        Ok(key) => key,
        Err(_) => unreachable!(),
    }
}

// The lesser of a number that was found and another.
fn lesser_of(found: Option<u64>, number: u64) -> Option<u64>
    ensures { result ≡ lesser found (Some number) }
{
    match found {
        None => Some(number),
        Some(n) => Some(n.min(number)),
    }
}

// The number that was found, or that of the posting where it is lesser and asked for.
fn found_with(found: Option<u64>, posting: &Written, begin: u64, flagged: bool) -> Option<u64>
    ensures { result ≡ lesser found (number_asked begin flagged posting.now) }
{
    if begin < posting.number && (posting.has_earlier_target || !flagged) {
        lesser_of(found, posting.number)
    } else {
        found
    }
}

// The number that was found, or the least that is asked for of the postings where that is lesser.
pub(crate) fn least_number(
    postings: &[Written],
    found: Option<u64>,
    begin: u64,
    flagged: bool,
) -> Option<u64>
    ensures { result ≡ lesser found (least (is_asked begin flagged) postings.now) }
{
    let mut found = found;
    for posting in postings {
        found = found_with(found, posting, begin, flagged);
    }
    found
}

// The number above `n` that was found, or the least of the postings above it where that is less.
pub(crate) fn next_written(postings: &[Written], found: Option<u64>, n: u64) -> Option<u64>
    ensures { (p : ℕ → Bool) → IsNext p n found
        → IsNext (λ k. p k || list_any (λ q. k == q.number) postings.now) n result }
{
    let mut found = found;
    for posting in postings {
        found = next_of(found, n, posting.number());
    }
    found
}

// How many of the postings have numbers above this one.
pub(crate) fn count_later(postings: &[Written], oldest: u64) -> usize
    ensures { result ≡ count_by (λ p. nat_lt oldest p.number) postings.now }
{
    postings
        .iter()
        .filter(|posting| oldest < posting.number())
        .count()
}

/// Places of postings: from `first` to before `end`.
#[derive(Clone, Copy)]
pub(crate) struct Span {
    pub(crate) first: usize,
    pub(crate) end: usize,
}

// How many of the postings, which begin where the mark may begin to cover keys, it covers. Where it covers none, one look.
fn count_covered(postings: &[Written], mark: MarkRef<'_>) -> usize
    requires rising { IsTrue (keys_rise postings.now) }
    requires from { IsTrue (have_keys_from (start_of (lent_mark mark)) postings.now) }
    ensures within { result ≤ length postings.now }
    ensures covered { CountCovered (lent_mark mark.entry) postings.now (take result postings.now) }
{
    let Some(posting) = postings.first() else {
        return 0;
    };
    if !mark.covers(posting.key()) {
        return 0;
    }
    postings.partition_point(|posting| mark.covers(posting.key()))
}

// How many of the postings have keys below this one. A binary search.
fn count_below(postings: &[Written], key: KeyRef<'_>) -> usize
    requires { IsTrue (keys_rise postings.now) }
    ensures { IsCountBelow key.entry.bytes.now postings.now result }
{
    postings.partition_point(|posting| posting.key().order(key).is_lt())
}

// The postings whose keys the mark covers. Two binary searches.
pub(crate) fn covered(postings: &[Written], mark: MarkRef<'_>) -> Span
    requires { IsTrue (keys_rise postings.now) }
    ensures order { result.first ≤ result.end }
    ensures within { result.end ≤ length postings.now }
    ensures covered { CountCovered (lent_mark mark.entry) postings.now (in_span result postings.now) }
{
    let first = count_below(postings, mark.start());
    let end = first + count_covered(&postings[first..], mark);
    Span { first, end }
}

// Makes postings of the keys that a transaction has written, in the room that was made for them.
pub(crate) fn add_all(
    postings: &mut Vec<Written>,
    keys: Vec<Key>,
    number: u64,
    has_earlier_target: bool,
)
    requires none { length postings.old.items ≡ 0 }
    requires spare { length keys.items ≤ vec_capacity postings.old - vec_len postings.old }
    ensures { postings.new.items ≡ postings_by number has_earlier_target keys.items }
{
    for key in keys {
        postings.push_reserved(Written {
            key,
            number,
            has_earlier_target,
        });
    }
}
