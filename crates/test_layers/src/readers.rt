//! The last readers of keys: worked commits, and how much is kept of many.
ghost use Rattle.std.specs.Prelude.{◌≤◌};
ghost use Rattle.last_readers.specs.Readers.{AreUpto};

use crate::helpers::key;
use arrayvec::ArrayVec;
use last_readers::LastReaders;
use marks::{Marks, MarksFault};
use model::{KeyRef, RangeRef};
use std::alloc::Global;
use std::process::Abort;

// The last readers after some commits, and the number of the last of these.
#[derive(Drop)]
struct Commits {
    readers: LastReaders,
    last: u64,
    ghost upto: { AreUpto last readers.readers },
    ghost oldest: { readers.readers.oldest ≤ last },
}

impl Commits {
    fn new(alloc: Global) -> Commits {
        Commits {
            readers: LastReaders::new(alloc),
            last: 0,
        }
    }

    // One more commit, which has read what the marks cover: its number.
    fn commit<R: Abort>(&mut self, rt: &R, marks: &Marks) -> u64 {
        assert!(rt; self.last < u64::MAX);
        let number = self.last + 1;
        self.readers
            .reserve(marks, &ArrayVec::new())
            .expect(rt, "memory");
        self.readers.note(number);
        self.last = number;
        number
    }

    // A step of forgetting the numbers up to that one: whether more are needed.
    fn forget_step(&mut self, oldest: u64) -> bool {
        oldest <= self.last && self.readers.forget_step(oldest)
    }

    fn forget(&mut self, oldest: u64) {
        if oldest <= self.last {
            self.readers.forget(oldest);
        }
    }
}

// Marks a key, a range with or without an end, or the keys from one to another.
fn mark(marks: &mut Marks, kind: u64, first: &[u8], end: &[u8]) -> Result<(), MarksFault> {
    let (Some(lo), Some(hi)) = (KeyRef::new(first), KeyRef::new(end)) else {
        return Ok(());
    };
    match kind % 8 {
        0 => marks.add_range(RangeRef { lo, hi: None }),
        1 | 2 => marks.add_range(RangeRef { lo, hi: Some(hi) }),
        3 | 4 => {
            if lo.order(hi).is_le() {
                marks.add_upto(lo, hi)
            } else {
                Ok(())
            }
        }
        _ => marks.add_key(lo),
    }
}

// A few marks, and the next number of a fixed sequence.
fn some_marks<R: Abort + AllocGlobal>(rt: &R, seed: u64) -> (Marks, u64) {
    let mut marks = Marks::new(rt.alloc());
    let mut next = seed;
    for _ in 0..seed % 5 {
        next = next
            .wrapping_mul(6_364_136_223_846_793_005)
            .wrapping_add(1_442_695_040_888_963_407);
        let lo = (next / 65_536 % 48) as u8;
        let hi = (next / 16_777_216 % 48) as u8;
        mark(&mut marks, next / 4_294_967_296, &[lo], &[hi]).expect(rt, "marked");
    }
    next = next.wrapping_mul(6_364_136_223_846_793_005).wrapping_add(1);
    (marks, next / 2)
}

/// Runs and their steps stay few while old transactions come and go, and none is left once all are forgotten.
#[test]
fn last_readers_stay_in_few_runs(rt: HostRuntime) {
    let mut commits = Commits::new(rt.alloc());
    let mut seed = 4;
    for i in 0..3_000u64 {
        let (marks, next) = some_marks(&rt, seed);
        seed = next;
        commits.commit(&rt, &marks);
        if i % 16 == 15 {
            commits.forget_step(i / 2);
        }
        assert!(rt; commits.readers.runs() <= 24, "after commit {i}");
        assert!(rt; commits.readers.steps() <= 96, "after commit {i}");
    }
    commits.forget(3_000);
    assert!(rt; commits.readers.runs() == 0);
    assert!(rt; commits.readers.steps() == 0);
}

#[test]
fn worked_last_readers(rt: HostRuntime) {
    let mut commits = Commits::new(rt.alloc());
    for (kind, first, end) in [(1, b"a", b"c"), (5, b"b", b"b"), (3, b"c", b"d")] {
        let mut marks = Marks::new(rt.alloc());
        mark(&mut marks, kind, first, end).expect(&rt, "marked");
        commits.commit(&rt, &marks.copy().expect(&rt, "memory"));
    }
    let rows: [(&[u8], Option<u64>, Option<u64>); 6] = [
        (b"a", Some(1), None),
        (b"b", Some(2), None),
        (b"c", Some(3), Some(3)),
        (b"d", Some(3), Some(3)),
        (b"da", None, None),
        (b"e", None, None),
    ];
    for (name, from_the_start, later) in rows {
        let key = KeyRef::new(name).expect(&rt, "a key");
        assert!(rt; commits.readers.last(key, 0) == from_the_start, "{name:?}");
        assert!(rt; commits.readers.last(key, 2) == later, "{name:?}");
    }
    commits.forget(2);
    assert!(rt; commits.readers.last(key(b"b"), 0).is_none());
    assert!(rt; commits.readers.last(key(b"c"), 0) == Some(3));
}

/// Of 300 commits that read a key each the steps of the last one are left once the others are forgotten, and those that a merge had moved.
#[test]
fn partial_runs_of_readers_are_swept(rt: HostRuntime) {
    for at_once in [true, false] {
        let mut commits = Commits::new(rt.alloc());
        for n in 0..300u64 {
            let bytes = [(n / 256) as u8, (n % 256) as u8];
            let mut marks = Marks::new(rt.alloc());
            mark(&mut marks, 5, &bytes, &bytes).expect(&rt, "marked");
            commits.commit(&rt, &marks);
        }
        if at_once {
            commits.forget(299);
        }
        for _ in 0..16 {
            commits.forget_step(299);
        }
        assert!(rt; commits.readers.steps() <= 8);
        assert!(rt; commits.readers.last(key(&[1, 42]), 0).is_none());
        assert!(rt; commits.readers.last(key(&[1, 43]), 0) == Some(300));
    }
}

// The bytes of a key for each of 65,536 numbers, in their order.
fn bytes_of(n: u64) -> [u8; 2] {
    [(n / 256 % 256) as u8, (n % 256) as u8]
}

// One more commit, which has read the keys of 256 numbers.
fn commit_keys<R: Abort + AllocGlobal>(rt: &R, commits: &mut Commits, from: u64) {
    let mut marks = Marks::new(rt.alloc());
    for i in 0..256u64 {
        let bytes = bytes_of(from.wrapping_add(i));
        mark(&mut marks, 5, &bytes, &bytes).expect(rt, "marked");
    }
    commits.commit(rt, &marks);
}

// The last of `count` commits that has read the key of this number, where each has read 56 keys of the one before it.
fn last_of(count: u64, n: u64) -> Option<u64> {
    if count == 0 {
        return None;
    }
    let commit = (n / 200).min(count.saturating_sub(1));
    if n < commit.saturating_mul(200).saturating_add(256) {
        Some(commit.saturating_add(1))
    } else {
        None
    }
}

// Are the last readers those of so many commits, and of a later one that has read the key of 60,000?
fn are_readers(commits: &Commits, count: u64, later: u64) -> bool {
    for i in 0..2_000u64 {
        let n = i.saturating_mul(13);
        if commits.readers.last(key(&bytes_of(n)), 0) != last_of(count, n) {
            return false;
        }
    }
    commits.readers.last(key(&bytes_of(60_000)), 0) == Some(later)
}

/// Long runs are freed in steps, whether merges have begun, are far on or have ended, and the last readers are right meanwhile.
#[test]
fn long_runs_are_freed_in_steps(rt: HostRuntime) {
    for count in [16u64, 33, 60, 61, 62, 63, 64, 100, 127, 128] {
        let mut commits = Commits::new(rt.alloc());
        for i in 0..count {
            commit_keys(&rt, &mut commits, i.saturating_mul(200));
        }
        let mut marks = Marks::new(rt.alloc());
        let bytes = bytes_of(60_000);
        mark(&mut marks, 5, &bytes, &bytes).expect(&rt, "marked");
        let later = commits.commit(&rt, &marks);
        assert!(rt; are_readers(&commits, count, later), "{count} commits");
        let mut calls = 0u64;
        for _ in 0..64 {
            if commits.forget_step(count) {
                calls = calls.saturating_add(1);
            }
            assert!(rt;
                are_readers(&commits, 0, later),
                "{count} commits, call {calls}"
            );
        }
        assert!(rt;
            calls >= count.saturating_mul(200) / 1_024 && calls < 64,
            "{count} commits, {calls} calls"
        );
        assert!(rt; commits.readers.steps() <= 4, "{count} commits");
    }
}
