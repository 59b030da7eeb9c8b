//! What is kept of committed transactions, and whether another one may commit.

use crate::marks::{Mark, is_covering};
use crate::pairs::{Value, copied_map, is_same, with_value, without_key};
use model::{Key, KeyRef, Memory, Refusal, Write};
use std::alloc::Global;

/// A committed transaction.
#[derive(Drop)]
pub struct Commit {
    begin: u64,
    commit: u64,
    marks: Vec<Mark>,
    writes: Vec<Write>,
}

impl Commit {
    pub fn new(begin: u64, commit: u64, marks: Vec<Mark>, writes: Vec<Write>) -> Commit {
        Commit {
            begin,
            commit,
            marks,
            writes,
        }
    }

    pub fn writes(&self) -> &[Write] {
        &self.writes
    }

    fn writes_key(&self, key: KeyRef<'_>) -> bool {
        is_written_by(&self.writes, key)
    }

    fn reads_from(&self, other: &Commit) -> bool {
        is_any_covered(&self.marks, other.writes())
    }

    /// Whether there is a read-write dependency to the other one, and both are concurrent.
    fn has_dependency(&self, other: &Commit) -> bool {
        let reads = self.reads_from(other);
        let since = self.begin < other.commit;
        let apart = self.commit != other.commit;
        let before = other.begin < self.commit;
        reads && since && apart && before
    }
}

fn is_written_by(writes: &[Write], key: KeyRef<'_>) -> bool {
    for w in writes {
        if is_same(key, w.lend_key()) {
            return true;
        }
    }
    false
}

fn is_any_covered(marks: &[Mark], writes: &[Write]) -> bool {
    for w in writes {
        if is_covering(marks, w.lend_key()) {
            return true;
        }
    }
    false
}

// Whether the three make p a pivot whose target y committed first.
fn is_dangerous(x: &Commit, p: &Commit, y: &Commit) -> bool {
    let into = x.has_dependency(p);
    let out = p.has_dependency(y);
    let first = y.commit < p.commit && y.commit <= x.commit;
    into && out && first
}

fn has_target_among(commits: &[Commit], x: &Commit, p: &Commit) -> bool {
    for c in commits {
        if is_dangerous(x, p, c) {
            return true;
        }
    }
    false
}

fn has_target(commits: &[Commit], t: &Commit, x: &Commit, p: &Commit) -> bool {
    has_target_among(commits, x, p) || is_dangerous(x, p, t)
}

fn has_source_among(commits: &[Commit], t: &Commit, p: &Commit) -> bool {
    for c in commits {
        if has_target(commits, t, c, p) {
            return true;
        }
    }
    false
}

/// Whether p is a dangerous pivot among the commits and t.
fn is_pivot_among(commits: &[Commit], t: &Commit, p: &Commit) -> bool {
    has_source_among(commits, t, p) || has_target(commits, t, t, p)
}

/// The first written key that is overwritten.
fn overwritten_key<'a>(commits: &[Commit], t: &'a Commit) -> Option<KeyRef<'a>> {
    for w in t.writes() {
        if is_overwritten_in(commits, t, w.lend_key()) {
            return Some(w.lend_key());
        }
    }
    None
}

/// The first commit that is a dangerous pivot.
fn first_pivot(commits: &[Commit], t: &Commit) -> Option<u64> {
    for c in commits {
        if is_pivot_among(commits, t, c) {
            return Some(c.commit);
        }
    }
    None
}

fn is_overwritten_in(commits: &[Commit], t: &Commit, key: KeyRef<'_>) -> bool {
    for c in commits {
        if c.writes_key(key) && t.begin < c.commit {
            return true;
        }
    }
    false
}

/// The conflict for which t, which would commit next, is refused.
pub fn conflict_of(
    alloc: Global,
    commits: &[Commit],
    t: &Commit,
) -> Result<Option<Refusal>, Memory> {
    if let Some(key) = overwritten_key(commits, t) {
        return Ok(Some(Refusal::Overwritten(Key::from_ref(alloc, key)?)));
    }
    if is_pivot_among(commits, t, t) {
        return Ok(Some(Refusal::PivotSelf));
    }
    match first_pivot(commits, t) {
        Some(n) => Ok(Some(Refusal::Pivot(n))),
        None => Ok(None),
    }
}

/// The map with the writes in it.
pub fn with_writes(
    alloc: Global,
    contents: &[(Key, Value)],
    writes: &[Write],
) -> Result<Vec<(Key, Value)>, Memory> {
    let mut out = copied_map(alloc, contents)?;
    for w in writes {
        out = match w.value() {
            Some(value) => with_value(alloc, &out, w.lend_key(), value)?,
            None => without_key(alloc, &out, w.lend_key())?,
        };
    }
    Ok(out)
}

/// The bytes that a write takes in a record.
fn write_size(write: &Write) -> u64 {
    let size = (write.lend_key().bytes().len() as u64).saturating_add(3);
    match write.value() {
        Some(value) => size.saturating_add(4).saturating_add(value.len() as u64),
        None => size,
    }
}

/// The sectors that a record of these writes takes, without its gate.
pub fn body_sectors(writes: &[Write]) -> u64 {
    let size = writes.iter().fold(48, |size: u64, write| {
        size.saturating_add(write_size(write))
    });
    size.div_ceil(512)
}
