//! What a transaction has read.

use model::{Key, KeyRef, Memory, Range, RangeRef};
use std::alloc::Global;

#[derive(Drop)]
enum Reading {
    Key(Key),
    Range(Range),
    ClosedRange(Key, Key),
}

/// A key or a range of keys that was read.
#[derive(Drop)]
pub struct Mark {
    reading: Reading,
}

impl Mark {
    pub fn of_key(alloc: Global, key: KeyRef<'_>) -> Result<Mark, Memory> {
        let key = Key::from_ref(alloc, key)?;
        Ok(Mark {
            reading: Reading::Key(key),
        })
    }

    pub fn of_range(alloc: Global, range: RangeRef<'_>) -> Result<Mark, Memory> {
        let lo = Key::from_ref(alloc, range.lo)?;
        let hi = match range.hi {
            None => None,
            Some(hi) => Some(Key::from_ref(alloc, hi)?),
        };
        Ok(Mark {
            reading: Reading::Range(Range { lo, hi }),
        })
    }

    /// The mark of all keys from the first to the last, both included.
    pub fn of_ends(alloc: Global, lo: KeyRef<'_>, last: KeyRef<'_>) -> Result<Mark, Memory> {
        let lo = Key::from_ref(alloc, lo)?;
        let last = Key::from_ref(alloc, last)?;
        Ok(Mark {
            reading: Reading::ClosedRange(lo, last),
        })
    }

    /// The mark of a read of the range that ended at this key, where others may follow it, or that found all.
    pub fn of_page(
        alloc: Global,
        range: RangeRef<'_>,
        end: Option<KeyRef<'_>>,
    ) -> Result<Mark, Memory> {
        match end {
            Some(last) => Mark::of_ends(alloc, range.lo, last),
            None => Mark::of_range(alloc, range),
        }
    }

    pub fn copy(&self, alloc: Global) -> Result<Mark, Memory> {
        match &self.reading {
            Reading::Key(key) => Mark::of_key(alloc, key.lend()),
            Reading::Range(range) => {
                let hi = match &range.hi {
                    None => None,
                    Some(hi) => Some(hi.lend()),
                };
                Mark::of_range(
                    alloc,
                    RangeRef {
                        lo: range.lo.lend(),
                        hi,
                    },
                )
            }
            Reading::ClosedRange(lo, last) => Mark::of_ends(alloc, lo.lend(), last.lend()),
        }
    }

    pub fn covers(&self, key: KeyRef<'_>) -> bool {
        match &self.reading {
            Reading::Key(read) => read.lend().order(key).is_eq(),
            Reading::Range(range) => {
                let is_from = range.lo.lend().order(key).is_le();
                let is_below = match &range.hi {
                    None => true,
                    Some(hi) => key.order(hi.lend()).is_lt(),
                };
                is_from && is_below
            }
            Reading::ClosedRange(lo, last) => {
                let is_from = lo.lend().order(key).is_le();
                is_from && key.order(last.lend()).is_le()
            }
        }
    }

    pub fn is_same(&self, other: &Mark) -> bool {
        match (&self.reading, &other.reading) {
            (Reading::Key(key), Reading::Key(other)) => key.lend().order(other.lend()).is_eq(),
            (Reading::Range(range), Reading::Range(other)) => is_same_range(range, other),
            (Reading::ClosedRange(lo, last), Reading::ClosedRange(first, end)) => {
                let is_first = lo.lend().order(first.lend()).is_eq();
                is_first && last.lend().order(end.lend()).is_eq()
            }
            _ => false,
        }
    }
}

fn is_same_range(range: &Range, other: &Range) -> bool {
    let is_same_end = match (&range.hi, &other.hi) {
        (None, None) => true,
        (Some(hi), Some(end)) => hi.lend().order(end.lend()).is_eq(),
        _ => false,
    };
    range.lo.lend().order(other.lo.lend()).is_eq() && is_same_end
}

/// Is the mark one of these?
pub fn is_among(marks: &[Mark], mark: &Mark) -> bool {
    for m in marks {
        if mark.is_same(m) {
            return true;
        }
    }
    false
}

/// Does one of the marks cover the key?
pub fn is_covering(marks: &[Mark], key: KeyRef<'_>) -> bool {
    for m in marks {
        if m.covers(key) {
            return true;
        }
    }
    false
}

/// A copy of the marks.
pub fn copied_marks(alloc: Global, marks: &[Mark]) -> Result<Vec<Mark>, Memory> {
    let mut out = Vec::new(alloc);
    for m in marks {
        out.push(m.copy(alloc)?)?;
    }
    Ok(out)
}
