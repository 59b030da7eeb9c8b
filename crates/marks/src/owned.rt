//! A mark that owns its keys: a key, a range, or all keys from one to another.
ghost use Rattle.std.specs.Prelude.{◌≡◌, option_map};

use crate::lent::MarkRef;
use model::{Key, KeyRef, Memory, Range, RangeRef};
use std::alloc::Global;

/// A mark that owns its keys.
#[derive(Drop)]
pub enum OwnedMark {
    /// The key.
    Key(Key),
    /// All keys of the range.
    Range(Range),
    /// From the first key to the last, both included.
    ClosedRange { lo: Key, last: Key },
}

// Lends the bounds of a range.
fn lend_range(range: &Range) -> RangeRef<'_>
    ensures lo { result.lo.bytes.now ≡ range.now.lo }
    ensures hi { option_map (λ k. k.bytes.now) result.hi ≡ range.now.hi }
{
    let lo = range.lo.lend();
    match &range.hi {
        None => RangeRef { lo, hi: None },
        Some(hi) => RangeRef {
            lo,
            hi: Some(hi.lend()),
        },
    }
}

impl OwnedMark {
    ghost use Rattle.std.specs.Prelude.{IfOk};
    ghost use Rattle.marks.specs.Marked.{mark_of, range_mark, closed_range_mark};
    ghost use Rattle.marks.specs.Lent.{lent_mark};
    ghost use Rattle.model.specs.PrivateCopy.{is_same_mark};
    ghost use Rattle.model.specs.PrivateCopy.Mark.{OfKey};

    /// Lends the mark. Takes no memory.
    pub fn lend(&self) -> MarkRef<'_>
        ensures { lent_mark result ≡ mark_of self.now }
    {
        match self {
            OwnedMark::Key(key) => MarkRef::Key(key.lend()),
            OwnedMark::Range(range) => MarkRef::Range(lend_range(range)),
            OwnedMark::ClosedRange { lo, last } => MarkRef::ClosedRange {
                lo: lo.lend(),
                last: last.lend(),
            },
        }
    }

    // The same mark once more.
    pub(crate) fn copy(&self) -> Result<OwnedMark, Memory>
        ensures { IfOk result (λ h. mark_of h ≡ mark_of self.now) }
    {
        match self {
            OwnedMark::Key(key) => Ok(OwnedMark::Key(key.copy()?)),
            OwnedMark::Range(range) => {
                let lo = range.lo.copy()?;
                let hi = match &range.hi {
                    None => None,
                    Some(hi) => Some(hi.copy()?),
                };
                Ok(OwnedMark::Range(Range { lo, hi }))
            }
            OwnedMark::ClosedRange { lo, last } => {
                let lo = lo.copy()?;
                let last = last.copy()?;
                Ok(OwnedMark::ClosedRange { lo, last })
            }
        }
    }

    // The mark of a lent range.
    pub(crate) fn from_range(alloc: Global, range: RangeRef<'_>) -> Result<OwnedMark, Memory>
        ensures { IfOk result (λ h. mark_of h ≡ range_mark range.entry) }
    {
        let lo = Key::from_ref(alloc, range.lo)?;
        let hi = match range.hi {
            None => None,
            Some(hi) => Some(Key::from_ref(alloc, hi)?),
        };
        Ok(OwnedMark::Range(Range { lo, hi }))
    }

    // The mark of all keys from the first to the last.
    pub(crate) fn from_ends(
        alloc: Global,
        lo: KeyRef<'_>,
        last: KeyRef<'_>,
    ) -> Result<OwnedMark, Memory>
        ensures { IfOk result (λ h. mark_of h ≡ closed_range_mark lo.entry last.entry) }
    {
        let lo = Key::from_ref(alloc, lo)?;
        let last = Key::from_ref(alloc, last)?;
        Ok(OwnedMark::ClosedRange { lo, last })
    }

    // Is it the mark of this key?
    pub(crate) fn is_key(&self, key: KeyRef<'_>) -> bool
        ensures { result ≡ is_same_mark (OfKey key.entry.bytes.now) (mark_of self.now) }
    {
        match self {
            OwnedMark::Key(own) => key.order(own.lend()).is_eq(),
            OwnedMark::Range(_) | OwnedMark::ClosedRange { .. } => false,
        }
    }

    // Is it the mark of this range?
    pub(crate) fn is_range(&self, range: RangeRef<'_>) -> bool
        ensures { result ≡ is_same_mark (range_mark range.entry) (mark_of self.now) }
    {
        match self {
            OwnedMark::Key(_) | OwnedMark::ClosedRange { .. } => false,
            OwnedMark::Range(own) => {
                if !range.lo.order(own.lo.lend()).is_eq() {
                    return false;
                }
                match (range.hi, &own.hi) {
                    (None, None) => true,
                    (Some(hi), Some(end)) => hi.order(end.lend()).is_eq(),
                    _ => false,
                }
            }
        }
    }

    // Is it the mark from this key to that one?
    pub(crate) fn is_from_to(&self, first: KeyRef<'_>, end: KeyRef<'_>) -> bool
        ensures { result ≡ is_same_mark (closed_range_mark first.entry end.entry) (mark_of self.now) }
    {
        match self {
            OwnedMark::Key(_) | OwnedMark::Range(_) => false,
            OwnedMark::ClosedRange { lo, last } => {
                first.order(lo.lend()).is_eq() && end.order(last.lend()).is_eq()
            }
        }
    }
}
