//! A borrowed mark, and which keys it covers.
ghost use Rattle.std.specs.Prelude.{◌≡◌};
ghost use Rattle.model.specs.PrivateCopy.{covers};
ghost use Rattle.marks.specs.Lent.{lent_mark};
ghost use Rattle.marks.specs.Marked.{start_of};

use model::{KeyRef, RangeRef};

/// A mark that is lent.
#[derive(Clone, Copy)]
pub enum MarkRef<'a> {
    /// The key.
    Key(KeyRef<'a>),
    /// All keys of the range.
    Range(RangeRef<'a>),
    /// From the first key to the last, both included.
    ClosedRange { lo: KeyRef<'a>, last: KeyRef<'a> },
}

impl<'a> MarkRef<'a> {
    /// The least key that the mark may cover. Takes no memory.
    pub fn start(self) -> KeyRef<'a>
        ensures { result.bytes.now ≡ start_of (lent_mark self.entry) }
    {
        match self {
            MarkRef::Key(key) => key,
            MarkRef::Range(range) => range.lo,
            MarkRef::ClosedRange { lo, .. } => lo,
        }
    }

    /// Does the mark cover the key? Takes no memory.
    pub fn covers(self, key: KeyRef<'_>) -> bool
        ensures { result ≡ covers (lent_mark self.entry) key.entry.bytes.now }
    {
        match self {
            MarkRef::Key(own) => own.order(key).is_eq(),
            MarkRef::Range(range) => {
                if range.lo.order(key).is_gt() {
                    return false;
                }
                match range.hi {
                    Some(hi) => key.order(hi).is_lt(),
                    None => true,
                }
            }
            MarkRef::ClosedRange { lo, last } => {
                lo.order(key).is_le() && key.order(last).is_le()
            }
        }
    }
}
