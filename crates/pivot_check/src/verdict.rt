//! The verdict on a commit: cleared, with what is kept of that, or the reason for which it is refused.
ghost use Rattle.std.specs.Prelude.{◌≡◌};

/// What `Committed::verdict` says of a transaction that may commit, and `Committed::note` keeps of it.
#[derive(Debug, Drop, PartialEq, Eq)]
pub struct Cleared {
    has_earlier_target: bool,
}

impl Cleared {
    // Of a transaction that has such a dependency, or has none.
    pub(crate) fn new(has_earlier_target: bool) -> Cleared
        ensures { result ≡ record { has_earlier_target = has_earlier_target } }
    {
        Cleared { has_earlier_target }
    }

    /// Has the transaction a read-write dependency to a concurrent one that committed before it? Takes no memory.
    pub fn has_earlier_target(&self) -> bool
        ensures { result ≡ self.now.has_earlier_target }
    {
        self.has_earlier_target
    }
}

/// Whether a transaction may commit, and what it is refused for.
#[derive(Debug, Drop, PartialEq, Eq)]
pub enum Verdict {
    /// It may commit.
    Clear(Cleared),
    /// A transaction that committed since it began has written a key that it wrote too. The number is the place of the least
    /// such key among its entries.
    Overwritten(usize),
    /// It would be a dangerous pivot.
    PivotSelf,
    /// It would make this committed transaction a dangerous pivot: the one of least commit number.
    Pivot(u64),
}
