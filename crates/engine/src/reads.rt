//! GET and RANGE: they mark what they read, and lend the values.
use crate::engine::Engine;
use crate::faults::ReadFault;
use model::{KeyRef, RangeRef};
use sector::Sectors;
use snapshot::Rows;

impl<D: Sectors> Engine<D> {
    ghost use Rattle.std.specs.Prelude.{◌≤◌, length, IfOk, IfSome, IsOk};
    ghost use Rattle.model.specs.declared.values.TheConstants.{PAIRS_MAX};
    ghost use Rattle.model.specs.Key.{IsValue};
    ghost use Rattle.model.specs.Map.{IsInBounds};
    ghost use Rattle.std.specs.Borrow.{sem};
    ghost use Rattle.std.specs.Io.BufRead.{Rests};
    ghost use Rattle.snapshot.specs.RowPairs.{row_pairs};
    ghost use Rattle.engine.specs.Meaning.{GetLeads, RangeLeads, WhereOpen, copy_in, IsKnownKey};
    ghost use Rattle.snapshot.specs.Made.{IsKnownRange};
    ghost use Rattle.engine.specs.contracts.engine.Engine.{the_row};

    /// Lends what the session's private copy has at the key, `VALUE_MAX` bytes at most, and `None` where it has nothing. The key is
    /// marked as read, unless the transaction wrote it.
    ///
    /// Refusals: `NotOpen`; `FullMarks` for a 257th mark. It may take a copy of the key and room for a mark; `Memory` where that is
    /// refused, never for a key that is written or marked.
    pub fn get(&mut self, s: u64, key: KeyRef<'_>) -> Result<Option<&[u8]>, ReadFault>
        ensures known { WhereOpen self.old s (λ m t. IsKnownKey m t key.entry.bytes.now → IsOk result) }
        ensures short { IfOk result (λ value. IfSome value (λ v. IsValue v.now)) }
        ensures* after { sem 𝓛
            (Rests (the_row D.row D.Sectors) self.entry (λ new. GetLeads self.old new s key.entry result)) }
    {
        let versions = self.history.versions();
        match self.running.get_mut(&s) {
            Some(transaction) => match transaction.get(versions, key) {
                Ok(value) => Ok(value),
                Err(fault) => Err(ReadFault::from(fault)),
            },
            None => Err(ReadFault::NotOpen),
        }
    }

    /// Lends the first pairs of a range in the session's private copy, by rising key, at most `limit`, from 1 to 128. Where they are as
    /// many as the limit, the keys from `lo` to the last of them are marked as read, both included; else the whole range is, unless it is
    /// empty.
    ///
    /// It doesn't count the pages that it has looked at, since it lends the rows: who has read them calls `count_pages`.
    ///
    /// Refusals: `NotOpen`; `FullMarks` for a 257th mark. It may take copies of two keys and room for a mark; `Memory` where that is
    /// refused, never for a range that is empty or whose reply asks for a mark that is there.
    pub fn range(&mut self, s: u64, range: RangeRef<'_>, limit: u8) -> Result<Rows<'_>, ReadFault>
        requires { (1 ≤ limit) × (limit ≤ PAIRS_MAX) }
        ensures known { WhereOpen self.old s (λ m t. IsKnownRange (copy_in m t) range.entry limit → IsOk result) }
        ensures few { IfOk result (λ rows. length (row_pairs rows) ≤ limit) }
        ensures in_bounds { IfOk result (λ rows. IsInBounds (row_pairs rows)) }
        ensures* after { sem 𝓛
            (Rests (the_row D.row D.Sectors) self.entry (λ new. RangeLeads self.old new s range.entry limit result)) }
    {
        let versions = self.history.versions();
        match self.running.get_mut(&s) {
            Some(transaction) => match transaction.range(versions, range, limit) {
                Ok(rows) => Ok(rows),
                Err(fault) => Err(ReadFault::from(fault)),
            },
            None => Err(ReadFault::NotOpen),
        }
    }
}
