//! The marks of one transaction: each once, and 256 at most.
ghost use Rattle.std.specs.Prelude.{◌≡◌, ◌≤◌, ◌↔◌, [], length, IsTrue, IsOk, OnOk, OnErr, IfOk, Err};
ghost use Rattle.std.specs.Ordering.{is_le};
ghost use Rattle.model.specs.PrivateCopy.{is_covered};
ghost use Rattle.model.specs.Map.{key_cmp};
ghost use Rattle.model.specs.PrivateCopy.Mark.{OfKey};
ghost use Rattle.marks.specs.Marked.{has_mark, is_full_for_mark, marks_of, with_mark, range_mark, closed_range_mark};

use crate::faults::MarksFault;
use crate::owned::OwnedMark;
use model::{Key, KeyRef, Memory, RangeRef};
use std::alloc::Global;
use std::marker::Model;

/// The most marks of a transaction.
pub const MARKS_MAX: usize = 256;

/// The marks of a transaction. A clause sees them in the order in which they were made.
#[derive(Drop)]
pub struct Marks {
    marks: Vec<OwnedMark>,
}

impl Model for Marks {
    ghost use Rattle.std.specs.Prelude.{List, length, ◌≤◌};
    ghost use Rattle.model.specs.PrivateCopy.{Mark};
    ghost use Rattle.marks.specs.declared.marks.TheConstants.{MARKS_MAX};
    ghost use Rattle.marks.specs.Marked.{marks_of};

    ghost Value = { List Mark };

    ghost view = { λ m. marks_of m.marks.items };

    ghost invariant = { λ m. length m.marks.items ≤ MARKS_MAX };
}

impl Marks {
    /// No marks. Takes no memory.
    pub fn new(alloc: Global) -> Marks
        ensures { result ≡ [] }
    {
        Marks {
            marks: Vec::new(alloc),
        }
    }

    /// Lends the marks, in the order in which they were made. Takes no memory.
    pub fn as_slice(&self) -> &[OwnedMark]
        ensures marks { marks_of result.now ≡ self.now }
        ensures few { length result.now ≤ MARKS_MAX }
    {
        &self.marks
    }

    /// Is the key among the reads, that is, does some mark cover it? Takes no memory.
    pub fn covers(&self, key: KeyRef<'_>) -> bool
        ensures { result ≡ is_covered self.now key.entry.bytes.now }
    {
        for mark in &self.marks {
            if mark.lend().covers(key) {
                return true;
            }
        }
        false
    }

    /// Marks a key. A mark that is there takes no memory and succeeds. A new one takes a copy of the key and a place; the marks are as
    /// they were where it answers `FullMarks`, which it does where 256 are there, or `Memory`.
    pub fn add_key(&mut self, key: KeyRef<'_>) -> Result<(), MarksFault>
        ensures ok { OnOk result (self.new ≡ with_mark self.old (OfKey key.entry.bytes.now)) }
        ensures err { OnErr result (self.new ≡ self.old) }
        ensures full { (result ≡ Err MarksFault.FullMarks)
            ↔ IsTrue (is_full_for_mark self.old (OfKey key.entry.bytes.now)) }
        ensures known { IsTrue (has_mark self.old (OfKey key.entry.bytes.now)) → IsOk result }
    {
        if self.has_key(key) {
            return Ok(());
        }
        if self.marks.len() >= MARKS_MAX {
            return Err(MarksFault::FullMarks);
        }
        let alloc = *self.marks.allocator();
        let mark = OwnedMark::Key(Key::from_ref(alloc, key)?);
        self.marks.push(mark)?;
        Ok(())
    }

    /// Marks all keys of a range, present or not. A mark that is there takes no memory and succeeds. A new one takes copies of the bounds
    /// and a place; the marks are as they were where it answers `FullMarks`, which it does where 256 are there, or `Memory`.
    pub fn add_range(&mut self, range: RangeRef<'_>) -> Result<(), MarksFault>
        ensures ok { OnOk result (self.new ≡ with_mark self.old (range_mark range.entry)) }
        ensures err { OnErr result (self.new ≡ self.old) }
        ensures full { (result ≡ Err MarksFault.FullMarks)
            ↔ IsTrue (is_full_for_mark self.old (range_mark range.entry)) }
        ensures known { IsTrue (has_mark self.old (range_mark range.entry)) → IsOk result }
    {
        if self.has_range(range) {
            return Ok(());
        }
        if self.marks.len() >= MARKS_MAX {
            return Err(MarksFault::FullMarks);
        }
        let alloc = *self.marks.allocator();
        let mark = OwnedMark::from_range(alloc, range)?;
        self.marks.push(mark)?;
        Ok(())
    }

    /// Marks all keys from `lo` to `last`, both included, present or not: what a range read marks that reached its limit at `last`. A mark
    /// that is there takes no memory and succeeds. A new one takes copies of the two keys and a place; the marks are as they were where
    /// it answers `FullMarks`, which it does where 256 are there, or `Memory`.
    pub fn add_upto(&mut self, lo: KeyRef<'_>, last: KeyRef<'_>) -> Result<(), MarksFault>
        requires { IsTrue (is_le (key_cmp lo.bytes.now last.bytes.now)) }
        ensures ok { OnOk result (self.new ≡ with_mark self.old (closed_range_mark lo.entry last.entry)) }
        ensures err { OnErr result (self.new ≡ self.old) }
        ensures full { (result ≡ Err MarksFault.FullMarks)
            ↔ IsTrue (is_full_for_mark self.old (closed_range_mark lo.entry last.entry)) }
        ensures known { IsTrue (has_mark self.old (closed_range_mark lo.entry last.entry)) → IsOk result }
    {
        if self.has_upto(lo, last) {
            return Ok(());
        }
        if self.marks.len() >= MARKS_MAX {
            return Err(MarksFault::FullMarks);
        }
        let alloc = *self.marks.allocator();
        let mark = OwnedMark::from_ends(alloc, lo, last)?;
        self.marks.push(mark)?;
        Ok(())
    }

    /// The same marks once more. It takes as much memory as they hold; `Memory` where it is refused.
    pub fn copy(&self) -> Result<Marks, Memory>
        ensures { IfOk result (λ m. m ≡ self.now) }
    {
        let alloc = *self.marks.allocator();
        let mut marks = Vec::with_capacity(alloc, self.marks.len())?;
        for mark in &self.marks {
            marks.push(mark.copy()?)?;
        }
        Ok(Marks { marks })
    }

    // Is this mark there?
    fn has_key(&self, key: KeyRef<'_>) -> bool
        ensures { result ≡ has_mark self.now (OfKey key.entry.bytes.now) }
    {
        for mark in &self.marks {
            if mark.is_key(key) {
                return true;
            }
        }
        false
    }

    // Is this mark there?
    fn has_range(&self, range: RangeRef<'_>) -> bool
        ensures { result ≡ has_mark self.now (range_mark range.entry) }
    {
        for mark in &self.marks {
            if mark.is_range(range) {
                return true;
            }
        }
        false
    }

    // Is this mark there?
    fn has_upto(&self, lo: KeyRef<'_>, last: KeyRef<'_>) -> bool
        ensures { result ≡ has_mark self.now (closed_range_mark lo.entry last.entry) }
    {
        for mark in &self.marks {
            if mark.is_from_to(lo, last) {
                return true;
            }
        }
        false
    }
}
