//! One transaction: its requests are answered as by a private copy of the map at its begin.
ghost use Rattle.std.specs.Prelude.{◌≡◌, ◌≤◌, ◌<◌, ◌↔◌, [], length, IsTrue, IsOk, IfOk, IfSome, OnOk, OnErr};
ghost use Rattle.std.specs.Prelude.{Err, Some, None, option_copied, is_some, slice_index_or};
ghost use Rattle.std.specs.Borrow.{sem};
ghost use Rattle.std.specs.Io.BufRead.{Rests};
ghost use Rattle.model.specs.Key.{IsValue};
ghost use Rattle.model.specs.Map.{KeyMap, KeyWrite, IsMap, IsInBounds};
ghost use Rattle.model.specs.Operations.Operation.{Get, Set, Del};
ghost use Rattle.model.specs.PrivateCopy.{answer, copy_after, copy_of, reads, writes};
ghost use Rattle.write_buffer.specs.Buffered.{AreEntries, last_write, is_full_for_key};
ghost use Rattle.versions.specs.Meaning.{map_seen};
ghost use Rattle.snapshot.specs.View.{new_view, value_read, after_get, view_after_put, is_full_get, is_known_get};
ghost use Rattle.snapshot.specs.Merged.{is_full_range};
ghost use Rattle.snapshot.specs.RowPairs.{row_pairs};
ghost use Rattle.snapshot.specs.Made.{HasMade, WhereMade, WhereSeen, MakesOneMore, IsFullWhen, IsValueReply};
ghost use Rattle.snapshot.specs.Made.{MarkFaults, IsDoneReply, IsKnownRange, IsLeftByGet, range_read};
ghost use Rattle.snapshot.specs.PairsReply.{IsPairsReply, IsLeftByRange};
ghost use Rattle.snapshot.specs.PageCounts.{CountsItsPages};
ghost use Rattle.snapshot.specs.contracts.transaction.Transaction.{the_row};

use crate::faults::SnapshotFault;
use crate::first_pairs::mark_page;
use crate::merge::MergedPairs;
use crate::rows::Rows;
use crate::spans::within;
use marks::Marks;
use model::{Key, KeyRef, RangeRef, VALUE_MAX, Write};
use std::alloc::Global;
use std::marker::Model;
use versions::Versions;
use write_buffer::{WriteBuffer, WritesFault, Written};

/// A transaction: its begin number, its own writes, and the marks of its reads. It stands for a private copy of the map that its begin
/// number sees, on which it has made its own requests (`HasMade`); what others commit later is nothing to it.
#[derive(Drop)]
pub struct Transaction {
    begin: u64,
    buffer: WriteBuffer,
    marks: Marks,
}

impl Model for Transaction {
    ghost use Rattle.write_buffer.specs.Buffered.{AreEntries};
    ghost use Rattle.snapshot.specs.View.{View};

    ghost Value = { View };

    ghost view = { λ t. record { begin = t.begin; writes = t.buffer; marks = t.marks } };

    ghost invariant = { λ t. AreEntries t.buffer };
}

impl Transaction {
    /// A transaction that begins at this number and has made no request. Takes no memory.
    pub fn new(alloc: Global, begin: u64) -> Transaction
        ensures new { result ≡ new_view begin }
        ensures made { (m : KeyMap) → IsMap m → HasMade result m [] }
    {
        Transaction {
            begin,
            buffer: WriteBuffer::new(alloc),
            marks: Marks::new(alloc),
        }
    }

    /// The number at which it began.
    pub fn begin(&self) -> u64
        ensures { result ≡ self.now.begin }
    {
        self.begin
    }

    /// The marks of its reads. Takes no memory.
    pub fn marks(&self) -> &Marks
        ensures marks { result.now ≡ self.now.marks }
        ensures made { WhereMade self.now (λ m qs. result.now ≡ reads m qs) }
    {
        &self.marks
    }

    /// The last writes, by rising key. Takes no memory.
    pub fn entries(&self) -> &[Write]
        ensures writes { result.now ≡ self.now.writes }
        ensures entries { AreEntries self.now.writes }
        ensures made { WhereMade self.now (λ m qs. result.now ≡ writes m qs) }
    {
        self.buffer.entries()
    }

    /// Hands the last writes out, by rising key. Takes no memory.
    pub fn into_writes(self) -> Vec<Write>
        ensures writes { result.items ≡ self.writes }
        ensures entries { AreEntries self.writes }
        ensures made { WhereMade self (λ m qs. result.items ≡ writes m qs) }
    {
        self.buffer.into_entries()
    }

    /// Hands out the key of the write at place `i`. Takes no memory.
    pub fn into_key(self, i: usize) -> Key
        requires { i < length self.writes }
        ensures { (d : KeyWrite) → result ≡ (slice_index_or self.writes i d).0 }
    {
        let mut writes = self.into_writes();
        let (key, _) = writes.swap_remove(i).into_parts();
        key
    }

    // Makes the mark that a read of the key needs: none where the transaction wrote the key itself.
    fn mark_key(&mut self, key: KeyRef<'_>) -> Result<(), SnapshotFault>
        ensures ok { OnOk result (self.new ≡ after_get self.old key.entry.bytes.now) }
        ensures err { OnErr result (self.new ≡ self.old) }
        ensures faults { MarkFaults result (is_full_get self.old key.entry.bytes.now)
            (is_known_get self.old key.entry.bytes.now) }
    {
        match self.buffer.get(key) {
            Written::NotWritten => self.marks.add_key(key)?,
            _ => {}
        }
        Ok(())
    }

    // What a read of the key gives.
    fn peek<'a>(&'a self, versions: &'a Versions, key: KeyRef<'_>) -> Option<&'a [u8]>
        ensures value { option_copied result
            ≡ value_read self.now (map_seen versions.now self.now.begin) key.entry.bytes.now }
        ensures short { IfSome result (λ v. IsValue v.now) }
    {
        match self.buffer.get(key) {
            Written::NotWritten => versions.at(self.begin, key),
            Written::Gone => None,
            Written::Value(value) => Some(value),
        }
    }

    /// Reads a key: lends what the transaction last wrote to it, else what its begin number sees, a value of `VALUE_MAX` bytes at most.
    /// The read is marked unless the transaction wrote the key itself. It takes the memory of a new mark and no other; `FullMarks` or
    /// `Memory` where that mark is refused.
    pub fn get<'a>(
        &'a mut self,
        versions: &'a Versions,
        key: KeyRef<'_>,
    ) -> Result<Option<&'a [u8]>, SnapshotFault>
        ensures full { IsFullWhen result (is_full_get self.old key.entry.bytes.now) }
        // A read that needs no new mark succeeds.
        ensures known { IsTrue (is_known_get self.old key.entry.bytes.now) → IsOk result }
        ensures reply { WhereSeen versions.now self.old
            (λ m qs. IsValueReply result (answer m qs (Get key.entry.bytes.now))) }
        ensures short { IfOk result (λ value. IfSome value (λ v. IsValue v.now)) }
        ensures* after { sem 𝓛 (Rests the_row self.entry (λ new. IsLeftByGet self.old key.entry.bytes.now result new)) }
    {
        match self.mark_key(key) {
            Ok(()) => Ok(self.peek(versions, key)),
            Err(fault) => Err(fault),
        }
    }

    /// Reads the pairs of a range by rising key, `limit` at most: those that the begin number sees, with the transaction's own writes
    /// over them. Where they are as many as the limit, the keys from `lo` to the last of them are marked, both included; else the range is
    /// marked whole, however few pairs it has, unless it is empty. It takes the memory of a new mark and no other; `FullMarks` or
    /// `Memory` where that mark is refused.
    pub fn range<'a>(
        &'a mut self,
        versions: &'a Versions,
        range: RangeRef<'_>,
        limit: u8,
    ) -> Result<Rows<'a>, SnapshotFault>
        ensures full { IsFullWhen result
            (is_full_range self.old (map_seen versions.now self.old.begin) range.entry limit) }
        // A read that needs no new mark succeeds.
        ensures known { WhereSeen versions.now self.old
            (λ m qs. IsKnownRange (copy_after (copy_of m) qs) range.entry limit → IsOk result) }
        ensures reply { WhereSeen versions.now self.old
            (λ m qs. IsPairsReply result (answer m qs (range_read range.entry limit))) }
        ensures few { IfOk result (λ rows. length (row_pairs rows) ≤ limit) }
        ensures in_bounds { IfOk result (λ rows. IsInBounds (row_pairs rows)) }
        ensures counts { IfOk result CountsItsPages }
        ensures* after { sem 𝓛
            (Rests the_row self.entry (λ new. IsLeftByRange versions.now self.old range.entry limit result new)) }
    {
        let writes = within(self.buffer.entries(), range);
        let mut pairs = MergedPairs::new(writes, versions.range(self.begin, range));
        pairs.look();
        match mark_page(&mut self.marks, pairs, range, limit) {
            Ok(page) => Ok(Rows::new(pairs, page.len, page.pages_looked_at)),
            Err(fault) => Err(fault),
        }
    }

    /// Writes a value of at most `VALUE_MAX` bytes to a key. It takes a copy of the value, and for a new key a copy of the key and a place;
    /// `FullWrites`, where the key is new and 64 are written, or `Memory`.
    pub fn put(&mut self, key: KeyRef<'_>, value: &[u8]) -> Result<(), SnapshotFault>
        requires { length value.now ≤ VALUE_MAX }
        ensures ok { OnOk result (self.new ≡ view_after_put self.old key.entry.bytes.now (Some value.now)) }
        ensures err { OnErr result (self.new ≡ self.old) }
        ensures full { (result ≡ Err SnapshotFault.FullWrites)
            ↔ IsTrue (is_full_for_key self.old.writes key.entry.bytes.now) }
        ensures reply { WhereMade self.old
            (λ m qs. IsDoneReply result (answer m qs (Set key.entry.bytes.now value.now))) }
        ensures made { OnOk result (MakesOneMore self.old self.new (Set key.entry.bytes.now value.now)) }
    {
        match self.buffer.put(key, value) {
            Ok(()) => Ok(()),
            Err(WritesFault::FullWrites) => Err(SnapshotFault::FullWrites),
            Err(WritesFault::Memory) => Err(SnapshotFault::Memory),
        }
    }

    /// Deletes a key, present or not. Where the key is written already it takes no memory and succeeds; a new one takes a copy of the
    /// key and a place; `FullWrites`, where the key is new and 64 are written, or `Memory`.
    pub fn delete(&mut self, key: KeyRef<'_>) -> Result<(), SnapshotFault>
        ensures ok { OnOk result (self.new ≡ view_after_put self.old key.entry.bytes.now None) }
        ensures err { OnErr result (self.new ≡ self.old) }
        ensures full { (result ≡ Err SnapshotFault.FullWrites)
            ↔ IsTrue (is_full_for_key self.old.writes key.entry.bytes.now) }
        ensures known { IsTrue (is_some (last_write self.old.writes key.entry.bytes.now)) → IsOk result }
        ensures reply { WhereMade self.old (λ m qs. IsDoneReply result (answer m qs (Del key.entry.bytes.now))) }
        ensures made { OnOk result (MakesOneMore self.old self.new (Del key.entry.bytes.now)) }
    {
        match self.buffer.delete(key) {
            Ok(()) => Ok(()),
            Err(WritesFault::FullWrites) => Err(SnapshotFault::FullWrites),
            Err(WritesFault::Memory) => Err(SnapshotFault::Memory),
        }
    }
}
