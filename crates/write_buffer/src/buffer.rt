//! The last writes of one transaction, by rising key: 64 keys at most.
ghost use Rattle.std.specs.Prelude.{◌≡◌, ◌≤◌, ◌↔◌, [], length, IsTrue, IsOk, IfOk, IfErr, OnOk, OnErr, Err, Some};
ghost use Rattle.std.specs.Prelude.{None, is_some, option_map, false};
ghost use Rattle.model.specs.Entries.{IsAt, IsGap};
ghost use Rattle.write_buffer.specs.Buffered.{AreEntries, last_write, with_write, is_full_for_key, IsShortValue};
ghost use Rattle.write_buffer.specs.Written.{written_lent, IsShortWritten};

use crate::faults::WritesFault;
use crate::written::Written;
use model::{Key, KeyRef, Memory, VALUE_MAX, Write};
use std::alloc::Global;
use std::marker::Model;

/// The most written keys of a transaction.
pub const WRITES_MAX: usize = 64;

/// The last writes of a transaction. A clause sees them by rising key.
#[derive(Drop)]
pub struct WriteBuffer {
    entries: Vec<Write>,
}

impl Model for WriteBuffer {
    ghost use Rattle.std.specs.Prelude.{List};
    ghost use Rattle.model.specs.Map.{KeyWrite};
    ghost use Rattle.write_buffer.specs.Buffered.{AreEntries};

    ghost Value = { List KeyWrite };

    ghost view = { λ b. b.entries.items };

    ghost invariant = { λ b. AreEntries b.entries.items };
}

impl WriteBuffer {
    /// No writes. Takes no memory.
    pub fn new(alloc: Global) -> WriteBuffer
        ensures { result ≡ [] }
    {
        WriteBuffer {
            entries: Vec::new(alloc),
        }
    }

    // Where the key's write is, or where it would stand.
    fn search(&self, key: &[u8]) -> Result<usize, usize>
        ensures found { IfOk result (IsAt self.now key.now) }
        ensures absent { IfErr result (IsGap self.now key.now) }
    {
        self.entries.binary_search_by(|write| write.compare(key))
    }

    /// What was last written to the key; a value has `VALUE_MAX` bytes at most. Takes no memory.
    pub fn get(&self, key: KeyRef<'_>) -> Written<'_>
        ensures last { written_lent result ≡ last_write self.now key.entry.bytes.now }
        ensures short { IsShortWritten result }
    {
        match self.search(key.bytes()) {
            Ok(i) => match self.entries[i].value() {
                None => Written::Gone,
                Some(value) => Written::Value(value),
            },
            Err(_) => Written::NotWritten,
        }
    }

    /// Writes a value of at most `VALUE_MAX` bytes to the key. It takes a copy of the value, and for a new key a copy of the key and a
    /// place. The buffer is as it was where it answers `FullWrites`, which it does where the key is new and 64 are written, or `Memory`.
    pub fn put(&mut self, key: KeyRef<'_>, value: &[u8]) -> Result<(), WritesFault>
        requires { length value.now ≤ VALUE_MAX }
        ensures ok { OnOk result (self.new ≡ with_write self.old key.entry.bytes.now (Some value.now)) }
        ensures err { OnErr result (self.new ≡ self.old) }
        ensures entries { AreEntries self.new }
        ensures full { (result ≡ Err WritesFault.FullWrites) ↔ IsTrue (is_full_for_key self.old key.entry.bytes.now) }
    {
        if self.is_full_for(key) {
            return Err(WritesFault::FullWrites);
        }
        let alloc = *self.entries.allocator();
        let value = Vec::from_slice(alloc, value)?;
        self.write(key, Some(value))?;
        Ok(())
    }

    /// Deletes the key. Where the key is written already it takes no memory and succeeds; a new one takes a copy of the key and a place.
    /// The buffer is as it was where it answers `FullWrites`, which it does where the key is new and 64 are written, or `Memory`.
    pub fn delete(&mut self, key: KeyRef<'_>) -> Result<(), WritesFault>
        ensures ok { OnOk result (self.new ≡ with_write self.old key.entry.bytes.now None) }
        ensures err { OnErr result (self.new ≡ self.old) }
        ensures entries { AreEntries self.new }
        ensures full { (result ≡ Err WritesFault.FullWrites) ↔ IsTrue (is_full_for_key self.old key.entry.bytes.now) }
        ensures known { IsTrue (is_some (last_write self.old key.entry.bytes.now)) → IsOk result }
    {
        if self.is_full_for(key) {
            return Err(WritesFault::FullWrites);
        }
        self.write(key, None)?;
        Ok(())
    }

    // Is the key new, and is there no room for one more?
    fn is_full_for(&self, key: KeyRef<'_>) -> bool
        ensures full { result ≡ is_full_for_key self.now key.entry.bytes.now }
        ensures entries { AreEntries self.now }
    {
        self.entries.len() >= WRITES_MAX && self.search(key.bytes()).is_err()
    }

    // Puts the value to the key, for which there is room.
    fn write(&mut self, key: KeyRef<'_>, value: Option<Vec<u8>>) -> Result<(), Memory>
        requires room { is_full_for_key self.old key.bytes.now ≡ false }
        requires short { IsShortValue (option_map (λ v. v.items) value) }
        ensures ok { OnOk result
            (self.new ≡ with_write self.old key.entry.bytes.now (option_map (λ v. v.items) value)) }
        ensures err { OnErr result (self.new ≡ self.old) }
        ensures entries { AreEntries self.new }
        ensures known { IsTrue (is_some (last_write self.old key.entry.bytes.now)) → IsOk result }
    {
        match self.search(key.bytes()) {
            Ok(i) => self.entries[i].set_value(value),
            Err(i) => {
                let alloc = *self.entries.allocator();
                let key = Key::from_ref(alloc, key)?;
                self.entries.insert(i, Write::new(key, value))?;
            }
        }
        Ok(())
    }

    /// The writes by rising key. Takes no memory.
    pub fn entries(&self) -> &[Write]
        ensures writes { result.now ≡ self.now }
        ensures entries { AreEntries self.now }
    {
        self.entries.as_slice()
    }

    /// Hands the writes out, by rising key. Takes no memory.
    pub fn into_entries(self) -> Vec<Write>
        ensures writes { result.items ≡ self }
        ensures entries { AreEntries self }
    {
        self.entries
    }
}
