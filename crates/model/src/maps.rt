//! Maps from keys to values, by rising key.
ghost use Rattle.std.specs.Prelude.{◌≡◌, ◌≤◌, [], length, Some, None, option_copied, IfOk, IfErr, OnOk, OnErr};
ghost use Rattle.model.specs.Key.{IsValue};
ghost use Rattle.model.specs.Map.{IsMap, IsInBounds, value_at, after_write};
ghost use Rattle.model.specs.Entries.{IsAt, IsGap};

use crate::keys::{Key, KeyRef};
use crate::pair::Pair;
use crate::pairs::Pairs;
use crate::refusals::Memory;
use std::alloc::Global;
use std::marker::Model;

/// A finite map from keys to values of at most `VALUE_MAX` bytes. A clause sees its pairs by rising key.
///
/// The pairs stand by rising key in one vector, which doubles where it is full. Beside it each value takes memory, and each key of more
/// than 16 bytes.
#[derive(Drop)]
pub struct Map {
    pairs: Vec<Pair>,
}

impl Model for Map {
    ghost use Rattle.std.specs.Prelude.{ℕ, List};
    ghost use Rattle.model.specs.Map.{IsMap, IsInBounds};

    ghost Value = { List (List ℕ × List ℕ) };

    ghost view = { λ m. m.pairs.items };

    ghost invariant = { λ m. IsMap m.pairs.items × IsInBounds m.pairs.items };
}

impl Map {
    /// The empty map. Takes no memory.
    pub fn new(alloc: Global) -> Map
        ensures { result ≡ [] }
    {
        Map {
            pairs: Vec::new(alloc),
        }
    }

    /// How many keys have a value. Takes no memory.
    pub fn len(&self) -> usize
        ensures len { result ≡ length self.now }
        ensures is_map { IsMap self.now }
        ensures in_bounds { IsInBounds self.now }
    {
        self.pairs.len()
    }

    // Where the key's pair is, or where it would stand. A key above all others is compared with the last alone.
    fn search(&self, key: &[u8]) -> Result<usize, usize>
        ensures found { IfOk result (IsAt self.now key.now) }
        ensures absent { IfErr result (IsGap self.now key.now) }
    {
        match self.pairs.last() {
            Some(last) if last.compare(key).is_lt() => Err(self.pairs.len()),
            _ => self.pairs.binary_search_by(|pair| pair.compare(key)),
        }
    }

    /// Lends the value of the key, or answers `None` where it has none. It compares as many keys as a binary search does. Takes no memory.
    pub fn get(&self, key: KeyRef<'_>) -> Option<&[u8]>
        ensures { option_copied result ≡ value_at self.now key.entry.bytes.now }
    {
        match self.search(key.bytes()) {
            Ok(i) => Some(self.pairs[i].value()),
            Err(_) => None,
        }
    }

    /// Lends the pairs by rising key. Takes no memory.
    pub fn pairs(&self) -> Pairs<'_>
        ensures { result ≡ self.now }
    {
        Pairs::new(&self.pairs)
    }

    /// Gives the key this value, in the place of the one that it may have. For a new key the vector of pairs may grow; where that is
    /// refused it answers `Memory`, and the map is as it was. A new key above all others is compared with the last one alone and moves
    /// no pair; for another one the pairs above it move.
    pub fn put(&mut self, key: Key, value: Vec<u8>) -> Result<(), Memory>
        requires { IsValue value.items }
        ensures ok { OnOk result (self.new ≡ after_write self.old key (Some value.items)) }
        ensures err { OnErr result (self.new ≡ self.old) }
    {
        match self.search(key.lend().bytes()) {
            Ok(i) => self.pairs[i].set_value(value),
            Err(i) => self.pairs.insert(i, Pair::new(key, value))?,
        }
        Ok(())
    }

    /// Takes the key out with its value, if it has one. The pairs above it move. Takes no memory.
    pub fn remove(&mut self, key: KeyRef<'_>)
        ensures { self.new ≡ after_write self.old key.entry.bytes.now None }
    {
        if let Ok(i) = self.search(key.bytes()) {
            let _ = self.pairs.remove(i);
        }
    }

    /// Hands the pairs out, by rising key. Takes no memory.
    pub fn into_pairs(self) -> Vec<Pair>
        ensures pairs { result.items ≡ self }
        ensures is_map { IsMap self }
        ensures in_bounds { IsInBounds self }
    {
        let Map { pairs } = self;
        pairs
    }
}
