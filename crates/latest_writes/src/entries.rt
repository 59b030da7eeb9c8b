//! A write, with the first 16 bytes of its key as two numbers, which compare without loading the key.
ghost use Rattle.std.specs.Prelude.{◌≡◌, ◌≢◌, ◌⊎◌, true, false, None, IfSome, OnOk};
ghost use Rattle.model.specs.Key.{IsValue};
ghost use Rattle.model.specs.Map.{key_cmp, is_same_key, after_write};
ghost use Rattle.latest_writes.specs.Buffered.{weight};

use crate::heads::head_of;
use model::{Map, Memory, Write};
use std::cmp::Ordering;
use std::marker::Model;

/// About the bytes of an entry beside its value: two numbers, the key and what a heap adds.
const ENTRY_WEIGHT: usize = 128;

/// A write, and the first bytes of its key as two numbers. A clause sees the write.
#[derive(Drop)]
pub(crate) struct Entry {
    high: u64,
    low: u64,
    write: Write,
}

impl Model for Entry {
    ghost use Rattle.std.specs.Prelude.{◌≡◌, drop, IfSome};
    ghost use Rattle.model.specs.Key.{IsValue};
    ghost use Rattle.model.specs.Map.{KeyWrite};
    ghost use Rattle.model.specs.FirstBytes.{AreBytes, first_bytes};

    ghost Value = { KeyWrite };

    ghost view = { λ e. e.write };

    ghost invariant = { λ e.
        (e.high ≡ first_bytes 8 e.write.0) × (e.low ≡ first_bytes 8 (drop 8 e.write.0)) × AreBytes e.write.0
        × IfSome e.write.1 IsValue };
}

impl Entry {
    /// The entry of a write. Takes no memory.
    pub(crate) fn new(write: Write) -> Entry
        requires { IfSome write.1 IsValue }
        ensures { result ≡ write }
    {
        let (high, low) = head_of(write.lend_key().bytes());
        Entry { high, low, write }
    }

    /// Which of two keys stands first. It loads no key where their first bytes differ.
    pub(crate) fn order(&self, other: &Entry) -> Ordering
        ensures { result ≡ key_cmp self.now.0 other.now.0 }
    {
        if self.high != other.high {
            return self.high.cmp(&other.high);
        }
        if self.low != other.low {
            return self.low.cmp(&other.low);
        }
        self.write.compare(other.write.lend_key().bytes())
    }

    // About the bytes that it takes in memory.
    pub(crate) fn weight(&self) -> usize
        ensures { result ≡ weight self.now }
    {
        let value_len = match self.write.value() {
            Some(value) => value.len(),
            None => 0,
        };
        value_len.saturating_add(ENTRY_WEIGHT)
    }

    /// Whether it can be left out before the next entry, where none of its key comes before it: that is a write of its key, or it is a
    /// deletion.
    pub(crate) fn is_superseded(&self, next: &Entry) -> bool
        ensures superseded { result ≡ true → (is_same_key self.now.0 next.now.0 ≡ true) ⊎ (self.now.1 ≡ None) }
        ensures latest { result ≡ false → is_same_key self.now.0 next.now.0 ≡ false }
        ensures value { result ≡ false → self.now.1 ≢ None }
    {
        match self.order(next) {
            Ordering::Equal => true,
            _ => self.write.value().is_none(),
        }
    }

    /// Writes it into the map. `Memory` where the map can't grow.
    pub(crate) fn apply(self, map: &mut Map) -> Result<(), Memory>
        ensures { OnOk result (map.new ≡ after_write map.old self.0 self.1) }
    {
        let (key, value) = self.write.into_parts();
        match value {
            Some(value) => map.put(key, value),
            None => {
                map.remove(key.lend());
                Ok(())
            }
        }
    }
}
