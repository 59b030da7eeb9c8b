//! A key with its value.
ghost use Rattle.std.specs.Prelude.{◌≡◌};
ghost use Rattle.model.specs.Map.{key_cmp};

use crate::keys::{Key, KeyRef};
use std::cmp::Ordering;
use std::marker::Model;

/// A key and its value. A clause sees the bytes of both.
#[derive(Drop)]
pub struct Pair {
    key: Key,
    value: Vec<u8>,
}

impl Model for Pair {
    ghost use Rattle.std.specs.Prelude.{ℕ, List};

    ghost Value = { List ℕ × List ℕ };

    ghost view = { λ p. (p.key, p.value.items) };
}

impl Pair {
    /// The pair of this key and this value. Takes no memory.
    pub fn new(key: Key, value: Vec<u8>) -> Pair
        ensures { result ≡ (key, value.items) }
    {
        Pair { key, value }
    }

    /// Lends the key. Takes no memory.
    pub fn lend_key(&self) -> KeyRef<'_>
        ensures { result.bytes.now ≡ self.now.0 }
    {
        self.key.lend()
    }

    /// Whether the key stands before (`Less`) or after the key of these bytes. Takes no memory.
    pub fn compare(&self, key: &[u8]) -> Ordering
        ensures { result ≡ key_cmp self.now.0 key.now }
    {
        self.lend_key().bytes().cmp(key)
    }

    /// Lends the value. Takes no memory.
    pub fn value(&self) -> &[u8]
        ensures { result.now ≡ self.now.1 }
    {
        self.value.as_slice()
    }

    /// Puts another value in the place of the one that is there. Takes no memory.
    pub fn set_value(&mut self, value: Vec<u8>)
        ensures { self.new ≡ (self.old.0, value.items) }
    {
        self.value = value;
    }

    /// The key and the value. Takes no memory.
    pub fn into_parts(self) -> (Key, Vec<u8>)
        ensures { (result.0, result.1.items) ≡ self }
    {
        (self.key, self.value)
    }
}
