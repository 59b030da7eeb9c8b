//! A write of a transaction: a key with its new value, or deleted.
ghost use Rattle.std.specs.Prelude.{◌≡◌, option_map, option_copied, IfSome};
ghost use Rattle.model.specs.Key.{IsValue};
ghost use Rattle.model.specs.Map.{key_cmp};

use crate::keys::{Key, KeyRef};
use std::cmp::Ordering;
use std::marker::Model;

/// A written key with its last value, of at most `VALUE_MAX` bytes, or `None` where it was deleted. A clause sees the pair.
#[derive(Drop)]
pub struct Write {
    key: Key,
    value: Option<Vec<u8>>,
}

impl Model for Write {
    ghost use Rattle.std.specs.Prelude.{ℕ, List, Option, option_map, IfSome};
    ghost use Rattle.model.specs.Key.{IsValue};

    ghost Value = { List ℕ × Option (List ℕ) };

    ghost view = { λ w. (w.key, option_map (λ v. v.items) w.value) };

    ghost invariant = { λ w. IfSome (option_map (λ v. v.items) w.value) IsValue };
}

impl Write {
    /// A write of this value, or a deletion. Takes no memory.
    pub fn new(key: Key, value: Option<Vec<u8>>) -> Write
        requires { IfSome (option_map (λ v. v.items) value) IsValue }
        ensures { result ≡ (key, option_map (λ v. v.items) value) }
    {
        Write { key, value }
    }

    /// Lends the written key. Takes no memory.
    pub fn lend_key(&self) -> KeyRef<'_>
        ensures { result.bytes.now ≡ self.now.0 }
    {
        self.key.lend()
    }

    /// Whether the written key stands before (`Less`) or after the key of these bytes. Takes no memory.
    pub fn compare(&self, key: &[u8]) -> Ordering
        ensures { result ≡ key_cmp self.now.0 key.now }
    {
        self.lend_key().bytes().cmp(key)
    }

    /// Lends the value, or answers `None` where the key was deleted. Takes no memory.
    pub fn value(&self) -> Option<&[u8]>
        ensures value { option_copied result ≡ self.now.1 }
        ensures bound { IfSome self.now.1 IsValue }
    {
        match &self.value {
            None => None,
            Some(value) => Some(value.as_slice()),
        }
    }

    /// Puts another value, or a deletion, in the place of the one that is there. Takes no memory.
    pub fn set_value(&mut self, value: Option<Vec<u8>>)
        requires { IfSome (option_map (λ v. v.items) value) IsValue }
        ensures { self.new ≡ (self.old.0, option_map (λ v. v.items) value) }
    {
        self.value = value;
    }

    /// The key and the value. Takes no memory.
    pub fn into_parts(self) -> (Key, Option<Vec<u8>>)
        ensures parts { (result.0, option_map (λ v. v.items) result.1) ≡ self }
        ensures bound { IfSome self.1 IsValue }
    {
        (self.key, self.value)
    }
}
