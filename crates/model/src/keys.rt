//! Keys, borrowed and owned, and their order.
ghost use Rattle.std.specs.Prelude.{◌≡◌, ◌↔◌, ◌≤◌, length, IsSome, IfSome, IfOk, IsOk};
ghost use Rattle.model.specs.Key.{IsKey};
ghost use Rattle.model.specs.Map.{key_cmp};

use crate::refusals::Memory;
use byteorder::{BigEndian, ByteOrder};
use smallvec::SmallVec;
use std::alloc::Global;
use std::cmp::Ordering;
use std::marker::Model;

/// The most bytes of a key. A key has 1 at least.
pub const KEY_MAX: usize = 256;

// The most bytes that stand in an owned key itself.
const SHORT_MAX: usize = 16;

// The bytes of which one number is made to compare keys.
const WORD: usize = 8;

/// A key that is lent: 1 to 256 bytes of any value. Keys stand in the order of their bytes, a shorter key before its extensions.
#[derive(Clone, Copy)]
pub struct KeyRef<'a> {
    bytes: &'a [u8],
    ghost sized: { IsKey bytes.now },
}

impl<'a> KeyRef<'a> {
    /// The key of these bytes, and `None` exactly where their number isn't 1 to 256. Takes no memory.
    pub fn new(bytes: &'a [u8]) -> Option<KeyRef<'a>>
        ensures sized { IsSome result ↔ IsKey bytes.now }
        ensures bytes { IfSome result (λ k. k.bytes.now ≡ bytes.now) }
    {
        if bytes.len() >= 1 && bytes.len() <= KEY_MAX {
            Some(KeyRef { bytes })
        } else {
            None
        }
    }

    /// Which of two keys stands first. Takes no memory.
    pub fn order(self, other: KeyRef<'_>) -> Ordering
        ensures { result ≡ key_cmp self.entry.bytes.now other.entry.bytes.now }
    {
        order_bytes(self.bytes, other.bytes)
    }

    /// The key's bytes, which may outlive this value. Takes no memory.
    pub fn bytes(self) -> &'a [u8]
        ensures bytes { result.now ≡ self.entry.bytes.now }
        ensures sized { IsKey result.now }
    {
        let KeyRef { bytes } = self;
        bytes
    }
}

// Words that differ stand as the keys do. The bytes after the last whole word are fewer than a word in one of the two.
fn order_bytes(left: &[u8], right: &[u8]) -> Ordering
    ensures { result ≡ key_cmp left.now right.now }
{
    let (mut left, mut right) = (left, right);
    while left.len() >= WORD && right.len() >= WORD {
        let (first, second) = (BigEndian::read_u64(left), BigEndian::read_u64(right));
        if first != second {
            return first.cmp(&second);
        }
        left = &left[WORD..];
        right = &right[WORD..];
    }
    left.cmp(right)
}

/// A key of 1 to 256 bytes that owns them. A clause sees its bytes. Up to 16 bytes stand in the value itself; only more take memory of
/// their own.
#[derive(Drop)]
pub struct Key {
    bytes: SmallVec<u8, SHORT_MAX>,
}

// One stands in each entry of a page.
const _: () = prove!(size_of::<Key>() == 32);

impl Model for Key {
    ghost use Rattle.std.specs.Prelude.{ℕ, List};
    ghost use Rattle.model.specs.Key.{IsKey};

    ghost Value = { List ℕ };

    ghost view = { λ k. k.bytes.items };

    ghost invariant = { λ k. IsKey k.bytes.items };
}

impl Key {
    /// A copy of a lent key. It takes as many bytes as the key has, where these are more than 16; `Memory` where they are refused, and
    /// so never for up to 16.
    pub fn from_ref(alloc: Global, key: KeyRef<'_>) -> Result<Key, Memory>
        ensures bytes { IfOk result (λ k. k ≡ key.entry.bytes.now) }
        ensures short { length key.entry.bytes.now ≤ SHORT_MAX → IsOk result }
    {
        Ok(Key {
            bytes: SmallVec::from_slice(alloc, key.bytes())?,
        })
    }

    /// A key of the same bytes. It takes as many bytes as the key has, where these are more than 16; `Memory` where they are refused, and
    /// so never for up to 16.
    pub fn copy(&self) -> Result<Key, Memory>
        ensures bytes { IfOk result (λ k. k ≡ self.now) }
        ensures short { length self.now ≤ SHORT_MAX → IsOk result }
    {
        Ok(Key {
            bytes: SmallVec::from_slice(*self.bytes.allocator(), self.bytes.as_slice())?,
        })
    }

    /// Lends the key. Takes no memory.
    pub fn lend(&self) -> KeyRef<'_>
        ensures { result.bytes.now ≡ self.now }
    {
        KeyRef {
            bytes: self.bytes.as_slice(),
        }
    }
}
