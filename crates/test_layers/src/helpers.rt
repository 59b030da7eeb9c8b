//! Short keys, maps of them, and comparing borrowed pairs.
ghost use Rattle.model.specs.Bounds.{value_max};
ghost use Rattle.std.specs.Prelude.{◌≤◌, length};
ghost use Rattle.model.specs.Key.{IsKey};

use model::{Key, KeyRef, Map, Memory};
use std::alloc::Global;

/// The key of these bytes.
pub fn key(bytes: &[u8]) -> KeyRef<'_>
    requires { IsKey bytes.now }
{
    match KeyRef::new(bytes) {
        Some(key) => key,
        None => unreachable!(),
    }
}

/// Puts a value to the key of these bytes, where they are one.
pub fn put(alloc: Global, map: &mut Map, key: &[u8], value: &[u8]) -> Result<(), Memory>
    requires { length value.now ≤ value_max }
{
    let Some(key) = KeyRef::new(key) else {
        return Err(Memory);
    };
    let key = Key::from_ref(alloc, key)?;
    map.put(key, Vec::from_slice(alloc, value)?)
}

/// Is this the pair?
pub fn is_pair(pair: Option<(KeyRef<'_>, &[u8])>, key: &[u8], value: &[u8]) -> bool {
    match pair {
        Some((found, its_value)) => found.bytes() == key && its_value == value,
        None => false,
    }
}
