//! Maps and sets of keys as plain lists.
ghost use Rattle.model.specs.Key.{IsValue};

use model::{Key, KeyRef, Memory, RangeRef, Write};
use std::alloc::Global;
use std::cmp::Ordering;
use std::marker::Model;

/// A value of at most `VALUE_MAX` bytes. A clause sees its bytes.
#[derive(Drop)]
pub struct Value {
    bytes: Vec<u8>,
}

impl Model for Value {
    ghost use Rattle.std.specs.Prelude.{ℕ, List};
    ghost use Rattle.model.specs.Key.{IsValue};

    ghost Value = { List ℕ };

    ghost view = { λ v. v.bytes.items };

    ghost invariant = { λ v. IsValue v.bytes.items };
}

impl Value {
    ghost use Rattle.std.specs.Prelude.{◌≡◌};

    pub fn copied(alloc: Global, bytes: &[u8]) -> Result<Value, Memory>
        requires { IsValue bytes.now }
    {
        let bytes = bytes.to_vec(alloc)?;
        Ok(Value { bytes })
    }

    pub fn lend(&self) -> &[u8]
        ensures bytes { result.now ≡ self.now }
        ensures bound { IsValue result.now }
    {
        &self.bytes
    }
}

/// Are the keys one?
pub fn is_same(key: KeyRef<'_>, other: KeyRef<'_>) -> bool {
    key.order(other).is_eq()
}

/// The value of the key.
pub fn value_of<'a>(contents: &'a [(Key, Value)], key: KeyRef<'_>) -> Option<&'a Value> {
    for pair in contents {
        if is_same(key, pair.0.lend()) {
            return Some(&pair.1);
        }
    }
    None
}

pub fn is_among(keys: &[Key], key: KeyRef<'_>) -> bool {
    for k in keys {
        if is_same(key, k.lend()) {
            return true;
        }
    }
    false
}

/// A copy of the map.
pub fn copied_map(alloc: Global, contents: &[(Key, Value)]) -> Result<Vec<(Key, Value)>, Memory> {
    let mut out = Vec::new(alloc);
    for pair in contents {
        let key = Key::from_ref(alloc, pair.0.lend())?;
        let value = Value::copied(alloc, pair.1.lend())?;
        out.push((key, value))?;
    }
    Ok(out)
}

/// The map with this value of the key.
pub fn with_value(
    alloc: Global,
    contents: &[(Key, Value)],
    key: KeyRef<'_>,
    value: &[u8],
) -> Result<Vec<(Key, Value)>, Memory>
    requires { IsValue value.now }
{
    let mut out = Vec::new(alloc);
    let mut placed = false;
    for pair in contents {
        let order = if placed {
            Ordering::Greater
        } else {
            key.order(pair.0.lend())
        };
        match order {
            Ordering::Less => {
                out.push((Key::from_ref(alloc, key)?, Value::copied(alloc, value)?))?;
                out.push((
                    Key::from_ref(alloc, pair.0.lend())?,
                    Value::copied(alloc, pair.1.lend())?,
                ))?;
                placed = true;
            }
            Ordering::Equal => {
                out.push((
                    Key::from_ref(alloc, pair.0.lend())?,
                    Value::copied(alloc, value)?,
                ))?;
                placed = true;
            }
            Ordering::Greater => {
                out.push((
                    Key::from_ref(alloc, pair.0.lend())?,
                    Value::copied(alloc, pair.1.lend())?,
                ))?;
            }
        }
    }
    if !placed {
        out.push((Key::from_ref(alloc, key)?, Value::copied(alloc, value)?))?;
    }
    Ok(out)
}

/// The map without the key.
pub fn without_key(
    alloc: Global,
    contents: &[(Key, Value)],
    key: KeyRef<'_>,
) -> Result<Vec<(Key, Value)>, Memory> {
    let mut out = Vec::new(alloc);
    for pair in contents {
        if !is_same(key, pair.0.lend()) {
            out.push((
                Key::from_ref(alloc, pair.0.lend())?,
                Value::copied(alloc, pair.1.lend())?,
            ))?;
        }
    }
    Ok(out)
}

/// The keys with this one, by rising key.
pub fn with_key(alloc: Global, keys: &[Key], key: KeyRef<'_>) -> Result<Vec<Key>, Memory> {
    let out = keys_with(alloc, keys, key)?;
    Ok(out)
}

fn keys_with(alloc: Global, keys: &[Key], key: KeyRef<'_>) -> Result<Vec<Key>, Memory> {
    let mut out = Vec::new(alloc);
    let mut placed = false;
    for k in keys {
        let order = if placed {
            Ordering::Greater
        } else {
            key.order(k.lend())
        };
        match order {
            Ordering::Less => {
                out.push(Key::from_ref(alloc, key)?)?;
                out.push(Key::from_ref(alloc, k.lend())?)?;
                placed = true;
            }
            Ordering::Equal => {
                out.push(Key::from_ref(alloc, k.lend())?)?;
                placed = true;
            }
            Ordering::Greater => out.push(Key::from_ref(alloc, k.lend())?)?,
        }
    }
    if !placed {
        out.push(Key::from_ref(alloc, key)?)?;
    }
    Ok(out)
}

/// The pairs whose keys lie in the range.
pub fn pairs_within(
    alloc: Global,
    contents: &[(Key, Value)],
    range: RangeRef<'_>,
) -> Result<Vec<(Key, Value)>, Memory> {
    let mut out = Vec::new(alloc);
    for pair in contents {
        if is_within(range, pair.0.lend()) {
            out.push((
                Key::from_ref(alloc, pair.0.lend())?,
                Value::copied(alloc, pair.1.lend())?,
            ))?;
        }
    }
    Ok(out)
}

/// The last key of the pairs, where they are as many as the limit, so that others may follow it.
pub fn page_end(rows: &[(Key, Value)], limit: u8) -> Option<KeyRef<'_>> {
    if rows.len() != limit as usize {
        return None;
    }
    let mut last = None;
    for row in rows {
        last = Some(row.0.lend());
    }
    last
}

/// Does the key lie in the range?
fn is_within(range: RangeRef<'_>, key: KeyRef<'_>) -> bool {
    let is_below = match range.hi {
        None => true,
        Some(hi) => key.order(hi).is_lt(),
    };
    range.lo.order(key).is_le() && is_below
}

/// Is there no key in the range?
pub fn is_empty_range(range: RangeRef<'_>) -> bool {
    match range.hi {
        None => false,
        Some(hi) => !range.lo.order(hi).is_lt(),
    }
}

/// A write of the key's value, or of its deletion.
fn write_of(alloc: Global, contents: &[(Key, Value)], key: KeyRef<'_>) -> Result<Write, Memory> {
    let value = match value_of(contents, key) {
        Some(value) => Some(value.lend().to_vec(alloc)?),
        None => None,
    };
    Ok(Write::new(Key::from_ref(alloc, key)?, value))
}

/// Each written key with its value, or as deleted.
pub fn values_of(
    alloc: Global,
    contents: &[(Key, Value)],
    written: &[Key],
) -> Result<Vec<Write>, Memory> {
    let mut out = Vec::new(alloc);
    for k in written {
        let write = write_of(alloc, contents, k.lend())?;
        out.push(write)?;
    }
    Ok(out)
}
