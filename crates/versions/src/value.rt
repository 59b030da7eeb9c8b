//! A value that is kept, of at most `VALUE_MAX` bytes.
ghost use Rattle.std.specs.Prelude.{◌≡◌, option_map, IfSome};
ghost use Rattle.model.specs.Key.{IsValue};

use std::marker::Model;

/// A value that is kept, of at most `VALUE_MAX` bytes. A clause sees them.
#[derive(Drop)]
pub(crate) struct KeptValue {
    bytes: Vec<u8>,
}

impl Model for KeptValue {
    ghost use Rattle.std.specs.Prelude.{ℕ, List};
    ghost use Rattle.model.specs.Key.{IsValue};

    ghost Value = { List ℕ };

    ghost view = { λ v. v.bytes.items };

    ghost invariant = { λ v. IsValue v.bytes.items };
}

impl KeptValue {
    // A value of these bytes.
    pub(crate) fn new(bytes: Vec<u8>) -> KeptValue
        requires { IsValue bytes.items }
        ensures { result ≡ bytes.items }
    {
        KeptValue { bytes }
    }

    // Lends the bytes.
    pub(crate) fn as_slice(&self) -> &[u8]
        ensures bytes { result.now ≡ self.now }
        ensures short { IsValue result.now }
    {
        self.bytes.as_slice()
    }
}

// What is kept of a write: its value, or nothing of a deletion.
pub(crate) fn kept_value(value: Option<Vec<u8>>) -> Option<KeptValue>
    requires { IfSome (option_map (λ v. v.items) value) IsValue }
    ensures { result ≡ option_map (λ v. v.items) value }
{
    match value {
        Some(bytes) => Some(KeptValue::new(bytes)),
        None => None,
    }
}
