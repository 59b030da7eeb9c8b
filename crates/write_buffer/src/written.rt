//! What a look-up in the buffer answers.

/// What a transaction last wrote to a key.
#[derive(Clone, Copy)]
pub enum Written<'a> {
    /// Nothing: the key has what the store has at it.
    NotWritten,
    /// It was deleted.
    Gone,
    /// It has this value.
    Value(&'a [u8]),
}
