//! The commands of a session, and the replies to them.
use crate::keys::KeyRef;
use crate::ranges::RangeRef;
use crate::refusals::Refusal;

/// A command of a session, with arguments that are lent from its request.
#[derive(Clone, Copy)]
pub enum Command<'a> {
    /// Opens a transaction over the map that is committed now.
    Begin,
    /// Reads a key.
    Get(KeyRef<'a>),
    /// Writes a value of 0 to `VALUE_MAX` bytes to a key.
    Set(KeyRef<'a>, &'a [u8]),
    /// Deletes a key, present or not.
    Del(KeyRef<'a>),
    /// Reads the pairs of a range by rising key, at most so many, from 1 to 128.
    Range(RangeRef<'a>, u8),
    /// Ends the transaction and keeps its writes, unless they are refused.
    Commit,
    /// Ends the transaction and drops its writes.
    Abort,
    /// Asks for a sign of life.
    Ping,
}

/// What a session is answered. The pairs of a range aren't here: they are lent one by one. The forms are those of RESP2.
#[derive(Clone, Copy)]
pub enum Reply<'a> {
    /// It was done.
    Done,
    /// The answer to `Ping`.
    Pong,
    /// The commit number.
    Number(u64),
    /// The value of the key, and `None` where it has none.
    Value(Option<&'a [u8]>),
    /// Why the request was refused.
    Refused(&'a Refusal),
}
