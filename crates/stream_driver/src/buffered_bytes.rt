//! The buffer of a buffered stream: bytes that wait to be sent.
ghost use Rattle.std.specs.Prelude.{◌≡◌, ◌≤◌, vec_len, vec_capacity};
ghost use Rattle.stream_driver.specs.declared.buffered_bytes.TheConstants.{BUFFERED_MAX};

use std::alloc::{AllocError, Global};

/// The most bytes that a stream buffers.
pub const BUFFERED_MAX: usize = 16_384;

// Bytes that wait to be written, in order, and those before them that have left.
#[derive(Drop)]
pub(crate) struct BufferedBytes {
    bytes: Vec<u8>,
    left: usize,
    ghost some_left: { left ≤ vec_len bytes },
    ghost empty: { left ≡ vec_len bytes → left ≡ 0 },
    ghost few: { vec_len bytes ≤ BUFFERED_MAX },
    ghost room: { BUFFERED_MAX ≤ vec_capacity bytes },
}

impl BufferedBytes {
    ghost use Rattle.std.specs.Prelude.{◌++◌, [], length, take, drop, min, true, IfOk, ◌↔◌};
    ghost use Rattle.stream_driver.specs.Buffers.{buffered_in, buffer_room};

    /// An empty buffer. Takes the memory for `BUFFERED_MAX` bytes.
    pub(crate) fn new(alloc: Global) -> Result<BufferedBytes, AllocError>
        ensures { IfOk result (λ buffered. buffered_in buffered ≡ []) }
    {
        Ok(BufferedBytes {
            bytes: Vec::with_capacity(alloc, BUFFERED_MAX)?,
            left: 0,
        })
    }

    /// The bytes.
    pub(crate) fn as_slice(&self) -> &[u8]
        ensures { result.now ≡ buffered_in self.now }
    {
        &self.bytes[self.left..]
    }

    /// Are there none?
    pub(crate) fn is_empty(&self) -> bool
        ensures { (result ≡ true) ↔ (buffered_in self.now ≡ []) }
    {
        self.as_slice().is_empty()
    }

    /// For how many more is there room?
    pub(crate) fn room(&self) -> usize
        ensures { result ≡ buffer_room self.now }
    {
        BUFFERED_MAX - self.bytes.len()
    }

    /// Takes as many as there is room for, and says how many. Takes no memory.
    pub(crate) fn put(&mut self, from: &[u8]) -> usize
        ensures count { result ≡ min (length from.now) (buffer_room self.old) }
        ensures bytes { buffered_in self.new ≡ buffered_in self.old ++ take result from.now }
    {
        let n = from.len().min(self.room());
        let _ = self.bytes.extend_from_slice(&from[..n]);
        n
    }

    /// The first so many have left. Where none are left, there is room for `BUFFERED_MAX` again.
    pub(crate) fn leave(&mut self, n: usize)
        requires { n ≤ length (buffered_in self.old) }
        ensures bytes { buffered_in self.new ≡ drop n (buffered_in self.old) }
    {
        self.left += n;
        if self.left == self.bytes.len() {
            self.bytes.clear();
            self.left = 0;
        }
    }
}
