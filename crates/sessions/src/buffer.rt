//! An inbox: bytes that are added at the end and consumed from the head.
ghost use Rattle.std.specs.Prelude.{◌≡◌, ◌≤◌, ◌+◌, ◌++◌, [], length, drop, vec_len, vec_capacity};
ghost use Rattle.sessions.specs.Calls.{IsBufferWithin, rest};

/// Bytes, of which the first `start` are consumed.
#[derive(Drop)]
pub(crate) struct Buffer {
    pub(crate) bytes: Vec<u8>,
    pub(crate) start: usize,
}

impl Buffer {
    /// What is left.
    pub(crate) fn as_slice(&self) -> &[u8]
        requires { self.now.start ≤ vec_len self.now.bytes }
        ensures { result.now ≡ rest self.now }
    {
        &self.bytes[self.start..]
    }

    /// Nothing is left. Takes no memory, and frees none.
    pub(crate) fn clear(&mut self)
        ensures empty { self.new.bytes.items ≡ [] }
        ensures start { self.new.start ≡ 0 }
        ensures capacity { vec_capacity self.new.bytes ≡ vec_capacity self.old.bytes }
    {
        self.bytes.clear();
        self.start = 0;
    }

    /// The first `n` bytes are consumed. No byte is moved.
    pub(crate) fn consume(&mut self, n: usize)
        requires { self.old.start + n ≤ vec_len self.old.bytes }
        ensures rest { rest self.new ≡ drop n (rest self.old) }
        ensures start { self.new.start ≤ vec_len self.new.bytes }
        ensures len { vec_len self.new.bytes ≤ vec_len self.old.bytes }
        ensures capacity { vec_capacity self.new.bytes ≡ vec_capacity self.old.bytes }
    {
        self.start += n;
        if self.start == self.bytes.len() {
            self.clear();
        }
    }

    /// The bytes that were consumed make room.
    fn compact(&mut self)
        requires { self.old.start ≤ vec_len self.old.bytes }
        ensures rest { self.new.bytes.items ≡ rest self.old }
        ensures start { self.new.start ≡ 0 }
        ensures capacity { vec_capacity self.new.bytes ≡ vec_capacity self.old.bytes }
    {
        self.bytes.drain(..self.start);
        self.start = 0;
    }

    /// The piece follows what is left, which is moved only where there is no place behind it. Takes no memory.
    pub(crate) fn append(&mut self, piece: &[u8], max: usize)
        requires within { IsBufferWithin max self.old }
        requires room { length (rest self.old) + length piece.now ≤ max }
        ensures rest { rest self.new ≡ rest self.old ++ piece.now }
        ensures within { IsBufferWithin max self.new }
        ensures capacity { vec_capacity self.old.bytes ≤ vec_capacity self.new.bytes }
    {
        if piece.len() > max - self.bytes.len() {
            self.compact();
        }
        let _ = self.bytes.extend_from_slice(piece);
    }
}
