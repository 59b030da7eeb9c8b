//! The answers of reads, writes and drives.

/// What a read of a stream answers.
#[derive(Clone, Copy, PartialEq, Eq, Debug)]
pub enum ReadAnswer {
    /// So many bytes came, one at least.
    Moved(usize),
    /// None can come now.
    Blocked,
    /// The call failed.
    Failed,
    /// No more will come.
    Ended,
}

/// What a write to a stream answers.
#[derive(Clone, Copy, PartialEq, Eq, Debug)]
pub enum WriteAnswer {
    /// So many bytes went, one at least.
    Moved(usize),
    /// None can go now.
    Blocked,
    /// The call failed.
    Failed,
}

/// A call of a stream, with its answer.
#[derive(Clone, Copy, PartialEq, Eq, Debug)]
pub enum Call {
    Read(ReadAnswer),
    Write(WriteAnswer),
}

/// What a drive came to.
#[derive(Clone, Copy, PartialEq, Eq, Debug)]
pub enum Progress {
    /// The stream blocked. The session is to be driven again once it can go on.
    Waiting,
    /// As many requests were served as one drive serves, and each is answered. The session is to be driven again.
    Again,
    /// The session has left.
    Gone,
}
