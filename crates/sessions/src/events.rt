//! The events of a hub, its answers to them, and the limits of a session.

use model::VALUE_MAX;

/// The most bytes that an inbox holds. It is reserved when a session joins.
pub const INBOX_MAX: usize = 8 * VALUE_MAX;

/// The bytes of output that are reserved when a session joins, and kept until it leaves. Each reply but a value and the pairs of a range
/// fits; one that is longer has a buffer of its own.
pub const OUTPUT_ROOM: usize = 536;

/// The most bytes of room that are kept of the buffer of a longer reply once all of it was sent, for the next such reply. A buffer with
/// more goes whole.
pub const OUTPUT_KEPT: usize = 65_536;

/// The most sessions that are present at a time.
pub const SESSIONS_MAX: usize = 128;

/// What happens to a hub. A session is named by its number.
#[derive(Clone, Copy)]
pub enum Event<'a> {
    /// A session joins, under a number above those of all before it.
    Joined(u64),
    /// These bytes came in from the session.
    Bytes(u64, &'a [u8]),
    /// The session's turn: one request of its inbox is executed, if a whole one stands there.
    Serve(u64),
    /// So many of the session's pending bytes were sent.
    Sent(u64, usize),
    /// The session leaves.
    Left(u64),
}

/// What a hub answers to an event. After each but `Done` and `Memory` nothing has changed.
#[derive(Clone, Copy, PartialEq, Eq, Debug)]
pub enum Outcome {
    /// The event was applied.
    Done,
    /// The session is not present; at `Joined`, its number is not above those of all before it.
    Unknown,
    /// At `Joined`: 128 sessions are present.
    Crowded,
    /// At `Bytes` and `Serve`: the session is not `Open`. At `Serve` too: a reply is pending, or the inbox has no whole request yet.
    Idle,
    /// At `Bytes`: the piece is longer than the room of the inbox.
    NoRoom,
    /// At `Sent`: fewer bytes are pending.
    BadCount,
    /// Memory was refused. At `Joined` nothing has changed. At `Serve` the session's transaction is aborted, its inbox is empty,
    /// nothing is pending, and it is `Refused`.
    Memory,
}

/// How a session stands.
#[derive(Clone, Copy, PartialEq, Eq, Debug)]
pub enum Status {
    /// It is not present.
    Absent,
    /// It is served.
    Open,
    /// It sent what begins no request: the refusal is its last reply, and it is served no more.
    Ending,
    /// Memory was refused to one of its requests: it is served no more.
    Refused,
}

/// What one look-up of a session finds.
#[derive(Clone, Copy)]
pub struct SessionView {
    /// How many of its bytes are to be sent.
    pub pending: usize,
    /// How it stands: `Absent` where it is not present.
    pub status: Status,
    /// How many bytes its inbox has room for.
    pub room: usize,
}
