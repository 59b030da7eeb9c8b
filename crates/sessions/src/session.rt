//! One session: its inbox, its output and its status.
ghost use Rattle.std.specs.Prelude.{◌≡◌, [], IfOk, vec_capacity};
ghost use Rattle.model.specs.Bounds.{inbox_max};

use crate::buffer::Buffer;
use crate::events::{INBOX_MAX, Outcome, Status};
use crate::reply_buffer::ReplyBuffer;
use crate::requests::{Served, serve_request};
use engine::Engine;
use model::Memory;
use sector::Sectors;
use std::alloc::Global;
use std::marker::Model;

/// An inbox that asked for `INBOX_MAX` bytes and no more.
fn empty_inbox(alloc: Global) -> Result<Buffer, Memory>
    ensures empty { IfOk result (λ b. (b.bytes.items ≡ []) × (b.start ≡ 0)) }
    ensures exact { IfOk result (λ b. vec_capacity b.bytes ≡ inbox_max) }
{
    match Vec::with_capacity(alloc, INBOX_MAX) {
        Ok(bytes) => Ok(Buffer { bytes, start: 0 }),
        Err(_refused) => Err(Memory),
    }
}

/// What came in and was not read yet, what is to be sent, and how the session stands.
#[derive(Drop)]
pub(crate) struct Session {
    inbox: Buffer,
    output: ReplyBuffer,
    status: Status,
}

impl Model for Session {
    ghost use Rattle.std.specs.Prelude.{◌≤◌, vec_len, vec_capacity};
    ghost use Rattle.model.specs.Bounds.{inbox_max};
    ghost use Rattle.sessions.specs.Calls.{rest};
    ghost use Rattle.sessions.specs.SessionStreams.{SessionState};

    ghost Value = { SessionState };

    ghost view = { λ t. record { inbox = rest t.inbox; pending = t.output; status = t.status } };

    ghost invariant = { λ t. (t.inbox.start ≤ vec_len t.inbox.bytes) × (vec_len t.inbox.bytes ≤ inbox_max)
        × (inbox_max ≤ vec_capacity t.inbox.bytes) };
}

impl Session {
    ghost use Rattle.std.specs.Prelude.{◌≡◌, ◌≤◌, ◌++◌, length, drop, IfOk};
    ghost use Rattle.engine.specs.Changes.{UsesLogOnce};
    ghost use Rattle.engine.specs.Meaning.{log_of};
    ghost use Rattle.model.specs.Bounds.{range_reply_max};
    ghost use Rattle.sessions.specs.Calls.{ServesSession};
    ghost use Rattle.sessions.specs.Crashes.{SurvivesServe};
    ghost use Rattle.sessions.specs.SessionStreams.{new_session, is_open, room, may_serve};

    /// A session with an empty inbox and nothing to send. It takes `INBOX_MAX` and `OUTPUT_ROOM` bytes; `Memory` where they are refused.
    pub(crate) fn new(alloc: Global) -> Result<Session, Memory>
        ensures { IfOk result (λ t. t ≡ new_session) }
    {
        let inbox = empty_inbox(alloc)?;
        let output = ReplyBuffer::new(alloc)?;
        Ok(Session {
            inbox,
            output,
            status: Status::Open,
        })
    }

    pub(crate) fn status(&self) -> Status
        ensures { result ≡ self.now.status }
    {
        self.status
    }

    pub(crate) fn is_open(&self) -> bool
        ensures { result ≡ is_open self.now.status }
    {
        match self.status {
            Status::Open => true,
            Status::Absent | Status::Ending | Status::Refused => false,
        }
    }

    pub(crate) fn pending(&self) -> &[u8]
        ensures bytes { result.now ≡ self.now.pending }
        ensures short { length result.now ≤ range_reply_max }
    {
        self.output.as_slice()
    }

    /// How many bytes the inbox still takes.
    pub(crate) fn room(&self) -> usize
        ensures { result ≡ room self.now }
    {
        INBOX_MAX - self.inbox.as_slice().len()
    }

    /// Whether a request is looked for.
    fn is_ready(&self) -> bool
        ensures { result ≡ may_serve self.now }
    {
        self.is_open() && self.output.as_slice().is_empty()
    }

    /// The piece follows the inbox. Takes no memory.
    pub(crate) fn receive(&mut self, piece: &[u8])
        requires { length piece.now ≤ room self.old }
        ensures { self.new
            ≡ record { inbox = self.old.inbox ++ piece.now; pending = self.old.pending; status = self.old.status } }
    {
        self.inbox.append(piece, INBOX_MAX);
    }

    /// The first `n` pending bytes leave. Takes no memory.
    pub(crate) fn mark_sent(&mut self, n: usize)
        requires { n ≤ length self.old.pending }
        ensures { self.new
            ≡ record { inbox = self.old.inbox; pending = drop n self.old.pending; status = self.old.status } }
    {
        self.output.consume(n);
    }

    /// Executes the request at the head of the inbox, if a reply is not pending and a whole request stands there.
    pub(crate) fn serve<D: Sectors>(&mut self, engine: &mut Engine<D>, s: u64) -> Outcome
        ensures step { ServesSession engine.old engine.new s self.old self.new result }
        ensures crash { SurvivesServe engine.old engine.new s self.old }
        ensures once { UsesLogOnce (log_of engine.old) (log_of engine.new) }
    {
        if !self.is_ready() {
            return Outcome::Idle;
        }
        if self.inbox.as_slice().is_empty() {
            return Outcome::Idle;
        }
        match serve_request(engine, s, self.inbox.as_slice(), &mut self.output) {
            Served::Answered(used) => {
                self.inbox.consume(used);
                Outcome::Done
            }
            Served::Incomplete => Outcome::Idle,
            Served::Broken => {
                self.inbox.clear();
                self.status = Status::Ending;
                Outcome::Done
            }
            Served::Refused => {
                self.inbox.clear();
                self.status = Status::Refused;
                Outcome::Memory
            }
        }
    }
}
