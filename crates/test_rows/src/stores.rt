//! What a store is to the rows: something that answers frames.
ghost use Rattle.model.specs.Operations.{IsFit};

use crate::lines::{frame_of, shown};
use crate::worked::Line;
use model::{Command, Memory, Refusal, Reply};
use resp::{Decoded, command, decode, write_reply};
use std::alloc::Global;

/// A store that answers frames of sessions.
pub trait Store {
    /// Writes the reply to the session's frame at the end of `out`. `Memory` where it is refused.
    fn answer(&mut self, session: u64, frame: &[u8], out: &mut Vec<u8>) -> Result<(), Memory>;
}

/// A store that serves commands.
pub trait Serves {
    /// Serves a command of the session, and writes the reply at the end of `out`. `Memory` where it is refused.
    fn serve(
        &mut self,
        session: u64,
        command: &Command<'_>,
        out: &mut Vec<u8>,
    ) -> Result<(), Memory>
        requires { IsFit command.now };

    /// Ends the session's transaction, if it has one.
    fn leave(&mut self, session: u64);
}

/// A store that serves commands, behind the decoder.
#[derive(Drop)]
pub struct Decoding<S: Serves + Drop> {
    pub store: S,
}

impl<S: Serves + Drop> Store for Decoding<S> {
    fn answer(&mut self, session: u64, frame: &[u8], out: &mut Vec<u8>) -> Result<(), Memory> {
        let Decoded::Whole(request, _) = decode(frame) else {
            self.store.leave(session);
            return write_reply(out, &Reply::Refused(&Refusal::BadFrame));
        };
        match command(&request) {
            Ok(command) => self.store.serve(session, &command, out),
            Err(refusal) => write_reply(out, &Reply::Refused(&refusal)),
        }
    }
}

/// What the store replies to a line, as one line. `Memory` where it is refused.
pub fn reply_to<S: Store>(alloc: Global, store: &mut S, line: &str) -> Result<String, Memory> {
    let (session, frame) = frame_of(alloc, line)?;
    let mut out = Vec::new(alloc);
    store.answer(session, &frame, &mut out)?;
    shown(alloc, &out)
}

/// The first line of a row that the store answers otherwise, with its reply, and `None` where there is none. `Memory` where it is
/// refused.
pub fn first_difference<S: Store>(
    alloc: Global,
    store: &mut S,
    row: &[Line],
) -> Result<Option<(&'static str, String)>, Memory> {
    for line in row {
        let (asked, expected) = *line;
        let reply = reply_to(alloc, store, asked)?;
        if reply.as_str() != expected {
            return Ok(Some((asked, reply)));
        }
    }
    Ok(None)
}
