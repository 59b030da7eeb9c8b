//! The lines of the input and the answers to them.
use crate::levels::Level;
use sessions::Event;
use std::alloc::{AllocError, Global};
use std::io::{self, BufRead, Write};

/// The bytes that are taken for a line, for its frame, for the reply and for the answer. A longer one takes more.
const ROOM: usize = 65_536;

/// A line, the frame of its request, the bytes of the reply, and the answer.
#[derive(Drop)]
pub(crate) struct Buffers {
    line: String,
    frame: Vec<u8>,
    reply: Vec<u8>,
    pub(crate) answer: Vec<u8>,
}

impl Buffers {
    pub(crate) fn new(alloc: Global) -> Result<Buffers, AllocError> {
        Ok(Buffers {
            line: String::with_capacity(alloc, ROOM)?,
            frame: Vec::with_capacity(alloc, ROOM)?,
            reply: Vec::with_capacity(alloc, ROOM)?,
            answer: Vec::with_capacity(alloc, ROOM)?,
        })
    }

    /// Nothing is left in them. Takes no memory, and frees none.
    pub(crate) fn clear(&mut self) {
        self.line.clear();
        self.frame.clear();
        self.reply.clear();
        self.answer.clear();
    }

    /// Reads the next line, if there is one.
    pub(crate) fn read<R: BufRead>(&mut self, input: &mut R) -> io::Result<bool> {
        self.clear();
        Ok(input.read_line(&mut self.line)? > 0)
    }

    /// The line without its end.
    pub(crate) fn line(&self) -> &str {
        self.line.trim_end()
    }

    /// Asks what the line asks, a session's number and its request, and writes the answer.
    pub(crate) fn ask(&mut self, level: &mut Level) -> io::Result<()> {
        let line = self.line.trim_end();
        let (label, request) = line.split_once(' ').unwrap_or((line, ""));
        let session = label.parse::<u64>().unwrap_or(0);
        match request {
            "joins" => level.step(session, &Event::Joined(session), &mut self.reply)?,
            "leaves" => level.step(session, &Event::Left(session), &mut self.reply)?,
            _ => {
                write_frame(request, &mut self.frame)?;
                level.serve(session, &self.frame, &mut self.reply)?;
            }
        }
        write_answer(label, &self.reply, &mut self.answer)
    }
}

/// Writes the words of a request as one frame. The word `""` is the empty part.
fn write_frame(request: &str, frame: &mut Vec<u8>) -> io::Result<()> {
    write!(frame, "*{}\r\n", request.split_whitespace().count())?;
    for word in request.split_whitespace() {
        let part = if word == "\"\"" { "" } else { word };
        write!(frame, "${}\r\n{part}\r\n", part.len())?;
    }
    Ok(())
}

/// Writes the label and the reply as one line: the reply's last line end is dropped, and each other one is a space.
fn write_answer(label: &str, reply: &[u8], answer: &mut Vec<u8>) -> io::Result<()> {
    answer.write_all(label.as_bytes())?;
    answer.push(b' ')?;
    for byte in reply.strip_suffix(b"\r\n").unwrap_or(reply) {
        match *byte {
            b'\r' => {}
            b'\n' => answer.push(b' ')?,
            other => answer.push(other)?,
        }
    }
    answer.push(b'\n')?;
    Ok(())
}
