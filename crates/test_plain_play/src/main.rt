//! The plain engine by lines, as `ssikvd play` plays a script: each line of the input is a session's number and a request, over the empty
//! map, and is answered by a line with the number and the reply.
#![tactic(auto)]

use std::alloc::Global;
use std::io::{self, BufRead, BufReader, ErrorKind, Read, Write};
use std::process::ExitCode;
use test_rows::worked::SECTORS;
use test_rows::{Decoding, PlainStore, reply_to};

/// The exit status where memory is refused, or the input or the output fails.
const FAULT: u8 = 3;

/// Answers a line.
fn answer<W: Write>(
    alloc: Global,
    store: &mut Decoding<PlainStore>,
    line: &str,
    out: &mut W,
) -> io::Result<()> {
    let (label, _request) = line.split_once(' ').unwrap_or((line, ""));
    match reply_to(alloc, store, line) {
        Ok(reply) => writeln!(out, "{label} {reply}"),
        Err(_refused) => Err(io::Error::from(ErrorKind::OutOfMemory)),
    }
}

/// Answers line after line.
fn play<R: Read + Drop, W: Write>(alloc: Global, input: R, out: &mut W) -> io::Result<()> {
    let mut input = BufReader::new(alloc, input)?;
    let mut store = Decoding {
        store: PlainStore::new(alloc, SECTORS, false),
    };
    let mut line = String::new(alloc);
    for _ in 0..u64::MAX {
        line.clear();
        if input.read_line(&mut line)? == 0 {
            break;
        }
        answer(alloc, &mut store, line.trim_end(), out)?;
    }
    Ok(())
}

fn main(rt: HostRuntime) -> ExitCode {
    match play(rt.alloc(), rt.reader(), &mut io::writer(&rt)) {
        Ok(()) => ExitCode::SUCCESS,
        Err(error) => {
            let _ = writeln!(rt.stderr(), "test_plain_play: {error}");
            ExitCode::from(FAULT)
        }
    }
}
