//! The engine and the hub by lines: each line of the input is one call of an engine, or the events of one request at a hub, over a device
//! in memory, and each is answered by a line.
//!
//! Memory for the lines themselves is taken before the first of them. From then on each allocation is one of the engine, the hub or their
//! device, so whoever starts the program can refuse one of these in mid-run, and see what becomes of it.
//!
//! - `engine` and `hub` open a new store: `opened`, or `memory` where that is refused.
//! - `1 GET k` is a request of session 1: `1 $-1`, its reply on one line. Where memory is refused an engine answers `1 memory`, and a hub
//!   `1 Memory Refused`, the outcome of the event and how the session then stands.
//! - `1 joins` and `1 leaves`, at a hub, are answered so too.
//! - `end` ends the store: which of the sessions from 1 to 9 have an open transaction, each sector that isn't all zeros, and `end`.
#![tactic(auto)]

mod ends;
mod levels;
mod lines;

use commit_log::LogFault;
use ends::{open_sessions, write_end};
use levels::Level;
use lines::Buffers;
use std::alloc::Global;
use std::io::{self, BufRead, BufReader, Read, Write};
use std::process::ExitCode;

/// The exit status where memory for the lines is refused, or the input or the output fails.
const FAULT: u8 = 3;

/// Answers lines until one ends the store.
fn ask_all<R: BufRead, W: Write>(
    level: &mut Level,
    input: &mut R,
    out: &mut W,
    buffers: &mut Buffers,
) -> io::Result<()> {
    out.write_all(b"opened\n")?;
    for _ in 0..u64::MAX {
        if !buffers.read(input)? || buffers.line() == "end" {
            break;
        }
        buffers.ask(level)?;
        out.write_all(&buffers.answer)?;
    }
    Ok(())
}

/// Answers lines over the store, if it was opened, and then what it is left with.
fn play<R: BufRead, W: Write>(
    opened: Result<Level, LogFault>,
    input: &mut R,
    out: &mut W,
    buffers: &mut Buffers,
) -> io::Result<()> {
    let mut level = match opened {
        Ok(level) => level,
        Err(LogFault::Memory) => return out.write_all(b"memory\n"),
        Err(_other) => return out.write_all(b"no store\n"),
    };
    let asked = ask_all(&mut level, input, out, buffers);
    let mut engine = level.into_engine();
    let open = open_sessions(&mut engine);
    let device = engine.into_device();
    asked?;
    buffers.clear();
    write_end(open, device, &mut buffers.answer)?;
    out.write_all(&buffers.answer)
}

fn run<R: Read + Drop, W: Write>(alloc: Global, input: R, out: &mut W) -> io::Result<()> {
    let mut input = BufReader::new(alloc, input)?;
    let mut buffers = Buffers::new(alloc)?;
    for _ in 0..u64::MAX {
        if !buffers.read(&mut input)? {
            break;
        }
        let opened = match buffers.line() {
            "engine" => Level::engine(alloc),
            "hub" => Level::hub(alloc),
            _ => Err(LogFault::NotALog),
        };
        play(opened, &mut input, out, &mut buffers)?;
    }
    Ok(())
}

fn main(rt: HostRuntime) -> ExitCode {
    match run(rt.alloc(), rt.reader(), &mut io::writer(&rt)) {
        Ok(()) => ExitCode::SUCCESS,
        Err(error) => {
            let _ = writeln!(rt.stderr(), "test_refused_memory: {error}");
            ExitCode::from(FAULT)
        }
    }
}
