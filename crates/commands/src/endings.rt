//! How a command line ends: what is printed, each text in one write, and the exit status.
ghost use Rattle.std.specs.Prelude.{◌≡◌, ◌++◌, ◌≤◌, length};
ghost use Rattle.commands.specs.declared.lines.TheConstants.{LINE_MAX};
ghost use Rattle.commands.specs.Faults.{fault_line, exit_status};
ghost use Rattle.commands.specs.Endings.{ReportsEnding, ReportsFault};

use crate::faults::Fault;
use crate::lines::{Line, numbered_line, push_text};
use crate::system::Lines;
use crate::{BAD_LINE, DONE, FAULT, REFUSED};
use command_line::Refusal;
use std::io;

/// How a command line ends. A text ends with a line feed.
#[derive(PartialEq, Eq, Debug, Drop)]
pub enum Ending {
    /// The command was done.
    Done,
    /// Help was asked for, and this is its text.
    Help(String),
    /// The command line was refused, and this text says why.
    Refused(String),
    /// The command ended early.
    Failed(Fault),
}

/// What was reported of an ending.
#[derive(Clone, Copy, PartialEq, Eq, Debug)]
pub struct Reported {
    /// The exit status.
    pub status: u8,
    /// Was all that was to be reported written?
    pub is_written: bool,
}

impl From<Refusal> for Ending {
    ghost use Rattle.std.specs.Prelude.{◌≡◌};
    ghost use Rattle.commands.specs.Endings.{of_refusal};

    ghost from_gives = { λ refusal ending. ending ≡ of_refusal refusal };

    fn from(refusal: Refusal) -> Ending {
        match refusal {
            Refusal::Help(text) => Ending::Help(text),
            Refusal::Refused(text) => Ending::Refused(text),
            Refusal::Memory => Ending::Failed(Fault::Memory),
        }
    }
}

impl From<Result<(), Fault>> for Ending {
    ghost use Rattle.std.specs.Prelude.{◌≡◌};
    ghost use Rattle.commands.specs.Endings.{of_outcome};

    ghost from_gives = { λ outcome ending. ending ≡ of_outcome outcome };

    fn from(outcome: Result<(), Fault>) -> Ending {
        match outcome {
            Ok(()) => Ending::Done,
            Err(fault) => Ending::Failed(fault),
        }
    }
}

/// Reports an ending: help on the output, and what went wrong on the error output. Where help can't be written, that is a fault of a file.
/// Takes no memory.
pub fn finish<O: Lines, E: Lines>(ending: &Ending, out: &mut O, err: &mut E) -> Reported
    ensures { ReportsEnding O.writes E.writes ending.now out.old err.old result out.new err.new }
{
    match ending {
        Ending::Done => Reported {
            status: DONE,
            is_written: true,
        },
        Ending::Help(text) => match out.write_line(text.as_bytes()) {
            Ok(()) => Reported {
                status: DONE,
                is_written: true,
            },
            Err(_) => report(Fault::File, err),
        },
        Ending::Refused(text) => Reported {
            status: REFUSED,
            is_written: err.write_line(text.as_bytes()).is_ok(),
        },
        Ending::Failed(fault) => report(*fault, err),
    }
}

/// Writes the text of a fault on its own line, in one write, and answers the exit status. Takes no memory.
pub fn report<E: Lines>(fault: Fault, err: &mut E) -> Reported
    ensures { ReportsFault E.writes fault err.old result err.new }
{
    Reported {
        status: status(fault),
        is_written: write_fault(fault, err).is_ok(),
    }
}

// The exit status of a fault.
fn status(fault: Fault) -> u8
    ensures { result ≡ exit_status fault }
{
    match fault {
        Fault::BadLine(_) | Fault::Crowded(_) => BAD_LINE,
        _ => FAULT,
    }
}

// Writes the line of a fault.
fn write_fault<E: Lines>(fault: Fault, err: &mut E) -> io::Result<()>
    ensures { E.writes err.old (fault_line fault) result err.new }
{
    let line = fault_line(fault);
    err.write_line(line.as_slice())
}

// The line of a fault.
fn fault_line(fault: Fault) -> Line
    ensures { result.items ≡ fault_line fault }
{
    match fault {
        Fault::NotALog => text_line(b"ssikvd: not a log\n"),
        Fault::OldFormat => text_line(b"ssikvd: old format\n"),
        Fault::NotEmpty => text_line(b"ssikvd: not empty\n"),
        Fault::Damaged(index) => numbered_line(b"ssikvd: damaged record ", index, b"\n"),
        Fault::LogFull => text_line(b"ssikvd: log full\n"),
        Fault::Device => text_line(b"ssikvd: device fault\n"),
        Fault::File => text_line(b"ssikvd: file fault\n"),
        Fault::Listen => text_line(b"ssikvd: listen fault\n"),
        Fault::Poll => text_line(b"ssikvd: poll fault\n"),
        Fault::Memory => text_line(b"ssikvd: out of memory\n"),
        Fault::BadLine(number) => numbered_line(b"line ", number, b": bad line\n"),
        Fault::Crowded(number) => numbered_line(b"line ", number, b": crowded\n"),
    }
}

// A line of a text alone.
fn text_line(text: &[u8]) -> Line
    requires { length text.now ≤ LINE_MAX }
    ensures { result.items ≡ text.now }
{
    let mut line = Line::new();
    push_text(&mut line, text);
    line
}
