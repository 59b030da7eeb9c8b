//! Runs a command line over the operating system's files and ports.
ghost use Rattle.system.specs.CommandLines.{RunsWords};

use crate::ports::{SystemPorts, SystemServer};
use commands::{
    CommandLine, DataFiles, Environment, Lines, Ports, Scripts, SystemFiles, Turns, run_command,
};
use sector::FileSectors;
use sessions::Hub;
use std::alloc::Global;
use std::fs::File;
use std::io::{Read, Write};
use std::net::Net;
use std::rt::Files;
use std::time::Clock;

/// Runs the command that the words ask for, the program's name first, and answers the exit status: `DONE`, `REFUSED` for a command line
/// that was refused, `BAD_LINE` for a line of a script that was, `FAULT` otherwise. What went wrong is written on `err`.
///
/// It takes the memory of the command and of reading the words. Lines of progress are for a terminal alone: `run_watched` prints them.
pub fn run<'a, R: Files<File = File> + Net + Clock, I: Read + Drop, O: Write, E: Write>(
    rt: &'a R,
    alloc: Global,
    words: &[&str],
    reader: I,
    out: &mut O,
    err: &mut E,
) -> u8
    ensures { RunsWords ⟦<SystemFiles<'a, R> as DataFiles>⟧ ⟦<SystemPorts<'a, R> as Ports<Hub<FileSectors>>>⟧
        ⟦<SystemServer as Turns>⟧ ⟦<I as Scripts<&'a mut O>>⟧ ⟦<&'a mut O as Lines>⟧ ⟦<&'a mut E as Lines>⟧ words.now
        reader out.old err.old result }
{
    run_watched(rt, alloc, words, reader, out, err, false)
}

/// As `run`; where `err` is a terminal, it also prints there how far a command is that takes long.
pub fn run_watched<'a, R: Files<File = File> + Net + Clock, I: Read + Drop, O: Write, E: Write>(
    rt: &'a R,
    alloc: Global,
    words: &[&str],
    reader: I,
    out: &mut O,
    err: &mut E,
    is_terminal: bool,
) -> u8
    ensures { RunsWords ⟦<SystemFiles<'a, R> as DataFiles>⟧ ⟦<SystemPorts<'a, R> as Ports<Hub<FileSectors>>>⟧
        ⟦<SystemServer as Turns>⟧ ⟦<I as Scripts<&'a mut O>>⟧ ⟦<&'a mut O as Lines>⟧ ⟦<&'a mut E as Lines>⟧ words.now
        reader out.old err.old result }
{
    let mut environment = Environment {
        files: SystemFiles::new(rt),
        ports: SystemPorts::new(rt),
        out,
        err,
        is_terminal,
    };
    run_command(
        rt,
        alloc,
        &CommandLine::new(words),
        &mut environment,
        reader,
    )
}
