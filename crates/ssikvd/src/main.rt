//! The program: its words and its standard streams go to the commands, and it ends with the status that they answer.
#![tactic(auto)]

use commands::{Ending, Fault, NullDevice, finish, keep_standard, report};
use std::alloc::{Alloc, AllocError, Global};
use std::env::{self, Env};
use std::io::{self, ErrorKind, IsTerminal};
use std::process::ExitCode;
use system::run_watched;

fn main(rt: HostRuntime) -> ExitCode {
    let mut err = rt.stderr();
    // Before anything is opened: no file of the program's gets the descriptor of a standard stream that is closed.
    let Ok(kept) = keep_standard(&mut NullDevice::new(&rt)) else {
        return ExitCode::from(report(Fault::File, &mut err).status);
    };
    let mut out = io::writer(&rt);
    let status = match words(&rt) {
        Ok(words) => match texts(rt.alloc(), &words) {
            Ok(texts) => {
                let is_terminal = err.is_terminal();
                let reader = rt.reader();
                run_watched(
                    &rt,
                    rt.alloc(),
                    &texts,
                    reader,
                    &mut out,
                    &mut err,
                    is_terminal,
                )
            }
            Err(_) => report(Fault::Memory, &mut err).status,
        },
        Err(error) => finish(&refused(rt.alloc(), &error), &mut out, &mut err).status,
    };
    drop(kept);
    ExitCode::from(status)
}

// The program's words, its name first.
fn words<R: Env + Alloc>(rt: &R) -> io::Result<Vec<String<R::A>, R::A>> {
    Ok(env::args(rt)?.collect(rt.alloc())?)
}

// The words as texts.
fn texts(alloc: Global, words: &[String]) -> Result<Vec<&str>, AllocError> {
    let mut texts = Vec::new(alloc);
    for word in words {
        texts.push(word.as_str())?;
    }
    Ok(texts)
}

// There was no memory for the words, or one is no text.
fn refused(alloc: Global, error: &io::Error) -> Ending {
    if error.kind() == ErrorKind::OutOfMemory {
        return Ending::Failed(Fault::Memory);
    }
    match format!(in alloc; "error: {error}\n") {
        Ok(text) => Ending::Refused(text),
        Err(_) => Ending::Failed(Fault::Memory),
    }
}
