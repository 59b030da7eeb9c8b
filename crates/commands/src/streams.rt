//! Fills the descriptors of standard streams that are closed, so that no file of the program's own gets one of them.
ghost use Rattle.std.specs.Prelude.{IfOk};
ghost use Rattle.commands.specs.Openings.{KeepsLow};

use arrayvec::ArrayVec;
use std::fs::File;
use std::io::{self, ErrorKind};
use std::os::fd::AsRawFd;
use std::rt::Files;

/// The highest descriptor of a standard stream: 0 is the input, 1 the output, 2 the error output.
const STANDARD_MAX: i32 = 2;

/// What opens files.
pub trait Opener {
    ghost use Rattle.std.specs.Prelude.{⊤, IfOk};

    /// A file, which is closed where it is dropped.
    type File: AsRawFd + Drop;

    /// `opens before file after`: one call of `open` that opened this file.
    ghost opens: { Self → Self.File → Self → Type 0 } = { λ _ _ _. ⊤ };

    /// Opens a file. Its descriptor is the lowest that is free.
    fn open(&mut self) -> io::Result<Self::File>
        ensures { IfOk result (λ file. opens self.old file self.new) };
}

/// Opens the null device, to read and to write.
#[derive(Drop)]
pub struct NullDevice<'a, R> {
    rt: &'a R,
}

impl<'a, R> NullDevice<'a, R> {
    /// Opens through these files. Takes no memory.
    pub fn new(rt: &'a R) -> Self {
        NullDevice { rt }
    }
}

impl<R: Files<File = File>> Opener for NullDevice<'_, R> {
    type File = File;

    fn open(&mut self) -> io::Result<File> {
        File::options()
            .read(true)
            .write(true)
            .open(self.rt, "/dev/null")
    }
}

/// Opens files until one has a descriptor above those of the standard streams, and answers the ones before it, at most three. While
/// these stay open, no other file gets the descriptor of a standard stream that was closed when the program began.
///
/// An error is the opener's, or `Other` where a fourth file has such a descriptor. Takes no memory.
pub fn keep_standard<O: Opener>(opener: &mut O) -> io::Result<ArrayVec<Option<O::File>, 3>>
    ensures { IfOk result (λ kept. KeepsLow O.opens O.File.raw_fd opener.old kept.items opener.new) }
{
    let mut kept = ArrayVec::new();
    for _turn in 0..4 {
        let file = opener.open()?;
        if file.as_raw_fd() > STANDARD_MAX {
            return Ok(kept);
        }
        if kept.try_push(Some(file)).is_err() {
            break;
        }
    }
    Err(io::Error::from(ErrorKind::Other))
}
