//! The faults that end a command early.
ghost use Rattle.commands.specs.Printing.{IsReportedAs};

use commit_log::LogFault;
use scripts::ScriptFault;
use std::io::{self, ErrorKind};

/// Why a command ends early.
#[derive(Clone, Copy, PartialEq, Eq, Debug)]
pub enum Fault {
    /// What the data file holds is not a log.
    NotALog,
    /// The log has an older format.
    OldFormat,
    /// The file holds something already.
    NotEmpty,
    /// The record of this index, 0 for the first, is damaged.
    Damaged(u64),
    /// The log has no room.
    LogFull,
    /// The device failed.
    Device,
    /// A file, the input or the output failed.
    File,
    /// The address is none, or can't be listened at.
    Listen,
    /// The poll failed.
    Poll,
    /// Memory was refused.
    Memory,
    /// The line of this number, 1 for the first, is none of a script.
    BadLine(u64),
    /// The line of this number names one session too many.
    Crowded(u64),
}

impl From<LogFault> for Fault {
    ghost use Rattle.std.specs.Prelude.{◌≡◌};
    ghost use Rattle.commands.specs.Faults.{of_log};

    ghost from_gives = { λ f e. e ≡ of_log f };

    fn from(fault: LogFault) -> Fault {
        match fault {
            LogFault::NotALog => Fault::NotALog,
            LogFault::Damaged(index) => Fault::Damaged(index),
            LogFault::Full => Fault::LogFull,
            LogFault::Device | LogFault::Stopped => Fault::Device,
            LogFault::Memory => Fault::Memory,
            LogFault::OldFormat => Fault::OldFormat,
            LogFault::NotEmpty => Fault::NotEmpty,
        }
    }
}

impl From<ScriptFault> for Fault {
    ghost use Rattle.std.specs.Prelude.{◌≡◌};
    ghost use Rattle.commands.specs.Faults.{of_script};

    ghost from_gives = { λ f e. e ≡ of_script f };

    fn from(fault: ScriptFault) -> Fault {
        match fault {
            ScriptFault::BadLine(number) => Fault::BadLine(number),
            ScriptFault::Crowded(number) => Fault::Crowded(number),
            ScriptFault::File => Fault::File,
            ScriptFault::Log(fault) => Fault::from(fault),
            ScriptFault::Memory => Fault::Memory,
        }
    }
}

/// An error of a file, the input or the output. Its kind says whether it is out of memory.
impl From<io::Error> for Fault {
    ghost use Rattle.commands.specs.Printing.{IsReportedAs};
    ghost use Rattle.commands.specs.declared.faults.Fault.TheVariants.{File};

    ghost from_gives = { λ error fault. IsReportedAs error File fault };

    fn from(error: io::Error) -> Fault {
        or_memory(&error, Fault::File)
    }
}

/// The fault, unless the error is out of memory.
pub(crate) fn or_memory(error: &io::Error, fault: Fault) -> Fault
    ensures { IsReportedAs error.now fault result }
{
    match error.kind() {
        ErrorKind::OutOfMemory => Fault::Memory,
        _ => fault,
    }
}
