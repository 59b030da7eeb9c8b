//! The faults that end a script early.

use commit_log::{LogFault, Unopened};
use model::Memory;
use sector::Sectors;
use std::alloc::{AllocError, AllocFailed};
use std::io;
use std::io::ErrorKind;

/// Why a script ends early.
#[derive(Clone, Copy, PartialEq, Eq, Debug)]
pub enum ScriptFault {
    /// The line of this number, 1 for the first, isn't a line of a script.
    BadLine(u64),
    /// The line of this number names one session too many.
    Crowded(u64),
    /// The reader or the writer failed.
    File,
    /// The log could not be made or opened.
    Log(LogFault),
    /// Memory was refused.
    Memory,
}

impl From<Memory> for ScriptFault {
    ghost use Rattle.std.specs.Prelude.{◌≡◌};
    ghost use Rattle.scripts.specs.declared.faults.ScriptFault.TheVariants.{Memory};

    ghost from_gives = { λ _ e. e ≡ Memory };

    fn from(_refused: Memory) -> ScriptFault {
        ScriptFault::Memory
    }
}

impl From<AllocError> for ScriptFault {
    ghost use Rattle.std.specs.Prelude.{◌≡◌};
    ghost use Rattle.scripts.specs.declared.faults.ScriptFault.TheVariants.{Memory};

    ghost from_gives = { λ _ e. e ≡ Memory };

    fn from(_refused: AllocError) -> ScriptFault {
        ScriptFault::Memory
    }
}

impl<T: Drop> From<AllocFailed<T>> for ScriptFault {
    ghost use Rattle.std.specs.Prelude.{◌≡◌};
    ghost use Rattle.scripts.specs.declared.faults.ScriptFault.TheVariants.{Memory};

    ghost from_gives = { λ _ e. e ≡ Memory };

    fn from(_refused: AllocFailed<T>) -> ScriptFault {
        ScriptFault::Memory
    }
}

impl From<LogFault> for ScriptFault {
    ghost use Rattle.std.specs.Prelude.{◌≡◌};
    ghost use Rattle.scripts.specs.declared.faults.ScriptFault.TheVariants.{Log};

    ghost from_gives = { λ f e. e ≡ Log f };

    fn from(fault: LogFault) -> ScriptFault {
        ScriptFault::Log(fault)
    }
}

impl<D: Sectors> From<Unopened<D>> for ScriptFault {
    ghost use Rattle.std.specs.Prelude.{◌≡◌};
    ghost use Rattle.scripts.specs.declared.faults.ScriptFault.TheVariants.{Log};

    ghost from_gives = { λ unopened e. e ≡ Log unopened.fault };

    fn from(unopened: Unopened<D>) -> ScriptFault {
        ScriptFault::Log(unopened.fault)
    }
}

/// An error of the reader or the writer. Its kind says whether it is out of memory.
impl From<io::Error> for ScriptFault {
    ghost use Rattle.std.specs.Prelude.{◌≡◌, ◌≢◌, ◌⊎◌};
    ghost use Rattle.std.specs.IoError.{error_kind};
    ghost use Rattle.std.specs.declared.io.ErrorKind.TheVariants.{OutOfMemory};
    ghost use Rattle.scripts.specs.declared.faults.ScriptFault.TheVariants.{File, Memory};

    ghost from_gives = { λ error fault.
        ((error_kind error ≡ OutOfMemory) × (fault ≡ Memory)) ⊎ ((error_kind error ≢ OutOfMemory) × (fault ≡ File)) };

    fn from(error: io::Error) -> ScriptFault {
        match error.kind() {
            ErrorKind::OutOfMemory => ScriptFault::Memory,
            _ => ScriptFault::File,
        }
    }
}
