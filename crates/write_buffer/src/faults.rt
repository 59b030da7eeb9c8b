//! Why a write is refused.
use model::Memory;
use std::alloc::{AllocError, AllocFailed};

/// Why a write is refused. The buffer is as it was.
#[derive(Clone, Copy, PartialEq, Eq, Debug)]
pub enum WritesFault {
    /// The key isn't written, and 64 are.
    FullWrites,
    /// Memory was refused.
    Memory,
}

impl From<Memory> for WritesFault {
    ghost use Rattle.std.specs.Prelude.{◌≡◌};
    ghost use Rattle.write_buffer.specs.declared.faults.WritesFault.TheVariants.{Memory};

    ghost from_gives = { λ _ e. e ≡ Memory };

    fn from(_error: Memory) -> WritesFault {
        WritesFault::Memory
    }
}

impl From<AllocError> for WritesFault {
    ghost use Rattle.std.specs.Prelude.{◌≡◌};
    ghost use Rattle.write_buffer.specs.declared.faults.WritesFault.TheVariants.{Memory};

    ghost from_gives = { λ _ e. e ≡ Memory };

    fn from(_error: AllocError) -> WritesFault {
        WritesFault::Memory
    }
}

impl<T: Drop> From<AllocFailed<T>> for WritesFault {
    ghost use Rattle.std.specs.Prelude.{◌≡◌};
    ghost use Rattle.write_buffer.specs.declared.faults.WritesFault.TheVariants.{Memory};

    ghost from_gives = { λ _ e. e ≡ Memory };

    fn from(_error: AllocFailed<T>) -> WritesFault {
        WritesFault::Memory
    }
}
