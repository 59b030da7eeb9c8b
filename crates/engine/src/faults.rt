//! Why a call is refused: with a reply to the client, or since memory was refused.
use model::{Memory, Refusal};
use snapshot::SnapshotFault;
use std::alloc::{AllocError, AllocFailed};

/// Why a call is refused.
#[derive(Drop)]
pub enum EngineFault {
    /// The request is refused, and this is the reply to it.
    Refused(Refusal),
    /// Memory was refused: there is no reply, and nothing has changed.
    Memory,
}

/// Why a read is refused.
#[derive(Clone, Copy, Debug, PartialEq, Eq)]
pub enum ReadFault {
    /// The session has no open transaction.
    NotOpen,
    /// There is no room for one more mark.
    FullMarks,
    /// Memory was refused: there is no reply, and nothing has changed.
    Memory,
}

impl From<Memory> for EngineFault {
    ghost use Rattle.std.specs.Prelude.{◌≡◌};
    ghost use Rattle.engine.specs.declared.faults.EngineFault.TheVariants.{Memory};

    ghost from_gives = { λ _ e. e ≡ Memory };

    fn from(_error: Memory) -> EngineFault {
        EngineFault::Memory
    }
}

impl<T: Drop> From<AllocFailed<T>> for EngineFault {
    ghost use Rattle.std.specs.Prelude.{◌≡◌};
    ghost use Rattle.engine.specs.declared.faults.EngineFault.TheVariants.{Memory};

    ghost from_gives = { λ _ e. e ≡ Memory };

    fn from(_error: AllocFailed<T>) -> EngineFault {
        EngineFault::Memory
    }
}

impl From<SnapshotFault> for EngineFault {
    ghost use Rattle.std.specs.Prelude.{◌≡◌};
    ghost use Rattle.engine.specs.Faults.{of_write};

    ghost from_gives = { λ f e. e ≡ of_write f };

    fn from(fault: SnapshotFault) -> EngineFault {
        match fault {
            SnapshotFault::FullWrites => EngineFault::Refused(Refusal::FullWrites),
            SnapshotFault::FullMarks => EngineFault::Refused(Refusal::FullMarks),
            SnapshotFault::Memory => EngineFault::Memory,
        }
    }
}

impl From<SnapshotFault> for ReadFault {
    ghost use Rattle.std.specs.Prelude.{◌≡◌};
    ghost use Rattle.engine.specs.Faults.{of_read};

    ghost from_gives = { λ f e. e ≡ of_read f };

    fn from(fault: SnapshotFault) -> ReadFault {
        match fault {
            SnapshotFault::FullMarks => ReadFault::FullMarks,
            // A read writes nothing, so it is never refused for its writes.
            SnapshotFault::FullWrites | SnapshotFault::Memory => ReadFault::Memory,
        }
    }
}
