//! Why a request of a transaction is refused.
use marks::MarksFault;
use write_buffer::WritesFault;

/// Why a call of a transaction is refused. The transaction is as it was.
#[derive(Clone, Copy, PartialEq, Eq, Debug)]
pub enum SnapshotFault {
    /// The key isn't written, and 64 are.
    FullWrites,
    /// The read needs a mark that isn't there, and 256 are.
    FullMarks,
    /// Memory was refused.
    Memory,
}

impl From<MarksFault> for SnapshotFault {
    ghost use Rattle.std.specs.Prelude.{◌≡◌};
    ghost use Rattle.snapshot.specs.Faults.{of_marks};

    ghost from_gives = { λ f e. e ≡ of_marks f };

    fn from(fault: MarksFault) -> SnapshotFault {
        match fault {
            MarksFault::FullMarks => SnapshotFault::FullMarks,
            MarksFault::Memory => SnapshotFault::Memory,
        }
    }
}

impl From<WritesFault> for SnapshotFault {
    ghost use Rattle.std.specs.Prelude.{◌≡◌};
    ghost use Rattle.snapshot.specs.Faults.{of_writes};

    ghost from_gives = { λ f e. e ≡ of_writes f };

    fn from(fault: WritesFault) -> SnapshotFault {
        match fault {
            WritesFault::FullWrites => SnapshotFault::FullWrites,
            WritesFault::Memory => SnapshotFault::Memory,
        }
    }
}
