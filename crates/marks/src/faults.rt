//! Why a mark is refused.
use model::Memory;
use std::alloc::AllocFailed;

/// Why a mark is refused. The marks are as they were.
#[derive(Clone, Copy, PartialEq, Eq, Debug)]
pub enum MarksFault {
    /// The mark is new, and 256 are there.
    FullMarks,
    /// Memory was refused.
    Memory,
}

impl From<Memory> for MarksFault {
    ghost use Rattle.std.specs.Prelude.{◌≡◌};
    ghost use Rattle.marks.specs.declared.faults.MarksFault.TheVariants.{Memory};

    ghost from_gives = { λ _ e. e ≡ Memory };

    fn from(_error: Memory) -> MarksFault {
        MarksFault::Memory
    }
}

impl<T: Drop> From<AllocFailed<T>> for MarksFault {
    ghost use Rattle.std.specs.Prelude.{◌≡◌};
    ghost use Rattle.marks.specs.declared.faults.MarksFault.TheVariants.{Memory};

    ghost from_gives = { λ _ e. e ≡ Memory };

    fn from(_error: AllocFailed<T>) -> MarksFault {
        MarksFault::Memory
    }
}
