//! Why a call of the log fails, and the device that an opening which failed gives back.
ghost use Rattle.std.specs.Prelude.{◌≡◌};
ghost use Rattle.commit_log.specs.declared.faults.LogFault.TheVariants.{Memory};

use sector::Sectors;
use std::alloc::{AllocError, AllocFailed};
use std::fmt;
use thiserror::Error;

/// Why a call of the log gave up.
#[derive(Clone, Copy, Debug, PartialEq, Eq, Error)]
pub enum LogFault {
    /// The device has fewer than two sectors, or its first isn't the head of a log of any format.
    #[error("not a log")]
    NotALog,
    /// Behind this many right records stands an open gate, and not the record that belongs there.
    #[error("record {0} is damaged")]
    Damaged(u64),
    /// There is no room for the record, or for a head and a gate.
    #[error("the log is full")]
    Full,
    /// The device failed in this call, and the log is stopped.
    #[error("the device failed")]
    Device,
    /// The device failed in an earlier call.
    #[error("the log is stopped")]
    Stopped,
    /// Memory was refused.
    #[error("out of memory")]
    Memory,
    /// The device holds the head of an older format of the log.
    #[error("the log has an old format")]
    OldFormat,
    /// The device's first sector is not all zeros.
    #[error("the device is not empty")]
    NotEmpty,
}

impl From<AllocError> for LogFault {
    ghost from_gives = { λ _ e. e ≡ Memory };

    fn from(_error: AllocError) -> Self {
        LogFault::Memory
    }
}

impl<T: Drop> From<AllocFailed<T>> for LogFault {
    ghost from_gives = { λ _ e. e ≡ Memory };

    fn from(_error: AllocFailed<T>) -> Self {
        LogFault::Memory
    }
}

impl From<model::Memory> for LogFault {
    ghost from_gives = { λ _ e. e ≡ Memory };

    fn from(_error: model::Memory) -> Self {
        LogFault::Memory
    }
}

/// Why no record was added to a log that runs and has room for it.
#[derive(Clone, Copy, Debug, PartialEq, Eq, Error)]
pub enum AppendFault {
    /// The device failed, and the log is stopped.
    #[error("the device failed")]
    Device,
    /// Memory was refused. The log is as it was.
    #[error("out of memory")]
    Memory,
}

impl From<AllocError> for AppendFault {
    ghost use Rattle.commit_log.specs.declared.faults.AppendFault.TheVariants.{Memory};

    ghost from_gives = { λ _ e. e ≡ Memory };

    fn from(_error: AllocError) -> Self {
        AppendFault::Memory
    }
}

impl From<AppendFault> for LogFault {
    ghost use Rattle.commit_log.specs.LogFaults.{of_append};

    ghost from_gives = { λ fault e. e ≡ of_append fault };

    fn from(fault: AppendFault) -> Self {
        match fault {
            AppendFault::Device => LogFault::Device,
            AppendFault::Memory => LogFault::Memory,
        }
    }
}

/// A device whose log could not be opened, and why. It becomes a `LogFault` by `?`, and the device is then given up.
#[derive(Drop)]
pub struct Unopened<D: Sectors> {
    /// Why not.
    pub fault: LogFault,
    /// The device, as the opening left it.
    pub device: D,
}

impl<D: Sectors> fmt::Debug for Unopened<D> {
    fn fmt<W: fmt::Write>(&self, f: &mut fmt::Formatter<W>) -> fmt::Result {
        write!(f, "unopened: {}", self.fault)
    }
}

impl<D: Sectors> From<Unopened<D>> for LogFault {
    ghost from_gives = { λ unopened e. e ≡ unopened.fault };

    fn from(unopened: Unopened<D>) -> Self {
        unopened.fault
    }
}
