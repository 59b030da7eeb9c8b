//! Why a call is refused.
use model::Refusal;
use std::alloc::{AllocError, AllocFailed};

/// Why a call gives up. After `Memory` nothing has changed.
#[derive(Drop)]
pub enum EngineFault {
    Refused(Refusal),
    Memory,
}

impl From<model::Memory> for EngineFault {
    fn from(_memory: model::Memory) -> EngineFault {
        EngineFault::Memory
    }
}

impl From<AllocError> for EngineFault {
    fn from(_error: AllocError) -> EngineFault {
        EngineFault::Memory
    }
}

impl<T: Drop> From<AllocFailed<T>> for EngineFault {
    fn from(_error: AllocFailed<T>) -> EngineFault {
        EngineFault::Memory
    }
}
