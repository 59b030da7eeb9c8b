//! Why requests are refused, and what stands for refused memory.
use crate::keys::Key;
use std::alloc::{AllocError, AllocFailed};

/// Why a request is refused. Of several reasons the first of a fixed order is given: faults of the request's form, then what the
/// state of the session and of the store says, and at a commit the conflicts before the log.
#[derive(Drop)]
pub enum Refusal {
    /// No request begins with the bytes that came in.
    BadFrame,
    /// No command has this name.
    UnknownCommand,
    /// The command takes another number of parts.
    BadArguments,
    /// A key or a bound has a length that no key has.
    BadKey,
    /// The limit isn't a decimal from 1 to 128.
    BadLimit,
    /// BEGIN inside a transaction.
    AlreadyOpen,
    /// No transaction is open.
    NotOpen,
    /// This would be the 65th written key of the transaction.
    FullWrites,
    /// This would be the 257th mark of the transaction.
    FullMarks,
    /// BEGIN where 64 transactions are open.
    FullTransactions,
    /// A concurrent transaction that committed wrote this key, the least of those that this one wrote too.
    Overwritten(Key),
    /// The committing transaction would be a dangerous pivot.
    PivotSelf,
    /// The transaction of this commit number, the least such, would be a dangerous pivot.
    Pivot(u64),
    /// The log has no room for the record.
    FullLog,
    /// The device failed in this call: the store is stopped.
    StoreFault,
    /// BEGIN or COMMIT after the device failed.
    StoreStopped,
    /// The last commit number is 2^63 - 1.
    FullNumbers,
}

/// Memory was refused.
#[derive(Clone, Copy, Debug, PartialEq, Eq)]
pub struct Memory;

impl From<AllocError> for Memory {
    ghost from_gives = { λ _ e. Unit {0} };

    fn from(_error: AllocError) -> Memory {
        Memory
    }
}

impl<T: Drop> From<AllocFailed<T>> for Memory {
    ghost from_gives = { λ _ e. Unit {0} };

    fn from(_error: AllocFailed<T>) -> Memory {
        Memory
    }
}
