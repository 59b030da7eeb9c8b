//! Validates a COMMIT, before it takes any memory and before the device is called.
ghost use Rattle.engine.specs.Validations.{IsCheckedOver, IsValidatedOver};

use crate::history::History;
use commit_log::{Log, payload_len};
use model::Refusal;
use pivot_check::{Cleared, Verdict};
use sector::Sectors;
use snapshot::Transaction;

/// The last commit number of all.
const LAST_MAX: u64 = 9_223_372_036_854_775_807;

/// What the validation of a COMMIT has found.
#[derive(Drop)]
pub(crate) enum Validation {
    /// It is refused.
    Refused(Refusal),
    /// It is refused for the key at this place of the transaction's writes.
    Overwritten(usize),
    /// Nothing refuses it, and the check of conflicts has cleared it. Where it wrote something, the log has room for its record, whose
    /// payload has this many bytes.
    Clear(Option<u32>, Cleared),
}

// Validates the COMMIT of an open transaction: the first of its refusals that come before memory and the device, in the machine's order.
pub(crate) fn validate<D: Sectors>(
    log: &Log<D>,
    history: &History,
    transaction: &Transaction,
) -> Validation
    ensures { IsValidatedOver log.now history.now transaction.now result }
{
    if log.is_stopped() {
        return Validation::Refused(Refusal::StoreStopped);
    }
    if history.committed().last() >= LAST_MAX {
        return Validation::Refused(Refusal::FullNumbers);
    }
    check_conflicts_and_space(log, history, transaction)
}

// Checks one for which the store runs and has a number: whether it conflicts with what has committed, and whether the log has room.
fn check_conflicts_and_space<D: Sectors>(
    log: &Log<D>,
    history: &History,
    transaction: &Transaction,
) -> Validation
    ensures { IsCheckedOver log.now history.now transaction.now result }
{
    let writes = transaction.entries();
    let cleared = match history.committed().verdict(transaction) {
        Verdict::Clear(cleared) => cleared,
        Verdict::Overwritten(i) => return Validation::Overwritten(i),
        Verdict::PivotSelf => return Validation::Refused(Refusal::PivotSelf),
        Verdict::Pivot(n) => return Validation::Refused(Refusal::Pivot(n)),
    };
    if writes.is_empty() {
        return Validation::Clear(None, cleared);
    }
    let len = payload_len(writes);
    if !log.room(len) {
        return Validation::Refused(Refusal::FullLog);
    }
    Validation::Clear(Some(len), cleared)
}
