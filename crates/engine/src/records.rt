//! Takes the memory that a commit needs, and then appends its record to the log.
ghost use Rattle.std.specs.Prelude.{OnOk};
ghost use Rattle.model.specs.Map.{after_writes};
ghost use Rattle.engine.specs.HistoryValue.{IsSameHistory, IsReady};
ghost use Rattle.engine.specs.Changes.{IsLogged};
ghost use Rattle.engine.specs.Validations.{CanAppend};
ghost use Rattle.engine.specs.Recovery.{FailsToAppend, IsStored, WhereStored, SurvivesAppend};

use crate::history::History;
use commit_log::{AppendFault, Log};
use sector::Sectors;
use snapshot::Transaction;
use std::alloc::Global;

// Makes the memory that the commit of the transaction needs, and appends what it wrote, if it wrote anything, to a log with room for it.
pub(crate) fn reserve_and_append<D: Sectors>(
    log: &mut Log<D>,
    history: &mut History,
    alloc: Global,
    transaction: &Transaction,
    payload: Option<u32>,
) -> Result<(), AppendFault>
    requires { CanAppend log.old transaction.now.writes payload }
    ensures same { IsSameHistory history.old history.new }
    ensures ready { OnOk result (IsReady history.new transaction.now) }
    ensures logged { OnOk result (IsLogged log.old log.new transaction.now.writes) }
    ensures stored { D.keeps_model
        → WhereStored log.old (λ map. OnOk result (IsStored log.new (after_writes map transaction.now.writes))) }
    ensures fails { FailsToAppend log.old log.new transaction.now.writes result }
    ensures crash { D.keeps_model → SurvivesAppend log.old log.new transaction.now.writes }
{
    if history.prepare(transaction).is_err() {
        return Err(AppendFault::Memory);
    }
    let Some(len) = payload else {
        return Ok(());
    };
    log.append_in_room(alloc, transaction.entries(), len)?;
    Ok(())
}
