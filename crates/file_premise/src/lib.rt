//! What holds of a store over a file, if files keep the sector model: the clauses on crashes, at the very type that `serve` runs. No
//! function here has a proof of its own.
#![tactic(auto)]

ghost use Rattle.std.specs.Prelude.{◌≡◌, true, false, IfErr, IfOk, IsErrOf};
ghost use Rattle.sector.specs.FileModel.{FileKeepsModel};
ghost use Rattle.commit_log.specs.Format.{current};
ghost use Rattle.commit_log.specs.RecordFormat.{IsWriteSet};
ghost use Rattle.commit_log.specs.Appending.{Fails, IsAdded, KeepsLists};
ghost use Rattle.commit_log.specs.LogState.{LacksRoom, is_log_stopped};
ghost use Rattle.sessions.specs.Crashes.{AppliesWhole, KeepsCommitted};
ghost use Rattle.sessions.specs.StandsFor.{HubLeads, event_of};
ghost use Rattle.sessions.specs.Restarts.{RestartsLoseNothing, RestartsFromNothing};
ghost use Rattle.sessions.specs.OneOrder.{RestartsHaveOneHistory};

use commit_log::{Log, LogFault};
use model::Write;
use sector::FileSectors;
use sessions::{Event, Hub, Outcome};
use std::alloc::Global;

/// Appends a record to a log over a file, as `Log::append` does, which says when each fault comes: a crash at any moment of the call
/// leaves the log with the record or without it.
pub fn append(log: &mut Log<FileSectors>, alloc: Global, writes: &[Write]) -> Result<u64, LogFault>
    requires { IsWriteSet current writes.now }
    ensures added { IfOk result (IsAdded log.old log.new writes.now) }
    ensures fails { IfErr result (Fails log.old log.new writes.now) }
    ensures stopped { is_log_stopped log.old ≡ true → IsErrOf result LogFault.Stopped }
    ensures full { is_log_stopped log.old ≡ false → LacksRoom log.old writes.now → IsErrOf result LogFault.Full }
    ensures keeps { FileKeepsModel → KeepsLists log.old log.new writes.now result }
{
    log.append(alloc, writes)
}

/// Applies an event to the sessions over a file: a crash at any moment of it leaves the map committed before it or, where it executes a
/// COMMIT, that with the transaction's writes. After it a crash leaves the map that is then committed.
pub fn step(hub: &mut Hub<FileSectors>, event: &Event<'_>) -> Outcome
    ensures step { HubLeads hub.old hub.new (event_of event.now) result }
    ensures crash { FileKeepsModel → AppliesWhole hub.old hub.new (event_of event.now) }
    ensures stored { FileKeepsModel → KeepsCommitted hub.new }
{
    hub.step(event)
}

/// Does nothing. Through any number of restarts over files, each opened over what the end of the one before left, a store begins with the
/// map of the last answered COMMIT, or with that and one COMMIT more; it is never found damaged. All that was committed in them has one
/// order, at whose end is the map that is found.
pub fn restarts(hub: &Hub<FileSectors>)
    ensures restarts { FileKeepsModel → RestartsLoseNothing hub.now }
    ensures from_nothing { FileKeepsModel → RestartsFromNothing hub.now }
    ensures one_history { FileKeepsModel → RestartsHaveOneHistory hub.now }
{
    hub.law_restarts_lose_nothing()
}
