//! What has committed: the versions of each key, and what later commits are checked against.
ghost use Rattle.std.specs.Prelude.{◌≡◌, ◌+◌, ◌<◌, ◌≤◌, false, true, [], length, IfOk, OnOk};
ghost use Rattle.model.specs.Map.{IsInBounds};
ghost use Rattle.versions.specs.Meaning.{IsReclaimed, IsReclaimedInPart};
ghost use Rattle.pivot_check.specs.FewKept.{KeepsLittle};
ghost use Rattle.pivot_check.specs.Kept.{IsEmpty, FreesRuns, KeepsNoneUpto};
ghost use Rattle.pivot_check.specs.StandsFor.{IsCleared};
ghost use Rattle.engine.specs.declared.engine.TheConstants.{OPEN_MAX};
ghost use Rattle.engine.specs.declared.validating.TheConstants.{LAST_MAX};
ghost use Rattle.engine.specs.HistoryValue.{HistoryStandsFor, IsNumbered, IsSameHistory, IsReady, Joins, Reclaims};
ghost use Rattle.engine.specs.HistoryValue.{is_garbage};

use model::{Map, Memory};
use pivot_check::{Cleared, Committed};
use snapshot::Transaction;
use std::alloc::Global;
use std::marker::Model;
use versions::{Versions, law_numbers_change, law_read_only_record_follows};

/// What has committed: the versions of its writes, and what is kept to check later commits.
#[derive(Drop)]
pub(crate) struct History {
    versions: Versions,
    committed: Committed,
}

impl Model for History {
    ghost use Rattle.std.specs.Prelude.{◌≡◌, ◌≤◌};
    ghost use Rattle.engine.specs.HistoryValue.{HistoryValue};

    ghost Value = { HistoryValue };

    ghost view = { λ h. record { versions = h.versions; committed = h.committed } };

    ghost invariant = { λ h. (h.versions.last ≤ h.committed.facts.last)
        × (h.committed.facts.reach.since ≡ h.committed.facts.last) };
}

impl History {
    /// Nothing has committed over this map.
    pub(crate) fn over(alloc: Global, map: Map) -> Result<History, Memory>
        ensures stands { IfOk result (λ h. HistoryStandsFor h (λ _. true) map []) }
        ensures empty { IfOk result (λ h. IsEmpty h.committed.facts) }
        ensures little { IfOk result (λ h. KeepsLittle h.committed) }
        ensures in_bounds { IsInBounds map }
    {
        Ok(History {
            versions: Versions::from_map(alloc, map)?,
            committed: Committed::new(alloc),
        })
    }

    pub(crate) fn versions(&self) -> &Versions
        ensures { result.now ≡ self.now.versions }
    {
        &self.versions
    }

    pub(crate) fn committed(&self) -> &Committed
        ensures { result.now ≡ self.now.committed }
    {
        &self.committed
    }

    /// Makes the memory that the transaction's commit needs. What the history means stays, also where memory is refused.
    pub(crate) fn prepare(&mut self, transaction: &Transaction) -> Result<(), Memory>
        ensures same { IsSameHistory self.old self.new }
        ensures ready { OnOk result (IsReady self.new transaction.now) }
    {
        self.versions.prepare(transaction.entries())?;
        self.committed.reserve(transaction)
    }

    /// Takes the transaction, which was cleared, in as the next commit, in the memory that was made for it, and answers its number. The
    /// others are the numbers at which those that are open began: from then on merges drop what none of them asks for. Takes no memory.
    pub(crate) fn join(&mut self, transaction: Transaction, cleared: Cleared, others: &[u64]) -> u64
        requires ready { IsReady self.old transaction }
        requires cleared { IsCleared self.old.committed.facts transaction cleared }
        requires last { self.old.committed.facts.last < LAST_MAX }
        requires few { length others.now ≤ OPEN_MAX }
        ensures numbered { IsNumbered result self.old self.new }
        ensures joins { Joins others.now self.old self.new transaction }
    {
        let number = self.committed.last() + 1;
        self.committed.note(&transaction, number, cleared);
        self.committed.keep_active(others);
        let writes = transaction.into_writes();
        law_numbers_change();
        law_read_only_record_follows();
        if !writes.is_empty() {
            self.versions.keep_active(others);
            self.versions.install(number, writes);
        }
        number
    }

    /// A step of what `reclaim` does, which is short: those of `Versions::reclaim_step` and `Committed::forget_step`. Answers whether it
    /// has to be called again until all is done.
    pub(crate) fn reclaim_step(&mut self, begins: &[u64], oldest: u64) -> bool
        requires oldest { oldest ≤ self.old.committed.facts.last }
        requires few { length begins.now ≤ OPEN_MAX }
        ensures reclaims { Reclaims begins.now oldest self.old self.new }
        ensures reclaimed { IsReclaimedInPart self.old.versions self.new.versions begins.now }
        ensures frees_runs { FreesRuns self.old.committed self.new.committed }
        ensures still { result ≡ is_garbage begins.now self.new }
        ensures kept { result ≡ false → KeepsNoneUpto self.new.committed.facts.oldest self.new.committed.facts }
    {
        let garbage_versions = self.versions.reclaim_step(begins);
        self.committed.keep_active(begins);
        let garbage_runs = self.committed.forget_step(oldest);
        garbage_versions || garbage_runs
    }

    /// Drops the versions that are neither the newest of their keys nor seen from one of the numbers, as `Versions::reclaim` does, and what
    /// was kept of commits with a number of at most `oldest`, as `Committed::forget` does. From then on merges drop what none asks for who
    /// began at one of the numbers.
    pub(crate) fn reclaim(&mut self, begins: &[u64], oldest: u64)
        requires oldest { oldest ≤ self.old.committed.facts.last }
        requires few { length begins.now ≤ OPEN_MAX }
        ensures reclaims { Reclaims begins.now oldest self.old self.new }
        ensures reclaimed { IsReclaimed self.old.versions self.new.versions begins.now }
        ensures kept { KeepsNoneUpto self.new.committed.facts.oldest self.new.committed.facts }
    {
        self.versions.reclaim(begins);
        self.committed.keep_active(begins);
        self.committed.forget(oldest);
    }
}
