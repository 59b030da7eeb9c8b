//! The engine: all its calls but opening, GET, RANGE and COMMIT, which have files of their own.
ghost use Rattle.model.specs.Bounds.{value_max};

use crate::begins::{Begins, least_of};
use crate::faults::EngineFault;
use crate::history::History;
use commit_log::Log;
use model::{KeyRef, Refusal, law_machine_is_serializable};
use pivot_check::law_few_kept;
use sector::Sectors;
use snapshot::Transaction;
use std::alloc::Global;
use std::collections::BTreeMap;
use versions::law_numbers_change;

/// The most open transactions.
pub(crate) const OPEN_MAX: usize = 64;

/// A store, and an open transaction for some of its sessions.
///
/// It is the machine of the model (`Machine.antt`): each call leads from every state that the engine stands for to the machine's next
/// state, with the machine's response; where memory is refused, it leaves the states as they were, and it never answers so where the
/// request is refused. So each open transaction is answered by a private copy of the map committed at its begin, and a commit is
/// refused where it would overwrite a concurrent one or make a dangerous pivot (Cahill, Röhm, Fekete 2008; Fekete et al. 2005; Ports,
/// Grittner 2012).
#[derive(Drop)]
pub struct Engine<D: Sectors> {
    pub(crate) log: Log<D>,
    pub(crate) history: History,
    pub(crate) running: BTreeMap<u64, Transaction>,
    pub(crate) begins: Begins,
    pub(crate) alloc: Global,
    /// How many pages its ranges have looked at.
    pub(crate) pages_looked_at: u64,
}

impl<D: Sectors> Engine<D> {
    ghost use Rattle.std.specs.Prelude.{◌≡◌, ◌≢◌, ◌↔◌, ◌≤◌, ◌<◌, ◌-◌, true, false, Some, None, Err, List, length};
    ghost use Rattle.model.specs.declared.refusals.Refusal.{Refusal as Reason};
    ghost use Rattle.model.specs.Operations.Operation.{Begin, Set, Del, Abort, Ping, Faulty};
    ghost use Rattle.model.specs.Operations.Response.{Done, Pong, Refused};
    ghost use Rattle.model.specs.Machine.{State, IsReached, leave};
    ghost use Rattle.model.specs.Map.{Bytes};
    ghost use Rattle.model.specs.Laws.{IsIsolated, IsOrderedByPlace, IsSerializable};
    ghost use Rattle.versions.specs.Listings.{IsClassified};
    ghost use Rattle.versions.specs.Meaning.{versions_kept, IsReclaimed, IsReclaimedInPart, is_known};
    ghost use Rattle.std.specs.List.{AllByRecursion};
    ghost use Rattle.pivot_check.specs.Kept.{FreesRuns, KeepsNoneUpto, kept_count};
    ghost use Rattle.engine.specs.HistoryValue.{is_garbage};
    ghost use Rattle.engine.specs.Recovery.{LeavesCommitted};
    ghost use Rattle.engine.specs.Meaning.{StandsFor, Leads, IsReadOnly, KeepsStates, response_to, device_of, log_of};
    ghost use Rattle.engine.specs.Meaning.{has_engine_stopped, has_engine_written, engine_records, versions_of};
    ghost use Rattle.engine.specs.Meaning.{CountsPages, StandsForSame, pages_looked_at};
    ghost use Rattle.engine.specs.Meaning.{committed_of, facts_of, open_begins, HasForgottenOld, KeepsFewPostings};

    /// Begins a transaction of the session, over the map that is committed now.
    ///
    /// Refusals, the first of these: `AlreadyOpen`, which is a reply inside the transaction; `StoreStopped`; `FullTransactions` where 64
    /// are open. It may take a node of the tree of open transactions; `Memory` where that is refused.
    pub fn begin(&mut self, s: u64) -> Result<(), EngineFault>
        ensures step { Leads self.old self.new s Begin false (response_to (λ _. Done) result) }
        ensures log { log_of self.new ≡ log_of self.old }
    {
        if self.running.contains_key(&s) {
            return Err(EngineFault::Refused(Refusal::AlreadyOpen));
        }
        if self.log.is_stopped() {
            return Err(EngineFault::Refused(Refusal::StoreStopped));
        }
        if self.running.len() >= OPEN_MAX {
            return Err(EngineFault::Refused(Refusal::FullTransactions));
        }
        law_numbers_change();
        let last = self.history.committed().last();
        self.running.insert(s, Transaction::new(self.alloc, last))?;
        self.begins.forget();
        Ok(())
    }

    /// Writes a value to a key of the session's private copy.
    ///
    /// Refusals: `NotOpen`; `FullWrites` for a 65th written key. It may take a copy of the key and one of the value, and room for a write;
    /// `Memory` where that is refused.
    pub fn set(&mut self, s: u64, key: KeyRef<'_>, value: &[u8]) -> Result<(), EngineFault>
        requires { length value.now ≤ value_max }
        ensures step { Leads self.old self.new s (Set key.entry.bytes.now value.now) false
            (response_to (λ _. Done) result) }
        ensures log { log_of self.new ≡ log_of self.old }
    {
        match self.running.get_mut(&s) {
            Some(transaction) => match transaction.put(key, value) {
                Ok(()) => Ok(()),
                Err(fault) => Err(EngineFault::from(fault)),
            },
            None => Err(EngineFault::Refused(Refusal::NotOpen)),
        }
    }

    /// Deletes a key of the session's private copy, present or not.
    ///
    /// Refusals: `NotOpen`; `FullWrites` for a 65th written key. It may take a copy of the key, and room for a write; `Memory` where that
    /// is refused.
    pub fn del(&mut self, s: u64, key: KeyRef<'_>) -> Result<(), EngineFault>
        ensures step { Leads self.old self.new s (Del key.entry.bytes.now) false (response_to (λ _. Done) result) }
        ensures log { log_of self.new ≡ log_of self.old }
    {
        match self.running.get_mut(&s) {
            Some(transaction) => match transaction.delete(key) {
                Ok(()) => Ok(()),
                Err(fault) => Err(EngineFault::from(fault)),
            },
            None => Err(EngineFault::Refused(Refusal::NotOpen)),
        }
    }

    /// Ends the session's transaction without a commit, also where the session leaves or sends a broken frame. It is refused for
    /// `NotOpen` alone. Takes no memory.
    pub fn abort(&mut self, s: u64) -> Result<(), EngineFault>
        ensures step { Leads self.old self.new s Abort false (response_to (λ _. Done) result) }
        ensures answered { result ≢ Err EngineFault.Memory }
        ensures leaves { (m : State) → StandsFor self.old m → StandsFor self.new (leave m s) }
        ensures log { log_of self.new ≡ log_of self.old }
    {
        self.begins.forget();
        match self.running.remove(&s) {
            Some(_transaction) => Ok(()),
            None => Err(EngineFault::Refused(Refusal::NotOpen)),
        }
    }

    /// Does nothing: what the engine stands for once the session was answered a request that needs no call, which is PING or a request
    /// with a fault in its form. Inside a transaction each of them is an own request.
    pub fn law_passes(&self, s: u64)
        ensures ping { Leads self.now self.now s Ping false (Some Pong) }
        ensures faulty { (refusal : Reason)
            → Leads self.now self.now s (Faulty refusal) false (Some (Refused refusal)) }
    {}

    /// Does nothing: what holds of each state that the engine stands for. The machine reaches it; its open transactions see their own
    /// copies alone; and what has committed has a serial order, which gives the same replies and the same final map. The order by places is
    /// one, in which each dependency rises, since there is no dangerous pivot and no two concurrent transactions wrote one key.
    pub fn law_is_lawful(&self)
        ensures lawful { (m : State) → StandsFor self.now m → IsReached m × IsIsolated m × IsSerializable m }
        ensures ordered { (m : State) → StandsFor self.now m → IsOrderedByPlace m }
    {
        law_machine_is_serializable();
    }

    /// Does nothing: a crash leaves the map of all that has committed; of a store that is stopped, that or the one with the writes of one
    /// COMMIT more, which the clause `crash` of `commit` names.
    pub fn law_is_stored(&self)
        ensures { D.keeps_model → (m : State) → StandsFor self.now m
            → LeavesCommitted m (D.may_leave (device_of self.now)) }
    {}

    /// Does nothing: what each open transaction sees of the pages of the versions is known. So a RANGE looks at those of which it sees a
    /// pair, and besides them at the first and the last of its range, as `Versions::range` says.
    pub fn law_ranges_are_known(&self)
        ensures { (m : State) → StandsFor self.now m
            → AllByRecursion (λ b. is_known b (versions_of self.now) ≡ true) (open_begins m) }
    {}

    /// Does nothing: little is kept of the written keys, however many commits there were. The runs hold postings, each a key with the
    /// number and the flag of a commit that wrote it. Of K keys they hold 2 * (2 * 64 + 2) * K * (2 * 64 + 1) at most, once all runs are
    /// finished and no two beside one another become one (`law_few_kept`).
    pub fn law_little_is_kept(&self)
        ensures { (m : State) → StandsFor self.now m → (keys : List Bytes)
            → KeepsFewPostings (committed_of self.now) keys }
    {
        law_few_kept();
    }

    /// A step of what `reclaim` does, which is short however much garbage there is. Answers whether it has to be called again until all is
    /// done: where it needn't be, what holds after `reclaim` holds.
    ///
    /// What each commit superseded is a list. It is garbage once no open transaction began with its pin, the number under which it stands,
    /// and a call looks at 2 garbage lists, and at no other. What was kept to check later commits stands in runs, of which a call frees as
    /// much as `Committed::forget_step` says. Takes no memory.
    pub fn reclaim_step(&mut self) -> bool
        ensures keeps { KeepsStates self.old self.new }
        ensures versions { (m : State) → StandsFor self.old m
            → IsReclaimedInPart (versions_of self.old) (versions_of self.new) (open_begins m) }
        ensures still { (m : State) → StandsFor self.old m → result ≡ is_garbage (open_begins m) self.new.history }
        ensures classified { (m : State) → StandsFor self.old m
            → AllByRecursion IsClassified (versions_of self.new).groups }
        ensures frees_runs { FreesRuns (committed_of self.old) (committed_of self.new) }
        ensures forgotten { (m : State) → StandsFor self.old m → HasForgottenOld m (facts_of self.new) }
        ensures kept { result ≡ false → KeepsNoneUpto (facts_of self.new).oldest (facts_of self.new) }
    {
        self.begins.gather(&self.running);
        let begins = self.begins.numbers();
        let oldest = least_of(begins, self.history.committed().last());
        self.history.reclaim_step(begins, oldest)
    }

    /// Drops what no open transaction needs: what was kept of transactions that were committed when each open one began, and the versions
    /// that are neither the newest of their keys nor seen from the begin of an open transaction.
    ///
    /// It looks at all garbage lists of versions, and at all that is kept of commits, so its time grows with both. Takes no memory.
    pub fn reclaim(&mut self)
        ensures keeps { KeepsStates self.old self.new }
        ensures versions { (m : State) → StandsFor self.old m
            → IsReclaimed (versions_of self.old) (versions_of self.new) (open_begins m) }
        ensures classified { (m : State) → StandsFor self.old m
            → AllByRecursion IsClassified (versions_of self.new).groups }
        ensures forgotten { (m : State) → StandsFor self.old m → HasForgottenOld m (facts_of self.new) }
        ensures kept { KeepsNoneUpto (facts_of self.new).oldest (facts_of self.new) }
    {
        self.begins.gather(&self.running);
        let begins = self.begins.numbers();
        let oldest = least_of(begins, self.history.committed().last());
        self.history.reclaim(begins, oldest);
    }

    /// Has the device failed in a commit? Nothing can begin or commit any more.
    pub fn stopped(&self) -> bool
        ensures { (m : State) → StandsFor self.now m → result ≡ m.stopped }
    {
        self.log.is_stopped()
    }

    /// Has the session's open transaction written a key? Where none is open it hasn't. Takes no memory.
    pub fn has_written(&self, s: u64) -> bool
        ensures buffer { result ≡ has_engine_written self.now s }
        ensures written { (m : State) → StandsFor self.now m → (result ≡ false) ↔ IsReadOnly m s }
    {
        match self.running.get(&s) {
            Some(transaction) => !transaction.entries().is_empty(),
            None => false,
        }
    }

    /// How many records its log has. Takes no memory.
    pub fn records(&self) -> u64
        ensures { result ≡ engine_records self.now }
    {
        self.log.records()
    }

    /// How many pages of keys its ranges have looked at since it was opened, behind the first of each range: what a range costs beside the
    /// pairs that it gives. It stays at 2^64 - 1. Takes no memory.
    pub fn pages_looked_at(&self) -> u64
        ensures { result ≡ pages_looked_at self.now }
    {
        self.pages_looked_at
    }

    /// Counts pages that a range has looked at (`Rows::pages_looked_at`), and changes nothing else. Who asked for the range calls it once,
    /// when the rows have been read. Takes no memory.
    pub fn count_pages(&mut self, pages: usize)
        ensures same { StandsForSame self.old self.new }
        ensures log { log_of self.new ≡ log_of self.old }
        ensures counts { CountsPages self.old self.new pages }
    {
        self.pages_looked_at = self.pages_looked_at.saturating_add(pages as u64);
    }

    /// How many versions of the key are kept. Takes no memory.
    pub fn kept_versions(&self, key: KeyRef<'_>) -> usize
        ensures { result ≡ versions_kept (versions_of self.now) key.entry.bytes.now }
    {
        self.history.versions().kept(key)
    }

    /// Of how many committed transactions something is kept to check later commits: a key that they wrote, or that they were the last to
    /// read one. It takes as long as `Committed::kept`, and no memory.
    pub fn kept_records(&self) -> usize
        ensures { result ≡ kept_count (facts_of self.now) }
    {
        self.history.committed().kept()
    }

    /// The device, lent. Takes no memory.
    pub fn device(&self) -> &D
        ensures { result.now ≡ device_of self.now }
    {
        self.log.device()
    }

    /// Gives the device back. Takes no memory.
    pub fn into_device(self) -> D
        ensures { result ≡ device_of self }
    {
        let Engine {
            log,
            history: _,
            running: _,
            begins: _,
            alloc: _,
            pages_looked_at: _,
        } = self;
        log.into_device()
    }
}
