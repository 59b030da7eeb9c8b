//! COMMIT: the verdict, the memory, the record in the log, and then the new versions, which can't fail any more.
use crate::engine::Engine;
use crate::faults::EngineFault;
use crate::records::reserve_and_append;
use crate::validating::{Validation, validate};
use commit_log::AppendFault;
use model::Refusal;
use sector::Sectors;
use snapshot::Transaction;

impl<D: Sectors> Engine<D> {
    ghost use Rattle.std.specs.Prelude.{◌≡◌, ◌≢◌, ◌≤◌, true, Some, IsSome, IfOk, IfErr};
    ghost use Rattle.model.specs.Operations.Operation.{Commit};
    ghost use Rattle.model.specs.Operations.Response.{Number};
    ghost use Rattle.engine.specs.Changes.{entry_of, EndsTransaction};
    ghost use Rattle.engine.specs.Meaning.{Appends, Leads, SurvivesCommit, IsDurable, response_to};
    ghost use Rattle.engine.specs.Meaning.{device_of, failures_of, has_failed, has_engine_stopped};

    /// Commits the session's transaction, and answers its commit number. Where it wrote something, one record is appended to the log,
    /// which then uses more sectors; what it takes of memory is made before, so that nothing can fail once the record stands.
    ///
    /// Refusals, the first of these: `NotOpen`; `StoreStopped`; `FullNumbers` where the last number is 2^63 - 1; `Overwritten`, `PivotSelf`
    /// or `Pivot`, as the check of commits says; `FullLog` where the log has no room for the record; `StoreFault` where the device fails,
    /// and the store is then stopped. Each ends the transaction. `Memory`, where memory for versions, for a record or for the log's sectors
    /// is refused, comes before `StoreFault` and leaves the transaction open.
    pub fn commit(&mut self, s: u64) -> Result<u64, EngineFault>
        ensures step { Leads self.old self.new s Commit (has_failed self.old self.new)
            (response_to (λ n. Number n) result) }
        ensures device { failures_of self.old ≤ failures_of self.new }

        // A stopped store leaves the device alone, and so does each refusal but that of a store fault.
        ensures still { has_engine_stopped self.old ≡ true → device_of self.new ≡ device_of self.old }
        ensures refused { IfErr result
            (λ e. e ≢ EngineFault.Refused Refusal.StoreFault → device_of self.new ≡ device_of self.old) }

        // One record is added to the log at most. Where nothing was written, the log and its device are left alone.
        ensures appends { Appends self.old self.new s }

        // A crash at any moment of the call leaves the committed map of before it, or that with the transaction's writes; of a store that
        // was stopped, what it could have left before.
        ensures crash { SurvivesCommit self.old self.new s }

        // Once a number was answered, a crash leaves the latter alone.
        ensures acknowledged { D.keeps_model → IfOk result (λ _. IsDurable self.new) }
    {
        let Some(transaction) = self.running.get(&s) else {
            return Err(EngineFault::Refused(Refusal::NotOpen));
        };
        let (payload, cleared) = match validate(&self.log, &self.history, transaction) {
            Validation::Refused(refusal) => return Err(self.refuse(s, refusal)),
            Validation::Overwritten(i) => {
                let key = self.end(s).into_key(i);
                return Err(EngineFault::Refused(Refusal::Overwritten(key)));
            }
            Validation::Clear(payload, cleared) => (payload, cleared),
        };
        match reserve_and_append(
            &mut self.log,
            &mut self.history,
            self.alloc,
            transaction,
            payload,
        ) {
            Ok(()) => {}
            Err(AppendFault::Memory) => return Err(EngineFault::Memory),
            Err(AppendFault::Device) => return Err(self.refuse(s, Refusal::StoreFault)),
        }
        let ended = self.end(s);
        self.begins.gather(&self.running);
        Ok(self.history.join(ended, cleared, self.begins.numbers()))
    }

    // Ends the session's transaction.
    fn end(&mut self, s: u64) -> Transaction
        requires { IsSome (entry_of s self.old) }
        ensures taken { Some result ≡ entry_of s self.old }
        ensures leaves { EndsTransaction self.old self.new s }
    {
        self.begins.forget();
        let Some(transaction) = self.running.remove(&s) else {
            unreachable!()
        };
        transaction
    }

    // Ends the session's transaction by this refusal.
    fn refuse(&mut self, s: u64, refusal: Refusal) -> EngineFault
        ensures refusal { result ≡ EngineFault.Refused refusal }
        ensures leaves { EndsTransaction self.old self.new s }
    {
        self.begins.forget();
        self.running.remove(&s);
        EngineFault::Refused(refusal)
    }
}
