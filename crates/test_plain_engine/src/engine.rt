//! The plain engine: BEGIN, reads, writes, COMMIT and ABORT over copies of the map.
ghost use Rattle.model.specs.Key.{IsValue};

use crate::commits::{Commit, body_sectors, conflict_of, with_writes};
use crate::copies::PrivateCopy;
use crate::faults::EngineFault;
use crate::pairs::Value;
use model::{Key, KeyRef, RangeRef, Refusal};
use std::alloc::Global;
use std::collections::BTreeMap;

const OPEN_MAX: usize = 64;

/// The last commit number of all.
const LAST_MAX: u64 = 9_223_372_036_854_775_807;

/// An open transaction.
#[derive(Drop)]
struct Transaction {
    /// How many transactions had committed when it began.
    begin: u64,
    copy: PrivateCopy,
}

/// The store, with a device that isn't there: its size is counted, and who commits says whether the device fails.
///
/// It copies before it judges, so it may run out of memory first: `Memory` may be answered where the request would be refused.
#[derive(Drop)]
pub struct Engine {
    /// The map that is committed.
    current: Vec<(Key, Value)>,
    /// Each transaction that committed, in their order.
    commits: Vec<Commit>,
    /// The open transaction of each session that has one.
    running: BTreeMap<u64, Transaction>,
    /// The sectors of the log that are in use.
    used: u64,
    /// The sectors of the device.
    count: u64,
    /// Has the device failed?
    stopped: bool,
}

impl Engine {
    /// The engine over a map, with so many sectors of the device in use. Takes no memory.
    pub fn new(alloc: Global, current: Vec<(Key, Value)>, used: u64, count: u64) -> Engine {
        Engine {
            current,
            commits: Vec::new(alloc),
            running: BTreeMap::new(alloc),
            used,
            count,
            stopped: false,
        }
    }

    /// Begins a transaction of the session, with a copy of the map.
    pub fn begin(&mut self, alloc: Global, s: u64) -> Result<(), EngineFault> {
        let open = self.running.len();
        if self.running.contains_key(&s) {
            return Err(EngineFault::Refused(Refusal::AlreadyOpen));
        }
        if self.stopped {
            return Err(EngineFault::Refused(Refusal::StoreStopped));
        }
        if open >= OPEN_MAX {
            return Err(EngineFault::Refused(Refusal::FullTransactions));
        }
        let copy = PrivateCopy::new(alloc, &self.current)?;
        let transaction = Transaction {
            begin: self.commits.len() as u64,
            copy,
        };
        self.running.insert(s, transaction)?;
        Ok(())
    }

    /// Reads a key in the session's transaction.
    pub fn get(
        &mut self,
        alloc: Global,
        s: u64,
        key: KeyRef<'_>,
    ) -> Result<Option<Vec<u8>>, EngineFault> {
        match self.running.get_mut(&s) {
            Some(transaction) => transaction.copy.get(alloc, key),
            None => Err(EngineFault::Refused(Refusal::NotOpen)),
        }
    }

    /// Reads the first `limit` pairs of the range in the session's transaction.
    pub fn range(
        &mut self,
        alloc: Global,
        s: u64,
        range: RangeRef<'_>,
        limit: u8,
    ) -> Result<Vec<(Key, Value)>, EngineFault> {
        match self.running.get_mut(&s) {
            Some(transaction) => transaction.copy.range(alloc, range, limit),
            None => Err(EngineFault::Refused(Refusal::NotOpen)),
        }
    }

    /// Gives the key this value in the session's transaction.
    pub fn set(
        &mut self,
        alloc: Global,
        s: u64,
        key: KeyRef<'_>,
        value: &[u8],
    ) -> Result<(), EngineFault>
        requires { IsValue value.now }
    {
        match self.running.get_mut(&s) {
            Some(transaction) => transaction.copy.set(alloc, key, value),
            None => Err(EngineFault::Refused(Refusal::NotOpen)),
        }
    }

    /// Takes the key's value away in the session's transaction.
    pub fn del(&mut self, alloc: Global, s: u64, key: KeyRef<'_>) -> Result<(), EngineFault> {
        match self.running.get_mut(&s) {
            Some(transaction) => transaction.copy.del(alloc, key),
            None => Err(EngineFault::Refused(Refusal::NotOpen)),
        }
    }

    /// Commits the session's transaction, and answers its commit number. `device_fails` says whether the device fails, if it
    /// is called.
    pub fn commit(
        &mut self,
        alloc: Global,
        s: u64,
        device_fails: bool,
    ) -> Result<u64, EngineFault> {
        let Some(transaction) = self.running.get(&s) else {
            return Err(EngineFault::Refused(Refusal::NotOpen));
        };
        if self.stopped {
            return self.refuse(s, Refusal::StoreStopped);
        }
        let last = self.commits.len() as u64;
        if last >= LAST_MAX {
            return self.refuse(s, Refusal::FullNumbers);
        }
        let number = last + 1;
        let commit = transaction
            .copy
            .to_commit(alloc, transaction.begin, number)?;
        if let Some(conflict) = conflict_of(alloc, &self.commits, &commit)? {
            return self.refuse(s, conflict);
        }
        if commit.writes().is_empty() {
            self.commits.push(commit)?;
            self.running.remove(&s);
            return Ok(number);
        }
        let sectors = body_sectors(commit.writes());
        if self.count.saturating_sub(self.used) <= sectors {
            return self.refuse(s, Refusal::FullLog);
        }
        if device_fails {
            self.stopped = true;
            return self.refuse(s, Refusal::StoreFault);
        }
        let current = with_writes(alloc, &self.current, commit.writes())?;
        self.commits.push(commit)?;
        self.running.remove(&s);
        self.current = current;
        self.used += sectors + 1;
        Ok(number)
    }

    /// Ends the session's transaction with this refusal.
    fn refuse(&mut self, s: u64, refusal: Refusal) -> Result<u64, EngineFault> {
        self.running.remove(&s);
        Err(EngineFault::Refused(refusal))
    }

    /// Ends the session's transaction, if it has one, and keeps none of its writes. Takes no memory.
    pub fn abort(&mut self, s: u64) -> Result<(), EngineFault> {
        match self.running.remove(&s) {
            Some(_transaction) => Ok(()),
            None => Err(EngineFault::Refused(Refusal::NotOpen)),
        }
    }

    /// A PING, and a request with a fault in its form, change nothing. Takes no memory.
    pub fn passes(&self, s: u64) {}
}
