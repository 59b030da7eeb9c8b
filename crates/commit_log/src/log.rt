//! An opened log. It is read once, when it is opened, and from then on only appended to.
ghost use Rattle.std.specs.Prelude.{◌≡◌, ◌≢◌, ◌⊎◌, MatchResult, IsErrAnd, ◌<◌, ◌≤◌, ◌^◌, ◌-◌, ◌+◌, ◌↔◌, true, false};
ghost use Rattle.std.specs.Prelude.{[], ◌∷◌, ◌++◌, IfOk, IfErr, OnOk, IsErrOf};

use crate::encode::{encode, payload_len};
use crate::faults::{AppendFault, LogFault, Unopened};
use crate::read::read_log;
use crate::record::write_record;
use model::{Map, Write};
use sector::{SECTOR_SIZE, Sectors};
use std::alloc::Global;

/// A log that was opened, and its device.
#[derive(Drop)]
pub struct Log<D: Sectors> {
    pub(crate) device: D,
    /// The closed gate, where the next record will stand.
    pub(crate) gate: u64,
    pub(crate) records: u64,
    /// The digest of the last record.
    pub(crate) digest: [u8; 32],
    pub(crate) stopped: bool,
    ghost in_range: { gate < D.size device },
    ghost fits: { D.size device < 2 ^ 64 },
    ghost counted: { records ≤ gate },
}

impl<D: Sectors> Log<D> {
    ghost use Rattle.sector.specs.Counts.{Rose};
    ghost use Rattle.model.specs.Machine.{body_sectors, payload_size};
    ghost use Rattle.commit_log.specs.Format.{current};
    ghost use Rattle.commit_log.specs.RecordFormat.{IsWriteSet};
    ghost use Rattle.commit_log.specs.Appending.{Fails, FailsInRoom, IsAdded, KeepsLists};
    ghost use Rattle.commit_log.specs.LogFaults.{IsOpenFault};
    ghost use Rattle.commit_log.specs.Reading.{LeavesAsBefore};
    ghost use Rattle.commit_log.specs.OpenedLog.{Finds, IsLogOf, OpeningIsRefused, OpensWhatWas};
    ghost use Rattle.commit_log.specs.OpenedLog.{OpeningLeavesAsBefore, RunsOver};
    ghost use Rattle.commit_log.specs.LogState.{LacksRoom, log_device, is_log_stopped, sector_count, used_sectors};

    /// Opens the log that a device holds, and gives the map that its write sets make of the empty one. It syncs the device, and reads
    /// each sector up to the last closed gate once.
    ///
    /// The first fault met is answered: `Device` where a call of the device fails, `NotALog` where it has fewer than two sectors or the
    /// first is no head, `OldFormat` where it is the head of format 1, `Damaged` where an open gate has not its record behind it,
    /// `Memory` where memory is refused. The device is given back with it. `read_log`, which borrows the device, says what memory it takes.
    pub fn open_or_return(alloc: Global, mut device: D) -> Result<(Self, Map), Unopened<D>>
        ensures runs { IfOk result (λ r. RunsOver device r.0) }
        ensures refused { IfErr result (OpeningIsRefused D.Sectors device) }
        ensures short { D.size device < 2
            → IsErrAnd result (λ u. (u.fault ≡ LogFault.NotALog) ⊎ (u.fault ≡ LogFault.Device)) }

        // The log stands for an image that a crash before the call might have left; the device now holds it, and nothing else.
        ensures stands { D.keeps_model → IfOk result (λ r. OpensWhatWas device r.0 r.1) }

        // During the call, also where it fails, a crash leaves what one before it could have left.
        ensures during { D.keeps_model → OpeningLeavesAsBefore D.Sectors device (λ r. log_device r.0) result }

        // A log is read as what it is. Where each crash leaves some log, one is found.
        ensures finds { D.keeps_model → Finds D.Sectors device result (λ u. u.fault) IsLogOf }
    {
        let found = match read_log(alloc, &mut device) {
            Ok(found) => found,
            Err(fault) => return Err(Unopened { fault, device }),
        };
        let digest = found.digest.bytes;
        let log = Log {
            device,
            gate: found.gate,
            records: found.records,
            digest,
            stopped: false,
        };
        Ok((log, found.map))
    }

    /// The log that `open_or_return` opens. Where that gives the device back with a fault, the fault alone is answered and the device is
    /// given up; `open_or_return` says what a crash then leaves.
    pub fn open(alloc: Global, device: D) -> Result<(Self, Map), LogFault>
        ensures runs { IfOk result (λ r. RunsOver device r.0) }
        ensures faults { IfErr result IsOpenFault }

        // `Device` is reported only where a call has failed: the device then counts more failures.
        ensures cause { IfErr result
            (λ e. e ≡ LogFault.Device → (after : D) × Rose (D.failures device) (D.failures after)) }
        ensures short { D.size device < 2 → IsErrAnd result (λ e. (e ≡ LogFault.NotALog) ⊎ (e ≡ LogFault.Device)) }

        // The log stands for an image that a crash before the call might have left; the device now holds it, and nothing else.
        ensures stands { D.keeps_model → IfOk result (λ r. OpensWhatWas device r.0 r.1) }

        // During the call a crash leaves what one before it could have left.
        ensures during { D.keeps_model → IfOk result (λ r. LeavesAsBefore D.Sectors device (log_device r.0)) }

        // A log is read as what it is. Where each crash leaves some log, one is found.
        ensures finds { D.keeps_model → Finds D.Sectors device result (λ e. e) IsLogOf }
    {
        match Log::open_or_return(alloc, device) {
            Ok(opened) => Ok(opened),
            Err(unopened) => Err(unopened.fault),
        }
    }

    /// Adds a record of these writes, and answers its index, 0 for the first. The device is written by three calls and synced twice.
    ///
    /// Faults come in this order: `Stopped` after an earlier `Device`; `Full` exactly where no closed gate would fit behind the record;
    /// `Memory` where the memory for the record's body is refused; `Device` where a call of the device fails, and the log is then stopped.
    /// The first three leave the log as it was, and make no call of the device.
    ///
    /// A crash at any moment of the call leaves the write sets of before it, or those and these writes. After `Ok` a crash leaves the
    /// latter, and reads give them. No sector is written but those of the record and of the closed gate behind it.
    pub fn append(&mut self, alloc: Global, writes: &[Write]) -> Result<u64, LogFault>
        requires { IsWriteSet current writes.now }
        ensures added { IfOk result (IsAdded self.old self.new writes.now) }
        ensures fails { IfErr result (Fails self.old self.new writes.now) }
        ensures stopped { is_log_stopped self.old ≡ true → IsErrOf result LogFault.Stopped }
        ensures full { is_log_stopped self.old ≡ false → LacksRoom self.old writes.now → IsErrOf result LogFault.Full }
        ensures keeps { D.keeps_model → KeepsLists self.old self.new writes.now result }
    {
        if self.stopped {
            return Err(LogFault::Stopped);
        }
        let len = payload_len(writes);
        if !self.room(len) {
            return Err(LogFault::Full);
        }
        Ok(self.append_in_room(alloc, writes, len)?)
    }

    /// Adds a record of these writes to a log that runs and has room for it, as `append` does, and answers its index. `len` is what
    /// `payload_len` answers of them, and `room` of that. The device is written by three calls and synced twice.
    ///
    /// `Memory` where the memory for the record's body is refused: the log is then as it was, and no call of the device was made. `Device`
    /// where a call of the device fails, and the log is then stopped.
    pub fn append_in_room(
        &mut self,
        alloc: Global,
        writes: &[Write],
        len: u32,
    ) -> Result<u64, AppendFault>
        requires proper { IsWriteSet current writes.now }
        requires running { is_log_stopped self.old ≡ false }
        requires room { used_sectors self.old + body_sectors writes.now < sector_count self.old }
        requires len { len ≡ payload_size writes.now }
        ensures added { IfOk result (IsAdded self.old self.new writes.now) }
        ensures fails { IfErr result (FailsInRoom self.old self.new) }
        ensures keeps { D.keeps_model → KeepsLists self.old self.new writes.now result }
    {
        let before = self.digest;
        let (body, digest) = encode(alloc, &before, self.records, writes, len)?;
        match write_record(&mut self.device, self.gate, &body) {
            Err(_) => {
                self.stopped = true;
                Err(AppendFault::Device)
            }
            Ok(()) => {
                let index = self.records;
                self.gate += 1 + (body.len() / SECTOR_SIZE) as u64;
                self.records += 1;
                self.digest = digest;
                Ok(index)
            }
        }
    }
}
