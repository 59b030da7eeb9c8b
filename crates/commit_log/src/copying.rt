//! Writes a new log of a map, for `compact`. The head is written last: over a durable first sector of zeros a crash leaves the whole log or
//! none.
ghost use Rattle.std.specs.Prelude.{◌≡◌, ◌⊎◌, ◌≤◌, ◌+◌, ◌/◌, ◌^◌, [], length, vec_capacity, OnOk, IfOk, IfErr};
ghost use Rattle.std.specs.Prelude.{IfSome, IfNone};
ghost use Rattle.model.specs.Map.{IsMap, IsInBounds};
ghost use Rattle.commit_log.specs.LogImage.{span};
ghost use Rattle.commit_log.specs.Reading.{CountsCalls, CountsFaults, OnlyReads};
ghost use Rattle.commit_log.specs.LogState.{FitsBehind, HoldsLog, OnlyWrites};
ghost use Rattle.commit_log.specs.Recovery.{map_after};
ghost use Rattle.commit_log.specs.Copying.{write_sets_of, set_count, copy_size, open_record, ReadsFrom, ReadsRecords};
ghost use Rattle.commit_log.specs.Copying.{CopiesPairs, FailsToCopy, FindsFirst, HasRoomToCopy, LeavesCopying};
ghost use Rattle.commit_log.specs.Copying.{LeavesSteps, LeavesZeros};

use crate::decode::is_same;
use crate::encode::sectors_for;
use crate::faults::LogFault;
use crate::formats::CURRENT;
use crate::pairs::{encode_pairs, next_payload_len};
use crate::read::head_sector;
use crate::record::{closed_gate, open_gate};
use model::Map;
use sector::{DeviceFault, SECTOR_SIZE, Sectors};
use std::alloc::Global;

/// The most puts of a record.
const PUTS_MAX: usize = 64;

/// How many sectors the log takes that `copy_into` writes of this map: a head, a record for each 64 keys, and a closed gate. `None`
/// exactly where that is above 2^64 - 1. Takes no memory.
pub fn copy_sectors(map: &Map) -> Option<u64>
    ensures some { IfSome result (λ n. n ≡ copy_size map.now) }
    ensures none { IfNone result (2 ^ 64 ≤ copy_size map.now) }
    // The write sets of its records, and the map that they give.
    ensures lists { length (write_sets_of map.now) ≡ set_count (length map.now) }
    ensures gives { map_after [] (write_sets_of map.now) ≡ map.now }
{
    let mut pairs = map.pairs();
    let mut left = map.len();
    let mut sectors: u64 = 2;
    while left > 0 {
        let count = left.min(PUTS_MAX);
        let len = next_payload_len(&mut pairs, count as u32);
        sectors = sectors.checked_add(sectors_for(len) + 1)?;
        left -= count;
    }
    Some(sectors)
}

/// Writes a record's open gate, and its body behind it.
fn write_open_record<D: Sectors>(device: &mut D, gate: u64, body: &[u8]) -> Result<(), DeviceFault>
    requires { FitsBehind (D.size device.old) gate body.now }
    ensures calls { CountsCalls D.Sectors device.old device.new result }
    ensures written { D.keeps_model → OnOk result (ReadsFrom (D.may_read device.new) gate (open_record body.now)) }
    ensures alone { D.keeps_model
        → OnlyWrites D.Sectors gate (1 + length body.now / SECTOR_SIZE) device.old device.new }
{
    device.write(gate, &open_gate())?;
    device.write_sectors(gate + 1, body)
}

/// Writes the records of a map with their gates open, and a closed gate behind them, and answers how many records there are.
fn write_records<D: Sectors>(
    device: &mut D,
    map: &Map,
    body: &mut Vec<u8>,
) -> Result<u64, DeviceFault>
    requires { HasRoomToCopy (D.size device.old) map.now (vec_capacity body.old) }
    ensures calls { CountsCalls D.Sectors device.old device.new result }
    ensures number { IfOk result (λ n. n ≡ length (write_sets_of map.now)) }
    ensures map { IsMap map.now × IsInBounds map.now }
    ensures copied { D.keeps_model → OnOk result (ReadsRecords (D.may_read device.new) (write_sets_of map.now)) }
    ensures alone { D.keeps_model → OnlyWrites D.Sectors 1 (1 + span (write_sets_of map.now)) device.old device.new }
{
    let mut ahead = map.pairs();
    let mut pairs = map.pairs();
    let mut left = map.len();
    let mut gate: u64 = 1;
    let mut records: u64 = 0;
    let mut digest = [0; 32];
    while left > 0 {
        let count = left.min(PUTS_MAX);
        let len = next_payload_len(&mut ahead, count as u32);
        digest = encode_pairs(body, &mut pairs, count as u32, len, &digest, records);
        write_open_record(device, gate, body)?;
        gate += 1 + sectors_for(len);
        records += 1;
        left -= count;
    }
    device.write(gate, &closed_gate())?;
    Ok(records)
}

/// Writes the records of a map behind a first sector of zeros, and once they are settled the head.
fn write_log<D: Sectors>(device: &mut D, map: &Map, body: &mut Vec<u8>) -> Result<u64, DeviceFault>
    requires { HasRoomToCopy (D.size device.old) map.now (vec_capacity body.old) }
    ensures calls { CountsCalls D.Sectors device.old device.new result }
    ensures number { IfOk result (λ n. n ≡ length (write_sets_of map.now)) }
    ensures copied { D.keeps_model → OnOk result (HoldsLog D.Sectors device.new (write_sets_of map.now)) }
    ensures alone { D.keeps_model → OnlyWrites D.Sectors 0 (copy_size map.now) device.old device.new }
    ensures steps { D.keeps_model → LeavesSteps D.Sectors (write_sets_of map.now) device.old device.new }
{
    let records = write_records(device, map, body)?;
    device.sync()?;
    device.write(0, &head_sector(CURRENT))?;
    device.sync()?;
    Ok(records)
}

/// Settles a device, and sees that its first sector holds zeros.
fn settle_zeros<D: Sectors>(device: &mut D) -> Result<(), LogFault>
    requires { 1 ≤ D.size device.old }
    ensures calls { CountsFaults D.Sectors device.old device.new result }
    ensures errors { IfErr result (λ e. (e ≡ LogFault.Device) ⊎ (e ≡ LogFault.NotEmpty)) }
    ensures only_reads { D.keeps_model → OnlyReads D.Sectors device.old device.new }
    ensures zeros { D.keeps_model → OnOk result (LeavesZeros (D.may_leave device.new)) }
    ensures first { D.keeps_model → FindsFirst D.Sectors device.old result }
{
    match device.sync() {
        Ok(()) => {}
        Err(_) => return Err(LogFault::Device),
    }
    let mut sector = [0; 512];
    match device.read(0, &mut sector) {
        Ok(()) => {}
        Err(_) => return Err(LogFault::Device),
    }
    if is_same(&sector, &[0; 512]) {
        Ok(())
    } else {
        Err(LogFault::NotEmpty)
    }
}

/// Writes a log whose records put the pairs of a map, by rising key, 64 to a record and the rest in the last, and answers how many
/// records there are. The device is synced, and its first sector read. Then each sector of the log but the first is written once, and
/// settled; the head is written last, and settled.
///
/// Faults come in this order: `Full` exactly where the device has fewer sectors than `copy_sectors` says; `Memory` where the memory for one
/// record is refused; `Device` where the sync or the read of the first sector fails; `NotEmpty` where that isn't all zeros; `Device` where
/// a later call of the device fails. After `Full` and `Memory` the device wasn't called, and after `NotEmpty` it holds what it held. After
/// `Device` its first sector may hold anything if the head was being written, and else what it held. What stands behind the log's sectors
/// is left as it is. All memory is made before the first call of the device.
///
/// A crash at any moment leaves the finished log but for the first sector, or a first sector as one before could have left it. Where that
/// was settled and held zeros, it leaves the finished log, or no log.
pub fn copy_into<D: Sectors>(alloc: Global, device: &mut D, map: &Map) -> Result<u64, LogFault>
    // When each fault comes, and what it leaves.
    ensures fails { FailsToCopy D.Sectors map.now device.old device.new result }
    ensures calls { CountsFaults D.Sectors device.old device.new result }

    // `NotEmpty` is reported of an image that the device might have held, by its first sector.
    ensures first { D.keeps_model → FindsFirst D.Sectors device.old result }

    // The records, and the map that they give.
    ensures lists { CopiesPairs map.now result }

    // At `Ok` reads give their log, and a crash leaves it.
    ensures copied { D.keeps_model → OnOk result (HoldsLog D.Sectors device.new (write_sets_of map.now)) }

    // What a crash at any moment of the call leaves, and what the device holds behind the log.
    ensures crash { D.keeps_model → LeavesCopying D.Sectors map.now device.old device.new }
{
    let count = device.count();
    let fits = match copy_sectors(map) {
        Some(needed) => needed <= count,
        None => false,
    };
    if !fits {
        return Err(LogFault::Full);
    }
    let mut body = Vec::with_capacity(alloc, CURRENT.body_max() as usize * SECTOR_SIZE)?;
    settle_zeros(device)?;
    match write_log(device, map, &mut body) {
        Ok(records) => Ok(records),
        Err(_) => Err(LogFault::Device),
    }
}
