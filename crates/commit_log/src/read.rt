//! Recovery: reads the head, and then each record up to the first closed gate, and makes the map of their writes.
ghost use Rattle.std.specs.Prelude.{All, ◌≡◌, ◌⊎◌, ◌<◌, ◌≤◌, ◌*◌, ◌^◌, OnOk, IfOk, IfErr, IsErrAnd, IfSome, IfNone};
ghost use Rattle.model.specs.Map.{after_writes};
ghost use Rattle.commit_log.specs.declared.formats.LogFormat.{LogFormat};
ghost use Rattle.commit_log.specs.Format.{current, head_sector};
ghost use Rattle.commit_log.specs.RecordFormat.{FitsFormat};
ghost use Rattle.commit_log.specs.Reading.{CanRead, CountsAtLeast, CountsFaults, HasRead, IsGrown};
ghost use Rattle.commit_log.specs.Reading.{LeavesAsBefore, NotesFaults, OfEachRead, OnlyReads};
ghost use Rattle.commit_log.specs.LogFaults.{IsDeviceOrMemory, IsOpenFault, IsReadMapFault};
ghost use Rattle.commit_log.specs.Opening.{HoldsHead, IsFitRecord, MightHold, ReadsLog, ReadsRecord, ReadingGives};
ghost use Rattle.commit_log.specs.MapReading.{HoldsMapOf, IsMapRefusal};

use crate::decode::{Digest, decode_body, is_same};
use crate::encode::sectors_for;
use crate::faults::LogFault;
use crate::formats::LogFormat;
use byteorder::{BigEndian, ByteOrder};
use latest_writes::LatestWrites;
use model::{Map, Memory, Write};
use sector::{SECTOR_SIZE, Sector, Sectors};
use std::alloc::Global;

/// Reads n sectors to the end of `bytes`.
fn read_sectors<D: Sectors>(
    device: &mut D,
    at: u64,
    n: u64,
    bytes: &mut Vec<u8>,
) -> Result<(), LogFault>
    requires { CanRead (D.size device.old) at n bytes.old.items }
    ensures calls { NotesFaults D.Sectors device.old device.new result }
    ensures errors { IfErr result IsDeviceOrMemory }
    ensures only_reads { D.keeps_model → OnlyReads D.Sectors device.old device.new }
    ensures grown { OnOk result (IsGrown (SECTOR_SIZE * n) bytes.old.items bytes.new.items) }
    ensures bytes { D.keeps_model → HasRead result (D.may_read device.old) at n bytes.old.items bytes.new.items }
{
    let start = bytes.len();
    bytes.resize(start + n as usize * SECTOR_SIZE, 0)?;
    match device.read_sectors(at, &mut bytes[start..]) {
        Ok(()) => Ok(()),
        Err(_) => Err(LogFault::Device),
    }
}

#[derive(Drop)]
struct Record {
    writes: Vec<Write>,
    sectors: u64,
    digest: Digest,
}

/// Reads the record whose body would begin here, or none where there is no right one.
fn read_record<D: Sectors>(
    alloc: Global,
    device: &mut D,
    format: LogFormat,
    at: u64,
    count: u64,
    before: &[u8; 32],
    index: u64,
) -> Result<Option<Record>, LogFault>
    requires { CountsAtLeast at (D.size device.old) count }
    ensures calls { NotesFaults D.Sectors device.old device.new result }
    ensures only_reads { D.keeps_model → OnlyReads D.Sectors device.old device.new }
    ensures errors { IfErr result IsDeviceOrMemory }
    ensures fit { IfOk result (λ o. IfSome o (IsFitRecord format index before.now at count)) }
    ensures found { D.keeps_model
        → OfEachRead count (D.may_read device.old) (ReadsRecord format index before.now at result) }
{
    if count - at < 2 {
        return Ok(None);
    }
    let mut body = Vec::new(alloc);
    read_sectors(device, at, 1, &mut body)?;
    let sectors = sectors_for(BigEndian::read_u32(&body));
    let body_max = format.body_max();
    if sectors > body_max || sectors >= count - at {
        return Ok(None);
    }
    read_sectors(device, at + 1, sectors - 1, &mut body)?;
    match decode_body(alloc, format, &body, before, index)? {
        Some((writes, digest)) => Ok(Some(Record {
            writes,
            sectors,
            digest,
        })),
        None => Ok(None),
    }
}

// Adds the writes to those of the log, one after another.
fn apply(
    alloc: Global,
    mut latest: LatestWrites,
    writes: Vec<Write>,
) -> Result<LatestWrites, Memory>
    requires { All (FitsFormat current) writes.items }
    ensures { IfOk result (λ after. after ≡ after_writes latest writes.items) }
{
    for write in writes {
        latest = latest.write(alloc, write)?;
    }
    Ok(latest)
}

/// What a log was found to hold: its closed gate, its records with the digest of the last, and the map that their writes make.
#[derive(Drop)]
pub(crate) struct Found {
    pub(crate) gate: u64,
    pub(crate) records: u64,
    pub(crate) digest: Digest,
    pub(crate) map: Map,
}

/// Reads records up to the first closed gate.
pub(crate) fn read_records<D: Sectors>(
    alloc: Global,
    device: &mut D,
    format: LogFormat,
    count: u64,
) -> Result<Found, LogFault>
    requires { CountsAtLeast 2 (D.size device.old) count }
    ensures calls { NotesFaults D.Sectors device.old device.new result }
    ensures only_reads { D.keeps_model → OnlyReads D.Sectors device.old device.new }
    ensures range { IfOk result (λ found. (found.gate < count) × (found.records ≤ found.gate)) }
    ensures errors { IfErr result IsReadMapFault }
    ensures found { D.keeps_model → OfEachRead count (D.may_read device.old) (ReadingGives format result) }
{
    let mut gate = 1;
    let mut records = 0;
    let mut digest = Digest { bytes: [0; 32] };
    let mut latest = LatestWrites::new(alloc);
    let mut sector = [0; 512];
    'records: loop {
        match device.read(gate, &mut sector) {
            Ok(()) => {}
            Err(_) => return Err(LogFault::Device),
        }
        if sector[0] != 1 {
            let map = latest.into_map(alloc)?;
            return Ok(Found {
                gate,
                records,
                digest,
                map,
            });
        }
        match read_record(
            alloc,
            device,
            format,
            gate + 1,
            count,
            &digest.bytes,
            records,
        )? {
            Some(record) => {
                latest = apply(alloc, latest, record.writes)?;
                gate += 1 + record.sectors;
                records += 1;
                digest = record.digest;
            }
            None => return Err(LogFault::Damaged(records)),
        }
    }
}

/// The first sector of a log of this format.
pub fn head_sector(format: LogFormat) -> Sector
    ensures { result ≡ head_sector format }
{
    let mut head = [0; 512];
    head[0] = b'S';
    head[1] = b'S';
    head[2] = b'I';
    head[3] = b'K';
    head[4] = b'V';
    head[5] = b'L';
    head[6] = b'G';
    head[7] = format.version();
    head
}

/// The format of the log whose head this sector is, if it is one.
pub(crate) fn format_of(sector: &Sector) -> Option<LogFormat>
    ensures some { IfSome result (λ f. sector.now ≡ head_sector f) }
    ensures none { IfNone result ((f : LogFormat) → sector.now ≡ head_sector f → ⊥) }
{
    if is_same(sector, &head_sector(LogFormat::Two)) {
        return Some(LogFormat::Two);
    }
    if is_same(sector, &head_sector(LogFormat::One)) {
        return Some(LogFormat::One);
    }
    None
}

/// Settles a device, and reads the format of the log whose head its first sector is, if it is one and there is room for a gate behind
/// it. Answers it with the number of sectors. Takes no memory.
fn settle_and_read_head<D: Sectors>(device: &mut D) -> Result<(Option<LogFormat>, u64), LogFault>
    ensures calls { CountsFaults D.Sectors device.old device.new result }
    ensures errors { IfErr result (λ e. e ≡ LogFault.Device) }
    ensures count { IfOk result (λ r. r.1 ≡ D.size device.new) }
    ensures room { IfOk result (λ r. IfSome r.0 (λ f. 2 ≤ r.1)) }
    ensures during { D.keeps_model → LeavesAsBefore D.Sectors device.old device.new }
    ensures head { D.keeps_model
        → IfOk result (λ r. MightHold D.Sectors device.old (HoldsHead D.Sectors device.new r.0)) }
{
    match device.sync() {
        Ok(()) => {}
        Err(_) => return Err(LogFault::Device),
    }
    let count = device.count();
    if count < 2 {
        return Ok((None, count));
    }
    let mut sector = [0; 512];
    match device.read(0, &mut sector) {
        Ok(()) => {}
        Err(_) => return Err(LogFault::Device),
    }
    Ok((format_of(&sector), count))
}

/// Settles a device, and reads the log that it holds, as `Log::open_or_return` says. `Device` is answered exactly where a call of the
/// device failed; the device may be read again.
///
/// It takes memory for the writes of the log, which are collected: up to twice that of the map they make, and 8 MiB. The map is
/// made of them, and one record is held at a time. The time is that of one digest of what is read and of a sort of the writes.
pub(crate) fn read_log<D: Sectors>(alloc: Global, device: &mut D) -> Result<Found, LogFault>
    ensures calls { CountsFaults D.Sectors device.old device.new result }
    ensures short { D.size device.old < 2 → IsErrAnd result (λ e. (e ≡ LogFault.NotALog) ⊎ (e ≡ LogFault.Device)) }
    ensures range { IfOk result
        (λ found. (found.gate < D.size device.new) × (found.records ≤ found.gate) × (D.size device.new < 2 ^ 64)) }
    ensures errors { IfErr result IsOpenFault }

    // During the call a crash leaves what one before it could have left.
    ensures during { D.keeps_model → LeavesAsBefore D.Sectors device.old device.new }

    // The call reports on one image that the device might have held.
    ensures reports { D.keeps_model → ReadsLog D.Sectors device.old device.new result }
{
    let (head, count) = settle_and_read_head(device)?;
    match head {
        Some(LogFormat::Two) => read_records(alloc, device, LogFormat::Two, count),
        Some(LogFormat::One) => Err(LogFault::OldFormat),
        None => Err(LogFault::NotALog),
    }
}

/// Settles a device, and reads the log that it holds, of either format: answers the map that its write sets make of the empty one, and
/// the number of its format, 1 or 2. It writes no sector, and reads each up to the last closed gate once.
///
/// The first fault met is answered: `Device` where a call of the device fails, `NotALog` where it has fewer than two sectors or the
/// first is the head of no format, `Damaged` where an open gate has not its record behind it, `Memory` where memory is refused. After
/// each the device may be read again. It takes the memory that `Log::open` takes.
pub fn read_map<D: Sectors>(alloc: Global, device: &mut D) -> Result<(Map, u8), LogFault>
    ensures calls { CountsFaults D.Sectors device.old device.new result }
    ensures short { D.size device.old < 2 → IsErrAnd result (λ e. (e ≡ LogFault.NotALog) ⊎ (e ≡ LogFault.Device)) }
    ensures errors { IfErr result IsReadMapFault }

    // During the call a crash leaves what one before it could have left.
    ensures during { D.keeps_model → LeavesAsBefore D.Sectors device.old device.new }

    // The call reports on one image that the device might have held; at `Ok` the device holds it, and nothing else.
    ensures map { D.keeps_model
        → IfOk result (λ r. MightHold D.Sectors device.old (HoldsMapOf D.Sectors device.new r.0 r.1)) }
    ensures refused { D.keeps_model
        → IfErr result (λ e. IsDeviceOrMemory e ⊎ MightHold D.Sectors device.old (λ c. IsMapRefusal c e)) }
{
    let (head, count) = settle_and_read_head(device)?;
    let Some(format) = head else {
        return Err(LogFault::NotALog);
    };
    let found = read_records(alloc, device, format, count)?;
    Ok((found.map, format.number()))
}
