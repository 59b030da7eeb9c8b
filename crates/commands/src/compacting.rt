//! `compact`: copies the map of a data file into a new one.
ghost use Rattle.std.specs.Prelude.{◌≡◌, ◌<◌, ◌≤◌, ◌⊎◌, ◌↔◌, Ok, Err, OnOk, IfOk, IfErr, IfNone, IfSome, IsErrOf};
ghost use Rattle.commit_log.specs.Copying.{write_sets_of, copy_size, IsCopyFault};
ghost use Rattle.commit_log.specs.Reading.{NotesFaults};
ghost use Rattle.commands.specs.Compacting.{copy_count, Compacting, Copies, MayReport, ReadsFile};
ghost use Rattle.commands.specs.LogCounts.{counts_of, log_line};
ghost use Rattle.commands.specs.Faults.{IsFromOutput};
ghost use Rattle.commit_log.specs.LogState.{HoldsLog};

use crate::data::{LogCounts, print_counts};
use crate::faults::Fault;
use crate::system::{DataFiles, Environment, Lines};
use commit_log::{LogFault, copy_into, copy_sectors, read_map};
use model::Map;
use sector::Sectors;
use std::alloc::Global;
use std::time::{Clock, Duration, Instant};
use std::{io, mem};

/// Copies the map of the log in the file `from`, of either format, into the file `to`, and prints the line of `to` as `check` does. It
/// makes `to`, whose name must be free, with as many sectors as `copy_count` says, and never writes `from`. Where the
/// error output is a terminal and reading took a second or more, it reports there that the copy is being written; if this can't be
/// reported, that is no fault. It calls nothing else: its contract names each call of the files and the outputs, and what each file holds
/// where it is closed.
///
/// The first fault is reported: one of opening or reading `from`; `LogFull` where the map needs more sectors than `to` may have, and then
/// `to` isn't made; `File` or `Memory` where `to` can't be made, after which no file is there that it made; one of `copy_device`, after
/// which `to` stays: it is no log, or the whole copy. It takes the memory of the map and of one record. That of the map is left to the end
/// of the process: to give a million values back one by one takes a twentieth of the whole.
pub fn compact<C: Clock, F: DataFiles, P, O: Lines, E: Lines>(
    clock: &C,
    alloc: Global,
    environment: &mut Environment<F, P, O, E>,
    from: &str,
    to: &str,
    sectors: Option<u64>,
) -> Result<(), Fault>
    ensures { Compacting F.Device.Sectors F.DataFiles O.Lines E.Lines from.now to.now sectors environment.old result
        environment.new }
{
    let begun = Instant::now(clock).ok();
    let found = read_file(alloc, &mut environment.files, from)?;
    let (map, old_count) = found;
    let needed = copy_sectors(&map);
    let count = copy_count(old_count, sectors, needed)?;
    let mut device = environment.files.create(to, count)?;
    may_report(clock, begun, environment.is_terminal, &mut environment.err);
    let copied = copy_device(alloc, &mut device, &map, &mut environment.out);
    environment.files.close(device);
    mem::forget(map);
    copied
}

// Opens a data file to be read alone, reads the map of its log, and closes it. Answers the map, and how many sectors the file has.
fn read_file<F: DataFiles>(alloc: Global, files: &mut F, data: &str) -> Result<(Map, u64), Fault>
    ensures { ReadsFile F.Device.Sectors F.DataFiles data.now files.old result files.new }
{
    let mut device = files.open_to_read(data)?;
    let count = device.count();
    let read = read_map(alloc, &mut device);
    files.close(device);
    let (map, _) = read?;
    Ok((map, count))
}

// Has a second passed since then? Not where the clock can't be read.
fn is_long<C: Clock>(clock: &C, begun: Option<Instant>) -> bool {
    match (begun, Instant::now(clock)) {
        (Some(begun), Ok(now)) => now.duration_since(begun) >= Duration::from_secs(1),
        _ => false,
    }
}

// Tells a terminal, where a second has passed, that the map was read and the copy is being written, in one write.
fn may_report<C: Clock, E: Lines>(clock: &C, begun: Option<Instant>, is_terminal: bool, err: &mut E)
    ensures { MayReport E.Lines is_terminal err.old err.new }
{
    if is_terminal && is_long(clock, begun) {
        let _ = err.write_line(b"ssikvd: the map is read, the copy is being written\n".as_slice());
    }
}

/// How many sectors a copy is given: as many as the old device has, as were asked for, and as the map needs. `LogFull` exactly where the
/// map needs more than were asked for, or more than a number can count. Takes no memory.
pub fn copy_count(old: u64, requested: Option<u64>, needed: Option<u64>) -> Result<u64, Fault>
    ensures none { IfNone needed (result ≡ Err Fault.LogFull) }
    ensures some { IfSome needed (λ n. result ≡ copy_count old requested n) }
{
    match (requested, needed) {
        (_, None) => Err(Fault::LogFull),
        (None, Some(needed)) => Ok(old.max(needed)),
        (Some(requested), Some(needed)) => {
            if requested < needed {
                Err(Fault::LogFull)
            } else {
                Ok(old.max(requested))
            }
        }
    }
}

/// Writes the log of a map on a device whose first sector holds zeros, and prints its line as `check` does.
///
/// A fault is the log's, beside which nothing is printed, among them `LogFull` exactly where the device has too few sectors for it; or
/// `File` or `Memory` where the writer fails. It takes the memory of one record.
#[tactic(auto, using(crate::proofs::Copied::full_alone, crate::proofs::Copied::output_is_not_full))]
pub fn copy_device<D: Sectors, O: Lines>(
    alloc: Global,
    device: &mut D,
    map: &Map,
    out: &mut O,
) -> Result<(), Fault>
    ensures full { IsErrOf result Fault.LogFull ↔ (D.size device.old < copy_size map.now) }
    ensures printed { IfOk result
        (λ done. O.writes out.old (log_line (write_sets_of map.now) (D.size device.old)) (Ok done) out.new) }
    ensures beside { IfErr result (λ fault. IsFromOutput fault ⊎ (out.new ≡ out.old)) }
    ensures copied { D.keeps_model → OnOk result (HoldsLog D.Sectors device.new (write_sets_of map.now)) }
    ensures copies { copy_size map.now ≤ D.size device.old
        → Copies D.Sectors O.Lines device.old map.now out.old result (device.new, out.new) }
{
    let counts = copy_counts(alloc, device, map)?;
    print_counts(counts, out)?;
    Ok(())
}

// Writes the log of a map on a device, and counts what it then holds.
fn copy_counts<D: Sectors>(alloc: Global, device: &mut D, map: &Map) -> Result<LogCounts, LogFault>
    ensures calls { NotesFaults D.Sectors device.old device.new result }
    ensures errors { IfErr result IsCopyFault }
    ensures full { IsErrOf result LogFault.Full ↔ (D.size device.old < copy_size map.now) }
    ensures counted { IfOk result (λ counts. counts ≡ counts_of (write_sets_of map.now) (D.size device.old)) }
    ensures copied { D.keeps_model → OnOk result (HoldsLog D.Sectors device.new (write_sets_of map.now)) }
{
    let count = device.count();
    let Some(used) = copy_sectors(map) else {
        return Err(LogFault::Full);
    };
    let records = copy_into(alloc, device, map)?;
    Ok(LogCounts {
        records,
        keys: map.len(),
        used,
        count,
    })
}
