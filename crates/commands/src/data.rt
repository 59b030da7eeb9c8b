//! `create` and `check`: makes an empty data file, and counts what one holds.
ghost use Rattle.std.specs.Prelude.{◌≡◌, ◌≢◌, ◌<◌, ◌≤◌, ◌⊎◌, ◌↔◌, [], length, OnOk, IfErr, IsErrOf};
ghost use Rattle.sector.specs.Counts.{Stayed};
ghost use Rattle.commit_log.specs.declared.formats.LogFormat.{LogFormat};
ghost use Rattle.commit_log.specs.declared.formats.LogFormat.TheVariants.{One};
ghost use Rattle.commit_log.specs.LogImage.{IsLogImage, IsDamaged, HasHead, IsNoLog};
ghost use Rattle.commands.specs.Checking.{Checking, Checks, Counting, IfHolds, IfHoldsSets, IsRefused, PrintsLog};
ghost use Rattle.commands.specs.LogCounts.{counts_line};
ghost use Rattle.commands.specs.Faults.{IsFromOutput, IsFromOutside, DeviceIs};
ghost use Rattle.commands.specs.Making.{Creating};
ghost use Rattle.commands.specs.declared.data.TheConstants.{FILE_SECTORS_MAX};
ghost use Rattle.commit_log.specs.LogState.{HoldsLog};

use crate::faults::Fault;
use crate::lines::{Line, push_number, push_text};
use crate::system::{DataFiles, Lines};
use commit_log::{Log, LogFault, format};
use sector::Sectors;
use std::alloc::Global;
use std::io;

/// The most sectors that a data file is made with, which are 2 GiB.
const FILE_SECTORS_MAX: u64 = 4_194_304;

/// Makes a data file of so many sectors, 2 to 4,194,304, formats it, and closes it. The name must be free. Prints nothing, and calls
/// nothing else: its contract names each call of the files, and what the file holds that is closed.
///
/// A fault is `File`, or `Memory` where that was what a call of the system lacked, after which no file is there that it made, or
/// `Device`, after which the file stays. Takes no memory.
pub fn create<F: DataFiles>(files: &mut F, data: &str, sectors: u64) -> Result<(), Fault>
    requires at_least { 2 ≤ sectors }
    requires at_most { sectors ≤ FILE_SECTORS_MAX }
    ensures faults { IfErr result IsFromOutside }
    ensures creates { Creating F.Device.Sectors F.DataFiles data.now sectors files.old result files.new }
{
    let mut device = files.create(data, sectors)?;
    let formatted = format_device(&mut device);
    files.close(device);
    formatted
}

/// Makes a device an empty log.
///
/// `LogFull` exactly where there are fewer than two sectors; the device is then not called. `Device` exactly where a call of the device
/// failed. Takes no memory.
pub fn format_device<D: Sectors>(device: &mut D) -> Result<(), Fault>
    ensures full { IsErrOf result Fault.LogFull ↔ (D.size device.old < 2) }
    ensures unchanged { IsErrOf result Fault.LogFull → device.new ≡ device.old }
    ensures errors { IfErr result (λ e. e ≢ Fault.LogFull → e ≡ Fault.Device) }
    ensures fault { DeviceIs (D.failures device.old) (D.failures device.new) result }
    ensures no_fault { OnOk result (Stayed (D.failures device.old) (D.failures device.new)) }
    ensures size { D.size device.new ≡ D.size device.old }
    ensures formatted { D.keeps_model → OnOk result (HoldsLog D.Sectors device.new []) }
{
    format(device)?;
    Ok(())
}

/// Opens a data file to be checked, prints how many records, keys and sectors it holds, and how many sectors it has, and closes it. The
/// file is never written, and leave to read it is enough.
///
/// It calls nothing else: its contract names each call of the files and the output. The file that is closed is as it was opened: a crash
/// leaves what one before could have left.
///
/// A fault is `File`, or one of `check_device`. It takes the memory of one record and of the map.
pub fn check<F: DataFiles, O: Lines>(
    alloc: Global,
    files: &mut F,
    data: &str,
    out: &mut O,
) -> Result<(), Fault>
    ensures { Checking F.Device.Sectors F.DataFiles O.Lines data.now files.old out.old result (files.new, out.new) }
{
    let device = files.open_to_check(data)?;
    let (checked, device) = check_device(alloc, device, out);
    files.close(device);
    checked
}

/// Opens the log of a device and prints, on one line, how many records, keys and sectors it holds, and how many sectors there are. The
/// device is returned with how that came out, and a crash of it leaves what one before could have left.
///
/// A fault is the log's, beside which nothing is printed, or `File` or `Memory` where the writer fails. It takes the memory of one
/// record and of the map.
pub fn check_device<D: Sectors, O: Lines>(
    alloc: Global,
    device: D,
    out: &mut O,
) -> (Result<(), Fault>, D)
    ensures found { IfHoldsSets D.Sectors device IsLogImage
        (λ lists. PrintsLog O.Lines lists (D.size device) out.old result.0 out.new) }
    ensures damaged { IfHoldsSets D.Sectors device IsDamaged
        (λ lists. IsRefused (Fault.Damaged (length lists)) result.0 out.old out.new) }
    ensures no_log { IfHolds D.Sectors device (λ disk. (f : LogFormat) → IsNoLog f disk)
        (IsRefused Fault.NotALog result.0 out.old out.new) }
    ensures older { IfHolds D.Sectors device (HasHead One) (IsRefused Fault.OldFormat result.0 out.old out.new) }
    ensures beside { IfErr result.0 (λ fault. IsFromOutput fault ⊎ (out.new ≡ out.old)) }
    ensures checks { Checks D.Sectors O.Lines device out.old result.0 (result.1, out.new) }
{
    let (counted, device) = count_device(alloc, device);
    match counted {
        Ok(counts) => (print_counts(counts, out).map_err(Fault::from), device),
        Err(fault) => (Err(Fault::from(fault)), device),
    }
}

// What the log of a device holds.
#[derive(Clone, Copy, PartialEq, Eq, Debug)]
pub(crate) struct LogCounts {
    pub records: u64,
    pub keys: usize,
    pub used: u64,
    pub count: u64,
}

// Opens the log of a device and counts what it holds. The device is returned.
fn count_device<D: Sectors>(alloc: Global, device: D) -> (Result<LogCounts, LogFault>, D)
    ensures { Counting D.Sectors device result.0 result.1 }
{
    let count = device.count();
    match Log::open_or_return(alloc, device) {
        Ok((log, map)) => {
            let counts = LogCounts {
                records: log.records(),
                keys: map.len(),
                used: log.used(),
                count,
            };
            (Ok(counts), log.into_device())
        }
        Err(unopened) => (Err(unopened.fault), unopened.device),
    }
}

// Prints the line of these counts, in one write.
pub(crate) fn print_counts<O: Lines>(counts: LogCounts, out: &mut O) -> io::Result<()>
    ensures { O.writes out.old (counts_line counts) result out.new }
{
    let line = counts_line(counts);
    out.write_line(line.as_slice())
}

// The line of these counts.
fn counts_line(counts: LogCounts) -> Line
    ensures { result.items ≡ counts_line counts }
{
    let mut line = Line::new();
    push_text(&mut line, b"records ");
    push_number(&mut line, counts.records);
    push_text(&mut line, b" keys ");
    push_number(&mut line, counts.keys as u64);
    push_text(&mut line, b" sectors ");
    push_number(&mut line, counts.used);
    push_text(&mut line, b" of ");
    push_number(&mut line, counts.count);
    push_text(&mut line, b"\n");
    line
}
