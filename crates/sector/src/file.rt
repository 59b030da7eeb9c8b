//! A device over a file. That files keep the sector model is a premise, neither claimed nor denied here.
ghost use Rattle.std.specs.Prelude.{true, false, ◌≡◌, ◌≢◌, ◌<◌, ◌≤◌, ◌*◌, ◌%◌, ◌^◌, ◌↔◌, MatchOption, IfSome, IfOk};
ghost use Rattle.std.specs.Prelude.{IsOk, IsErrAnd, OnOk, OnErr, replicate, IfErr, Bool, length};
ghost use Rattle.std.specs.IoError.{error_kind};
ghost use Rattle.file_calls.specs.HappenedCalls.{WasClosed, WasOpened, WasOpenedToRead, WasRead, WasWritten};
ghost use Rattle.file_calls.specs.HappenedCalls.{WasSynced, HadNameSynced, HadCopiesDropped};
ghost use Rattle.file_calls.specs.OpenFacts.{file_after_call};
ghost use Rattle.sector.specs.Counts.{IsCounted, ReportsOutcome, RoseByOne, count_max};
ghost use Rattle.sector.specs.FileOpening.{WasMadeOfZeros, WasOpenedWhole, WasOpenedWholeToRead, IsNewlyOpened};
ghost use Rattle.sector.specs.FileOpening.{WhyNotOpened};

use crate::{DeviceFault, SECTOR_SIZE, Sector, Sectors};
use file_calls::{CountedFile, OpenedFile};
use std::fs::{self, File};
use std::io::{self, ErrorKind};
use std::rt::Files;
use std::time::Clock;

/// A file of whole sectors. That files keep the sector model is a premise of whoever relies on it: neither claimed here nor denied.
#[derive(Drop)]
pub struct FileSectors {
    file: CountedFile,
    failures: u64,
    /// How many syncs were asked for; the greatest count stays.
    syncs: u64,
    /// The first sync that succeeds then drops the system's copies of the pages.
    drops_copies: bool,
    ghost fits: { file.sectors < 2 ^ 55 },
}

impl FileSectors {
    ghost use Rattle.file_calls.specs.OpenFacts as facts;
    ghost use Rattle.sector.specs.FileModel.{FileKeepsModel, HoldsZeros};

    /// Makes a new file of `count` sectors of zeros, all of them written, and syncs it and its directory. A crash then finds the file,
    /// and no later write of a sector has to find room on the disk for it.
    ///
    /// Answers an error where a file of this name exists, where `count` is 2^55 or more (`InvalidInput`), and where a call of the system
    /// fails; a file that it made it then removes. Takes no memory.
    pub fn create<R: Files<File = File> + Clock>(rt: &R, path: &str, count: u64) -> io::Result<Self>
        ensures too_many { 2 ^ 55 ≤ count → IsErrAnd result (λ e. error_kind e ≡ ErrorKind.InvalidInput) }
        ensures count { IfOk result (λ f. f.file.sectors ≡ count) }
        ensures failures { IfOk result (λ f. f.failures ≡ 0) }
        ensures made { IfOk result (λ f. WasMadeOfZeros path.now count f.file) }
        // Under the premise on files it holds zeros, and a crash leaves them.
        ensures zeros { FileKeepsModel → IfOk result (λ f. HoldsZeros count f.file) }
    {
        if count >= 1 << 55 {
            return Err(io::Error::from(ErrorKind::InvalidInput));
        }
        let mut file = CountedFile::new(OpenedFile::make(rt, path)?, count);
        match settle_zeros(rt, path, &mut file, count * SECTOR_SIZE as u64) {
            Ok(()) => Ok(FileSectors {
                file,
                failures: 0,
                syncs: 0,
                drops_copies: false,
            }),
            Err(error) => {
                // The first error is the one to report.
                let _ = fs::remove_file(rt, path);
                Err(error)
            }
        }
    }

    /// Opens a file of whole sectors, and syncs its directory: a crash then finds the file under this name, also where it was renamed
    /// just before. After the first sync that succeeds, reads come from the device and not from the system's copies. After a sync
    /// that failed, Linux keeps pages that never reached the device and takes them for written (Rebello and others, Can Applications
    /// Recover from fsync Failures?, USENIX ATC 2020).
    ///
    /// Answers an error where there is no file of this name, where its length is no multiple of 512 (`InvalidData`), and where a call
    /// of the system fails. Takes no memory.
    pub fn open<R: Files<File = File> + Clock>(rt: &R, path: &str) -> io::Result<Self>
        ensures failures { IfOk result (λ f. f.failures ≡ 0) }
        ensures opened { IfOk result (λ f. WasOpenedWhole path.now f.file) }
        ensures drops { IfOk result (λ f. f.drops_copies ≡ true) }
        ensures refused { IfErr result (λ e. WhyNotOpened (λ f. WasOpened f path.now) e) }
    {
        let file = OpenedFile::open(rt, path)?;
        file.sync_name(rt, path)?;
        with_whole_sectors(file, true)
    }

    /// Opens a file of whole sectors to be read alone, with the errors of `open`: the system refuses each write to it. Its directory is
    /// not synced, and the system's copies stay, which may be all that is left where a device fails. Takes no memory.
    pub fn open_to_read<R: Files<File = File> + Clock>(rt: &R, path: &str) -> io::Result<Self>
        ensures failures { IfOk result (λ f. f.failures ≡ 0) }
        ensures opened { IfOk result (λ f. WasOpenedWholeToRead path.now f.file) }
        ensures keeps { IfOk result (λ f. f.drops_copies ≡ false) }
        ensures refused { IfErr result (λ e. WhyNotOpened (λ f. WasOpenedToRead f path.now) e) }
    {
        with_whole_sectors(OpenedFile::open_to_read(rt, path)?, false)
    }

    /// Opens a file of whole sectors to be checked, with the errors of `open`. It is opened to be read alone, so that leave to read it is
    /// enough, and its directory is not synced. After the first sync that succeeds, reads come from the device and not from the
    /// system's copies, as after `open`. Takes no memory.
    pub fn open_to_check<R: Files<File = File> + Clock>(rt: &R, path: &str) -> io::Result<Self>
        ensures failures { IfOk result (λ f. f.failures ≡ 0) }
        ensures opened { IfOk result (λ f. WasOpenedWholeToRead path.now f.file) }
        ensures drops { IfOk result (λ f. f.drops_copies ≡ true) }
        ensures refused { IfErr result (λ e. WhyNotOpened (λ f. WasOpenedToRead f path.now) e) }
    {
        with_whole_sectors(OpenedFile::open_to_read(rt, path)?, true)
    }

    /// Closes the file, as its last call left it; no more of it is called. Takes no memory.
    pub fn close(self)
        ensures { WasClosed self.file }
    {
        self.file.close();
    }

    /// Counts a call of the file, and reports how it ended. Where the count stands at its end, each call fails.
    fn reported(&mut self, outcome: io::Result<()>) -> Result<(), DeviceFault>
        ensures reported { IsOk result ↔ (IsOk outcome × (self.old.failures < count_max)) }
        ensures file { self.new.file ≡ self.old.file }
        ensures syncs { self.new.syncs ≡ self.old.syncs }
        ensures failures { IsCounted result self.old.failures self.new.failures }
    {
        if outcome.is_ok() && self.failures < u64::MAX {
            return Ok(());
        }
        self.failures = self.failures.saturating_add(1);
        Err(DeviceFault)
    }

    /// Drops the system's copies of the pages, where that is still to be done.
    fn drop_copies(&mut self) -> io::Result<()>
        ensures file { self.new.file ≡ self.old.file }
        ensures syncs { self.new.syncs ≡ self.old.syncs }
        ensures failures { self.new.failures ≡ self.old.failures }
        ensures dropped { self.old.drops_copies ≡ true → OnOk result (HadCopiesDropped self.old.file.file) }
        ensures once { self.new.drops_copies ≡ false }
    {
        if !self.drops_copies {
            return Ok(());
        }
        self.drops_copies = false;
        self.file.opened().drop_copies()
    }
}

/// A device over an open file, with an error where its length is no multiple of 512.
fn with_whole_sectors(file: OpenedFile, drops_copies: bool) -> io::Result<FileSectors>
    ensures failures { IfOk result (λ f. f.failures ≡ 0) }
    ensures file { IfOk result (λ f. f.file.file ≡ file) }
    ensures whole { IfOk result (λ f. IsNewlyOpened f.file) }
    ensures drops { IfOk result (λ f. f.drops_copies ≡ drops_copies) }
    ensures refused { IfErr result (λ e. WhyNotOpened (λ f. f ≡ file) e) }
{
    match whole_sectors(file.length()?) {
        Some(count) => Ok(FileSectors {
            file: CountedFile::new(file, count),
            failures: 0,
            syncs: 0,
            drops_copies,
        }),
        None => Err(io::Error::from(ErrorKind::InvalidData)),
    }
}

/// How many sectors have so many bytes, where these are whole sectors.
fn whole_sectors(len: u64) -> Option<u64>
    ensures count { MatchOption result (len % SECTOR_SIZE ≢ 0) (λ count. len ≡ count * SECTOR_SIZE) }
    ensures fits { IfSome result (λ count. count < 2 ^ 55) }
{
    let rest = len % SECTOR_SIZE as u64;
    if rest == 0 {
        Some(len / SECTOR_SIZE as u64)
    } else {
        None
    }
}

/// Fills a new file with zeros, so that the file system gives it its blocks now, and settles it and its name.
fn settle_zeros<R: Files<File = File>>(
    rt: &R,
    path: &str,
    file: &mut CountedFile,
    len: u64,
) -> io::Result<()>
    ensures zeros { OnOk result (WasWritten file.old 0 (replicate len 0) true) }
    ensures settled { OnOk result (WasSynced (file_after_call file.old) true) }
    ensures name { OnOk result (HadNameSynced file.old.file path.now) }
    ensures calls { OnOk result (file.new ≡ file_after_call (file_after_call file.old)) }
{
    file.write_zeros(len)?;
    file.sync_all()?;
    file.opened().sync_name(rt, path)
}

// Each call of the device is one call of the file; from the premise on files it then follows what the trait says of it.
impl Sectors for FileSectors {
    ghost use Rattle.file_calls.specs.OpenFacts as facts;
    ghost use Rattle.sector.specs.FileModel.{FileKeepsModel};
    ghost use Rattle.sector.specs.FileCalls.{MakesOneCall};

    ghost size = { λ f. f.file.sectors };

    ghost failures = { λ f. f.failures };

    ghost syncs = { λ f. f.syncs };

    ghost keeps_model = { FileKeepsModel };

    ghost may_read = { λ f. facts.may_read f.file };

    ghost may_leave = { λ f. facts.may_leave f.file };

    ghost moment = { λ f. facts.moment f.file };

    ghost left_since = { λ f. facts.left_since f.file };

    ghost leaves_all = { λ keeps f. keeps.leaves_all f.file };

    ghost counts_now = { λ keeps f. keeps.counts_now f.file };

    ghost only_now = { λ keeps f. keeps.only_now f.file };

    fn count(&self) -> u64 {
        self.file.sectors()
    }

    /// It makes one call of the file: one that failed isn't tried again.
    fn read(&mut self, at: u64, into: &mut Sector) -> Result<(), DeviceFault>
        requires { at ≤ self.old.file.sectors }
        ensures one_call { MakesOneCall self.old self.new result }
        ensures long { length into.new ≡ SECTOR_SIZE }
        ensures happened { ReportsOutcome result self.old.failures (WasRead self.old.file (at * SECTOR_SIZE) into.new) }
    {
        self.read_sectors(at, into)
    }

    /// It makes one call of the file: one that failed isn't tried again.
    fn write(&mut self, at: u64, from: &Sector) -> Result<(), DeviceFault>
        requires { at ≤ self.old.file.sectors }
        ensures one_call { MakesOneCall self.old self.new result }
        ensures long { length from.now ≡ SECTOR_SIZE }
        ensures happened { ReportsOutcome result self.old.failures
            (WasWritten self.old.file (at * SECTOR_SIZE) from.now) }
    {
        self.write_sectors(at, from)
    }

    /// It makes one call of the file: one that failed isn't tried again.
    fn read_sectors(&mut self, at: u64, into: &mut [u8]) -> Result<(), DeviceFault>
        requires { at ≤ self.old.file.sectors }
        ensures one_call { MakesOneCall self.old self.new result }
        ensures long { length into.new ≡ length into.old }
        ensures happened { ReportsOutcome result self.old.failures (WasRead self.old.file (at * SECTOR_SIZE) into.new) }
    {
        let outcome = self.file.read(at * SECTOR_SIZE as u64, into);
        self.reported(outcome)
    }

    /// It makes one call of the file: one that failed isn't tried again.
    fn write_sectors(&mut self, at: u64, from: &[u8]) -> Result<(), DeviceFault>
        requires { at ≤ self.old.file.sectors }
        ensures one_call { MakesOneCall self.old self.new result }
        ensures happened { ReportsOutcome result self.old.failures
            (WasWritten self.old.file (at * SECTOR_SIZE) from.now) }
    {
        let outcome = self.file.write(at * SECTOR_SIZE as u64, from);
        self.reported(outcome)
    }

    /// It makes one call of the file: one that failed isn't tried again. Of a file that was opened, the first that succeeds then drops the
    /// system's copies of its pages; where these can't be dropped, it fails.
    fn sync(&mut self) -> Result<(), DeviceFault>
        ensures syncs { RoseByOne self.old.syncs self.new.syncs }
        ensures failures { IsCounted result self.old.failures self.new.failures }
        ensures one_call { self.new.file ≡ file_after_call self.old.file }
        ensures happened { (ok : Bool) × WasSynced self.old.file ok × (IsOk result → ok ≡ true) }

        // Where the system's copies were still to be dropped, they were.
        ensures dropped { self.old.drops_copies ≡ true → OnOk result (HadCopiesDropped self.old.file.file) }
    {
        self.syncs = self.syncs.saturating_add(1);
        let outcome = match self.file.sync() {
            Ok(()) => self.drop_copies(),
            Err(error) => Err(error),
        };
        self.reported(outcome)
    }
}
