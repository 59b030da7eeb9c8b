//! Makes and opens files, syncs the directory of their names, and has the system drop its copies of their pages.
ghost use Rattle.std.specs.Prelude.{IfErr, IfOk, OnOk};
ghost use Rattle.file_calls.specs.HappenedCalls.{ResolvesTo, WasAnswered, WasLink};

use std::fs::{self, File, OpenFile, OpenOptions};
use std::io::{self, ErrorKind};
use std::os::fd::AsRawFd;
use std::path::Path;
use std::rt::Files;
use std::str;
use std::time::{Clock, SystemTime};

/// A file that was opened, with the moment at which that was done.
#[derive(Drop)]
pub struct OpenedFile {
    pub(crate) file: File,
    /// When it was opened, as far as the clock tells. Nothing but clauses reads it: it tells the restarts of a store apart.
    opened: Option<SystemTime>,
}

impl OpenedFile {
    ghost use Rattle.std.specs.Path.{path_bytes};
    ghost use Rattle.file_calls.specs.HappenedCalls.{WasAnswered, WasMade, WasOpened, WasOpenedToRead, HadLength};
    ghost use Rattle.file_calls.specs.HappenedCalls.{HadDirectorySynced, HadNameSynced, HadCopiesDropped};
    ghost use Rattle.file_calls.specs.HappenedCalls.{WasAdvised, directory_of};

    /// Makes a new file, to be read and written. Answers the system's error, also where a file of this name exists. Takes no memory.
    pub fn make<R: Files<File = File> + Clock>(rt: &R, path: &str) -> io::Result<OpenedFile>
        ensures made { IfOk result (λ f. WasMade f path.now) }
        ensures error { IfErr result (λ e. WasAnswered e) }
    {
        let mut options = OpenOptions::new();
        options.read(true).write(true).create_new(true);
        Ok(OpenedFile {
            file: options.open(rt, path)?,
            opened: SystemTime::now(rt).ok(),
        })
    }

    /// Opens a file to be read and written. Answers the system's error, also where there is no file of this name. Takes no memory.
    pub fn open<R: Files<File = File> + Clock>(rt: &R, path: &str) -> io::Result<OpenedFile>
        ensures opened { IfOk result (λ f. WasOpened f path.now) }
        ensures error { IfErr result (λ e. WasAnswered e) }
    {
        let mut options = OpenOptions::new();
        options.read(true).write(true);
        Ok(OpenedFile {
            file: options.open(rt, path)?,
            opened: SystemTime::now(rt).ok(),
        })
    }

    /// Opens a file to be read alone: the system refuses each write to it. Answers the system's error, also where there is no file of
    /// this name. What is no regular file has to be open to be written meanwhile: so a directory answers the error that it answers to
    /// `open`, and a named pipe doesn't wait for somebody who writes. Takes no memory.
    pub fn open_to_read<R: Files<File = File> + Clock>(rt: &R, path: &str) -> io::Result<OpenedFile>
        ensures opened { IfOk result (λ f. WasOpenedToRead f path.now) }
        ensures error { IfErr result (λ e. WasAnswered e) }
    {
        let _meanwhile = if fs::metadata(rt, path)?.is_file() {
            None
        } else {
            Some(OpenedFile::open(rt, path)?)
        };
        Ok(OpenedFile {
            file: File::open(rt, Path::new(path))?,
            opened: SystemTime::now(rt).ok(),
        })
    }

    /// How many bytes it has. Answers the system's error. Takes no memory.
    pub fn length(&self) -> io::Result<u64>
        ensures length { IfOk result (λ n. HadLength self.now n) }
        ensures error { IfErr result (λ e. WasAnswered e) }
    {
        Ok(self.file.metadata()?.len())
    }

    /// Settles the names in the directory of this path, under which it was opened, and where that is a symbolic link those in the directory
    /// of the file that it leads to as well. Answers the system's error. Takes no memory.
    pub fn sync_name<R: Files<File = File>>(&self, rt: &R, path: &str) -> io::Result<()>
        ensures synced { OnOk result (HadNameSynced self.now path.now) }
        ensures error { IfErr result (λ e. WasAnswered e) }
    {
        self.sync_directory_of(rt, path)?;
        if !is_link(rt, path)? {
            return Ok(());
        }
        let mut resolved = [0u8; libc::PATH_MAX];
        self.sync_directory_of(rt, without_links(path, &mut resolved)?)
    }

    /// Syncs the directory in which this path names something. Answers the system's error.
    fn sync_directory_of<R: Files<File = File>>(&self, rt: &R, path: &str) -> io::Result<()>
        ensures synced { OnOk result (HadDirectorySynced self.now (directory_of path.now)) }
        ensures error { IfErr result (λ e. WasAnswered e) }
    {
        match Path::new(path).parent() {
            Some(parent) if !parent.as_str().is_empty() => self.sync_directory(rt, parent),
            _ => self.sync_directory(rt, Path::new(".")),
        }
    }

    /// Syncs a directory, once the file is open. Answers the system's error.
    fn sync_directory<R: Files<File = File>>(&self, rt: &R, directory: Path<'_>) -> io::Result<()>
        ensures synced { OnOk result (HadDirectorySynced self.now (path_bytes directory.entry)) }
        ensures error { IfErr result (λ e. WasAnswered e) }
    {
        File::open(rt, directory)?.sync_all()
    }

    /// Asks the system to drop its copies of the file's pages, so that what is read next comes from the device; pages that wait to be
    /// written stay. Under the sector model this changes nothing, so it is no counted call. Answers the system's error. Takes no memory.
    pub fn drop_copies(&self) -> io::Result<()>
        ensures dropped { OnOk result (HadCopiesDropped self.now) }
        ensures error { IfErr result (λ e. WasAnswered e) }
    {
        let advised = self.advise(0, 0, libc::POSIX_FADV_DONTNEED);
        if advised == 0 {
            Ok(())
        } else {
            Err(io::Error::from_raw_os_error(advised))
        }
    }

    /// Tells the system how so many bytes from this offset on will be read, where 0 stands for all that follow (POSIX's `posix_fadvise`).
    /// Answers 0, or the number of the system's error.
    fn advise(&self, offset: i64, len: i64, advice: i32) -> i32
        ensures { WasAdvised self.now offset len advice result }
    {
        libc::posix_fadvise(self.file.as_raw_fd(), offset, len, advice)
    }
}

/// Is what this path names a symbolic link? Answers the system's error.
fn is_link<R: Files<File = File>>(rt: &R, path: &str) -> io::Result<bool>
    ensures was_link { IfOk result (λ is. WasLink path.now is) }
    ensures error { IfErr result (λ e. WasAnswered e) }
{
    Ok(fs::symlink_metadata(rt, path)?.is_symlink())
}

/// The path of the same file in which no name is a link. Answers the system's error, and `InvalidFilename` where it is no UTF-8.
fn without_links<'a>(path: &str, resolved: &'a mut [u8; libc::PATH_MAX]) -> io::Result<&'a str>
    ensures leads { IfOk result (λ name. ResolvesTo path.now name.now) }
    ensures error { IfErr result (λ e. WasAnswered e) }
{
    if os::realpath(path.as_bytes(), resolved) < 0 {
        return Err(io::Error::from_raw_os_error(os::errno()));
    }
    let length = os::name_length(resolved);
    match str::from_utf8(&resolved[..length]) {
        Ok(name) => Ok(name),
        Err(_) => Err(io::Error::from(ErrorKind::InvalidFilename)),
    }
}
