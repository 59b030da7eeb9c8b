//! Reads, writes and syncs of an open file, each counted.
ghost use Rattle.std.specs.Prelude.{◌≡◌, ◌↔◌, ◌-◌, ◌^◌, IsErr, replicate, is_ok};

use crate::opened::OpenedFile;
use std::io::{self, ErrorKind, Read};
use std::os::unix::fs::FileExt;

/// An open file of so many sectors, with the number of calls that were made of it. `read`, `write`, `write_zeros`, `sync` and `sync_all`
/// make one call and count it. Once the count is 2^64 - 1 it stays, and they fail (`Other`) without a call, so that no two calls are made
/// at one count.
#[derive(Drop)]
pub struct CountedFile {
    file: OpenedFile,
    sectors: u64,
    calls: u64,
}

impl CountedFile {
    ghost use Rattle.file_calls.specs.HappenedCalls.{IsOneCall, WasClosed, WasRead, WasWritten, WasSynced};
    ghost use Rattle.file_calls.specs.OpenFacts.{file_after_call};

    /// An opened file, of so many sectors, of which no call was made. Takes no memory.
    pub fn new(file: OpenedFile, sectors: u64) -> CountedFile
        ensures file { result.file ≡ file }
        ensures sectors { result.sectors ≡ sectors }
        ensures calls { result.calls ≡ 0 }
    {
        CountedFile {
            file,
            sectors,
            calls: 0,
        }
    }

    /// Lends the opened file. Makes no call.
    pub fn opened(&self) -> &OpenedFile
        ensures { result.now ≡ self.now.file }
    {
        &self.file
    }

    /// How many sectors it has. Makes no call.
    pub fn sectors(&self) -> u64
        ensures { result ≡ self.now.sectors }
    {
        self.sectors
    }

    /// Reads bytes from this offset on. Answers the system's error, and `UnexpectedEof` where the file ends before. Takes no memory.
    pub fn read(&mut self, offset: u64, into: &mut [u8]) -> io::Result<()>
        ensures one_call { IsOneCall self.old self.new result }
        ensures happened { WasRead self.old offset into.new (is_ok result) }
    {
        self.count_call()?;
        self.file.file.read_exact_at(into, offset)
    }

    /// Writes bytes from this offset on. Answers the system's error. Takes no memory.
    pub fn write(&mut self, offset: u64, from: &[u8]) -> io::Result<()>
        ensures one_call { IsOneCall self.old self.new result }
        ensures happened { WasWritten self.old offset from.now (is_ok result) }
    {
        self.count_call()?;
        self.file.file.write_all_at(from, offset)
    }

    /// Settles what was written. Answers the system's error. Takes no memory.
    pub fn sync(&mut self) -> io::Result<()>
        ensures one_call { IsOneCall self.old self.new result }
        ensures happened { WasSynced self.old (is_ok result) }
    {
        self.count_call()?;
        self.file.file.sync_data()
    }

    /// Writes so many zeros from the beginning of a new file on, so that the file system gives it its blocks now. Answers the system's
    /// error. Takes no memory.
    pub fn write_zeros(&mut self, len: u64) -> io::Result<()>
        ensures one_call { IsOneCall self.old self.new result }
        ensures happened { WasWritten self.old 0 (replicate len 0) (is_ok result) }
    {
        self.count_call()?;
        let _written = io::copy(&mut io::repeat(0).take(len), &mut &self.file.file)?;
        Ok(())
    }

    /// Settles what was written, and the file's size and times with it. Answers the system's error. Takes no memory.
    pub fn sync_all(&mut self) -> io::Result<()>
        ensures one_call { IsOneCall self.old self.new result }
        ensures happened { WasSynced self.old (is_ok result) }
    {
        self.count_call()?;
        self.file.file.sync_all()
    }

    /// Closes it, as its last call left it. Takes no memory.
    pub fn close(self)
        ensures { WasClosed self }
    {
        drop(self);
    }

    /// Counts a call; `Other` where no more can be counted.
    fn count_call(&mut self) -> io::Result<()>
        ensures next { self.new ≡ file_after_call self.old }
        ensures over { IsErr result ↔ (self.old.calls ≡ 2 ^ 64 - 1) }
    {
        if self.calls == u64::MAX {
            return Err(io::Error::from(ErrorKind::Other));
        }
        self.calls += 1;
        Ok(())
    }
}
