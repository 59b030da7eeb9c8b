//! What a `create` that fails leaves.
use commands::{Fault, SystemFiles, create};
use std::alloc::Allocator;
use std::fs::{self, File, Metadata, OpenOptions};
use std::io::{self, ErrorKind};
use std::rt::Files;
use std::test::Fail;
use std::time::{Clock, Duration};

/// The files of a system on which what is opened to read alone, as a directory is, can't be opened.
#[derive(Drop)]
struct NoDirectories<'a> {
    rt: &'a HostRuntime,
}

impl Files for NoDirectories<'_> {
    type File = File;

    type Dir = <HostRuntime as Files>::Dir;

    fn open_file(&self, how: &OpenOptions, path: &str) -> io::Result<File> {
        if how.asks_write() {
            self.rt.open_file(how, path)
        } else {
            Err(io::Error::from(ErrorKind::Unsupported))
        }
    }

    fn open_dir(&self, path: &str) -> io::Result<Self::Dir> {
        self.rt.open_dir(path)
    }

    fn metadata(&self, path: &str) -> io::Result<Metadata> {
        self.rt.metadata(path)
    }

    fn symlink_metadata(&self, path: &str) -> io::Result<Metadata> {
        self.rt.symlink_metadata(path)
    }

    fn copy(&self, from: &str, to: &str) -> io::Result<u64> {
        self.rt.copy(from, to)
    }

    fn rename(&self, from: &str, to: &str) -> io::Result<()> {
        self.rt.rename(from, to)
    }

    fn remove_file(&self, path: &str) -> io::Result<()> {
        self.rt.remove_file(path)
    }

    fn create_dir(&self, path: &str) -> io::Result<()> {
        self.rt.create_dir(path)
    }

    fn remove_dir(&self, path: &str) -> io::Result<()> {
        self.rt.remove_dir(path)
    }

    fn remove_dir_all<B: Allocator>(&self, alloc: B, path: &str) -> io::Result<()> {
        self.rt.remove_dir_all(alloc, path)
    }
}

impl Clock for NoDirectories<'_> {
    fn monotonic(&self) -> io::Result<Duration> {
        self.rt.monotonic()
    }

    fn since_1970(&self) -> io::Result<Duration> {
        self.rt.since_1970()
    }
}

/// The directory can't be synced, once the file is filled: the file is removed, and its name is free.
#[test]
fn a_failed_create_leaves_no_file(rt: HostRuntime) -> Result<(), Fail> {
    let name = "failed.data";
    let _ = fs::remove_file(&rt, name);
    let broken = NoDirectories { rt: &rt };
    let failed = create(&mut SystemFiles::new(&broken), name, 4);
    assert!(rt; failed == Err(Fault::File));
    assert!(rt; create(&mut SystemFiles::new(&rt), name, 4).is_ok());
    assert!(rt; fs::remove_file(&rt, name).is_ok());
    Ok(())
}
