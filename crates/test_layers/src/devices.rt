//! Which call of a device in memory fails, what a crash asks its caller, and what a real file gives back.
use sector::{FileSectors, MemSectors, Sectors};
use std::io::{self, ErrorKind};
use std::{fs, process};

// Does the sector hold these bytes at its front?
fn holds<D: Sectors>(device: &mut D, at: u64, front: &[u8]) -> bool {
    let mut sector = [255; 512];
    at < device.count() && device.read(at, &mut sector).is_ok() && sector.starts_with(front)
}

// Writes this byte over the whole sector.
fn fill<D: Sectors>(device: &mut D, at: u64, byte: u8) -> bool {
    at < device.count() && device.write(at, &[byte; 512]).is_ok()
}

// Writes this byte over two sectors.
fn fill_two<D: Sectors>(device: &mut D, at: u64, byte: u8) -> bool {
    at < device.count()
        && at + 1 < device.count()
        && device.write_sectors(at, &[byte; 1024]).is_ok()
}

// Do the two sectors hold this byte alone?
fn hold_two<D: Sectors>(device: &mut D, at: u64, byte: u8) -> bool {
    let mut row = [!byte; 1024];
    at < device.count()
        && at + 1 < device.count()
        && device.read_sectors(at, &mut row).is_ok()
        && row.starts_with(&[byte; 1024])
}

#[test]
fn the_call_named_fails_and_no_other(rt: HostRuntime) {
    let mut device = MemSectors::new(rt.alloc(), 2).expect(&rt, "memory");
    device.fail_call(3);
    assert!(rt; holds(&mut device, 1, &[0; 512]));
    assert!(rt; device.sync().is_ok());
    assert!(rt; !fill(&mut device, 0, 1));
    assert!(rt; fill(&mut device, 0, 2));
    assert!(rt; holds(&mut device, 0, &[2; 512]));
}

#[test]
fn a_call_of_two_sectors_is_two_calls(rt: HostRuntime) {
    let mut device = MemSectors::new(rt.alloc(), 4).expect(&rt, "memory");
    device.fail_call(4);
    assert!(rt; fill_two(&mut device, 1, 6));
    assert!(rt; holds(&mut device, 0, &[0; 512]));
    assert!(rt; !fill_two(&mut device, 0, 7));
    assert!(rt; holds(&mut device, 1, &[6; 512]));
    assert!(rt; fill_two(&mut device, 1, 8) && hold_two(&mut device, 1, 8));
    assert!(rt; holds(&mut device, 3, &[0; 512]));
}

#[test]
fn a_crash_asks_for_each_unsettled_sector(rt: HostRuntime) {
    let mut device = MemSectors::from_image(rt.alloc(), &[5; 1536]).expect(&rt, "memory");
    assert!(rt; fill(&mut device, 1, 6) && device.sync().is_ok());
    assert!(rt; fill(&mut device, 1, 8) && fill(&mut device, 2, 9));
    let mut left = device.crash(|at, settled, written| {
        let mut sector = [(at % 256) as u8; 512];
        sector[0] = settled[0];
        sector[1] = written[0];
        sector
    });
    for (at, front) in [(0, [5, 5, 5]), (1, [6, 8, 1]), (2, [5, 9, 2])] {
        assert!(rt; holds(&mut left, at, &front), "sector {at}");
    }
}

fn kind(made: io::Result<FileSectors>) -> Option<ErrorKind> {
    match made {
        Ok(_) => None,
        Err(error) => Some(error.kind()),
    }
}

#[test]
fn a_file_keeps_what_was_written(rt: HostRuntime) {
    let path = format!(in rt.alloc(); "sectors-kept-{}", process::id(rt.process()));
    let path = path.expect(&rt, "memory");
    let path = path.as_str();
    assert!(rt; kind(FileSectors::open(&rt, path)) == Some(ErrorKind::NotFound));
    let mut device = FileSectors::create(&rt, path, 40).expect(&rt, "made");
    assert!(rt; fill(&mut device, 17, 3) && fill_two(&mut device, 30, 4) && device.sync().is_ok());
    drop(device);
    assert!(rt; kind(FileSectors::create(&rt, path, 1)) == Some(ErrorKind::AlreadyExists));
    let mut device = FileSectors::open(&rt, path).expect(&rt, "opened");
    assert!(rt; device.count() == 40);
    for at in 0..40 {
        let byte = match at {
            17 => 3,
            30 | 31 => 4,
            _ => 0,
        };
        assert!(rt; holds(&mut device, at, &[byte; 512]), "sector {at}");
    }
    assert!(rt; hold_two(&mut device, 30, 4) && !hold_two(&mut device, 16, 3));
    assert!(rt; fs::remove_file(&rt, path).is_ok());
}

#[test]
fn a_file_has_whole_sectors_and_not_too_many(rt: HostRuntime) {
    let path = format!(in rt.alloc(); "sectors-cut-{}", process::id(rt.process()));
    let path = path.expect(&rt, "memory");
    let path = path.as_str();
    assert!(rt; kind(FileSectors::create(&rt, path, 1 << 55)) == Some(ErrorKind::InvalidInput));
    assert!(rt; fs::write(&rt, path, [0; 513].as_slice()).is_ok());
    assert!(rt; kind(FileSectors::open(&rt, path)) == Some(ErrorKind::InvalidData));
    assert!(rt; fs::remove_file(&rt, path).is_ok());
}
