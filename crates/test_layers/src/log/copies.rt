//! Copies of a map into a log of its own, and crashes and failures at each device call of one.
ghost use Rattle.std.specs.Prelude.{◌<◌, ◌≤◌, ◌^◌, length};

use crate::helpers::put as put_key;
use crate::log::helpers::{FILLS, Fill, append, crashed, empty_log, has, opened, put};
use crate::log::stated::{FIRST_BODY, SECOND_BODY};
use commit_log::{Log, LogFault, copy_into, copy_sectors, read_map};
use model::Map;
use sector::{MemSectors, Sectors};
use sha2::{Digest, Sha256};
use std::process::Abort;
use test_devices::Stopping;

/// The map of a to 1.
fn one_key<R: Abort + AllocGlobal>(rt: &R) -> Map {
    let mut map = Map::new(rt.alloc());
    put_key(rt.alloc(), &mut map, b"a", b"1").expect(rt, "memory");
    map
}

/// A device of zeros.
fn zeros<R: Abort + AllocGlobal>(rt: &R, count: u64) -> MemSectors {
    MemSectors::new(rt.alloc(), count).expect(rt, "memory")
}

/// What is found on a device.
#[derive(Clone, Copy, Debug, PartialEq, Eq)]
enum Found {
    NoLog,
    /// The log of one record that puts a to 1.
    Copy,
    Other,
}

fn what_stands_on<R: Abort + AllocGlobal>(rt: &R, device: MemSectors) -> Found {
    match Log::open(rt.alloc(), device) {
        Ok((log, map)) => {
            if (log.records(), log.used()) == (1, 4) && has(&map, b"a", b"1") {
                Found::Copy
            } else {
                Found::Other
            }
        }
        Err(LogFault::NotALog) => Found::NoLog,
        Err(_) => Found::Other,
    }
}

/// What is found where a device of zeros stops after so many calls of the copy.
fn stopped_after<R: Abort + AllocGlobal>(rt: &R, calls: u64, fill: Fill) -> Found {
    let mut device = Stopping::new(zeros(rt, 8), calls);
    let _outcome = copy_into(rt.alloc(), &mut device, &one_key(rt));
    what_stands_on(rt, crashed(device.device, fill))
}

/// What is found where a device of zeros stops within this call of the copy, the first being 1, which then answers `Device`.
fn stopped_within<R: Abort + AllocGlobal>(rt: &R, call: u64, fill: Fill) -> Found
    requires { call < 2 ^ 32 }
{
    let mut device = crashed(zeros(rt, 8), Fill::New);
    device.fail_call(call + 1);
    if copy_into(rt.alloc(), &mut device, &one_key(rt)) != Err(LogFault::Device) {
        return Found::Other;
    }
    what_stands_on(rt, crashed(device, fill))
}

/// The copy syncs and reads the first sector, writes a gate at 1, a body at 2 and a closed gate at 3, syncs, writes the head, and syncs.
#[test]
fn crash_points_of_a_copy(rt: HostRuntime) {
    for fill in FILLS {
        // The head is unsettled from within its write on.
        let headed = if fill == Fill::New {
            Found::Copy
        } else {
            Found::NoLog
        };
        for calls in 0..8 {
            let early = calls < 6;
            assert_eq!(rt;
                stopped_within(&rt, calls, fill),
                if early { Found::NoLog } else { headed },
                "{fill:?} within {calls}"
            );
            assert_eq!(rt;
                stopped_after(&rt, calls, fill),
                if calls < 7 { Found::NoLog } else { headed },
                "{fill:?} after {calls}"
            );
        }
        assert_eq!(rt; stopped_after(&rt, 8, fill), Found::Copy, "{fill:?}");
    }
}

#[test]
fn a_copy_refuses_what_has_no_room_or_is_not_empty(rt: HostRuntime) {
    let alloc = rt.alloc();
    let map = one_key(&rt);
    assert_eq!(rt; copy_sectors(&map), Some(4));
    let mut small = zeros(&rt, 3);
    assert_eq!(rt; copy_into(alloc, &mut small, &map), Err(LogFault::Full));
    let mut device = zeros(&rt, 4);
    assert_eq!(rt; copy_into(alloc, &mut device, &map), Ok(1));
    assert_eq!(rt;
        copy_into(alloc, &mut device, &map),
        Err(LogFault::NotEmpty)
    );
    assert_eq!(rt; what_stands_on(&rt, device), Found::Copy);
}

/// The map of a log, copied to a device of zeros: the number of its format, and the records, sectors used and keys of the copy.
fn copied<R: Abort + AllocGlobal>(
    rt: &R,
    device: &mut MemSectors,
    count: u64,
) -> (u8, u64, u64, usize) {
    let (map, format) = read_map(rt.alloc(), device).expect(rt, "a map");
    let mut device = zeros(rt, count);
    let records = copy_into(rt.alloc(), &mut device, &map).expect(rt, "copied");
    let (log, map) = opened(rt, device);
    assert!(rt; log.records() == records);
    (format, records, log.used(), map.len())
}

/// The map of a log of format 1 of two records, of which opening says that the format is old.
#[test]
fn compact_an_old_log(rt: HostRuntime) {
    let alloc = rt.alloc();
    let mut image = [0; 4096];
    image[..8].copy_from_slice(b"SSIKVLG1");
    image[512] = 1;
    image[1024..1081].copy_from_slice(&FIRST_BODY);
    image[1536] = 1;
    image[2048..2100].copy_from_slice(&SECOND_BODY);
    let mut old = MemSectors::from_image(alloc, &image).expect(&rt, "memory");
    assert_eq!(rt; copied(&rt, &mut old, 8), (1, 0, 2, 0));
    match Log::open(alloc, old) {
        Ok(_) => assert!(rt; false, "opened"),
        Err(fault) => assert_eq!(rt; fault, LogFault::OldFormat),
    }
}

/// A key of three bytes.
fn numbered_key(n: u8) -> [u8; 3]
    requires { n < 100 }
{
    [b'k', b'0' + n / 10, b'0' + n % 10]
}

#[test]
fn compact_many_keys(rt: HostRuntime) {
    let mut log = empty_log(&rt, 200);
    for n in 1..66u8 {
        append(&rt, &mut log, &put(&rt, &numbered_key(n), b"1"));
    }
    assert_eq!(rt; log.used(), 132);
    let mut device = log.into_device();
    assert_eq!(rt; copied(&rt, &mut device, 200), (2, 2, 7, 65));
}

/// The same keys in a log of format 1.
#[test]
fn compact_many_keys_of_an_old_log(rt: HostRuntime) {
    let mut device = old_log(&rt, 200, 66);
    assert_eq!(rt; copied(&rt, &mut device, 200), (1, 2, 7, 65));
}

/// A log of format 1, written by its format: the keys from 1 on and before `end` are put to 1, a record each.
fn old_log<R: Abort + AllocGlobal>(rt: &R, sectors: u64, end: u8) -> MemSectors
    requires { end ≤ 100 }
{
    let mut device = zeros(rt, sectors);
    write_sector(rt, &mut device, 0, b"SSIKVLG1");
    let mut digest = [0; 32];
    for n in 1..end {
        let gate = 2 * n as u64 - 1;
        write_sector(rt, &mut device, gate, &[1]);
        let (body, next) = old_body(n - 1, numbered_key(n), &digest);
        write_sector(rt, &mut device, gate + 1, &body);
        digest = next;
    }
    device
}

/// Writes these bytes to a sector, and zeros behind them.
fn write_sector<R: Abort>(rt: &R, device: &mut MemSectors, at: u64, bytes: &[u8])
    requires { length bytes.now ≤ 512 }
{
    let mut sector = [0; 512];
    sector[..bytes.len()].copy_from_slice(bytes);
    if at < device.count() {
        device.write(at, &sector).expect(rt, "written");
    }
}

/// The body of a record of format 1 that puts a key to 1, behind a record of this digest, and its own digest.
fn old_body(index: u8, key: [u8; 3], before: &[u8; 32]) -> ([u8; 59], [u8; 32]) {
    let [a, b, c] = key;
    let payload = [0, 0, 0, 1, 0, 3, a, b, c, 1, 0, 0, 0, 1, b'1'];
    let number = [0, 0, 0, 0, 0, 0, 0, index];
    let mut hasher = Sha256::new();
    hasher.update(before.as_slice());
    hasher.update(number.as_slice());
    hasher.update(payload.as_slice());
    let digest = hasher.finalize();
    let mut body = [0; 59];
    body[3] = 15;
    body[4..12].copy_from_slice(&number);
    body[12..44].copy_from_slice(&digest);
    body[44..].copy_from_slice(&payload);
    (body, digest)
}
