//! Stated bytes, and a log with no room. The digests are those of another SHA-256.
use crate::log::helpers::{append, content, delete, empty_log, has, opened, put};
use commit_log::{Log, LogFault, payload_len};
use model::VALUE_MAX;
use sector::{MemSectors, Sector, Sectors};
use std::process::Abort;

/// The body of the record of index 0 that puts a to 1: length, index, digest, payload.
pub const FIRST_BODY: [u8; 57] = [
    0, 0, 0, 13, 0, 0, 0, 0, 0, 0, 0, 0, 149, 49, 75, 66, 58, 29, 181, 236, 121, 82, 251, 217, 141,
    6, 190, 144, 229, 1, 59, 140, 120, 23, 188, 162, 131, 140, 107, 147, 218, 5, 96, 50, 0, 0, 0,
    1, 0, 1, 97, 1, 0, 0, 0, 1, 49,
];

/// The body of the record behind it that deletes a.
pub const SECOND_BODY: [u8; 52] = [
    0, 0, 0, 8, 0, 0, 0, 0, 0, 0, 0, 1, 188, 41, 119, 34, 158, 136, 218, 116, 168, 77, 175, 33,
    255, 95, 37, 34, 32, 109, 91, 30, 91, 164, 5, 241, 34, 242, 77, 57, 235, 171, 190, 179, 0, 0,
    0, 1, 0, 1, 97, 0,
];

/// A sector of these bytes, and zeros behind them.
fn sector_of(front: &[u8]) -> Sector {
    let mut sector = [0; 512];
    for (byte, given) in sector.iter_mut().zip(front) {
        *byte = *given;
    }
    sector
}

/// Writes a sector of these bytes, and zeros behind them, where there is such a sector.
fn write<R: Abort + AllocGlobal>(rt: &R, device: &mut MemSectors, at: u64, front: &[u8]) {
    if at < device.count() {
        device.write(at, &sector_of(front)).expect(rt, "written");
    }
}

#[test]
fn bytes_of_two_records(rt: HostRuntime) {
    let mut log = empty_log(&rt, 8);
    let first = put(&rt, b"a", b"1");
    assert_eq!(rt; payload_len(&first), 13);
    assert_eq!(rt; append(&rt, &mut log, &first), 0);
    assert_eq!(rt; append(&rt, &mut log, &delete(&rt, b"a")), 1);
    assert_eq!(rt;
        (log.records(), log.used(), log.is_stopped()),
        (2, 6, false)
    );
    let mut device = log.into_device();
    let open = sector_of(&[1]);
    for (at, wanted) in [
        (0, sector_of(b"SSIKVLG2".as_slice())),
        (1, open),
        (2, sector_of(&FIRST_BODY)),
        (3, open),
        (4, sector_of(&SECOND_BODY)),
        (5, [0; 512]),
        (6, [0; 512]),
        (7, [0; 512]),
    ] {
        assert!(rt; content(&rt, &mut device, at) == wanted, "sector {at}");
    }
    let (log, map) = opened(&rt, device);
    assert_eq!(rt; (log.records(), log.used(), map.len()), (2, 6, 0));
}

#[test]
fn log_full(rt: HostRuntime) {
    let mut log = empty_log(&rt, 4);
    assert!(rt; log.room(468));
    assert!(rt; !log.room(469));
    assert_eq!(rt; append(&rt, &mut log, &put(&rt, b"a", b"1")), 0);
    assert!(rt; !log.room(0));
    let refused = log.append(rt.alloc(), &put(&rt, b"a", b"2"));
    assert_eq!(rt; refused, Err(LogFault::Full));
    assert_eq!(rt;
        (log.records(), log.used(), log.is_stopped()),
        (1, 4, false)
    );
    let (log, map) = opened(&rt, log.into_device());
    assert_eq!(rt; (log.records(), log.used()), (1, 4));
    assert!(rt; has(&map, b"a", b"1"));
    let mut device = log.into_device();
    write(&rt, &mut device, 3, &[1]);
    match Log::open(rt.alloc(), device) {
        Ok(_) => assert!(rt; false, "opened"),
        Err(fault) => assert_eq!(rt; fault, LogFault::Damaged(1)),
    }
}

/// A record of the longest value has 33 body sectors: it takes a device of 36 sectors to the end, and does not fit one of 35.
#[test]
fn large_values(rt: HostRuntime) {
    let alloc = rt.alloc();
    let mut value = Vec::new(alloc);
    value.resize(VALUE_MAX, b'v').expect(&rt, "memory");
    let writes = put(&rt, b"a", &value);
    let refused = empty_log(&rt, 35).append(alloc, &writes);
    assert_eq!(rt; refused, Err(LogFault::Full));
    let mut log = empty_log(&rt, 36);
    assert_eq!(rt; append(&rt, &mut log, &writes), 0);
    assert_eq!(rt; log.used(), 36);
    let (_, map) = opened(&rt, log.into_device());
    assert!(rt; has(&map, b"a", &value));
}

/// An empty log of format 1 is reported as such; a head of no format isn't a log.
#[test]
fn old_format(rt: HostRuntime) {
    let alloc = rt.alloc();
    for (head, expected) in [
        (b"SSIKVLG1".as_slice(), LogFault::OldFormat),
        (b"SSIKVLG3".as_slice(), LogFault::NotALog),
    ] {
        let mut device = MemSectors::new(alloc, 2).expect(&rt, "memory");
        write(&rt, &mut device, 0, head);
        match Log::open(alloc, device) {
            Ok(_) => assert!(rt; false, "opened"),
            Err(fault) => assert_eq!(rt; fault, expected),
        }
    }
}
