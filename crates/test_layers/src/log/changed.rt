//! Each byte of a log changed.
ghost use Rattle.std.specs.Prelude.{◌≡◌, ◌%◌, length, OnOk};

use crate::log::helpers::{append, content, delete, empty_log, has, put};
use commit_log::{Log, LogFault};
use sector::MemSectors;
use std::process::Abort;

/// What opening answers: so many records, the first of which puts a to 1 and the second of which deletes a, or a fault.
#[derive(Clone, Copy, Debug, PartialEq, Eq)]
enum Answer {
    Records(u64),
    Fault(LogFault),
    /// A map that isn't that of its records.
    WrongMap,
}

fn opened<R: Abort + AllocGlobal>(rt: &R, image: &[u8]) -> Answer
    requires { length image.now % 512 ≡ 0 }
{
    let device = MemSectors::from_image(rt.alloc(), image).expect(rt, "memory");
    match Log::open(rt.alloc(), device) {
        Err(fault) => Answer::Fault(fault),
        Ok((log, map)) => {
            if (log.records() == 1) == has(&map, b"a", b"1") {
                Answer::Records(log.records())
            } else {
                Answer::WrongMap
            }
        }
    }
}

/// The bytes of a log of 8 sectors with the two records.
fn two_records<R: Abort + AllocGlobal>(rt: &R) -> [u8; 4096] {
    let mut log = empty_log(rt, 8);
    append(rt, &mut log, &put(rt, b"a", b"1"));
    append(rt, &mut log, &delete(rt, b"a"));
    let mut device = log.into_device();
    let mut image = [0; 4096];
    for (at, sector) in image.chunks_exact_mut(512).enumerate() {
        sector.copy_from_slice(&content(rt, &mut device, at as u64));
    }
    image
}

/// What is wanted where this byte is one higher.
fn wanted(place: usize) -> Answer {
    match (place / 512, place % 512) {
        (0, _) => Answer::Fault(LogFault::NotALog),
        (1, 0) => Answer::Records(0),
        (2, _) => Answer::Fault(LogFault::Damaged(0)),
        (3, 0) => Answer::Records(1),
        (4, _) => Answer::Fault(LogFault::Damaged(1)),
        (5, 0) => Answer::Fault(LogFault::Damaged(2)),
        _ => Answer::Records(2),
    }
}

#[test]
fn every_byte_of_the_log_changed(rt: HostRuntime) {
    let mut image = two_records(&rt);
    let mut unchanged = 0u64;
    for place in 0..4096 {
        let byte = image[place];
        image[place] = byte.wrapping_add(1);
        let answer = opened(&rt, &image);
        assert_eq!(rt; answer, wanted(place), "at byte {place}");
        if answer == Answer::Records(2) {
            unchanged = unchanged.saturating_add(1);
        }
        image[place] = byte;
    }
    assert_eq!(rt; unchanged, 2557);
}
