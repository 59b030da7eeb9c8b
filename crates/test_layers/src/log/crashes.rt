//! Crashes and failures at each device call.
ghost use Rattle.std.specs.Prelude.{◌≡◌, ◌≤◌, ◌<◌, ◌^◌};

use crate::log::helpers::{FILLS, Fill, append, crashed, empty_log, has, opened, put};
use commit_log::{Log, LogFault};
use sector::{MemSectors, Sectors};
use std::process::Abort;
use test_devices::Stopping;

/// The device calls that open a log of one record: a sync, and reads of the head, a gate, a body and a gate.
const OPENING: u64 = 5;

/// A device of 8 sectors with the record that puts a to 1.
fn one_record<R: Abort + AllocGlobal>(rt: &R) -> MemSectors
    ensures { result.failures ≡ 0 }
{
    let mut log = empty_log(rt, 8);
    append(rt, &mut log, &put(rt, b"a", b"1"));
    crashed(log.into_device(), Fill::New)
}

/// How many records there are, where the first puts a to 1 and the second b to 2.
fn records_on<R: Abort + AllocGlobal>(rt: &R, device: MemSectors) -> u64 {
    let (log, map) = opened(rt, device);
    let second = log.records() == 2;
    if has(&map, b"a", b"1") && second == has(&map, b"b", b"2") {
        log.records()
    } else {
        0
    }
}

/// The device after an append that puts b to 2, and may fail.
fn after_append<D: Sectors, R: Abort + AllocGlobal>(rt: &R, device: D) -> D {
    let (mut log, _) = opened(rt, device);
    let _index = log.append(rt.alloc(), &put(rt, b"b", b"2"));
    log.into_device()
}

/// How many records are found where the device stops after so many calls of the append that puts b to 2.
fn stopped_after<R: Abort + AllocGlobal>(rt: &R, calls: u64, fill: Fill) -> u64
    requires { calls < 2 ^ 32 }
{
    let stopping = Stopping::new(one_record(rt), OPENING + calls);
    records_on(rt, crashed(after_append(rt, stopping).device, fill))
}

/// How many records are found where the device stops within this call of it, the first being 1.
fn stopped_within<R: Abort + AllocGlobal>(rt: &R, call: u64, fill: Fill) -> u64
    requires { call < 2 ^ 32 }
{
    let mut device = one_record(rt);
    device.fail_call(OPENING + call);
    records_on(rt, crashed(after_append(rt, device), fill))
}

/// Each call of an opening fails in turn: the device that is given back holds the record.
#[test]
fn failure_of_each_call_of_an_opening(rt: HostRuntime) {
    for call in 1..OPENING + 1 {
        let mut device = one_record(&rt);
        device.fail_call(call);
        match Log::open_or_return(rt.alloc(), device) {
            Ok(_) => assert!(rt; false, "opened"),
            Err(unopened) => {
                assert_eq!(rt; unopened.fault, LogFault::Device);
                assert_eq!(rt; records_on(&rt, unopened.device), 1);
            }
        }
    }
}

/// The opening syncs once, and the append twice.
#[test]
fn syncs_of_an_append(rt: HostRuntime) {
    let device = after_append(&rt, Stopping::new(one_record(&rt), 100));
    assert_eq!(rt; device.syncs, 3);
}

/// The append writes the body at 4 and a closed gate at 5, syncs, opens the gate at 3, and syncs.
#[test]
fn crash_points_of_an_append(rt: HostRuntime) {
    for fill in FILLS {
        // The gate at 3 is unsettled from within its write on: its byte 0 tells.
        let opened = match fill {
            Fill::New | Fill::Ones => 2,
            Fill::Zeros | Fill::Highest | Fill::Old => 1,
        };
        for calls in 0..6 {
            let found = match calls {
                0..=3 => 1,
                4 => opened,
                _ => 2,
            };
            assert_eq!(rt;
                stopped_after(&rt, calls, fill),
                found,
                "{fill:?} after {calls}"
            );
        }
        for call in 1..6 {
            let found = if call < 4 { 1 } else { opened };
            assert_eq!(rt;
                stopped_within(&rt, call, fill),
                found,
                "{fill:?} within {call}"
            );
        }
    }
}

/// What three appends answered, and what is then found.
#[derive(Clone, Copy, Debug, PartialEq, Eq)]
struct Run {
    acknowledged: u64,
    faults: u64,
    refused: u64,
    found: u64,
}

/// Three appends of one key each on a device of 16 sectors, whose n-th call from the first append on fails.
fn three_appends<R: Abort + AllocGlobal>(rt: &R, n: u64, fill: Fill) -> Run
    requires { n < 2 ^ 32 }
{
    let mut device = crashed(empty_log(rt, 16).into_device(), Fill::New);
    device.fail_call(3 + n);
    let (mut log, _) = opened(rt, device);
    let mut run = Run {
        acknowledged: 0,
        faults: 0,
        refused: 0,
        found: 0,
    };
    for key in [b"a".as_slice(), b"b".as_slice(), b"c".as_slice()] {
        match log.append(rt.alloc(), &put(rt, key, b"1")) {
            Ok(_) => run.acknowledged = run.acknowledged.saturating_add(1),
            Err(LogFault::Device) => run.faults = run.faults.saturating_add(1),
            Err(LogFault::Stopped) => run.refused = run.refused.saturating_add(1),
            Err(_) => {}
        }
    }
    run.found = found_on(rt, crashed(log.into_device(), fill));
    run
}

/// How many of the three keys are found, and 99 where there are not so many records.
fn found_on<R: Abort + AllocGlobal>(rt: &R, device: MemSectors) -> u64 {
    let (log, map) = opened(rt, device);
    let mut found = 0u64;
    for key in [b"a".as_slice(), b"b".as_slice(), b"c".as_slice()] {
        if has(&map, key, b"1") {
            found = found.saturating_add(1);
        }
    }
    if found == log.records() { found } else { 99 }
}

#[test]
fn each_call_of_three_appends_fails(rt: HostRuntime) {
    for n in 1..16 {
        for fill in FILLS {
            let acknowledged = (n - 1) / 5;
            // Only in the last two calls of an append may its record be found.
            let late = (n - 1) % 5 > 2;
            let run = three_appends(&rt, n, fill);
            assert_eq!(rt; run.acknowledged, acknowledged, "{fill:?} at {n}");
            assert_eq!(rt;
                (run.faults, run.refused),
                (1, 2 - acknowledged),
                "{fill:?} at {n}"
            );
            let more = run.found.saturating_sub(acknowledged);
            assert!(rt;
                run.found >= acknowledged && more <= 1,
                "{fill:?} at {n}: {run:?}"
            );
            assert!(rt; late || more == 0, "{fill:?} at {n}: {run:?}");
        }
    }
    let run = three_appends(&rt, 16, Fill::Zeros);
    assert_eq!(rt; (run.acknowledged, run.found), (3, 3));
}
