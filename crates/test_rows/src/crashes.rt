//! Three commits of one key each on 16 sectors, with a crash and a failure at each device call of theirs.
ghost use Rattle.std.specs.Prelude.{◌≤◌};

use crate::hub_store::HubStore;
use crate::side_by_side::{OPENING, empty_log, opened};
use crate::stored::EngineStore;
use crate::stores::{Decoding, Store, first_difference, reply_to};
use crate::worked::Line;
use commit_log::LogFault;
use engine::Engine;
use model::Memory;
use sector::{MemSectors, Sector, Sectors};
use sessions::Hub;
use std::alloc::Global;
use std::process::Abort;
use std::test::Fail;
use test_devices::Stopping;

const SECTORS: u64 = 16;

/// The device calls of a commit: writes of the body and of a closed gate, a sync, a write of the open gate, a sync.
const CALLS: u8 = 5;

static COMMITS: [[Line; 3]; 3] = [
    [("1 BEGIN", "+OK"), ("1 SET a 1", "+OK"), ("1 COMMIT", ":1")],
    [("1 BEGIN", "+OK"), ("1 SET b 1", "+OK"), ("1 COMMIT", ":2")],
    [("1 BEGIN", "+OK"), ("1 SET c 1", "+OK"), ("1 COMMIT", ":3")],
];

static BYSTANDER: [Line; 1] = [("9 BEGIN", "+OK")];

/// What is answered behind a fault, where the bystander began before the commits.
static STOPPED: [Line; 4] = [
    ("1 BEGIN", "-STORE stopped"),
    ("9 GET a", "$-1"),
    ("9 COMMIT", "-STORE stopped"),
    ("9 BEGIN", "-STORE stopped"),
];

/// All pairs of the map, by the number of commits that are found.
static FOUND: [&str; 4] = [
    "*0",
    "*2 $1 a $1 1",
    "*4 $1 a $1 1 $1 b $1 1",
    "*6 $1 a $1 1 $1 b $1 1 $1 c $1 1",
];

/// What a crash leaves in an unsettled sector.
#[derive(Clone, Copy, Debug)]
enum Fill {
    Zeros,
    Highest,
    Ones,
    Old,
    New,
}

const FILLS: [Fill; 5] = [Fill::Zeros, Fill::Highest, Fill::Ones, Fill::Old, Fill::New];

impl Fill {
    fn content(self, settled: &Sector, written: &Sector) -> Sector {
        match self {
            Fill::Zeros => [0; 512],
            Fill::Highest => [255; 512],
            Fill::Ones => [1; 512],
            Fill::Old => *settled,
            Fill::New => *written,
        }
    }
}

/// Is the commit found that is under way, where so many of its device calls have ended? Its gate is unsettled from within the fourth
/// call to the end of the fifth, and the record stands where byte 0 of the gate is 1.
fn is_found(ended: u8, within_next: bool, fill: Fill) -> bool {
    match fill {
        Fill::Ones | Fill::New => ended == 4 || ended == 3 && within_next,
        Fill::Zeros | Fill::Highest | Fill::Old => false,
    }
}

/// Commits until a reply isn't the commit's number: how many are acknowledged, and whether the other reply reports a fault.
fn commit_all<S: Store>(alloc: Global, store: &mut S) -> Result<(usize, bool), Memory> {
    for (i, lines) in COMMITS.iter().enumerate() {
        if let Some((_, reply)) = first_difference(alloc, store, lines)? {
            return Ok((i, reply.as_str() == "-STORE fault"));
        }
    }
    Ok((COMMITS.len(), false))
}

/// Commits until a fault: how many are acknowledged, where the store has then stopped.
fn commit_to_fault<S: Store>(alloc: Global, store: &mut S) -> Result<Option<usize>, Memory> {
    let begun = first_difference(alloc, store, &BYSTANDER)?.is_none();
    let (count, is_fault) = commit_all(alloc, store)?;
    let stopped = first_difference(alloc, store, &STOPPED)?.is_none();
    Ok(if begun && is_fault && stopped {
        Some(count)
    } else {
        None
    })
}

/// How many of the commits the store has.
fn found_by<S: Store>(alloc: Global, store: &mut S) -> Result<usize, Fail> {
    let _begun = reply_to(alloc, store, "1 BEGIN")?;
    let pairs = reply_to(alloc, store, "1 RANGE \0 \"\" 9")?;
    for (i, expected) in FOUND.iter().enumerate() {
        if pairs.as_str() == *expected {
            return Ok(i);
        }
    }
    Err(Fail::new("other pairs"))
}

/// How many of the commits are found after a crash.
fn found(alloc: Global, device: MemSectors, fill: Fill) -> Result<usize, Fail> {
    let left = device.crash(|_, settled, written| fill.content(settled, written));
    let mut store = opened(alloc, left, true)?;
    found_by(alloc, &mut store)
}

/// A store over what a device holds, which gives the device back.
trait OverDevice<D: Sectors>: Store + Sized {
    fn over(alloc: Global, device: D) -> Result<Self, LogFault>;

    fn into_device(self) -> D;
}

impl<D: Sectors> OverDevice<D> for Decoding<EngineStore<D>> {
    fn over(alloc: Global, device: D) -> Result<Self, LogFault> {
        opened(alloc, device, true)
    }

    fn into_device(self) -> D {
        self.store.engine.into_device()
    }
}

impl<D: Sectors> OverDevice<D> for HubStore<D> {
    fn over(alloc: Global, device: D) -> Result<Self, LogFault> {
        let engine = Engine::open(alloc, device)?;
        Ok(HubStore::new(Hub::new(alloc, engine)))
    }

    fn into_device(self) -> D {
        self.hub.into_engine().into_device()
    }
}

/// How many commits are acknowledged, and how many are found, where the device stops after so many calls.
fn stopped_after<S: OverDevice<Stopping>>(
    alloc: Global,
    calls: u8,
    fill: Fill,
) -> Result<(usize, usize), Fail> {
    let device = Stopping::new(empty_log(alloc, SECTORS)?, OPENING + u64::from(calls));
    let mut store = S::over(alloc, device)?;
    let outcome = commit_all(alloc, &mut store);
    let device = store.into_device().device;
    let (count, _) = outcome?;
    Ok((count, found(alloc, device, fill)?))
}

/// The same where this device call fails, and a crash comes once the store has reported so.
fn failed_at<S: OverDevice<MemSectors>>(
    alloc: Global,
    call: u8,
    fill: Fill,
) -> Result<(usize, usize), Fail> {
    let mut device = empty_log(alloc, SECTORS)?;
    device.fail_call(OPENING + u64::from(call));
    let mut store = S::over(alloc, device)?;
    let outcome = commit_to_fault(alloc, &mut store);
    let device = store.into_device();
    let count = outcome?.ok_or("no stop by a fault")?;
    Ok((count, found(alloc, device, fill)?))
}

/// What is expected of a crash after so many device calls, or within the next one: how many commits are acknowledged, and how many are
/// found.
fn expected_at(ended: u8, within_next: bool, fill: Fill) -> (usize, usize) {
    let count = usize::from(ended / CALLS);
    let more = usize::from(is_found(ended % CALLS, within_next, fill));
    (count, count.saturating_add(more))
}

/// Runs a crash after so many device calls.
fn expect_after<S: OverDevice<Stopping>>(
    rt: &impl Abort,
    alloc: Global,
    ended: u8,
) -> Result<(), Fail> {
    for fill in FILLS {
        let run = stopped_after::<S>(alloc, ended, fill)?;
        assert_eq!(rt;
            run,
            expected_at(ended, false, fill),
            "after {ended} {fill:?}"
        );
    }
    Ok(())
}

/// Runs a crash within the next device call, which fails.
fn expect_within<S: OverDevice<MemSectors>>(
    rt: &impl Abort,
    alloc: Global,
    ended: u8,
) -> Result<(), Fail> {
    for fill in FILLS {
        let run = failed_at::<S>(alloc, ended.saturating_add(1), fill)?;
        assert_eq!(rt;
            run,
            expected_at(ended, true, fill),
            "within the next after {ended} {fill:?}"
        );
    }
    Ok(())
}

#[test]
fn crash_after_each_device_call(rt: HostRuntime) -> Result<(), Fail> {
    for ended in 0..16 {
        expect_after::<Decoding<EngineStore<Stopping>>>(&rt, rt.alloc(), ended)?;
    }
    Ok(())
}

#[test]
fn crash_of_a_hub_after_each_device_call(rt: HostRuntime) -> Result<(), Fail> {
    for ended in 0..16 {
        expect_after::<HubStore<Stopping>>(&rt, rt.alloc(), ended)?;
    }
    Ok(())
}

#[test]
fn failure_of_each_device_call(rt: HostRuntime) -> Result<(), Fail> {
    for ended in 0..15 {
        expect_within::<Decoding<EngineStore<MemSectors>>>(&rt, rt.alloc(), ended)?;
    }
    Ok(())
}

#[test]
fn failure_of_each_device_call_of_a_hub(rt: HostRuntime) -> Result<(), Fail> {
    for ended in 0..15 {
        expect_within::<HubStore<MemSectors>>(&rt, rt.alloc(), ended)?;
    }
    Ok(())
}

#[test]
fn failure_of_each_call_of_the_opening(rt: HostRuntime) -> Result<(), Fail> {
    for call in 1..OPENING + 1 {
        let mut device = empty_log(rt.alloc(), SECTORS)?;
        device.fail_call(call);
        assert_eq!(rt;
            Engine::open(rt.alloc(), device)
                .err()
                .map(|unopened| unopened.fault),
            Some(LogFault::Device)
        );
    }
    Ok(())
}
