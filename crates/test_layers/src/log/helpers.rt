//! Write sets, logs and devices for the tests.
ghost use Rattle.model.specs.Bounds.{value_max};
ghost use Rattle.std.specs.Prelude.{◌≡◌, ◌≤◌, length, IfSome, option_map};
ghost use Rattle.model.specs.Key.{IsValue};
ghost use Rattle.commit_log.specs.Format.{current};
ghost use Rattle.commit_log.specs.RecordFormat.{IsWriteSet};

use commit_log::{Log, format};
use model::{Key, KeyRef, Map, Write};
use sector::{MemSectors, Sector, Sectors};
use std::process::Abort;

/// The write set that puts this value.
pub fn put<R: Abort + AllocGlobal>(rt: &R, key: &[u8], value: &[u8]) -> Vec<Write>
    requires { length value.now ≤ value_max }
    ensures { IsWriteSet current result.items }
{
    let value = value.to_vec(rt.alloc()).expect(rt, "memory");
    write_set(rt, key, Some(value))
}

/// The write set that deletes the key.
pub fn delete<R: Abort + AllocGlobal>(rt: &R, key: &[u8]) -> Vec<Write>
    ensures { IsWriteSet current result.items }
{
    write_set(rt, key, None)
}

fn write_set<R: Abort + AllocGlobal>(rt: &R, key: &[u8], value: Option<Vec<u8>>) -> Vec<Write>
    requires { IfSome (option_map (λ v. v.items) value) IsValue }
    ensures { IsWriteSet current result.items }
{
    let key = KeyRef::new(key).expect(rt, "a key");
    let key = Key::from_ref(rt.alloc(), key).expect(rt, "memory");
    let mut writes = Vec::new(rt.alloc());
    writes.push(Write::new(key, value)).expect(rt, "memory");
    writes
}

/// Has the key this value in the map?
pub fn has(map: &Map, key: &[u8], value: &[u8]) -> bool {
    match KeyRef::new(key) {
        Some(key) => map.get(key) == Some(value),
        None => false,
    }
}

/// An empty log on a device of this many sectors.
pub fn empty_log<R: Abort + AllocGlobal>(rt: &R, count: u64) -> Log<MemSectors> {
    let mut device = MemSectors::new(rt.alloc(), count).expect(rt, "memory");
    format(&mut device).expect(rt, "an empty log");
    opened(rt, device).0
}

/// The log that the device holds, and its map.
pub fn opened<D: Sectors, R: Abort + AllocGlobal>(rt: &R, device: D) -> (Log<D>, Map) {
    Log::open(rt.alloc(), device).expect(rt, "a log")
}

/// The index of the record that is appended.
pub fn append<D: Sectors, R: Abort + AllocGlobal>(rt: &R, log: &mut Log<D>, writes: &[Write]) -> u64
    requires { IsWriteSet current writes.now }
{
    log.append(rt.alloc(), writes).expect(rt, "appended")
}

/// What a sector holds, and 255s where there is none.
pub fn content<D: Sectors, R: Abort + AllocGlobal>(rt: &R, device: &mut D, at: u64) -> Sector {
    let mut sector = [255; 512];
    if at < device.count() {
        device.read(at, &mut sector).expect(rt, "read");
    }
    sector
}

/// What a crash leaves in an unsettled sector.
#[derive(Clone, Copy, Debug, PartialEq, Eq)]
pub enum Fill {
    Zeros,
    Ones,
    Highest,
    Old,
    New,
}

pub const FILLS: [Fill; 5] = [Fill::Zeros, Fill::Ones, Fill::Highest, Fill::Old, Fill::New];

impl Fill {
    fn content(self, settled: &Sector, written: &Sector) -> Sector {
        match self {
            Fill::Zeros => [0; 512],
            Fill::Ones => [1; 512],
            Fill::Highest => [255; 512],
            Fill::Old => *settled,
            Fill::New => *written,
        }
    }
}

/// What a crash leaves of the device.
pub fn crashed(device: MemSectors, fill: Fill) -> MemSectors
    ensures { result.failures ≡ 0 }
{
    device.crash(|_, settled, written| fill.content(settled, written))
}
