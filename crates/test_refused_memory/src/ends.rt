//! What a store is left with.
ghost use Rattle.std.specs.Prelude.{◌≡◌, IfSome, Some, slice_get};
ghost use Rattle.sector.specs.Slots.{image};

use engine::Engine;
use sector::{MemSectors, SECTOR_SIZE, Sector, Sectors};
use std::io::{self, Write};

/// Which of the sessions from 1 to 9 have an open transaction. Each is aborted.
pub(crate) fn open_sessions(engine: &mut Engine<MemSectors>) -> [bool; 9] {
    let mut open = [false; 9];
    for (i, is_open) in open.iter_mut().enumerate() {
        *is_open = engine.abort(i as u64 + 1).is_ok();
    }
    open
}

/// Writes which sessions have an open transaction, each sector that isn't all zeros, and a line that ends them.
pub(crate) fn write_end(
    open: [bool; 9],
    mut device: MemSectors,
    answer: &mut Vec<u8>,
) -> io::Result<()> {
    writeln!(answer, "open {open:?}")?;
    for at in 0..device.count() {
        if let Some(sector) = sector_at(&mut device, at) {
            write_sector(at, &sector, answer)?;
        }
    }
    answer.write_all(b"end\n")
}

/// What a sector holds; nothing where there is no such sector, or the device fails.
fn sector_at(device: &mut MemSectors, at: u64) -> Option<Sector>
    ensures { IfSome result (λ s. slice_get (image device.old) at ≡ Some s) }
{
    if at >= device.count() {
        return None;
    }
    let mut sector = [0; SECTOR_SIZE];
    match device.read(at, &mut sector) {
        Ok(()) => Some(sector),
        Err(_fault) => None,
    }
}

/// Writes a sector's bytes up to the last that isn't zero, if there is one.
fn write_sector(at: u64, sector: &Sector, answer: &mut Vec<u8>) -> io::Result<()> {
    match sector.iter().rposition(|byte| *byte != 0) {
        Some(last) => writeln!(answer, "sector {at} {:?}", &sector[..=last]),
        None => Ok(()),
    }
}
