//! The order in which a record becomes durable: its body and the next closed gate, a sync, its open gate, a sync.
ghost use Rattle.std.specs.Prelude.{◌≡◌, ◌<◌, ◌≤◌, ◌+◌, ◌/◌, length};
ghost use Rattle.commit_log.specs.Reading.{CountsCalls};
ghost use Rattle.commit_log.specs.RecordFormat.{open_gate, closed_gate};
ghost use Rattle.commit_log.specs.LogState.{AtOk, FitsBehind, HoldsBoth, LeavesEither, LeavesStaged, OfNextRecord};
ghost use Rattle.commit_log.specs.LogState.{OfStaged, OnlyWrites};

use sector::{DeviceFault, SECTOR_SIZE, Sector, Sectors};

pub fn closed_gate() -> Sector
    ensures { result ≡ closed_gate }
{
    [0; 512]
}

pub fn open_gate() -> Sector
    ensures { result ≡ open_gate }
{
    let mut gate = [0; 512];
    gate[0] = 1;
    gate
}

/// Writes a record's body and a closed gate behind it, and settles them. The record's own gate stays as it is.
fn stage<D: Sectors>(device: &mut D, gate: u64, body: &[u8]) -> Result<(), DeviceFault>
    requires { FitsBehind (D.size device.old) gate body.now }
    ensures calls { CountsCalls D.Sectors device.old device.new result }
    ensures syncs { D.syncs device.new ≤ D.syncs device.old + 1 }

    // At `Ok` each crash leaves the record behind its gate.
    ensures staged { D.keeps_model
        → OfNextRecord D.Sectors device.old gate body.now (AtOk result (LeavesStaged D.Sectors device.new)) }
    ensures any_moment { D.keeps_model
        → OfNextRecord D.Sectors device.old gate body.now (LeavesEither D.Sectors device.old device.new) }

    // No sector is written but the body's and the one behind it.
    ensures alone { D.keeps_model
        → OnlyWrites D.Sectors (gate + 1) (length body.now / SECTOR_SIZE + 1) device.old device.new }
{
    let next = gate + 1 + (body.len() / SECTOR_SIZE) as u64;
    device.write_sectors(gate + 1, body)?;
    device.write(next, &closed_gate())?;
    device.sync()?;
    Ok(())
}

/// Opens the gate of a record that was staged, and settles it.
fn open_staged<D: Sectors>(device: &mut D, gate: u64) -> Result<(), DeviceFault>
    requires { gate < D.size device.old }
    ensures calls { CountsCalls D.Sectors device.old device.new result }
    ensures syncs { D.syncs device.new ≤ D.syncs device.old + 1 }
    ensures acknowledged { D.keeps_model
        → OfStaged D.Sectors device.old gate (AtOk result (HoldsBoth D.Sectors device.new)) }
    ensures any_moment { D.keeps_model
        → OfStaged D.Sectors device.old gate (LeavesEither D.Sectors device.old device.new) }
    ensures alone { D.keeps_model → OnlyWrites D.Sectors gate 1 device.old device.new }
{
    device.write(gate, &open_gate())?;
    device.sync()?;
    Ok(())
}

/// Writes a record's body and a closed gate behind it, and opens its gate once these are settled.
pub fn write_record<D: Sectors>(device: &mut D, gate: u64, body: &[u8]) -> Result<(), DeviceFault>
    requires { FitsBehind (D.size device.old) gate body.now }
    ensures calls { CountsCalls D.Sectors device.old device.new result }
    ensures syncs { D.syncs device.new ≤ D.syncs device.old + 2 }

    // At `Ok` reads give the log with the record, and a crash leaves it.
    ensures acknowledged { D.keeps_model
        → OfNextRecord D.Sectors device.old gate body.now (AtOk result (HoldsBoth D.Sectors device.new)) }

    // A crash at any moment of the call leaves the log with the record or without it.
    ensures any_moment { D.keeps_model
        → OfNextRecord D.Sectors device.old gate body.now (LeavesEither D.Sectors device.old device.new) }

    // No sector is written but the record's and the closed gate behind it.
    ensures alone { D.keeps_model
        → OnlyWrites D.Sectors gate (length body.now / SECTOR_SIZE + 2) device.old device.new }
{
    stage(device, gate, body)?;
    open_staged(device, gate)?;
    Ok(())
}
