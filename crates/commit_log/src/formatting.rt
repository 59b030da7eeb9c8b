//! Makes a device an empty log: first a closed gate, then the head.
ghost use Rattle.std.specs.Prelude.{◌≡◌, ◌≢◌, ◌<◌, ◌≤◌, ◌↔◌, [], List, ℕ, OnOk, IsErrOf, IfErr};
ghost use Rattle.sector.specs.SectorModel.{LeavesOnly};
ghost use Rattle.commit_log.specs.LogState.{HoldsLog, IsBeingMade, OnlyFormats};
ghost use Rattle.commit_log.specs.Reading.{CountsCalls, CountsFaults};

use crate::faults::LogFault;
use crate::formats::CURRENT;
use crate::read::head_sector;
use crate::record::closed_gate;
use sector::{DeviceFault, Sectors};

/// Makes a device an empty log: it writes a closed gate to sector 1, syncs, writes the head to sector 0, and syncs.
///
/// `Full` exactly where there are fewer than two sectors; the device is then not called. `Device` exactly where a call of the device
/// failed; what the device holds is then open, and it may be formatted again. Takes no memory.
pub fn format<D: Sectors>(device: &mut D) -> Result<(), LogFault>
    ensures full { IsErrOf result LogFault.Full ↔ (D.size device.old < 2) }
    ensures unchanged { IsErrOf result LogFault.Full → device.new ≡ device.old }
    ensures errors { IfErr result (λ e. e ≢ LogFault.Full → e ≡ LogFault.Device) }
    ensures calls { CountsFaults D.Sectors device.old device.new result }
    ensures formatted { D.keeps_model → OnOk result (HoldsLog D.Sectors device.new []) }

    // A crash at any moment of the call finds the head only where it finds the closed gate, and no other sector changed.
    ensures alone { D.keeps_model → OnlyFormats D.Sectors device.old device.new }
{
    if device.count() < 2 {
        return Err(LogFault::Full);
    }
    match write_head(device) {
        Ok(()) => Ok(()),
        Err(_) => Err(LogFault::Device),
    }
}

fn write_head<D: Sectors>(device: &mut D) -> Result<(), DeviceFault>
    requires { 2 ≤ D.size device.old }
    ensures calls { CountsCalls D.Sectors device.old device.new result }
    ensures formatted { D.keeps_model → OnOk result (HoldsLog D.Sectors device.new []) }
    // A crash at any moment of the call finds the head only where it finds the closed gate, and no other sector changed.
    ensures any_moment { D.keeps_model
        → LeavesOnly D.moment D.left_since device.old device.new (IsBeingMade (D.may_leave device.old)) }
    ensures others { D.keeps_model → (i : ℕ) (s : List ℕ) → 2 ≤ i → D.may_read device.new i s
        → D.may_read device.old i s }
{
    device.write(1, &closed_gate())?;
    device.sync()?;
    device.write(0, &head_sector(CURRENT))?;
    device.sync()?;
    Ok(())
}
