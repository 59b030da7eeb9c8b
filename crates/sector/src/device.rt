//! The trait of devices. Its clauses are the sector model: what reads give, and what a crash may leave.
ghost use Rattle.std.specs.Prelude.{◌≡◌, ◌≢◌, ◌<◌, ◌≤◌, ◌/◌, ℕ, List, length, OnOk, OnErr};
ghost use Rattle.sector.specs.Counts.{AreCounted, IsCounted, KeepsCounts, RoseByOne};
ghost use Rattle.sector.specs.SectorModel.{AreWithin, FollowsBytes, FollowsWrite, LeavesNoMore, MightRead};
ghost use Rattle.sector.specs.SectorModel.{ReadsBytes, ReadsNoMore, ReadsNoMoreOutside, Syncs, TimeGoesOn};

use thiserror::Error;

/// The bytes of a sector.
pub const SECTOR_SIZE: usize = 512;

/// The content of a sector.
pub type Sector = [u8; 512];

/// A read, a write or a sync of the device failed.
#[derive(Clone, Copy, Debug, PartialEq, Eq, Error)]
#[error("the device failed")]
pub struct DeviceFault;

/// A row of sectors, each of 512 bytes.
///
/// A written sector is unsettled until a sync succeeds: a crash may leave any 512 bytes in it, and leaves every other sector as it
/// was. A crash may come at any moment, within a call too. A write that failed counts as written, and reads of its sector may then
/// give anything. A sync that fails settles nothing.
///
/// Clauses on reads and crashes bound from above what may be found, and are said only of a type that keeps this model.
pub trait Sectors: Drop {
    /// How many sectors there are. No call changes it.
    ghost size: { Self → ℕ };

    /// How many reads, writes and syncs have failed.
    ghost failures: { Self → ℕ };

    /// How many syncs were asked for: a u64, which stays at its greatest value.
    ghost syncs: { Self → ℕ };

    /// The devices of this type keep the sector model.
    ghost keeps_model: { Type 0 };

    /// What a read of a sector may give.
    ghost may_read: { Self → ℕ → List ℕ → Type 0 };

    /// The images that a crash now may leave.
    ghost may_leave: { Self → List (List ℕ) → Type 0 };

    /// The moment, as a number that doesn't fall.
    ghost moment: { Self → ℕ };

    /// The images that a crash at some moment from that one on may have left, during a call or between two.
    ghost left_since: { Self → ℕ → List (List ℕ) → Type 0 };

    /// How many sectors there are. It makes no call of the device.
    fn count(&self) -> u64
        ensures { result ≡ size self.now };

    /// Reads a sector. After a `DeviceFault` the bytes of `into` may be any. Takes no memory.
    fn read(&mut self, at: u64, into: &mut Sector) -> Result<(), DeviceFault>
        requires { at < size self.old }
        ensures counts { KeepsCounts size syncs self.old self.new }
        ensures failures { IsCounted result (failures self.old) (failures self.new) }
        ensures gives { keeps_model → OnOk result (may_read self.old at into.new) }
        ensures reads { keeps_model → ReadsNoMore (may_read self.old) (may_read self.new) }
        ensures crash { keeps_model → LeavesNoMore (may_leave self.old) (may_leave self.new) }
        ensures time { keeps_model → TimeGoesOn moment left_since self.old self.new (may_leave self.new) };

    /// Writes a sector. Until a sync succeeds a crash may leave anything in it, and after a `DeviceFault` a read of it may give
    /// anything. Takes no memory.
    fn write(&mut self, at: u64, from: &Sector) -> Result<(), DeviceFault>
        requires { at < size self.old }
        ensures counts { KeepsCounts size syncs self.old self.new }
        ensures failures { IsCounted result (failures self.old) (failures self.new) }
        ensures written { keeps_model → OnOk result ((s : List ℕ) → may_read self.new at s → s ≡ from.now) }
        ensures others { keeps_model → (i : ℕ) (s : List ℕ) → i ≢ at → may_read self.new i s → may_read self.old i s }
        ensures crash { keeps_model → FollowsWrite at (may_leave self.old) (may_leave self.new) }
        ensures time { keeps_model → TimeGoesOn moment left_since self.old self.new (may_leave self.new) };

    /// Reads whole sectors, as calls of `read` one after the other until one fails. After a `DeviceFault` the bytes of `into` may be
    /// any. Takes no memory.
    fn read_sectors(&mut self, at: u64, into: &mut [u8]) -> Result<(), DeviceFault>
        requires { AreWithin (size self.old) at into.old }
        ensures counts { KeepsCounts size syncs self.old self.new }
        ensures failures { AreCounted (length into.old / SECTOR_SIZE) result (failures self.old) (failures self.new) }
        ensures gives { keeps_model
            → OnOk result (MightRead (may_read self.old) at (length into.old / SECTOR_SIZE) into.new) }
        ensures reads { keeps_model → ReadsNoMore (may_read self.old) (may_read self.new) }
        ensures crash { keeps_model → LeavesNoMore (may_leave self.old) (may_leave self.new) }
        ensures time { keeps_model → TimeGoesOn moment left_since self.old self.new (may_leave self.old) }
    {
        for k in 0..into.len() / SECTOR_SIZE {
            let mut sector = [0; 512];
            self.read(at + k as u64, &mut sector)?;
            into[512 * k..512 * k + 512].copy_from_slice(&sector);
        }
        Ok(())
    }

    /// Writes whole sectors, as calls of `write` one after the other until one fails. Until a sync succeeds a crash may leave anything in
    /// each of them, and after a `DeviceFault` a read of one may give anything. Takes no memory.
    fn write_sectors(&mut self, at: u64, from: &[u8]) -> Result<(), DeviceFault>
        requires { AreWithin (size self.old) at from.now }
        ensures counts { KeepsCounts size syncs self.old self.new }
        ensures failures { AreCounted (length from.now / SECTOR_SIZE) result (failures self.old) (failures self.new) }
        ensures written { keeps_model → OnOk result (ReadsBytes (may_read self.new) at from.now) }
        ensures others { keeps_model
            → ReadsNoMoreOutside at (length from.now / SECTOR_SIZE) (may_read self.old) (may_read self.new) }
        ensures crash { keeps_model
            → LeavesNoMore (FollowsBytes at from.now (may_leave self.old)) (may_leave self.new) }
        ensures time { keeps_model
            → TimeGoesOn moment left_since self.old self.new (FollowsBytes at from.now (may_leave self.old)) }
    {
        for k in 0..from.len() / SECTOR_SIZE {
            let mut sector = [0; 512];
            sector.copy_from_slice(&from[512 * k..512 * k + 512]);
            self.write(at + k as u64, &sector)?;
        }
        Ok(())
    }

    /// Settles every sector: from then on a crash leaves what a read gives. A `DeviceFault` settles nothing. Takes no memory.
    fn sync(&mut self) -> Result<(), DeviceFault>
        ensures size { size self.new ≡ size self.old }
        ensures syncs { RoseByOne (syncs self.old) (syncs self.new) }
        ensures failures { IsCounted result (failures self.old) (failures self.new) }
        ensures settles { keeps_model → OnOk result (Syncs size may_read may_leave self.old self.new) }
        ensures reads { keeps_model → OnErr result (ReadsNoMore (may_read self.old) (may_read self.new)) }
        ensures crash { keeps_model → LeavesNoMore (may_leave self.old) (may_leave self.new) }
        ensures time { keeps_model → TimeGoesOn moment left_since self.old self.new (may_leave self.new) };

    /// A crash leaves every sector.
    ghost leaves_all: { keeps_model → (d : Self) (c : List (List ℕ)) → may_leave d c → length c ≡ size d };

    /// A crash now is one since an earlier moment.
    ghost counts_now: { keeps_model → (d : Self) (t : ℕ) (c : List (List ℕ)) → t ≤ moment d → may_leave d c
        → left_since d t c };

    /// A crash since this moment leaves what a crash now may leave.
    ghost only_now: { keeps_model → (d : Self) (c : List (List ℕ)) → left_since d (moment d) c → may_leave d c };
}
