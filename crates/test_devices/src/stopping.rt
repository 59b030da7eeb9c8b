//! A device in memory that fails from a chosen call on.
ghost use Rattle.std.specs.Prelude.{◌≡◌, length};
ghost use Rattle.sector.specs.Counts.{IsCounted};

use sector::{DeviceFault, MemSectors, Sector, Sectors};

/// A device that is stopped after so many calls: each later one is a `DeviceFault`, and none reaches what is under it. `count` is no such
/// call. Takes no memory.
#[derive(Drop)]
pub struct Stopping {
    /// What the calls have reached.
    pub device: MemSectors,
    calls_left: u64,
    failures: u64,
    /// How many syncs were asked for.
    pub syncs: u64,
}

impl Stopping {
    /// The device, which answers `calls` calls more.
    pub fn new(device: MemSectors, calls: u64) -> Stopping {
        Stopping {
            device,
            calls_left: calls,
            failures: 0,
            syncs: 0,
        }
    }

    fn is_running(&mut self) -> bool
        ensures device { self.new.device ≡ self.old.device }
        ensures failures { self.new.failures ≡ self.old.failures }
        ensures syncs { self.new.syncs ≡ self.old.syncs }
    {
        let runs = self.calls_left > 0;
        self.calls_left = self.calls_left.saturating_sub(1);
        runs
    }

    fn reported(&mut self, outcome: Result<(), DeviceFault>) -> Result<(), DeviceFault>
        ensures device { self.new.device ≡ self.old.device }
        ensures counted { IsCounted result self.old.failures self.new.failures }
        ensures syncs { self.new.syncs ≡ self.old.syncs }
    {
        if outcome.is_ok() && self.failures < u64::MAX {
            return Ok(());
        }
        self.failures = self.failures.saturating_add(1);
        Err(DeviceFault)
    }
}

impl Sectors for Stopping {
    ghost size = { λ s. length s.device.slots.items };

    ghost failures = { λ s. s.failures };

    ghost syncs = { λ s. s.syncs };

    ghost keeps_model = { ⊥ };

    ghost may_read = { λ s i sector. Unit {0} };

    ghost may_leave = { λ s c. Unit {0} };

    ghost moment = { λ s. 0 };

    ghost left_since = { λ s t c. Unit {0} };

    ghost leaves_all = { λ keeps s c left. absurd keeps };

    ghost counts_now = { λ keeps s t c le left. tt };

    ghost only_now = { λ keeps s c left. tt };

    fn count(&self) -> u64 {
        self.device.count()
    }

    fn read(&mut self, at: u64, into: &mut Sector) -> Result<(), DeviceFault> {
        if !self.is_running() {
            return self.reported(Err(DeviceFault));
        }
        let outcome = self.device.read(at, into);
        self.reported(outcome)
    }

    fn write(&mut self, at: u64, from: &Sector) -> Result<(), DeviceFault> {
        if !self.is_running() {
            return self.reported(Err(DeviceFault));
        }
        let outcome = self.device.write(at, from);
        self.reported(outcome)
    }

    fn sync(&mut self) -> Result<(), DeviceFault> {
        self.syncs = self.syncs.saturating_add(1);
        if !self.is_running() {
            return self.reported(Err(DeviceFault));
        }
        let outcome = self.device.sync();
        self.reported(outcome)
    }
}
