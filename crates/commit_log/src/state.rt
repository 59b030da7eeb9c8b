//! What an opened log says of itself: its records, used sectors and room, and whether it has stopped.
ghost use Rattle.std.specs.Prelude.{◌≡◌, ◌<◌, ◌+◌, ◌↔◌, true, IsTrue};

use crate::encode::sectors_for;
use crate::log::Log;
use sector::Sectors;

impl<D: Sectors> Log<D> {
    ghost use Rattle.commit_log.specs.RecordFormat.{sectors_for};
    ghost use Rattle.commit_log.specs.LogState.{record_count, used_sectors, is_log_stopped, log_device, sector_count};

    /// How many records there are.
    pub fn records(&self) -> u64
        ensures { result ≡ record_count self.now }
    {
        self.records
    }

    /// How many sectors are used, up to and with the last closed gate.
    pub fn used(&self) -> u64
        ensures { result ≡ used_sectors self.now }
    {
        self.gate + 1
    }

    /// Has the device failed in an append? The log then takes no more, and makes no call of the device.
    pub fn is_stopped(&self) -> bool
        ensures { IsTrue result ↔ (is_log_stopped self.now ≡ true) }
    {
        self.stopped
    }

    /// Is there room for the record of a payload of this many bytes, and for a closed gate behind it? Takes no memory.
    pub fn room(&self, len: u32) -> bool
        ensures { IsTrue result ↔ (used_sectors self.now + sectors_for len < sector_count self.now) }
    {
        sectors_for(len) + 1 < self.device.count() - self.gate
    }

    /// The device, lent. Takes no memory.
    pub fn device(&self) -> &D
        ensures { result.now ≡ log_device self.now }
    {
        &self.device
    }

    /// Gives the device back.
    pub fn into_device(self) -> D
        ensures { result ≡ log_device self }
    {
        self.device
    }
}
