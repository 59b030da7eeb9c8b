//! Hubs over devices in memory.
ghost use Rattle.std.specs.Prelude.{IfOk};
ghost use Rattle.stream_driver.specs.Sessions.{Stands};
ghost use Rattle.sessions.specs.Restarts.{IsOpened};

use commit_log::{LogFault, format};
use model::Memory;
use sector::{MemSectors, Sectors};
use sessions::{Event, Hub, Outcome};
use std::alloc::Global;
use test_rows::Store;

/// A hub over an empty log of so many sectors. `Full` where there are fewer than two, and `Memory` where it is refused.
pub fn new_hub(alloc: Global, sectors: u64) -> Result<Hub<MemSectors>, LogFault>
    ensures stands { IfOk result Stands }
    ensures opened { IfOk result IsOpened }
{
    let Ok(mut device) = MemSectors::new(alloc, sectors) else {
        return Err(LogFault::Memory);
    };
    format(&mut device)?;
    open_hub(alloc, device)
}

/// A hub over the log of a device, with the faults of `Hub::open`.
pub fn open_hub<D: Sectors>(alloc: Global, device: D) -> Result<Hub<D>, LogFault>
    ensures stands { IfOk result Stands }
    ensures opened { IfOk result IsOpened }
{
    Ok(Hub::open(alloc, device)?)
}

/// A hub whose sessions 1 to 70 have joined. Requests come in pieces of `size` bytes.
#[derive(Drop)]
pub struct Pieces {
    /// The hub.
    pub hub: Hub<MemSectors>,
    /// The bytes of a piece.
    pub size: usize,
}

impl Pieces {
    /// Over this hub, which these sessions join. The hub's table grows.
    pub fn new(mut hub: Hub<MemSectors>, size: usize) -> Pieces {
        for session in 1..=70u64 {
            let _ = hub.step(&Event::Joined(session));
        }
        Pieces { hub, size }
    }
}

impl Store for Pieces {
    fn answer(&mut self, session: u64, frame: &[u8], out: &mut Vec<u8>) -> Result<(), Memory> {
        for piece in frame.chunks(self.size.max(1)) {
            let _ = self.hub.step(&Event::Bytes(session, piece));
        }
        if let Outcome::Memory = self.hub.step(&Event::Serve(session)) {
            return Err(Memory);
        }
        let pending = self.hub.pending(session);
        let sent = pending.len();
        out.extend_from_slice(pending)?;
        let _ = self.hub.step(&Event::Sent(session, sent));
        Ok(())
    }
}
