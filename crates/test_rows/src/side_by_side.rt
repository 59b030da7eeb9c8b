//! The stores that the rows are run over, asked side by side.
ghost use Rattle.std.specs.Prelude.{◌≡◌, IfOk};

use crate::plain::PlainStore;
use crate::stored::EngineStore;
use crate::stores::{Decoding, Store};
use commit_log::{LogFault, format};
use engine::Engine;
use model::Memory;
use sector::{MemSectors, Sectors};
use std::alloc::Global;
use std::test::Fail;

/// The device calls that open an empty log: a sync, and reads of the head and of a gate.
pub const OPENING: u64 = 3;

/// A device with an empty log, of which no call has failed.
pub fn empty_log(alloc: Global, sectors: u64) -> Result<MemSectors, Fail>
    ensures { IfOk result (λ d. d.failures ≡ 0) }
{
    let mut device = MemSectors::new(alloc, sectors)?;
    format(&mut device)?;
    Ok(device.crash(|_, settled, _| *settled))
}

/// The engine over what a device holds.
pub fn opened<D: Sectors>(
    alloc: Global,
    device: D,
    reclaims: bool,
) -> Result<Decoding<EngineStore<D>>, LogFault> {
    let engine = Engine::open(alloc, device)?;
    Ok(Decoding {
        store: EngineStore { engine, reclaims },
    })
}

/// The engine over the empty map, on a device whose first call after the opening fails, or none.
pub fn engine_store(
    alloc: Global,
    sectors: u64,
    device_fails: bool,
    reclaims: bool,
) -> Result<Decoding<EngineStore<MemSectors>>, Fail> {
    let mut device = empty_log(alloc, sectors)?;
    if device_fails {
        device.fail_call(OPENING + 1);
    }
    Ok(opened(alloc, device, reclaims)?)
}

/// The plain engine, an engine that keeps all, and one that reclaims. A reply is that of each of them; where one answers otherwise,
/// both replies stand there.
#[derive(Drop)]
pub struct SideBySide {
    alloc: Global,
    plain: Decoding<PlainStore>,
    keeping: Decoding<EngineStore<MemSectors>>,
    reclaiming: Decoding<EngineStore<MemSectors>>,
}

impl SideBySide {
    /// Over the empty map.
    pub fn new(alloc: Global, sectors: u64, device_fails: bool) -> Result<SideBySide, Fail> {
        Ok(SideBySide {
            alloc,
            plain: Decoding {
                store: PlainStore::new(alloc, sectors, device_fails),
            },
            keeping: engine_store(alloc, sectors, device_fails, false)?,
            reclaiming: engine_store(alloc, sectors, device_fails, true)?,
        })
    }
}

impl Store for SideBySide {
    fn answer(&mut self, session: u64, frame: &[u8], out: &mut Vec<u8>) -> Result<(), Memory> {
        self.plain.answer(session, frame, out)?;
        compare(self.alloc, &mut self.keeping, session, frame, out)?;
        compare(self.alloc, &mut self.reclaiming, session, frame, out)
    }
}

/// Adds what the store answers, where that isn't what stands there.
fn compare<S: Store>(
    alloc: Global,
    store: &mut S,
    session: u64,
    frame: &[u8],
    out: &mut Vec<u8>,
) -> Result<(), Memory> {
    let mut other = Vec::new(alloc);
    store.answer(session, frame, &mut other)?;
    if other.as_slice() != out.as_slice() {
        out.extend_from_slice(b"but ")?;
        out.extend_from_slice(&other)?;
    }
    Ok(())
}
