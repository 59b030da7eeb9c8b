//! Opens a store: recovers its map from the log on a device.
use crate::begins::Begins;
use crate::engine::Engine;
use crate::history::History;
use commit_log::{Log, LogFault, Unopened};
use sector::Sectors;
use std::alloc::Global;
use std::collections::BTreeMap;

impl<D: Sectors> Engine<D> {
    ghost use Rattle.std.specs.Prelude.{◌≡◌, ◌⊎◌, ◌<◌, false, IfOk, IfErr, IsErrAnd};
    ghost use Rattle.sector.specs.Counts.{Stayed};
    ghost use Rattle.commit_log.specs.OpenedLog.{Finds, OpeningIsRefused, OpeningLeavesAsBefore};
    ghost use Rattle.engine.specs.Meaning.{device_of, failures_of, has_engine_stopped};
    ghost use Rattle.engine.specs.Opening.{IsJustOpened, IsStoreOf};

    /// Opens the store whose log a device holds. Nothing is open in it, and nothing has committed since. Its keys and values have lengths
    /// in bounds.
    ///
    /// Faults are those of `Log::open_or_return`, and `Memory` where the memory for the map is refused. The device is returned with the
    /// fault.
    pub fn open(alloc: Global, dev: D) -> Result<Engine<D>, Unopened<D>>
        ensures opens { IfOk result (IsJustOpened (D.size dev)) }
        ensures runs { IfOk result (λ e. (has_engine_stopped e ≡ false) × Stayed (D.failures dev) (failures_of e)) }
        ensures refused { IfErr result (OpeningIsRefused D.Sectors dev) }
        ensures short { D.size dev < 2
            → IsErrAnd result (λ u. (u.fault ≡ LogFault.NotALog) ⊎ (u.fault ≡ LogFault.Device)) }

        // A log is opened with the map that its write sets make. Where each crash leaves some log, one is found.
        ensures finds { D.keeps_model → Finds D.Sectors dev result (λ u. u.fault) (IsStoreOf (D.size dev)) }

        // During the call, also where it fails, a crash leaves what one before it could have left.
        ensures during { D.keeps_model → OpeningLeavesAsBefore D.Sectors dev device_of result }
    {
        let (log, map) = match Log::open_or_return(alloc, dev) {
            Ok(opened) => opened,
            Err(unopened) => return Err(unopened),
        };
        match History::over(alloc, map) {
            Ok(history) => Ok(Engine {
                log,
                history,
                running: BTreeMap::new(alloc),
                begins: Begins::none(),
                alloc,
                pages_looked_at: 0,
            }),
            Err(_) => Err(Unopened {
                fault: LogFault::Memory,
                device: log.into_device(),
            }),
        }
    }
}
