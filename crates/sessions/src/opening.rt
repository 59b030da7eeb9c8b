//! Opens a store, be it new or left by an earlier run.
use crate::hub::Hub;
use commit_log::Unopened;
use engine::Engine;
use sector::Sectors;
use std::alloc::Global;

impl<D: Sectors> Hub<D> {
    ghost use Rattle.std.specs.Prelude.{IfOk};
    ghost use Rattle.model.specs.Map.{IsInBounds, KeyMap};
    ghost use Rattle.sessions.specs.Restarts.{Begins, Opens, ReportsWhy};

    /// A hub over the store whose log a device holds. Nobody has joined. Faults are those of `Engine::open`, `Device` exactly where a
    /// call of the device failed; the device is returned with each.
    ///
    /// Where an earlier hub left the device at any moment, what is found is the map of its last answered COMMIT, or that with one COMMIT
    /// more, which was under way then or was answered a store fault. Over the image of a map the hub begins with that map, unless the
    /// device fails or memory is refused. A crash at any moment of the call, also where it fails, leaves what one before it could have
    /// left, so it loses nothing either.
    pub fn open(alloc: Global, dev: D) -> Result<Hub<D>, Unopened<D>>
        ensures begins { IfOk result (λ hub. (map : KeyMap) × Begins dev hub map × IsInBounds map) }
        ensures opens { D.keeps_model → Opens dev result }
        ensures reports { ReportsWhy dev result }
    {
        match Engine::open(alloc, dev) {
            Ok(engine) => Ok(Hub::new(alloc, engine)),
            Err(unopened) => Err(unopened),
        }
    }
}
