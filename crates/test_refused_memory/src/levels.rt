//! What the lines are asked of: an engine, or a hub over one.
ghost use Rattle.std.specs.Prelude.{◌≡◌, [], IfOk};
ghost use Rattle.engine.specs.Meaning.{StandsFor};
ghost use Rattle.model.specs.Machine.{State};

use commit_log::{LogFault, format};
use engine::Engine;
use sector::MemSectors;
use sessions::{Event, Hub, Outcome, Status};
use std::alloc::Global;
use std::io::{self, Write};
use test_rows::{Decoding, EngineStore, Store};

/// The sectors of the device.
const SECTORS: u64 = 64;

/// An engine over an empty log in memory.
fn new_engine(alloc: Global) -> Result<Engine<MemSectors>, LogFault>
    ensures { IfOk result (λ e. (m : State) → StandsFor e m → m.running ≡ []) }
{
    let Ok(mut device) = MemSectors::new(alloc, SECTORS) else {
        return Err(LogFault::Memory);
    };
    format(&mut device)?;
    Ok(Engine::open(alloc, device)?)
}

/// A store, by the calls of its engine or by the events of a hub.
pub(crate) enum Level {
    Engine(Decoding<EngineStore<MemSectors>>),
    Hub(Hub<MemSectors>),
}

impl Level {
    pub(crate) fn engine(alloc: Global) -> Result<Level, LogFault> {
        let engine = new_engine(alloc)?;
        Ok(Level::Engine(Decoding {
            store: EngineStore {
                engine,
                reclaims: true,
            },
        }))
    }

    pub(crate) fn hub(alloc: Global) -> Result<Level, LogFault> {
        Ok(Level::Hub(Hub::new(alloc, new_engine(alloc)?)))
    }

    /// Gives the engine back. Open transactions stay open in it.
    pub(crate) fn into_engine(self) -> Engine<MemSectors> {
        match self {
            Level::Engine(store) => store.store.engine,
            Level::Hub(hub) => hub.into_engine(),
        }
    }

    /// Applies an event of a session, and writes what became of it. An engine knows no events.
    pub(crate) fn step(
        &mut self,
        session: u64,
        event: &Event<'_>,
        reply: &mut Vec<u8>,
    ) -> io::Result<()> {
        match self {
            Level::Engine(_store) => Ok(()),
            Level::Hub(hub) => {
                let outcome = hub.step(event);
                write_outcome(outcome, hub.status(session), reply)
            }
        }
    }

    /// Executes a request of a session, and writes its reply.
    pub(crate) fn serve(
        &mut self,
        session: u64,
        frame: &[u8],
        reply: &mut Vec<u8>,
    ) -> io::Result<()> {
        match self {
            Level::Engine(store) => match store.answer(session, frame, reply) {
                Ok(()) => Ok(()),
                Err(_refused) => {
                    reply.clear();
                    reply.write_all(b"memory")
                }
            },
            Level::Hub(hub) => serve_at(hub, session, frame, reply),
        }
    }
}

/// Executes a request of a hub's session, and takes what is then pending. Where an event isn't done, it writes what became of it.
fn serve_at(
    hub: &mut Hub<MemSectors>,
    session: u64,
    frame: &[u8],
    reply: &mut Vec<u8>,
) -> io::Result<()> {
    let mut outcome = hub.step(&Event::Bytes(session, frame));
    if outcome == Outcome::Done {
        outcome = hub.step(&Event::Serve(session));
    }
    let pending = hub.pending(session);
    let sent = pending.len();
    reply.write_all(pending)?;
    let _ = hub.step(&Event::Sent(session, sent));
    if outcome == Outcome::Done {
        return Ok(());
    }
    write_outcome(outcome, hub.status(session), reply)
}

fn write_outcome(outcome: Outcome, status: Status, reply: &mut Vec<u8>) -> io::Result<()> {
    write!(reply, "{outcome:?} {status:?}")
}
