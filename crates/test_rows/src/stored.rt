//! The engine over the log of a device as a store.
ghost use Rattle.std.specs.Prelude.{◌≤◌};
ghost use Rattle.model.specs.Operations.{IsFit};

use crate::stores::Serves;
use engine::{Engine, EngineFault, ReadFault};
use model::{Command, KeyRef, Memory, RangeRef, Refusal, Reply};
use resp::{write_pairs, write_reply};
use sector::Sectors;

/// The engine over the log of a device.
#[derive(Drop)]
pub struct EngineStore<D: Sectors> {
    pub engine: Engine<D>,
    /// Is what no open transaction needs dropped after each request that may have ended one?
    pub reclaims: bool,
}

impl<D: Sectors> EngineStore<D> {
    fn get(&mut self, session: u64, key: KeyRef<'_>, out: &mut Vec<u8>) -> Result<(), Memory> {
        match self.engine.get(session, key) {
            Ok(value) => write_reply(out, &Reply::Value(value)),
            Err(fault) => write_read_fault(out, fault),
        }
    }

    fn range(
        &mut self,
        session: u64,
        range: RangeRef<'_>,
        limit: u8,
        out: &mut Vec<u8>,
    ) -> Result<(), Memory>
        requires { (1 ≤ limit) × (limit ≤ 128) }
    {
        match self.engine.range(session, range, limit) {
            Ok(rows) => write_pairs(out, rows.len(), rows),
            Err(fault) => write_read_fault(out, fault),
        }
    }

    fn commit(&mut self, session: u64, out: &mut Vec<u8>) -> Result<(), Memory> {
        let outcome = self.engine.commit(session);
        self.reclaim();
        match outcome {
            Ok(number) => write_reply(out, &Reply::Number(number)),
            Err(fault) => write_fault(out, fault),
        }
    }

    fn reclaim(&mut self) {
        if self.reclaims {
            self.engine.reclaim();
        }
    }
}

impl<D: Sectors> Serves for EngineStore<D> {
    fn serve(
        &mut self,
        session: u64,
        command: &Command<'_>,
        out: &mut Vec<u8>,
    ) -> Result<(), Memory> {
        match *command {
            Command::Begin => write_done(out, self.engine.begin(session)),
            Command::Get(key) => self.get(session, key, out),
            Command::Set(key, value) => write_done(out, self.engine.set(session, key, value)),
            Command::Del(key) => write_done(out, self.engine.del(session, key)),
            Command::Range(range, limit) => self.range(session, range, limit, out),
            Command::Commit => self.commit(session, out),
            Command::Abort => {
                let done = self.engine.abort(session);
                self.reclaim();
                write_done(out, done)
            }
            Command::Ping => write_reply(out, &Reply::Pong),
        }
    }

    fn leave(&mut self, session: u64) {
        let _ = self.engine.abort(session);
        self.reclaim();
    }
}

fn write_done(out: &mut Vec<u8>, done: Result<(), EngineFault>) -> Result<(), Memory> {
    match done {
        Ok(()) => write_reply(out, &Reply::Done),
        Err(fault) => write_fault(out, fault),
    }
}

fn write_fault(out: &mut Vec<u8>, fault: EngineFault) -> Result<(), Memory> {
    match fault {
        EngineFault::Refused(refusal) => write_reply(out, &Reply::Refused(&refusal)),
        EngineFault::Memory => Err(Memory),
    }
}

fn write_read_fault(out: &mut Vec<u8>, fault: ReadFault) -> Result<(), Memory> {
    match fault {
        ReadFault::NotOpen => write_reply(out, &Reply::Refused(&Refusal::NotOpen)),
        ReadFault::FullMarks => write_reply(out, &Reply::Refused(&Refusal::FullMarks)),
        ReadFault::Memory => Err(Memory),
    }
}
