//! The plain engine as a store.
ghost use Rattle.model.specs.Operations.{IsFit};

use crate::stores::Serves;
use model::{Command, Key, KeyRef, Memory, RangeRef, Refusal, Reply};
use resp::{write_pairs, write_reply};
use std::alloc::Global;
use test_plain_engine::{Engine, EngineFault, Value};

/// The sectors of an empty log that are in use.
const EMPTY_LOG: u64 = 2;

/// The plain engine over an empty map.
#[derive(Drop)]
pub struct PlainStore {
    alloc: Global,
    pub engine: Engine,
    device_fails: bool,
}

impl PlainStore {
    /// Over a device of that many sectors, which fails in each call or in none. Takes no memory.
    pub fn new(alloc: Global, sectors: u64, device_fails: bool) -> PlainStore {
        PlainStore {
            alloc,
            engine: Engine::new(alloc, Vec::new(alloc), EMPTY_LOG, sectors),
            device_fails,
        }
    }

    fn get(&mut self, session: u64, key: KeyRef<'_>, out: &mut Vec<u8>) -> Result<(), Memory> {
        match self.engine.get(self.alloc, session, key) {
            Ok(None) => write_reply(out, &Reply::Value(None)),
            Ok(Some(value)) => write_reply(out, &Reply::Value(Some(value.as_slice()))),
            Err(fault) => write_fault(out, fault),
        }
    }

    fn range(
        &mut self,
        session: u64,
        range: RangeRef<'_>,
        limit: u8,
        out: &mut Vec<u8>,
    ) -> Result<(), Memory> {
        match self.engine.range(self.alloc, session, range, limit) {
            Ok(rows) => write_rows(out, &rows),
            Err(fault) => write_fault(out, fault),
        }
    }

    fn commit(&mut self, session: u64, out: &mut Vec<u8>) -> Result<(), Memory> {
        match self.engine.commit(self.alloc, session, self.device_fails) {
            Ok(number) => write_reply(out, &Reply::Number(number)),
            Err(fault) => write_fault(out, fault),
        }
    }
}

impl Serves for PlainStore {
    fn serve(
        &mut self,
        session: u64,
        command: &Command<'_>,
        out: &mut Vec<u8>,
    ) -> Result<(), Memory> {
        match *command {
            Command::Begin => {
                let done = self.engine.begin(self.alloc, session);
                write_done(out, done)
            }
            Command::Get(key) => self.get(session, key, out),
            Command::Set(key, value) => {
                let done = self.engine.set(self.alloc, session, key, value);
                write_done(out, done)
            }
            Command::Del(key) => {
                let done = self.engine.del(self.alloc, session, key);
                write_done(out, done)
            }
            Command::Range(range, limit) => self.range(session, range, limit, out),
            Command::Commit => self.commit(session, out),
            Command::Abort => write_done(out, self.engine.abort(session)),
            Command::Ping => write_reply(out, &Reply::Pong),
        }
    }

    fn leave(&mut self, session: u64) {
        let _ = self.engine.abort(session);
    }
}

fn write_done(out: &mut Vec<u8>, done: Result<(), EngineFault>) -> Result<(), Memory> {
    match done {
        Ok(()) => write_reply(out, &Reply::Done),
        Err(fault) => write_fault(out, fault),
    }
}

fn write_fault(out: &mut Vec<u8>, fault: EngineFault) -> Result<(), Memory> {
    match fault {
        EngineFault::Refused(refusal) => write_reply(out, &Reply::Refused(&refusal)),
        EngineFault::Memory => Err(Memory),
    }
}

fn write_rows(out: &mut Vec<u8>, rows: &[(Key, Value)]) -> Result<(), Memory> {
    write_pairs(out, rows.len(), Lent { rows })
}

/// Pairs that are lent one by one.
#[derive(Drop)]
struct Lent<'a> {
    rows: &'a [(Key, Value)],
}

impl<'a> Iterator for Lent<'a> {
    type Item = (KeyRef<'a>, &'a [u8]);

    ghost use Rattle.std.specs.Iterator.{YieldsFirstBy, item_count};
    ghost use Rattle.model.specs.KeyBytes.{pair_bytes};

    ghost next_gives = { YieldsFirstBy pair_bytes (λ l. l.rows.now) };

    ghost remaining = { item_count (λ l. l.rows.now) };

    fn next(&mut self) -> Option<(KeyRef<'a>, &'a [u8])> {
        match self.rows {
            [] => None,
            [first, rest @ ..] => {
                self.rows = rest;
                Some((first.0.lend(), first.1.lend()))
            }
        }
    }
}
