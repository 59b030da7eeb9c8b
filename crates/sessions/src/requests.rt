//! Executes one request of a session, and writes its reply to the session's output.
ghost use Rattle.std.specs.Prelude.{◌≡◌, ◌≤◌, [], false};
ghost use Rattle.model.specs.declared.values.TheConstants.{PAIRS_MAX};
ghost use Rattle.model.specs.KeyBytes.{key_bytes};
ghost use Rattle.model.specs.Operations.{operation_of, IsFit};
ghost use Rattle.model.specs.Operations.Operation.{Get, Range, Abort as ToAbort, Commit as ToCommit};
ghost use Rattle.model.specs.Operations.Response.{Done};
ghost use Rattle.engine.specs.Changes.{UsesLogOnce};
ghost use Rattle.engine.specs.Meaning.{log_of, response_to};
ghost use Rattle.sessions.specs.Calls.{range_of, Writes, refusal_to_read, Executes, Aborts, ServesHead, has_failed};
ghost use Rattle.sessions.specs.Crashes.{SurvivesCommit, SurvivesRequest, SurvivesHead};
ghost use Rattle.sessions.specs.SessionStreams.{asks};

use crate::reply_buffer::ReplyBuffer;
use engine::{Engine, EngineFault, ReadFault};
use model::{Command, KeyRef, Memory, RangeRef, Refusal, Reply};
use resp::{Decoded, Request, command, decode};
use sector::Sectors;

/// Writes what a call without a value answered.
fn write_done(out: &mut ReplyBuffer, answer: Result<(), EngineFault>) -> Result<(), Memory>
    requires { out.old ≡ [] }
    ensures { Writes (response_to (λ _. Done) answer) out.new result }
{
    match answer {
        Ok(()) => out.write_brief(&Reply::Done),
        Err(EngineFault::Refused(refusal)) => out.write_brief(&Reply::Refused(&refusal)),
        Err(EngineFault::Memory) => Err(Memory),
    }
}

/// Writes why a read was refused.
fn write_read_fault(out: &mut ReplyBuffer, fault: ReadFault) -> Result<(), Memory>
    requires { out.old ≡ [] }
    ensures { Writes (refusal_to_read fault) out.new result }
{
    match fault {
        ReadFault::NotOpen => out.write_brief(&Reply::Refused(&Refusal::NotOpen)),
        ReadFault::FullMarks => out.write_brief(&Reply::Refused(&Refusal::FullMarks)),
        ReadFault::Memory => Err(Memory),
    }
}

/// Executes a GET, and writes its reply.
fn get<D: Sectors>(
    engine: &mut Engine<D>,
    s: u64,
    key: KeyRef<'_>,
    out: &mut ReplyBuffer,
) -> Result<(), Memory>
    requires { out.old ≡ [] }
    ensures step { Executes engine.old engine.new s (Get (key_bytes key.entry)) false out.new result }
    ensures log { log_of engine.new ≡ log_of engine.old }
{
    match engine.get(s, key) {
        Ok(value) => out.write_value(value),
        Err(fault) => write_read_fault(out, fault),
    }
}

/// Executes a RANGE, writes its reply, and counts the pages that it has looked at.
fn range<D: Sectors>(
    engine: &mut Engine<D>,
    s: u64,
    range: RangeRef<'_>,
    limit: u8,
    out: &mut ReplyBuffer,
) -> Result<(), Memory>
    requires empty { out.old ≡ [] }
    requires limit { (1 ≤ limit) × (limit ≤ PAIRS_MAX) }
    ensures step { Executes engine.old engine.new s (range_of range.entry limit) false out.new result }
    ensures log { log_of engine.new ≡ log_of engine.old }
{
    match engine.range(s, range, limit) {
        Ok(rows) => {
            let pages = rows.pages_looked_at();
            let written = out.write_pairs(rows);
            engine.count_pages(pages);
            written
        }
        Err(fault) => write_read_fault(out, fault),
    }
}

/// Executes a COMMIT, and writes its reply.
fn commit<D: Sectors>(engine: &mut Engine<D>, s: u64, out: &mut ReplyBuffer) -> Result<(), Memory>
    requires { out.old ≡ [] }
    ensures step { Executes engine.old engine.new s ToCommit (has_failed engine.old engine.new) out.new result }
    ensures crash { SurvivesCommit engine.old engine.new s }
    ensures once { UsesLogOnce (log_of engine.old) (log_of engine.new) }
{
    match engine.commit(s) {
        Ok(number) => {
            engine.reclaim_step();
            out.write_brief(&Reply::Number(number))
        }
        Err(EngineFault::Refused(refusal)) => {
            engine.reclaim_step();
            out.write_brief(&Reply::Refused(&refusal))
        }
        Err(EngineFault::Memory) => Err(Memory),
    }
}

/// Executes an ABORT, and writes its reply.
fn abort<D: Sectors>(engine: &mut Engine<D>, s: u64, out: &mut ReplyBuffer) -> Result<(), Memory>
    requires { out.old ≡ [] }
    ensures step { Executes engine.old engine.new s ToAbort false out.new result }
    ensures log { log_of engine.new ≡ log_of engine.old }
{
    let answer = engine.abort(s);
    engine.reclaim_step();
    write_done(out, answer)
}

/// Executes one command of the session, and writes its reply.
fn execute<D: Sectors>(
    engine: &mut Engine<D>,
    s: u64,
    command: Command<'_>,
    out: &mut ReplyBuffer,
) -> Result<(), Memory>
    requires fits { IsFit command }
    requires empty { out.old ≡ [] }
    ensures step { Executes engine.old engine.new s (operation_of command.entry) (has_failed engine.old engine.new)
        out.new result }
    ensures crash { SurvivesRequest engine.old engine.new s (operation_of command.entry) }
    ensures once { UsesLogOnce (log_of engine.old) (log_of engine.new) }
{
    match command {
        Command::Begin => {
            let answer = engine.begin(s);
            write_done(out, answer)
        }
        Command::Get(key) => get(engine, s, key, out),
        Command::Set(key, value) => {
            let answer = engine.set(s, key, value);
            write_done(out, answer)
        }
        Command::Del(key) => {
            let answer = engine.del(s, key);
            write_done(out, answer)
        }
        Command::Range(bounds, limit) => range(engine, s, bounds, limit, out),
        Command::Commit => commit(engine, s, out),
        Command::Abort => abort(engine, s, out),
        Command::Ping => {
            // Shows what the engine stands for once PING was answered.
            engine.law_passes(s);
            out.write_brief(&Reply::Pong)
        }
    }
}

/// Executes one request of the session, and writes its reply.
fn execute_request<D: Sectors>(
    engine: &mut Engine<D>,
    s: u64,
    request: &Request<'_>,
    out: &mut ReplyBuffer,
) -> Result<(), Memory>
    requires { out.old ≡ [] }
    ensures step { Executes engine.old engine.new s (asks request.now) (has_failed engine.old engine.new) out.new
        result }
    ensures crash { SurvivesRequest engine.old engine.new s (asks request.now) }
    ensures once { UsesLogOnce (log_of engine.old) (log_of engine.new) }
{
    match command(request) {
        Ok(command) => execute(engine, s, command, out),
        Err(refusal) => {
            // Shows what the engine stands for once the refusal was answered.
            engine.law_passes(s);
            out.write_brief(&Reply::Refused(&refusal))
        }
    }
}

/// Aborts the session's transaction, if it has one. Takes no memory.
pub(crate) fn abort_transaction<D: Sectors>(engine: &mut Engine<D>, s: u64)
    ensures left { Aborts engine.old engine.new s }
    ensures log { log_of engine.new ≡ log_of engine.old }
{
    match engine.abort(s) {
        Ok(()) => {
            engine.reclaim_step();
        }
        Err(_not_open) => {}
    }
}

/// What a Serve found at the head of an inbox.
#[derive(Clone, Copy)]
pub(crate) enum Served {
    /// A request of so many bytes; its reply was written.
    Answered(usize),
    /// The beginning of a request.
    Incomplete,
    /// No request begins so; the refusal was written, and the transaction is aborted.
    Broken,
    /// A request for which memory was refused; nothing was written, and the transaction is aborted.
    Refused,
}

/// Executes the request at the head of an inbox, and writes its reply.
pub(crate) fn serve_request<D: Sectors>(
    engine: &mut Engine<D>,
    s: u64,
    inbox: &[u8],
    out: &mut ReplyBuffer,
) -> Served
    requires { out.old ≡ [] }
    ensures step { ServesHead engine.old engine.new s (has_failed engine.old engine.new) inbox.now out.new result }
    ensures crash { SurvivesHead engine.old engine.new s inbox.now }
    ensures once { UsesLogOnce (log_of engine.old) (log_of engine.new) }
{
    match decode(inbox) {
        Decoded::Whole(request, used) => match execute_request(engine, s, &request, out) {
            Ok(()) => Served::Answered(used),
            Err(_memory) => {
                abort_transaction(engine, s);
                Served::Refused
            }
        },
        Decoded::More => Served::Incomplete,
        Decoded::Bad => {
            abort_transaction(engine, s);
            let _ = out.write_brief(&Reply::Refused(&Refusal::BadFrame));
            Served::Broken
        }
    }
}
