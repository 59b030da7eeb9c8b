//! Reads a request's parts as a command, or refuses it.
ghost use Rattle.std.specs.Prelude.{◌≡◌, ◌≤◌, ◌<◌, ◌+◌, ℕ, List, length, slice_index_or, IfOk};
ghost use Rattle.std.specs.Str.{str_eq_ignore_ascii_case};
ghost use Rattle.model.specs.KeyBytes.{key_bytes, end_bytes};
ghost use Rattle.model.specs.Operations.{operation_of, IsFit};
ghost use Rattle.resp.specs.Meaning.{Means};
ghost use Rattle.model.specs.CommandTable.{arity, key_in, end_in, limit_in, alone_in, get_in, set_in, del_in};
ghost use Rattle.model.specs.CommandTable.{range_in, command_in};

use crate::decoding::read_decimal;
use crate::parts::Request;
use model::{Command, KeyRef, PAIRS_MAX, RangeRef, Refusal};

// Is this the name, in any case of its letters?
fn is_named(part: &[u8], name: &[u8]) -> bool
    ensures { result ≡ str_eq_ignore_ascii_case part.now name.now }
{
    part.eq_ignore_ascii_case(name)
}

// There are that many parts.
fn has_parts(request: &Request<'_>, n: usize) -> Result<(), Refusal>
    ensures { Means (λ x. x) result (arity n request.now) }
{
    if request.len() == n {
        Ok(())
    } else {
        Err(Refusal::BadArguments)
    }
}

fn key_of(bytes: &[u8]) -> Result<KeyRef<'_>, Refusal>
    ensures { Means key_bytes result (key_in bytes.now) }
{
    match KeyRef::new(bytes) {
        Some(key) => Ok(key),
        None => Err(Refusal::BadKey),
    }
}

fn end_of(bytes: &[u8]) -> Result<Option<KeyRef<'_>>, Refusal>
    ensures { Means end_bytes result (end_in bytes.now) }
{
    if bytes.is_empty() {
        return Ok(None);
    }
    let key = key_of(bytes)?;
    Ok(Some(key))
}

#[tactic(auto, using(crate::proofs::Limits::limit_found, crate::proofs::Limits::limit_absent, crate::proofs::Limits::zero_alone))]
fn limit_of(digits: &[u8]) -> Result<u8, Refusal>
    ensures meant { Means (λ n. n) result (limit_in digits.now) }
    ensures range { IfOk result (λ n. (1 ≤ n) × (n ≤ PAIRS_MAX)) }
{
    let Some(limit) = read_decimal(digits, PAIRS_MAX) else {
        return Err(Refusal::BadLimit);
    };
    if limit == 0 {
        return Err(Refusal::BadLimit);
    }
    Ok(limit as u8)
}

#[tactic(auto, unfolding(model::specs::CommandTable::alone_in))]
fn alone<'a>(request: &Request<'_>, command: Command<'a>) -> Result<Command<'a>, Refusal>
    requires { IsFit command }
    ensures meant { Means operation_of result (alone_in (operation_of command.entry) request.now) }
    ensures fits { IfOk result IsFit }
{
    has_parts(request, 1)?;
    Ok(command)
}

#[tactic(auto, unfolding(model::specs::CommandTable::get_in))]
fn get<'a>(request: &Request<'a>) -> Result<Command<'a>, Refusal>
    ensures meant { Means operation_of result (get_in request.now) }
    ensures fits { IfOk result IsFit }
{
    has_parts(request, 2)?;
    let key = key_of(request.part(1))?;
    Ok(Command::Get(key))
}

#[tactic(auto, unfolding(model::specs::CommandTable::set_in))]
fn set<'a>(request: &Request<'a>) -> Result<Command<'a>, Refusal>
    ensures meant { Means operation_of result (set_in request.now) }
    ensures fits { IfOk result IsFit }
{
    has_parts(request, 3)?;
    let key = key_of(request.part(1))?;
    Ok(Command::Set(key, request.part(2)))
}

#[tactic(auto, unfolding(model::specs::CommandTable::del_in))]
fn del<'a>(request: &Request<'a>) -> Result<Command<'a>, Refusal>
    ensures meant { Means operation_of result (del_in request.now) }
    ensures fits { IfOk result IsFit }
{
    has_parts(request, 2)?;
    let key = key_of(request.part(1))?;
    Ok(Command::Del(key))
}

#[tactic(auto, unfolding(model::specs::CommandTable::range_in))]
fn range<'a>(request: &Request<'a>) -> Result<Command<'a>, Refusal>
    ensures meant { Means operation_of result (range_in request.now) }
    ensures fits { IfOk result IsFit }
{
    has_parts(request, 4)?;
    let lo = key_of(request.part(1))?;
    let hi = end_of(request.part(2))?;
    let limit = limit_of(request.part(3))?;
    Ok(Command::Range(RangeRef { lo, hi }, limit))
}

/// The command that a request is. The first part names it, in any case of its letters. What is no command is refused, for the first
/// of these that holds: `UnknownCommand`, `BadArguments` where the number of parts is another, `BadKey` where a key or a bound has
/// not 1 to 256 bytes (an empty upper bound is none), and `BadLimit`. A command's value and limit are within the bounds that the engine
/// asks for. Takes no memory.
#[tactic(auto, unfolding(model::specs::CommandTable::command_in))]
pub fn command<'a>(request: &Request<'a>) -> Result<Command<'a>, Refusal>
    ensures meant { Means operation_of result (command_in request.now) }
    ensures fits { IfOk result IsFit }
{
    let name = request.name();
    if is_named(name, b"BEGIN") {
        alone(request, Command::Begin)
    } else if is_named(name, b"GET") {
        get(request)
    } else if is_named(name, b"SET") {
        set(request)
    } else if is_named(name, b"DEL") {
        del(request)
    } else if is_named(name, b"RANGE") {
        range(request)
    } else if is_named(name, b"COMMIT") {
        alone(request, Command::Commit)
    } else if is_named(name, b"ABORT") {
        alone(request, Command::Abort)
    } else if is_named(name, b"PING") {
        alone(request, Command::Ping)
    } else {
        Err(Refusal::UnknownCommand)
    }
}
