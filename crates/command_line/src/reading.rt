//! Reads a command line: a command with numbers in their range, or a refusal.
ghost use Rattle.std.specs.Prelude.{◌≡◌, ◌⊎◌, ◌≤◌, IfErr, IfOk, IfSome, None, codes, map};
ghost use Rattle.clap.specs.Matches.{found_of};
ghost use Rattle.clap.specs.Values.{kind_of};
ghost use Rattle.clap.specs.Walk.{rows_of};
ghost use Rattle.command_line.specs.Asking.{AnswersTo, AskForNothing, AsksFor, HasNumber, LacksNumber, CommandAsks};
ghost use Rattle.command_line.specs.Asking.{MeansNothing};
ghost use Rattle.command_line.specs.Ranges.{IsInRange};
ghost use Rattle.command_line.specs.Refusals.{IsRefusalOf};

use crate::commands::command;
use crate::invocation::{FILE_SECTORS_MAX, Invocation, MEMORY_SECTORS_MAX, SECTORS_MIN};
use crate::refusals::Refusal;
use clap::error::ErrorKind;
use clap::{ArgMatches, Error};
use std::alloc::Global;

// The number of sectors that was given, where it is one of a device that has at most so many.
fn sectors(found: &ArgMatches<'_>, most: u64) -> Option<u64>
    ensures range { IfSome result (λ n. (2 ≤ n) × (n ≤ most)) }
    ensures given { IfSome result (HasNumber (rows_of (found_of found.now)) (codes "sectors")) }
    ensures lacks { (result ≡ None) → LacksNumber (rows_of (found_of found.now)) (codes "sectors") most }
{
    let given = found.get_one::<u64>("sectors")?;
    if given < SECTORS_MIN {
        return None;
    }
    if given > most { None } else { Some(given) }
}

fn create<'a>(found: &ArgMatches<'a>) -> Option<Invocation<'a>>
    ensures range { IfSome result IsInRange }
    ensures means { IfSome result (CommandAsks (codes "create") (rows_of (found_of found.now))) }
    ensures nothing { (result ≡ None) → MeansNothing (codes "create") (rows_of (found_of found.now)) }
{
    Some(Invocation::Create {
        data: found.get_str("data")?,
        sectors: sectors(found, FILE_SECTORS_MAX)?,
    })
}

fn play<'a>(found: &ArgMatches<'a>) -> Option<Invocation<'a>>
    ensures range { IfSome result IsInRange }
    ensures means { IfSome result (CommandAsks (codes "play") (rows_of (found_of found.now))) }
    ensures nothing { (result ≡ None) → MeansNothing (codes "play") (rows_of (found_of found.now)) }
{
    Some(Invocation::Play {
        sectors: sectors(found, MEMORY_SECTORS_MAX)?,
    })
}

fn compact<'a>(found: &ArgMatches<'a>) -> Option<Invocation<'a>>
    ensures range { IfSome result IsInRange }
    ensures means { IfSome result (CommandAsks (codes "compact") (rows_of (found_of found.now))) }
    ensures nothing { (result ≡ None) → MeansNothing (codes "compact") (rows_of (found_of found.now)) }
{
    let sectors = match found.get_str("sectors") {
        Some(_) => Some(sectors(found, FILE_SECTORS_MAX)?),
        None => None,
    };
    Some(Invocation::Compact {
        from: found.get_str("from")?,
        to: found.get_str("to")?,
        sectors,
    })
}

// What the command of this name asks for, by what its options were given.
fn invocation<'a>(name: &str, found: &ArgMatches<'a>) -> Option<Invocation<'a>>
    ensures range { IfSome result IsInRange }
    ensures means { IfSome result (CommandAsks name.now (rows_of (found_of found.now))) }
    ensures nothing { (result ≡ None) → MeansNothing name.now (rows_of (found_of found.now)) }
{
    match name {
        "create" => create(found),
        "serve" => Some(Invocation::Serve {
            data: found.get_str("data")?,
            listen: found.get_str("listen")?,
        }),
        "check" => Some(Invocation::Check {
            data: found.get_str("data")?,
        }),
        "compact" => compact(found),
        "play" => play(found),
        _ => None,
    }
}

/// Reads the words of a command line, the program's name first.
///
/// A number of sectors is one of its command's range: 2 to 4,194,304 for `create`, 2 to 65,536 for `play`, which takes 4,096 where
/// none is given. A refusal is `Help` where help or the version was asked for, `Refused` where the words name no command or not all that it
/// needs, and `Memory`.
///
/// It may grow what `clap` keeps of the commands, the words and the error, and the refusal's text.
pub fn parse<'a>(alloc: Global, words: &'a [&'a str]) -> Result<Invocation<'a>, Refusal>
    ensures range { IfOk result IsInRange }
    ensures asks { AnswersTo (map (λ word. word.now) words.now) result }
{
    match read(alloc, words) {
        Ok(invocation) => Ok(invocation),
        Err(error) => Err(refusal(alloc, &error)),
    }
}

// What the words ask for, or `clap`'s error.
fn read<'a>(alloc: Global, words: &'a [&'a str]) -> Result<Invocation<'a>, Error>
    ensures range { IfOk result IsInRange }
    ensures asks { IfOk result (AsksFor (map (λ word. word.now) words.now)) }
    ensures refuses { IfErr result (λ error.
        (kind_of error ≡ ErrorKind.OutOfMemory) ⊎ AskForNothing (map (λ word. word.now) words.now)) }
{
    let mut command = command(alloc)?;
    let found = command.try_get_matches_from_mut(words)?;
    let invocation = match found.subcommand() {
        Some((name, inner)) => invocation(name, inner),
        None => None,
    };
    match invocation {
        Some(invocation) => Ok(invocation),
        None => Err(command.error(ErrorKind::InvalidValue, "no such command")?),
    }
}

// What an error of `clap` is to the caller. Its text may be refused memory.
fn refusal(alloc: Global, error: &Error) -> Refusal
    ensures { IsRefusalOf (kind_of error.now) result }
{
    if error.kind() == ErrorKind::OutOfMemory {
        return Refusal::Memory;
    }
    let Ok(text) = format!(in alloc; "{error}") else {
        return Refusal::Memory;
    };
    if error.use_stderr() {
        Refusal::Refused(text)
    } else {
        Refusal::Help(text)
    }
}
