//! The command line as `clap` takes it: the program, its commands and options, and what help says of each.
ghost use Rattle.std.specs.Prelude.{◌≡◌, Ok, false};
ghost use Rattle.clap.specs.Simple.{App, new_app, with_rule, with_subcommand};
ghost use Rattle.clap.specs.Walk.{rule_of};
ghost use Rattle.command_line.specs.Making.{IsOf, Makes};
ghost use Rattle.command_line.specs.Usage.{sectors_up_to, text, wanted};
ghost use Rattle.command_line.specs.Usage as usage;

use crate::invocation::{FILE_SECTORS_MAX, MEMORY_SECTORS_MAX, SECTORS_MIN};
use crate::texts::{
    AFTER_CHECK, AFTER_COMPACT, AFTER_CREATE, AFTER_PLAY, AFTER_PROGRAM, AFTER_SERVE,
};
use clap::builder::ValueParser;
use clap::{Arg, ArgAction, Command};
use std::alloc::{AllocError, Global};

/// The program's version, which `--version` prints behind its name.
pub(crate) const VERSION: &str = "0.2.0";

// An option that must be given, with one text.
fn text_option<'a>(alloc: Global, name: &'a str, value: &'a str, help: &'a str) -> Arg<'a>
    ensures rule { rule_of result ≡ wanted (text name.entry.now) }
    ensures local { result.global ≡ false }
{
    Arg::new(alloc, name)
        .long(name)
        .value_name(value)
        .help(help)
        .required(true)
        .action(ArgAction::Set)
}

// An option with a number of sectors, up to the most.
fn sectors_option<'a>(alloc: Global, most: u64, help: &'a str) -> Arg<'a>
    ensures rule { rule_of result ≡ sectors_up_to most }
    ensures local { result.global ≡ false }
{
    Arg::new(alloc, "sectors")
        .long("sectors")
        .value_name("N")
        .help(help)
        .action(ArgAction::Set)
        .value_parser(ValueParser::unsigned(SECTORS_MIN, most))
}

// A command with no option yet.
fn bare_command<'a>(alloc: Global, name: &'a str, about: &'a str, after: &'a str) -> Command<'a>
    ensures { IsOf (new_app name.entry.now) result }
{
    Command::new(alloc, name).about(about).after_help(after)
}

// The command with one argument more. A function of its own, so that what is dropped where memory is refused is proved once.
fn with_argument<'a>(
    command: Result<Command<'a>, AllocError>,
    argument: Arg<'a>,
) -> Result<Command<'a>, AllocError>
    ensures { (a : App) → Makes a command.entry → argument.entry.global ≡ false
        → Makes (with_rule a (rule_of argument.entry)) result }
{
    command?.arg(argument)
}

// The command with one below it more.
fn with_command<'a>(
    command: Result<Command<'a>, AllocError>,
    below: Result<Command<'a>, AllocError>,
) -> Result<Command<'a>, AllocError>
    ensures { (a b : App) → Makes a command.entry → Makes b below.entry → Makes (with_subcommand a b.top) result }
{
    command?.subcommand(below?)
}

fn create<'a>(alloc: Global) -> Result<Command<'a>, AllocError>
    ensures { Makes usage.create result }
{
    let sectors = sectors_option(
        alloc,
        FILE_SECTORS_MAX,
        "How many sectors of 512 bytes, 2 to 4194304",
    )
    .required(true);
    let command = bare_command(
        alloc,
        "create",
        "Makes a data file and formats it",
        AFTER_CREATE,
    );
    let command = with_argument(
        Ok(command),
        text_option(alloc, "data", "FILE", "The file, which must not exist"),
    );
    with_argument(command, sectors)
}

fn serve<'a>(alloc: Global) -> Result<Command<'a>, AllocError>
    ensures { Makes usage.serve result }
{
    let command = bare_command(alloc, "serve", "Serves a data file", AFTER_SERVE);
    let command = with_argument(Ok(command), text_option(alloc, "data", "FILE", "The file"));
    with_argument(
        command,
        text_option(
            alloc,
            "listen",
            "ADDR:PORT",
            "The numeric address and port, as 127.0.0.1:7777 or [::1]:7777",
        ),
    )
}

fn check<'a>(alloc: Global) -> Result<Command<'a>, AllocError>
    ensures { Makes usage.check result }
{
    let command = bare_command(
        alloc,
        "check",
        "Opens a data file and counts what it holds",
        AFTER_CHECK,
    );
    with_argument(Ok(command), text_option(alloc, "data", "FILE", "The file"))
}

fn compact<'a>(alloc: Global) -> Result<Command<'a>, AllocError>
    ensures { Makes usage.compact result }
{
    let sectors = sectors_option(
        alloc,
        FILE_SECTORS_MAX,
        "At least how many sectors of 512 bytes, 2 to 4194304 [default: as many as the old file, or as the map needs if that is more]",
    );
    let command = bare_command(
        alloc,
        "compact",
        "Copies the map of a data file into a new data file",
        AFTER_COMPACT,
    );
    let command = with_argument(
        Ok(command),
        text_option(alloc, "from", "FILE", "The file, which is only read"),
    );
    let command = with_argument(
        command,
        text_option(alloc, "to", "FILE", "The new file, which must not exist"),
    );
    with_argument(command, sectors)
}

fn play<'a>(alloc: Global) -> Result<Command<'a>, AllocError>
    ensures { Makes usage.play result }
{
    let sectors = sectors_option(
        alloc,
        MEMORY_SECTORS_MAX,
        "How many sectors of 512 bytes, 2 to 65536",
    )
    .default_value("4096");
    let command = bare_command(
        alloc,
        "play",
        "Runs the lines of standard input over a device in memory",
        AFTER_PLAY,
    );
    with_argument(Ok(command), sectors)
}

// The program with no command yet.
fn bare_program<'a>(alloc: Global) -> Command<'a>
    ensures { IsOf usage.bare_program result }
{
    Command::new(alloc, "ssikvd")
        .about("An ordered store whose transactions are serializable")
        .after_help(AFTER_PROGRAM)
        .version(VERSION)
        .subcommand_required(true)
}

/// The whole command line. It may grow what `clap` keeps of it.
pub(crate) fn command<'a>(alloc: Global) -> Result<Command<'a>, AllocError>
    ensures { Makes usage.the_command_line result }
{
    let program = with_command(Ok(bare_program(alloc)), create(alloc));
    let program = with_command(program, serve(alloc));
    let program = with_command(program, check(alloc));
    let program = with_command(program, compact(alloc));
    with_command(program, play(alloc))
}
