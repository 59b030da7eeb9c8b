//! Runs a command line: reads it, runs the command that it names, and reports how that ended.
ghost use Rattle.commands.specs.Running.{Does, RunsInvocation};
ghost use Rattle.commands.specs.Serving.{TakesOpened};
ghost use Rattle.command_line.specs.Ranges.{IsInRange};

use crate::compacting::compact;
use crate::data::{check, create};
use crate::endings::{Ending, finish};
use crate::faults::Fault;
use crate::serving::serve;
use crate::system::{DataFiles, Environment, Lines, Ports, Scripts, Words};
use command_line::Invocation;
use sessions::Hub;
use std::alloc::Global;
use std::time::Clock;

/// Runs the command that the words ask for, over whatever says what is asked, opens and makes files, listens, plays scripts and takes
/// lines, and answers the exit status: `DONE`, `REFUSED` for a command line that was refused, `BAD_LINE` for a line of a script that was,
/// `FAULT` otherwise. What went wrong is written on the error output. It does nothing else: its contract names each call of these, in their
/// order, and the status.
///
/// It takes the memory of the command and of reading the words.
pub fn run_command<
    C: Clock,
    W: Words,
    F: DataFiles,
    P: Ports<Hub<F::Device>>,
    S: Scripts<O> + Drop,
    O: Lines,
    E: Lines,
>(clock: &C, alloc: Global, words: &W, environment: &mut Environment<F, P, O, E>, scripts: S) -> u8
    requires { TakesOpened P.takes }
    ensures { RunsInvocation F.DataFiles P.Ports P.Server.Turns S.Scripts O.Lines E.Lines W.asks words.now scripts
        environment.old result environment.new }
{
    match words.invocation(alloc) {
        Ok(invocation) => {
            let done = execute(clock, alloc, invocation, environment, scripts);
            finish(
                &Ending::from(done),
                &mut environment.out,
                &mut environment.err,
            )
            .status
        }
        Err(refusal) => finish(
            &Ending::from(refusal),
            &mut environment.out,
            &mut environment.err,
        )
        .status,
    }
}

// Does what is asked.
fn execute<
    C: Clock,
    F: DataFiles,
    P: Ports<Hub<F::Device>>,
    S: Scripts<O> + Drop,
    O: Lines,
    E: Lines,
>(
    clock: &C,
    alloc: Global,
    invocation: Invocation<'_>,
    environment: &mut Environment<F, P, O, E>,
    scripts: S,
) -> Result<(), Fault>
    requires opened { TakesOpened P.takes }
    requires range { IsInRange invocation }
    ensures { Does F.DataFiles P.Ports P.Server.Turns S.Scripts O.Lines E.Lines scripts environment.old invocation.entry
        result environment.new }
{
    match invocation {
        Invocation::Create { data, sectors } => create(&mut environment.files, data, sectors),
        Invocation::Serve { data, listen } => serve(alloc, environment, data, listen),
        Invocation::Check { data } => check(
            alloc,
            &mut environment.files,
            data,
            &mut environment.out,
        ),
        Invocation::Compact { from, to, sectors } => compact(
            clock,
            alloc,
            environment,
            from,
            to,
            sectors,
        ),
        Invocation::Play { sectors } => scripts
            .play(alloc, sectors, &mut environment.out)
            .map_err(Fault::from),
    }
}
