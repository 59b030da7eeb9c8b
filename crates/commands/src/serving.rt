//! `serve`: opens a data file, listens, prints the address, and takes turns until one fails.
ghost use Rattle.commands.specs.Notices.{listening_line};
ghost use Rattle.commands.specs.Printing.{Prints};
ghost use Rattle.commands.specs.Serving.{EndsServing, EndsTurns, Opening, ReportsStop, RunsServer, TakesOpened};

use crate::faults::{Fault, or_memory};
use crate::system::{DataFiles, Environment, Lines, Ports, Turns};
use sessions::Hub;
use std::alloc::Global;
use std::io;
use std::net::SocketAddr;

/// Opens a data file, listens at an address, prints `listening` and the address that the system gave, and takes turns until one fails. It
/// reports once, on the error output, that the store has stopped. Whatever ends it, it closes the file that it opened, as the hub of its
/// server left it. It does nothing else: its contract names each call of the files, the ports, the server and the outputs, in their order.
/// It ends without a fault once it has taken 2^64 - 1 turns, as `serve_turns` does.
///
/// A fault is `Listen`, which for a text that is no address comes before the file is opened, `File`, the log's, `Poll`, or `Memory`.
/// It takes the memory of the log's map and of the sessions and their requests.
pub fn serve<F: DataFiles, P: Ports<Hub<F::Device>>, O: Lines, E: Lines>(
    alloc: Global,
    environment: &mut Environment<F, P, O, E>,
    data: &str,
    listen: &str,
) -> Result<(), Fault>
    requires { TakesOpened P.takes }
    ensures { EndsServing F.DataFiles P.Ports P.Server.Turns O.Lines E.Lines data.now listen.now environment.old result
        environment.new }
{
    let mut server = open(
        alloc,
        &mut environment.files,
        &mut environment.ports,
        data,
        listen,
    )?;
    let served = run_server(
        alloc,
        &mut server,
        &mut environment.out,
        &mut environment.err,
    );
    environment.files.close(server.into_hub().into_device());
    served
}

// Prints the line of the address that a server has, and takes its turns until one fails.
fn run_server<S: Turns, O: Lines, E: Lines>(
    alloc: Global,
    server: &mut S,
    out: &mut O,
    err: &mut E,
) -> Result<(), Fault>
    ensures { RunsServer S.Turns O.Lines E.Lines server.old out.old err.old result (server.new, out.new, err.new) }
{
    let Ok(address) = server.address() else {
        return Err(Fault::Listen);
    };
    print_listening(alloc, address, out)?;
    serve_turns(server, err)
}

/// Takes turns until one fails, and reports once, on `err`, that the store has stopped: after the first turn that leaves it so. Where that
/// can't be written, nothing more is done. It counts its turns, and ends without a fault after 2^64 - 1 of them, which takes more than five
/// centuries at a turn a nanosecond.
///
/// A fault is `Poll`, or `Memory`, that of the turn that failed. It takes the memory of the turns.
pub fn serve_turns<S: Turns, E: Lines>(server: &mut S, err: &mut E) -> Result<(), Fault>
    ensures { EndsTurns S.turns S.stops E.writes server.old err.old result server.new err.new }
{
    let mut reported = false;
    for _turn in 0..u64::MAX {
        if let Err(error) = server.next_turn() {
            return Err(or_memory(&error, Fault::Poll));
        }
        report_stop(&mut reported, server.is_stopped(), err);
    }
    Ok(())
}

// After a turn: reports that the store has stopped, in one write, unless that was reported.
fn report_stop<E: Lines>(reported: &mut bool, is_stopped: bool, err: &mut E)
    ensures { ReportsStop E.writes reported.old is_stopped err.old reported.new err.new }
{
    if *reported || !is_stopped {
        return;
    }
    *reported = true;
    let _ = err.write_line(b"ssikvd: store stopped\n".as_slice());
}

// Prints the line of the address that is listened at, in one write. It takes the memory of the line.
fn print_listening<O: Lines>(alloc: Global, address: SocketAddr, out: &mut O) -> io::Result<()>
    ensures { Prints O.writes (listening_line address) out.old result out.new }
{
    let line = format!(in alloc; "listening {address}\n")?;
    out.write_line(line.as_bytes())
}

/// Opens a data file and listens at an address. Its faults are those of `serve` but `Poll`. A file that holds no store, or for whose store
/// nobody listens, is closed as the opening left it: a crash of it leaves what one before could have left.
pub(crate) fn open<F: DataFiles, P: Ports<Hub<F::Device>>>(
    alloc: Global,
    files: &mut F,
    ports: &mut P,
    data: &str,
    listen: &str,
) -> Result<P::Server, Fault>
    requires { TakesOpened P.takes }
    ensures { Opening F.DataFiles P.Ports data.now listen.now files.old ports.old result (files.new, ports.new) }
{
    let Ok(address) = listen.parse::<SocketAddr>() else {
        return Err(Fault::Listen);
    };
    let device = files.open(data)?;
    let hub = match Hub::open(alloc, device) {
        Ok(hub) => hub,
        Err(unopened) => {
            files.close(unopened.device);
            return Err(Fault::from(unopened.fault));
        }
    };
    match ports.listen(alloc, address, hub) {
        Ok(server) => Ok(server),
        Err(unserved) => {
            files.close(unserved.hub.into_device());
            Err(or_memory(&unserved.error, Fault::Listen))
        }
    }
}
