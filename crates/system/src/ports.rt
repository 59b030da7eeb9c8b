//! Listening at addresses of the operating system, and the server that takes the turns of the loop.
use commands::{Lines, Ports, Turns, Unserved};
use event_loop::EventLoop;
use sector::FileSectors;
use sessions::Hub;
use std::alloc::Global;
use std::io;
use std::net::{Net, SocketAddr};

/// The ports of the system. They take a hub that was opened.
#[derive(Drop)]
pub struct SystemPorts<'a, R> {
    rt: &'a R,
}

impl<'a, R> SystemPorts<'a, R> {
    /// Listens through this runtime. Takes no memory.
    pub fn new(rt: &'a R) -> Self {
        SystemPorts { rt }
    }
}

impl<R: Net> Ports<Hub<FileSectors>> for SystemPorts<'_, R> {
    ghost use Rattle.std.specs.Prelude.{◌≡◌, IfErr, IfOk};
    ghost use Rattle.system.specs.SystemTurns.{ServesAt};
    ghost use Rattle.sessions.specs.Restarts.{IsOpened};

    ghost takes = { λ hub. IsOpened hub };

    ghost listens = { λ _ address hub result _. IfOk result (λ server. ServesAt server.events address hub) };

    type Server = SystemServer;

    fn listen(
        &mut self,
        alloc: Global,
        address: SocketAddr,
        hub: Hub<FileSectors>,
    ) -> Result<SystemServer, Unserved<Hub<FileSectors>>>
        requires { IsOpened hub }
        ensures listens { IfOk result (λ server. ServesAt server.events address hub) }
        ensures back { IfErr result (λ unserved. unserved.hub ≡ hub) }
    {
        match EventLoop::bind(self.rt, alloc, address, hub) {
            Ok(events) => Ok(SystemServer { events }),
            Err(unbound) => Err(Unserved {
                error: unbound.error,
                hub: unbound.hub,
            }),
        }
    }
}

/// The loop over the system's sockets and a file.
#[derive(Drop)]
pub struct SystemServer {
    events: EventLoop<FileSectors>,
}

impl SystemServer {
    ghost use Rattle.event_loop.specs.Sockets.{SocketsReport};
    ghost use Rattle.system.specs.OneRun.{ServesInOneRun};

    /// Does nothing, and takes no memory. Its contract is the law of all connections that a server ever has, under the premise that
    /// sockets report the bytes that they move: however its turns end, which `serve` takes and reports to `err`, they are in one run from
    /// the opening, in which all that ever left is kept (`EventLoop::law_all_have_one_run`).
    pub fn law_serves_in_one_run<E: Lines>(&self, err: &E)
        ensures run { SocketsReport → ServesInOneRun E.writes self.now err.now }
    {
        self.events.law_all_have_one_run();
    }
}

impl Turns for SystemServer {
    ghost use Rattle.std.specs.Prelude.{◌≡◌, IfOk};
    ghost use Rattle.event_loop.specs.Loops.{HasAddress, hub_of};
    ghost use Rattle.system.specs.SystemTurns.{HasStopped, TurnedSo};

    ghost turns = { λ old result new. TurnedSo old.events result new.events };

    ghost stops = { λ server stopped. HasStopped server.events stopped };

    ghost is_at = { λ server result. IfOk result (λ address. HasAddress server.events address) };

    ghost gives_back = { λ server hub. hub ≡ hub_of server.events };

    type Hub = Hub<FileSectors>;

    fn next_turn(&mut self) -> io::Result<()> {
        self.events.turn(None)
    }

    fn is_stopped(&self) -> bool {
        self.events.stopped()
    }

    fn address(&self) -> io::Result<SocketAddr> {
        self.events.address()
    }

    fn into_hub(self) -> Hub<FileSectors> {
        self.events.into_hub()
    }
}
