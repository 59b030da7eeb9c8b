//! Reads and writes of a connection, each counted, and the options that are set on it.
ghost use Rattle.std.specs.Prelude.{◌≡◌, ◌≢◌, ◌↔◌, ◌-◌, ◌^◌, IsErr, take};
ghost use Rattle.std.specs.Io.{ReadsAtMost, WritesAtMost};
ghost use Rattle.libc.specs.Net.{SockOption};

use crate::polled::CountedPoll;
use libc::net as c;
use mio::net::TcpStream;
use mio::{Interest, Token};
use sector::Sectors;
use std::io::{self, ErrorKind, Read, Write};
use std::net::Shutdown;
use std::os::fd::AsRawFd;

/// A TCP connection that was accepted, of which no call was made. It can be counted or closed, and nothing else.
#[derive(Drop)]
pub struct AcceptedSocket {
    stream: TcpStream,
}

impl AcceptedSocket {
    /// The connection. Takes no memory.
    pub fn new(stream: TcpStream) -> AcceptedSocket {
        AcceptedSocket { stream }
    }
}

/// A TCP connection, with the number of reads and writes that were made of it. `read` and `write` make one call and count it. Once the
/// count is 2^64 - 1 it stays, and they fail (`Other`) without a call, so that no two calls are made at one count.
#[derive(Drop)]
pub struct CountedSocket {
    stream: TcpStream,
    /// The number that its maker gave it. Nothing but clauses reads it: it tells the connections of a run apart.
    connection: u64,
    calls: u64,
}

impl CountedSocket {
    ghost use Rattle.std.specs.Prelude.{IfErr, OnOk};
    ghost use Rattle.socket_calls.specs.HappenedCalls.{AsksWhetherThere, EndedWriting, SendsAtOnce, SocketAnswered};
    ghost use Rattle.socket_calls.specs.HappenedCalls.{WasReceived, WasRegistered, WasReregistered, WasSent};
    ghost use Rattle.socket_calls.specs.OpenFacts.{IsConnectionOf, moved, socket_after_call};

    /// The connection under this number, of which no call was made. Takes no memory.
    pub fn new(accepted: AcceptedSocket, connection: u64) -> CountedSocket
        ensures stream { IsConnectionOf accepted result }
        ensures calls { result.calls ≡ 0 }
        ensures connection { result.connection ≡ connection }
    {
        CountedSocket {
            stream: accepted.stream,
            connection,
            calls: 0,
        }
    }

    /// Has a poll report the connection under this token, for what these interests name. Answers the system's error. It is no counted call.
    pub fn register(
        &mut self,
        poll: &CountedPoll,
        token: Token,
        interests: Interest,
    ) -> io::Result<()>
        ensures same { self.new ≡ self.old }
        ensures registered { OnOk result (WasRegistered self.old token interests) }
        ensures error { IfErr result (λ e. SocketAnswered e) }
    {
        poll.registry().register(&mut self.stream, token, interests)
    }

    /// Has the poll that reports the connection do so under this token from now on, and for what these interests name alone. Answers the
    /// system's error. It is no counted call.
    pub fn reregister(
        &mut self,
        poll: &CountedPoll,
        token: Token,
        interests: Interest,
    ) -> io::Result<()>
        ensures same { self.new ≡ self.old }
        ensures registered { OnOk result (WasReregistered self.old token interests) }
        ensures error { IfErr result (λ e. SocketAnswered e) }
    {
        poll.registry()
            .reregister(&mut self.stream, token, interests)
    }

    /// Has the system send at once what is written, also where something is still to be acknowledged (TCP_NODELAY). Answers the system's
    /// error. It is no counted call.
    pub fn send_at_once(&self) -> io::Result<()>
        ensures sends { OnOk result (SendsAtOnce self.now) }
        ensures error { IfErr result (λ e. SocketAnswered e) }
    {
        self.stream.set_nodelay(true)
    }

    /// Has the system ask a peer whether it is still there (SO_KEEPALIVE): once it was silent for so many seconds, and again after each so
    /// many more. Where it answers none of so many probes, the connection ends with an error. Answers the system's error. It is no counted
    /// call.
    pub fn ask_whether_there(&self, silent: u32, between: u32, probes: u32) -> io::Result<()>
        ensures asks { OnOk result (AsksWhetherThere self.now silent between probes) }
        ensures error { IfErr result (λ e. SocketAnswered e) }
    {
        self.set_option(c::IPPROTO_TCP, c::TCP_KEEPIDLE, silent)?;
        self.set_option(c::IPPROTO_TCP, c::TCP_KEEPINTVL, between)?;
        self.set_option(c::IPPROTO_TCP, c::TCP_KEEPCNT, probes)?;
        self.set_option(c::SOL_SOCKET, c::SO_KEEPALIVE, 1)
    }

    /// Sets an option of the connection to a number. Answers the system's error.
    fn set_option(&self, level: i32, name: i32, value: u32) -> io::Result<()>
        requires { SockOption level name }
    {
        let mut bytes = [0u8; 16];
        bytes[..4].copy_from_slice(&value.to_ne_bytes());
        if unsafe { c::setsockopt(self.stream.as_raw_fd(), level, name, &bytes, 4) } < 0 {
            return Err(io::Error::from_raw_os_error(os::errno()));
        }
        Ok(())
    }

    /// Reads some bytes, and says how many. Answers the system's error. Takes no memory.
    pub fn read(&mut self, into: &mut [u8]) -> io::Result<usize>
        ensures bound { ReadsAtMost result into.new }
        ensures next { self.new ≡ socket_after_call self.old }
        ensures over { self.old.calls ≡ 2 ^ 64 - 1 → IsErr result }
        ensures happened { self.old.calls ≢ 2 ^ 64 - 1 → WasReceived self.old (take (moved result) into.new) }
    {
        self.count_call()?;
        self.stream.read(into)
    }

    /// Writes some bytes from the front, and says how many. Answers the system's error. It is shown the device of the store, which can't
    /// be copied: so this is how it stands as the bytes leave. Takes no memory.
    pub fn write<D: Sectors>(&mut self, device: &D, from: &[u8]) -> io::Result<usize>
        ensures bound { WritesAtMost result from.now }
        ensures next { self.new ≡ socket_after_call self.old }
        ensures over { self.old.calls ≡ 2 ^ 64 - 1 → IsErr result }
        ensures happened { self.old.calls ≢ 2 ^ 64 - 1
            → WasSent self.old (take (moved result) from.now) (D.moment device.now) }
    {
        // Shown for the clause `happened` alone, which says at which moment the bytes left.
        let _ = device;
        self.count_call()?;
        self.stream.write(from)
    }

    /// Shuts the connection down for writing once what was written has gone. Answers the system's error. It is no counted call.
    pub fn end_writing(&self) -> io::Result<()>
        ensures ended { OnOk result (EndedWriting self.now) }
        ensures error { IfErr result (λ e. SocketAnswered e) }
    {
        self.stream.shutdown(Shutdown::Write)
    }

    /// Counts a call; `Other` where no more can be counted.
    fn count_call(&mut self) -> io::Result<()>
        ensures next { self.new ≡ socket_after_call self.old }
        ensures over { IsErr result ↔ (self.old.calls ≡ 2 ^ 64 - 1) }
    {
        if self.calls == u64::MAX {
            return Err(io::Error::from(ErrorKind::Other));
        }
        self.calls += 1;
        Ok(())
    }
}
