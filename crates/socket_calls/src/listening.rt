//! A listening socket, with the accepts that were asked of it counted.
ghost use Rattle.std.specs.Prelude.{◌≡◌, IfOk, OnOk};

use crate::counted::AcceptedSocket;
use crate::polled::CountedPoll;
use mio::net::TcpListener;
use mio::{Interest, Token};
use std::io;
use std::net::{Net, SocketAddr};

/// A TCP socket that listens at an address, with the number of accepts that were asked of it. Once the count is 2^64 - 1 it stays.
#[derive(Drop)]
pub struct ListeningSocket {
    listener: TcpListener,
    accepts: u64,
}

impl ListeningSocket {
    ghost use Rattle.socket_calls.specs.HappenedCalls.{IsAddressOf, ListensAt, ReportsAccepts, WasAccepted};
    ghost use Rattle.socket_calls.specs.OpenFacts.{asked_once};

    /// Listens at an address. Port 0 stands for one that the system picks. Answers the system's error. Takes no memory.
    pub fn bind<R: Net>(rt: &R, address: SocketAddr) -> io::Result<ListeningSocket>
        ensures listens { IfOk result (λ listener. ListensAt listener address) }
        ensures accepts { IfOk result (λ listener. listener.accepts ≡ 0) }
    {
        Ok(ListeningSocket {
            listener: TcpListener::bind(rt, address)?,
            accepts: 0,
        })
    }

    /// Has a poll report it under this token, for what these interests name. Answers the system's error.
    pub fn register(
        &mut self,
        poll: &CountedPoll,
        token: Token,
        interests: Interest,
    ) -> io::Result<()>
        ensures same { self.new ≡ self.old }
        ensures registered { OnOk result (ReportsAccepts self.old token interests) }
    {
        poll.registry()
            .register(&mut self.listener, token, interests)
    }

    /// Takes the next connection that waits, with the address of its peer. Answers the system's error, also where none waits. Takes no
    /// memory.
    pub fn accept(&mut self) -> io::Result<(AcceptedSocket, SocketAddr)>
        ensures once { self.new ≡ asked_once self.old }
        ensures gave { IfOk result (λ given. WasAccepted self.old given.0) }
    {
        self.accepts = self.accepts.saturating_add(1);
        let (stream, address) = self.listener.accept()?;
        Ok((AcceptedSocket::new(stream), address))
    }

    /// The address that it listens at. Answers the system's error. Takes no memory.
    pub fn address(&self) -> io::Result<SocketAddr>
        ensures { IfOk result (λ address. IsAddressOf self.now address) }
    {
        self.listener.local_addr()
    }
}
