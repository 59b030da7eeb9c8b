//! What a loop listens with, before it has a hub.
ghost use Rattle.event_loop.specs.Loops.{HearsAt};

use crate::lingering::{LINGERING_MAX, Lingering};
use crate::listener::Port;
use crate::polling::Poller;
use crate::server::LISTENER;
use mio::Interest;
use sector::Sectors;
use sessions::{Hub, SESSIONS_MAX};
use socket_calls::{CountedPoll, ListeningSocket};
use std::alloc::Global;
use std::io;
use std::net::{Net, SocketAddr};

/// A hub for whose sessions nobody listens, and why.
#[derive(Drop)]
pub struct Unbound<D: Sectors> {
    /// Why: the system's error, or out of memory.
    pub error: io::Error,
    /// The hub, as it was.
    pub hub: Hub<D>,
}

/// A listener, the poll that reports it, and room for the connections that linger, of which there are none.
#[derive(Drop)]
pub(crate) struct Listening {
    pub(crate) poller: Poller,
    pub(crate) port: Port,
    pub(crate) lingering: Lingering,
}

impl Listening {
    ghost use Rattle.std.specs.Prelude.{IfOk};

    /// Listens at an address. The poll reports the listener under a key that no entry of a table has. A fault is the system's, or out of
    /// memory.
    pub(crate) fn at<R: Net>(rt: &R, alloc: Global, address: SocketAddr) -> io::Result<Listening>
        ensures { IfOk result (HearsAt address) }
    {
        let poll = CountedPoll::new(rt)?;
        let mut listener = ListeningSocket::bind(rt, address)?;
        listener.register(&poll, LISTENER, Interest::READABLE)?;
        let poller = Poller::new(alloc, poll, SESSIONS_MAX + LINGERING_MAX + 1)?;
        let lingering = Lingering::new(alloc)?;
        Ok(Listening {
            poller,
            port: Port::new(listener),
            lingering,
        })
    }
}
