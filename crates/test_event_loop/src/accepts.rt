//! The accepts of a turn, from a listener in memory.
use event_loop::{
    AcceptAnswer, AcceptedSocket, Backlog, CountedPoll, Listener, Socket, accept_some,
};
use mio::net::TcpStream;
use slab::Slab;
use std::net::{Ipv4Addr, SocketAddr, TcpListener};
use stream_driver::{BufferedStream, Entry};
use test_hubs::new_hub;

/// A listener that gives the connections that it has, and then blocks or fails.
#[derive(Drop)]
struct Waiting {
    streams: Vec<TcpStream>,
    fails: bool,
    asked: u64,
    accepted: u64,
    blocked: u64,
    failed: u64,
}

impl Waiting {
    fn new(streams: Vec<TcpStream>, fails: bool) -> Waiting {
        Waiting {
            streams,
            fails,
            asked: 0,
            accepted: 0,
            blocked: 0,
            failed: 0,
        }
    }

    fn counts(&self) -> (u64, u64, u64) {
        (self.accepted, self.blocked, self.failed)
    }
}

impl Listener for Waiting {
    ghost accepts = { λ w. record { asked = w.asked; accepted = w.accepted; blocked = w.blocked; failed = w.failed } };

    fn accept(&mut self) -> AcceptAnswer {
        self.asked = self.asked.saturating_add(1);
        match self.streams.pop() {
            Some(stream) => {
                self.accepted = self.accepted.saturating_add(1);
                AcceptAnswer::Accepted(AcceptedSocket::new(stream))
            }
            None if self.fails => {
                self.failed = self.failed.saturating_add(1);
                AcceptAnswer::Failed
            }
            None => {
                self.blocked = self.blocked.saturating_add(1);
                AcceptAnswer::Blocked
            }
        }
    }
}

/// Of 130 connections a turn takes 128 and says that there may be more; the next one takes two and says why it stopped.
#[test]
fn two_turns(rt: HostRuntime) {
    let alloc = rt.alloc();
    let poll = CountedPoll::new(&rt).expect(&rt, "a poll");
    let anywhere = SocketAddr::from((Ipv4Addr::LOCALHOST, 0));
    let listener = TcpListener::bind(&rt, anywhere).expect(&rt, "a listener");
    let address = listener.local_addr().expect(&rt, "an address");
    let mut streams = Vec::new(alloc);
    for _ in 0..130u32 {
        let stream = TcpStream::connect(&rt, address).expect(&rt, "a connection");
        streams.push(stream).expect(&rt, "memory");
    }
    let mut hub = new_hub(alloc, 4096).expect(&rt, "a hub");
    let mut waiting = Waiting::new(streams, false);
    let mut table = Slab::<Entry<BufferedStream<Socket>>>::new(alloc);
    let mut next = 0u64;
    let mut refused = 0u64;
    let first = accept_some(
        alloc,
        &poll,
        &mut waiting,
        &mut hub,
        &mut next,
        &mut refused,
        &mut table,
    );
    assert_eq!(rt; (first, waiting.counts()), (Backlog::More, (128, 0, 0)));
    assert_eq!(rt; (next, table.len()), (128, 128));
    let second = accept_some(
        alloc,
        &poll,
        &mut waiting,
        &mut hub,
        &mut next,
        &mut refused,
        &mut table,
    );
    assert_eq!(rt; (second, waiting.counts()), (Backlog::Empty, (130, 1, 0)));
    assert_eq!(rt; (next, table.len()), (128, 128));
    assert_eq!(rt; refused, 0);
}

/// An accept that fails ends a turn, and lets nobody in.
#[test]
fn a_failed_accept(rt: HostRuntime) {
    let alloc = rt.alloc();
    let poll = CountedPoll::new(&rt).expect(&rt, "a poll");
    let mut hub = new_hub(alloc, 4096).expect(&rt, "a hub");
    let mut failing = Waiting::new(Vec::new(alloc), true);
    let mut table = Slab::<Entry<BufferedStream<Socket>>>::new(alloc);
    let mut next = 0u64;
    let mut refused = 0u64;
    let backlog = accept_some(
        alloc,
        &poll,
        &mut failing,
        &mut hub,
        &mut next,
        &mut refused,
        &mut table,
    );
    assert_eq!(rt; (backlog, failing.counts()), (Backlog::Failed, (0, 0, 1)));
    assert_eq!(rt; (next, table.len(), refused), (0, 0, 0));
}
