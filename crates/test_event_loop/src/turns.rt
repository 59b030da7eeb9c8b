//! A turn over a table of connections, compared with drives of each connection alone.
ghost use Rattle.event_loop.specs.Numbers.{SessionsAreBelow};
ghost use Rattle.stream_driver.specs.Entries.{HaveSessions};
ghost use Rattle.stream_driver.specs.Sessions.{Stands};

use sector::MemSectors;
use sessions::{Event, Hub, Outcome, Status};
use slab::Slab;
use std::process::Abort;
use stream_driver::{Entry, EntryState, drive_ready, drive_ready_then};
use test_hubs::{Driven, Script, Trouble, new_hub};

/// The number of the first session.
const FIRST: u64 = 20;

const OPENING: &[u8] = b"*1\r\n$5\r\nBEGIN\r\n*3\r\n$3\r\nSET\r\n$1\r\na\r\n$1\r\n1\r\n";

const WRITING: &[u8] =
    b"*1\r\n$5\r\nBEGIN\r\n*3\r\n$3\r\nSET\r\n$1\r\na\r\n$1\r\n1\r\n*1\r\n$6\r\nCOMMIT\r\n";

const BEGUN: &[u8] = b"*1\r\n$5\r\nBEGIN\r\n*2\r\n$3\r\nGET\r\n$1\r\na\r\n";

const READING: &[u8] = b"*2\r\n$3\r\nGET\r\n$1\r\na\r\n";

/// A peer: how many reads it sends, which of its calls meets trouble, and how its connection stands before a turn and after it.
#[derive(Clone, Copy)]
struct Peer {
    reads: u32,
    nth: u64,
    trouble: Trouble,
    before: EntryState,
    after: EntryState,
}

impl Peer {
    fn new(reads: u32, nth: u64, trouble: Trouble, before: EntryState, after: EntryState) -> Peer {
        Peer {
            reads,
            nth,
            trouble,
            before,
            after,
        }
    }

    /// What it sends: a transaction with its reads, and the beginning of a request.
    fn script<R: Abort + AllocGlobal>(self, rt: &R) -> Script {
        let mut input = OPENING.to_vec(rt.alloc()).expect(rt, "memory");
        for _ in 0..self.reads {
            input.extend_from_slice(READING).expect(rt, "memory");
        }
        input.extend_from_slice(b"*1").expect(rt, "memory");
        Script::new(input, Vec::new(rt.alloc()), self.nth, self.trouble)
    }
}

/// Its first call is the read that gives all, the next ones write a reply each, and the last one reads on.
fn peers() -> [Peer; 7] {
    let (idle, ready, gone) = (EntryState::Idle, EntryState::Ready, EntryState::Gone);
    [
        Peer::new(1, 5, Trouble::Blocked, ready, idle),
        Peer::new(1, 0, Trouble::Fewer, idle, idle),
        Peer::new(62, 0, Trouble::Fewer, ready, ready),
        Peer::new(1, 0, Trouble::Fewer, gone, gone),
        Peer::new(1, 0, Trouble::Fewer, ready, gone),
        Peer::new(1, 2, Trouble::Failed, ready, gone),
        Peer::new(1, 3, Trouble::Blocked, ready, idle),
    ]
}

/// A hub, and the connections of its sessions.
#[derive(Drop)]
struct Crowd {
    hub: Hub<MemSectors>,
    next: u64,
    table: Slab<Entry<Script>>,
    ghost stands: { Stands hub },
    ghost sessions: { HaveSessions hub table.slots },
    ghost numbers: { SessionsAreBelow next table.slots },
}

impl Crowd {
    fn new<R: Abort + AllocGlobal>(rt: &R) -> Crowd {
        Crowd {
            hub: new_hub(rt.alloc(), 4096).expect(rt, "a hub"),
            next: FIRST,
            table: Slab::new(rt.alloc()),
        }
    }

    /// A session joins, with its connection.
    fn join<R: Abort>(self, rt: &R, stream: Script, state: EntryState) -> Crowd {
        let Crowd {
            mut hub,
            next,
            mut table,
        } = self;
        if next < u64::MAX
            && table.reserve(1).is_ok()
            && let Outcome::Done = hub.step(&Event::Joined(next))
        {
            table.insert_reserved(Entry {
                session: next,
                stream,
                state,
            });
            return Crowd {
                hub,
                next: next + 1,
                table,
            };
        }
        rt.panic("a session did not join")
    }

    fn turn(&mut self) {
        drive_ready(&mut self.hub, &mut self.table);
    }

    /// A turn in which the entry at a key is driven last.
    fn turn_then(&mut self, last: usize) {
        drive_ready_then(&mut self.hub, &mut self.table, last);
    }
}

fn crowd_of<R: Abort + AllocGlobal>(rt: &R, peers: &[Peer]) -> Crowd {
    let mut crowd = Crowd::new(rt);
    for peer in peers {
        crowd = crowd.join(rt, peer.script(rt), peer.before);
    }
    crowd
}

/// An equal hub, none of whose sessions was driven.
fn hub_of<R: Abort + AllocGlobal>(rt: &R, peers: &[Peer]) -> Driven {
    let mut driven = Driven::new(rt.alloc()).expect(rt, "a hub");
    for (session, _) in (FIRST..u64::MAX).zip(peers) {
        driven.join(session);
    }
    driven
}

/// Do the hubs show the same of a session?
fn agree(one: &Hub<MemSectors>, other: &Hub<MemSectors>, session: u64) -> bool {
    one.status(session) == other.status(session)
        && one.room(session) == other.room(session)
        && one.pending(session) == other.pending(session)
}

/// Does the peer's connection, after a turn over this hub, stand as a drive of it alone leaves it, over an equal hub; or as it was, where
/// it wasn't ready?
fn stands<R: Abort + AllocGlobal>(
    rt: &R,
    hub: &Hub<MemSectors>,
    entry: &Entry<Script>,
    session: u64,
    peer: Peer,
) -> bool {
    let mut stream = peer.script(rt);
    let mut alone = hub_of(rt, &peers());
    if peer.before == EntryState::Ready {
        let _ = alone.drive(session, &mut stream);
    }
    let stands = entry.session == session && entry.state == peer.after;
    stands && entry.stream == stream && agree(hub, alone.hub(), session)
}

#[test]
fn a_turn(rt: HostRuntime) {
    let mut crowd = crowd_of(&rt, &peers());
    crowd.turn();
    assert!(rt; crowd.table.len() == peers().len());
    for (session, ((_, entry), peer)) in (FIRST..u64::MAX).zip(crowd.table.iter().zip(peers())) {
        assert!(rt;
            stands(&rt, &crowd.hub, entry, session, peer),
            "session {session}"
        );
    }
}

/// A connection whose peer sends one PING and ends.
fn pinged<R: Abort + AllocGlobal>(rt: &R) -> Script {
    let input = b"*1\r\n$4\r\nPING\r\n"
        .to_vec(rt.alloc())
        .expect(rt, "memory");
    Script::new(input, Vec::new(rt.alloc()), 0, Trouble::Fewer)
}

/// Three of them, of which the first and the third are ready.
fn three_pinged<R: Abort + AllocGlobal>(rt: &R) -> Crowd {
    let mut crowd = Crowd::new(rt);
    for state in [EntryState::Ready, EntryState::Idle, EntryState::Ready] {
        crowd = crowd.join(rt, pinged(rt), state);
    }
    crowd
}

/// The first and the third are answered, and gone at their ends, and the second is left alone.
#[test]
fn one_of_three_is_idle(rt: HostRuntime) {
    let (idle, gone) = (EntryState::Idle, EntryState::Gone);
    let mut crowd = three_pinged(&rt);
    crowd.turn();
    let pong = b"+PONG\r\n".as_slice();
    let expected = [(gone, pong), (idle, b"".as_slice()), (gone, pong)];
    assert!(rt; crowd.table.len() == expected.len());
    for ((_, entry), (state, sent)) in crowd.table.iter().zip(expected) {
        assert!(rt; entry.state == state && entry.stream.sent() == sent);
    }
    for (session, (state, _)) in (FIRST..u64::MAX).zip(expected) {
        assert!(rt; (crowd.hub.status(session) == Status::Absent) == (state == gone));
    }
}

/// A connection whose peer sends this and ends.
fn sending<R: Abort + AllocGlobal>(rt: &R, input: &[u8]) -> Script {
    let input = input.to_vec(rt.alloc()).expect(rt, "memory");
    Script::new(input, Vec::new(rt.alloc()), 0, Trouble::Fewer)
}

/// A peer that commits `a` in one piece, and behind it one that reads it.
fn writer_and_reader<R: Abort + AllocGlobal>(rt: &R) -> Crowd {
    Crowd::new(rt)
        .join(rt, sending(rt, WRITING), EntryState::Ready)
        .join(rt, sending(rt, BEGUN), EntryState::Ready)
}

/// Has the second peer found a value of `a`?
fn has_read(crowd: &Crowd) -> Option<bool> {
    let entry = crowd.table.get(1)?;
    Some(entry.stream.sent().ends_with(b"$1\r\n1\r\n"))
}

/// The reader comes behind the commit, unless the writer is the last.
#[test]
fn the_last_is_driven_behind_the_others(rt: HostRuntime) {
    let mut crowd = writer_and_reader(&rt);
    crowd.turn();
    assert!(rt; has_read(&crowd) == Some(true));
    for (last, expected) in [(0, false), (1, true), (2, true)] {
        let mut crowd = writer_and_reader(&rt);
        crowd.turn_then(last);
        assert!(rt; has_read(&crowd) == Some(expected), "last {last}");
    }
}
