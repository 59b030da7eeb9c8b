//! The driver over a buffered stream whose session sees few of many keys: a RANGE that looks at many pages of them ends a share.
use crate::buffers::{add, entry_of, turn};
use std::process::Abort;
use stream_driver::{EntryState, Progress};
use test_hubs::{Driven, Script, Trouble};

/// How many keys a transaction sets.
const SETS: usize = 50;

/// How many transactions set all keys, one behind another.
const TRANSACTIONS: usize = 60;

const BEGIN: &[u8] = b"*1\r\n$5\r\nBEGIN\r\n";

const COMMIT: &[u8] = b"*1\r\n$6\r\nCOMMIT\r\n";

/// All keys.
const ALL: &[u8] = b"*4\r\n$5\r\nRANGE\r\n$1\r\n1\r\n$0\r\n\r\n$3\r\n128\r\n";

/// The first 60 keys.
const SOME: &[u8] = b"*4\r\n$5\r\nRANGE\r\n$5\r\n10000\r\n$5\r\n10060\r\n$3\r\n128\r\n";

/// Adds a transaction that sets keys of five digits, from this one on, so far apart.
fn add_transaction<R: Abort + AllocGlobal>(
    rt: &R,
    input: &mut Vec<u8>,
    first: usize,
    apart: usize,
) {
    add(rt, input, BEGIN);
    let mut key = first;
    for _ in 0..SETS {
        let set = format!(in rt.alloc(); "*3\r\n$3\r\nSET\r\n$5\r\n{key}\r\n$1\r\n1\r\n");
        add(rt, input, set.expect(rt, "memory").as_bytes());
        key = key.saturating_add(apart);
    }
    add(rt, input, COMMIT);
}

/// A session joins and is driven over a peer that sends this: until all was read and it has left, or until the n-th call blocks.
fn asks<R: Abort + AllocGlobal>(
    rt: &R,
    driven: &mut Driven,
    session: u64,
    input: Vec<u8>,
    nth: u64,
) {
    driven.join(session);
    let mut peer = Script::new(input, Vec::new(rt.alloc()), nth, Trouble::Blocked);
    for _ in 0..100u32 {
        if driven.drive(session, &mut peer) != Progress::Again {
            break;
        }
    }
}

/// A store of 3,000 keys, of which session 2 sees 50, one in 60: its transaction began when there were no others.
fn few_of_many<R: Abort + AllocGlobal>(rt: &R) -> Driven {
    let mut driven = Driven::new(rt.alloc()).expect(rt, "a hub");
    let mut few = Vec::new(rt.alloc());
    add_transaction(rt, &mut few, 10_000, TRANSACTIONS);
    asks(rt, &mut driven, 1, few, 0);
    let begin = BEGIN.to_vec(rt.alloc()).expect(rt, "memory");
    asks(rt, &mut driven, 2, begin, 3);
    let mut all = Vec::new(rt.alloc());
    let mut first = 10_000usize;
    for _ in 0..TRANSACTIONS {
        add_transaction(rt, &mut all, first, 1);
        first = first.saturating_add(SETS);
    }
    asks(rt, &mut driven, 3, all, 0);
    assert!(rt; driven.is_present(2) && !driven.is_present(3));
    driven
}

/// What has come after so many turns over two peers, which are ready.
#[derive(Clone, Copy, PartialEq, Debug)]
struct Came {
    /// How many replies to four requests in one piece, of session 2.
    replies: usize,
    /// Is its stream heavy, and is it a writer's?
    is_heavy: bool,
    is_writer: bool,
    /// Was the other answered a PING?
    is_ponged: bool,
}

/// After so many turns, where each of the four requests is this.
fn came_after<R: Abort + AllocGlobal>(rt: &R, turns: u32, request: &[u8]) -> Came {
    let mut driven = few_of_many(rt);
    let mut input = Vec::new(rt.alloc());
    for _ in 0..4u32 {
        add(rt, &mut input, request);
    }
    let ping = b"*1\r\n$4\r\nPING\r\n".to_vec(rt.alloc());
    let one = Script::new(input, Vec::new(rt.alloc()), 0, Trouble::Fewer);
    let other = Script::new(
        ping.expect(rt, "memory"),
        Vec::new(rt.alloc()),
        0,
        Trouble::Fewer,
    );
    driven.join(4);
    let mut one = entry_of(rt, 2, one, EntryState::Ready);
    let mut other = entry_of(rt, 4, other, EntryState::Ready);
    for _ in 0..turns {
        let _ = turn(&mut driven, &mut one, false);
        let _ = turn(&mut driven, &mut other, false);
    }
    let (is_heavy, is_writer) = (one.stream.is_heavy(), one.stream.is_writer());
    let one = one.stream.into_inner();
    let other = other.stream.into_inner();
    Came {
        replies: one.sent().iter().filter(|byte| **byte == b'*').count(),
        is_heavy,
        is_writer,
        is_ponged: other.sent() == b"+PONG\r\n".as_slice(),
    }
}

/// With the reply to a RANGE over all keys the share ends: the first of four in one piece is answered in the first turn, and two in each
/// later one, since the next is served, too, and its reply waits. The stream is heavy then. Another is answered in the first turn.
#[test]
fn much_looking_ends_the_share(rt: HostRuntime) {
    for (turns, replies) in [(1u32, 1usize), (2, 3), (3, 4)] {
        let expected = Came {
            replies,
            is_heavy: true,
            is_writer: false,
            is_ponged: true,
        };
        let came = came_after(&rt, turns, ALL);
        assert!(rt; came == expected, "{turns} turns: {came:?}");
    }
}

/// Over neighbouring keys all four are answered in one turn.
#[test]
fn little_looking_ends_no_share(rt: HostRuntime) {
    let expected = Came {
        replies: 4,
        is_heavy: false,
        is_writer: false,
        is_ponged: true,
    };
    assert!(rt; came_after(&rt, 1, SOME) == expected);
}
