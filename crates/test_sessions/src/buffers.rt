//! The driver over peers in memory, through a buffered stream.
use std::process::Abort;
use stream_driver::{BufferedStream, Entry, EntryState, Progress, SHARE_MAX, end_drive};
use test_hubs::{Driven, Script, Trouble};

/// A transaction that is not committed: a value of 16,000 bytes is set, and read so many times. And what it is answered.
fn transaction<R: Abort + AllocGlobal>(rt: &R, reads: u32) -> (Vec<u8>, Vec<u8>) {
    let value = [b'v'; 16_000];
    let mut input = Vec::new(rt.alloc());
    let mut replies = Vec::new(rt.alloc());
    add(
        rt,
        &mut input,
        b"*1\r\n$5\r\nBEGIN\r\n*3\r\n$3\r\nSET\r\n$1\r\na\r\n$16000\r\n",
    );
    add(rt, &mut input, &value);
    add(rt, &mut input, b"\r\n");
    add(rt, &mut replies, b"+OK\r\n+OK\r\n");
    for _ in 0..reads {
        add(rt, &mut input, b"*2\r\n$3\r\nGET\r\n$1\r\na\r\n");
        add(rt, &mut replies, b"$16000\r\n");
        add(rt, &mut replies, &value);
        add(rt, &mut replies, b"\r\n");
    }
    (input, replies)
}

/// A transaction that is not committed: values of 16,000 bytes are set under twenty keys, and read by one RANGE. And what it is answered.
fn wide_transaction<R: Abort + AllocGlobal>(rt: &R) -> (Vec<u8>, Vec<u8>) {
    let value = [b'v'; 16_000];
    let mut input = Vec::new(rt.alloc());
    let mut replies = Vec::new(rt.alloc());
    let mut pairs = Vec::new(rt.alloc());
    add(rt, &mut input, b"*1\r\n$5\r\nBEGIN\r\n");
    add(rt, &mut replies, b"+OK\r\n");
    for key in b"abcdefghijklmnopqrst" {
        add(rt, &mut input, b"*3\r\n$3\r\nSET\r\n");
        add_pair(rt, &mut input, *key, &value);
        add(rt, &mut replies, b"+OK\r\n");
        add_pair(rt, &mut pairs, *key, &value);
    }
    add(
        rt,
        &mut input,
        b"*4\r\n$5\r\nRANGE\r\n$1\r\na\r\n$0\r\n\r\n$3\r\n128\r\n",
    );
    add(rt, &mut replies, b"*40\r\n");
    add(rt, &mut replies, &pairs);
    (input, replies)
}

/// A key of one byte and a value of 16,000.
fn add_pair<R: Abort>(rt: &R, bytes: &mut Vec<u8>, key: u8, value: &[u8; 16_000]) {
    add(rt, bytes, b"$1\r\n");
    add(rt, bytes, &[key]);
    add(rt, bytes, b"\r\n$16000\r\n");
    add(rt, bytes, value);
    add(rt, bytes, b"\r\n");
}

pub(crate) fn add<R: Abort>(rt: &R, bytes: &mut Vec<u8>, more: &[u8]) {
    bytes.extend_from_slice(more).expect(rt, "memory");
}

/// One turn of an entry, which the poll reports or not. Is it over?
pub(crate) fn turn(
    driven: &mut Driven,
    entry: &mut Entry<BufferedStream<Script>>,
    has_ended_share: bool,
) -> bool {
    if entry.state == EntryState::Ready || has_ended_share && entry.state == EntryState::Idle {
        entry.state = match driven.drive(entry.session, &mut entry.stream) {
            Progress::Waiting => EntryState::Idle,
            Progress::Again => EntryState::Ready,
            Progress::Gone => EntryState::Gone,
        };
    }
    end_drive(driven.hub().device(), entry)
}

/// A peer's entry, which stands so.
pub(crate) fn entry_of<R: Abort + AllocGlobal>(
    rt: &R,
    session: u64,
    peer: Script,
    state: EntryState,
) -> Entry<BufferedStream<Script>> {
    let stream = BufferedStream::new(rt.alloc(), peer).expect(rt, "memory");
    Entry {
        session,
        stream,
        state,
    }
}

/// A peer once its entry is over.
fn served<R: Abort + AllocGlobal>(
    rt: &R,
    driven: &mut Driven,
    session: u64,
    script: Script,
) -> Script {
    let mut entry = entry_of(rt, session, script, EntryState::Ready);
    let mut is_over = false;
    for _ in 0..8u32 {
        is_over = is_over || turn(driven, &mut entry, true);
    }
    assert!(rt; is_over);
    entry.stream.into_inner()
}

/// Where the n-th call is in trouble, do all replies come out, or a prefix of them where it failed, and has the session then left?
fn is_right<R: Abort + AllocGlobal>(
    rt: &R,
    driven: &mut Driven,
    reads: u32,
    trouble: Trouble,
    nth: u64,
) -> bool {
    let (input, replies) = transaction(rt, reads);
    driven.join(nth);
    let peer = Script::new(input, Vec::new(rt.alloc()), nth, trouble);
    let peer = served(rt, driven, nth, peer);
    let is_whole = peer.sent() == replies.as_slice() || trouble == Trouble::Failed;
    is_whole && replies.starts_with(peer.sent()) && !driven.is_present(nth)
}

/// The n-th call of the peer moves one byte, blocks or fails, for each n. With ten reads the replies are more than are buffered.
#[test]
fn a_call_in_trouble(rt: HostRuntime) {
    for reads in [1u32, 10] {
        for trouble in [Trouble::Fewer, Trouble::Blocked, Trouble::Failed] {
            let mut driven = Driven::new(rt.alloc()).expect(&rt, "a hub");
            for nth in 1..=9u64 {
                assert!(rt;
                    is_right(&rt, &mut driven, reads, trouble, nth),
                    "{reads} reads, {nth} {trouble:?}"
                );
            }
        }
    }
}

/// What two peers have got after so many turns. No poll reports the first, which sends this; the second sends a PING, and is reported in
/// the second turn.
fn got_after<R: Abort + AllocGlobal>(rt: &R, turns: u32, input: &[u8]) -> (Script, Script) {
    let asks = input.to_vec(rt.alloc()).expect(rt, "memory");
    let pings = b"*1\r\n$4\r\nPING\r\n"
        .to_vec(rt.alloc())
        .expect(rt, "memory");
    let one = Script::new(asks, Vec::new(rt.alloc()), 0, Trouble::Fewer);
    let other = Script::new(pings, Vec::new(rt.alloc()), 0, Trouble::Fewer);
    let mut driven = Driven::new(rt.alloc()).expect(rt, "a hub");
    driven.join(1);
    driven.join(2);
    let mut one = entry_of(rt, 1, one, EntryState::Ready);
    let mut other = entry_of(rt, 2, other, EntryState::Idle);
    for nth in 1..=turns {
        let _ = turn(&mut driven, &mut one, false);
        let _ = turn(&mut driven, &mut other, nth == 2);
    }
    (one.stream.into_inner(), other.stream.into_inner())
}

/// Who asks for more than a turn's share, by many requests or by one, gets a share in each turn until all is there, and in between another
/// is served.
#[test]
fn more_than_a_share(rt: HostRuntime) {
    for (input, replies) in [transaction(&rt, 40), wide_transaction(&rt)] {
        for (turns, shares) in [(1u32, SHARE_MAX), (2, 2 * SHARE_MAX), (3, 3 * SHARE_MAX)] {
            let (one, other) = got_after(&rt, turns, &input);
            let expected = shares.min(replies.len());
            assert!(rt;
                replies.get(..expected) == Some(one.sent()),
                "{turns} turns"
            );
            assert!(rt; other.sent().is_empty() == (turns == 1));
        }
    }
}

/// Transactions of one written key, one behind another, and what they are answered.
const TRANSACTIONS: &[u8] =
    b"*1\r\n$5\r\nBEGIN\r\n*3\r\n$3\r\nSET\r\n$1\r\na\r\n$1\r\n1\r\n*1\r\n$6\r\nCOMMIT\r\n\
*1\r\n$5\r\nBEGIN\r\n*3\r\n$3\r\nSET\r\n$1\r\na\r\n$1\r\n2\r\n*1\r\n$6\r\nCOMMIT\r\n";

/// The first COMMIT's reply is there in the turn that appends its record, and what comes behind it in the next; in between another is
/// served.
#[test]
fn an_append_ends_the_share(rt: HostRuntime) {
    let first = b"+OK\r\n+OK\r\n:1\r\n".as_slice();
    let both = b"+OK\r\n+OK\r\n:1\r\n+OK\r\n+OK\r\n:2\r\n".as_slice();
    for (turns, expected) in [(1u32, first), (2, both)] {
        let (one, other) = got_after(&rt, turns, TRANSACTIONS);
        assert!(rt; one.sent() == expected, "{turns} turns");
        assert!(rt; other.sent().is_empty() == (turns == 1));
    }
}
