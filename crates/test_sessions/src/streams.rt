//! The driver over peers in memory.
use std::process::Abort;
use stream_driver::Progress;
use test_hubs::{Driven, Script, Trouble};

const PING: &[u8] = b"*1\r\n$4\r\nPING\r\n";

/// A peer that sends these bytes so many times, and then those.
fn peer<R: Abort + AllocGlobal>(rt: &R, bytes: &[u8], times: u32, last: &[u8]) -> Script {
    let mut input = Vec::new(rt.alloc());
    for _ in 0..times {
        input.extend_from_slice(bytes).expect(rt, "memory");
    }
    input.extend_from_slice(last).expect(rt, "memory");
    Script::new(input, Vec::new(rt.alloc()), 0, Trouble::Fewer)
}

/// Two requests and the beginning of a third: the peer's end makes the session leave.
#[test]
fn driving_streams(rt: HostRuntime) {
    let mut stream = peer(&rt, PING, 2, b"*1");
    let mut driven = Driven::new(rt.alloc()).expect(&rt, "a hub");
    driven.join(1);
    assert!(rt; driven.drive(1, &mut stream) == Progress::Gone);
    assert!(rt; !driven.is_present(1));
    assert!(rt; stream.sent() == b"+PONG\r\n+PONG\r\n".as_slice());
}

/// After 64 requests the driver lets others have their turn.
#[test]
fn driving_a_flood(rt: HostRuntime) {
    let mut stream = peer(&rt, PING, 65, b"");
    let mut driven = Driven::new(rt.alloc()).expect(&rt, "a hub");
    driven.join(2);
    for (progress, sent) in [(Progress::Again, 448), (Progress::Gone, 455)] {
        let answered = driven.drive(2, &mut stream) == progress;
        assert!(rt; answered && stream.sent().len() == sent);
    }
}

/// A transaction that is not committed, and what it is answered.
const OPEN_TRANSACTION: &[u8] =
    b"*1\r\n$5\r\nBEGIN\r\n*3\r\n$3\r\nSET\r\n$1\r\na\r\n$1\r\n1\r\n*2\r\n$3\r\nGET\r\n$1\r\na\r\n";

const REPLIES: &[u8] = b"+OK\r\n+OK\r\n$1\r\n1\r\n";

/// How many bytes of the replies are written before each call: the first reads all, then each of three writes a reply, and the last reads
/// on.
const WRITTEN_BEFORE: [usize; 5] = [0, 0, 5, 10, 17];

/// What the first drive comes to where the n-th call meets trouble, and how many bytes are written by then.
fn first_drive(trouble: Trouble, nth: u64) -> (Progress, usize) {
    let before = (1..=5u64)
        .zip(WRITTEN_BEFORE)
        .find(|(call, _)| *call == nth);
    match (trouble, before) {
        (Trouble::Blocked, Some((_, written))) => (Progress::Waiting, written),
        (Trouble::Failed, Some((_, written))) => (Progress::Gone, written),
        _ => (Progress::Gone, REPLIES.len()),
    }
}

/// Are no other bytes written than the replies before the trouble, is a call that fails the last, and has the session then left?
fn is_right<R: Abort + AllocGlobal>(
    rt: &R,
    driven: &mut Driven,
    trouble: Trouble,
    nth: u64,
) -> bool {
    driven.join(nth);
    let input = OPEN_TRANSACTION.to_vec(rt.alloc()).expect(rt, "memory");
    let mut stream = Script::new(input, Vec::new(rt.alloc()), nth, trouble);
    let (progress, written) = first_drive(trouble, nth);
    let mut held = driven.drive(nth, &mut stream) == progress
        && REPLIES.get(..written) == Some(stream.sent());
    if progress == Progress::Waiting {
        held = held && driven.drive(nth, &mut stream) == Progress::Gone && stream.sent() == REPLIES;
    }
    held && !driven.is_present(nth)
}

/// The n-th call of the stream moves one byte, blocks or fails, for each n. The transaction is aborted, since more than 64 may begin one
/// after another.
#[test]
fn a_call_in_trouble(rt: HostRuntime) {
    for trouble in [Trouble::Fewer, Trouble::Blocked, Trouble::Failed] {
        let mut driven = Driven::new(rt.alloc()).expect(&rt, "a hub");
        for nth in 1..=80u64 {
            assert!(rt;
                is_right(&rt, &mut driven, trouble, nth),
                "{nth} {trouble:?}"
            );
        }
    }
}

/// A broken frame is read together with requests: those before it are answered, then it is, and the session leaves once its reply is
/// written. No call of the stream but the n-th meets trouble, which blocks.
#[test]
fn a_broken_frame_among_requests(rt: HostRuntime) {
    let expected = b"+PONG\r\n+PONG\r\n-ERR frame\r\n".as_slice();
    let sent = b"*1\r\n$4\r\nPING\r\n*1\r\n$4\r\nPING\r\n*01\r\n*1\r\n$4\r\nPING\r\n".as_slice();
    for (nth, written) in [(0u64, 26usize), (4, 14)] {
        let input = sent.to_vec(rt.alloc()).expect(&rt, "memory");
        let mut driven = Driven::new(rt.alloc()).expect(&rt, "a hub");
        driven.join(1);
        let mut stream = Script::new(input, Vec::new(rt.alloc()), nth, Trouble::Blocked);
        let progress = driven.drive(1, &mut stream);
        assert!(rt; (progress == Progress::Waiting) == (nth == 4));
        assert!(rt; expected.get(..written) == Some(stream.sent()));
        assert!(rt; driven.drive(1, &mut stream) == Progress::Gone);
        assert!(rt; stream.sent() == expected && !driven.is_present(1));
    }
}
