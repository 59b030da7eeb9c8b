//! The events of a hub.
use model::{FRAME_MAX, KeyRef};
use sessions::{Event, INBOX_MAX, Outcome, Status};
use std::process::Abort;
use test_hubs::{Pieces, new_hub};
use test_rows::{Store, reply_to};

const BEGIN: &[u8] = b"*1\r\n$5\r\nBEGIN\r\n";

const TWO_PINGS: &[u8] = b"*1\r\n$4\r\nPING\r\n*1\r\n$4\r\nPING\r\n";

static TOO_LONG: [u8; INBOX_MAX + 1] = [0; INBOX_MAX + 1];

/// Each event with its outcome, and then the bytes pending and the room of session 5.
#[test]
fn hub_events(rt: HostRuntime) {
    let mut hub = new_hub(rt.alloc(), 4096).expect(&rt, "a hub");
    let pong = b"+PONG\r\n".as_slice();
    let none = b"".as_slice();
    let steps = [
        (Event::Joined(5), Outcome::Done, none, INBOX_MAX),
        (Event::Joined(5), Outcome::Unknown, none, INBOX_MAX),
        (Event::Joined(3), Outcome::Unknown, none, INBOX_MAX),
        (Event::Serve(5), Outcome::Idle, none, INBOX_MAX),
        (
            Event::Bytes(5, TWO_PINGS),
            Outcome::Done,
            none,
            INBOX_MAX - 28,
        ),
        (Event::Serve(5), Outcome::Done, pong, INBOX_MAX - 14),
        (Event::Serve(5), Outcome::Idle, pong, INBOX_MAX - 14),
        (Event::Sent(5, 8), Outcome::BadCount, pong, INBOX_MAX - 14),
        (Event::Sent(5, 7), Outcome::Done, none, INBOX_MAX - 14),
        (Event::Serve(5), Outcome::Done, pong, INBOX_MAX),
        (Event::Bytes(5, &TOO_LONG), Outcome::NoRoom, pong, INBOX_MAX),
        (Event::Left(5), Outcome::Done, none, 0),
        (Event::Sent(5, 0), Outcome::Unknown, none, 0),
    ];
    for (i, (event, outcome, pending, room)) in steps.iter().enumerate() {
        assert!(rt; hub.step(event) == *outcome, "{i}");
        assert!(rt; hub.pending(5) == *pending && hub.room(5) == *room, "{i}");
    }
    assert!(rt; hub.status(5) == Status::Absent);
}

/// What a view of session 5 says after each event: its pending bytes, its status and its room.
#[test]
fn views(rt: HostRuntime) {
    let mut hub = new_hub(rt.alloc(), 4096).expect(&rt, "a hub");
    let steps = [
        (Event::Serve(5), 0, Status::Absent, 0),
        (Event::Joined(5), 0, Status::Open, INBOX_MAX),
        (Event::Bytes(5, TWO_PINGS), 0, Status::Open, INBOX_MAX - 28),
        (Event::Serve(5), 7, Status::Open, INBOX_MAX - 14),
        (Event::Sent(5, 4), 3, Status::Open, INBOX_MAX - 14),
        (Event::Sent(5, 3), 0, Status::Open, INBOX_MAX - 14),
        (Event::Serve(5), 7, Status::Open, INBOX_MAX),
        (Event::Sent(5, 7), 0, Status::Open, INBOX_MAX),
        (Event::Bytes(5, b"*01\r\n"), 0, Status::Open, INBOX_MAX - 5),
        (Event::Serve(5), 12, Status::Ending, INBOX_MAX),
        (Event::Left(5), 0, Status::Absent, 0),
    ];
    for (i, (event, pending, status, room)) in steps.iter().enumerate() {
        let _outcome = hub.step(event);
        let view = hub.view(5);
        assert!(rt;
            view.pending == *pending && view.status == *status && view.room == *room,
            "{i}"
        );
    }
}

#[test]
fn crowded(rt: HostRuntime) {
    let mut hub = new_hub(rt.alloc(), 16).expect(&rt, "a hub");
    for session in 0..129u64 {
        let expected = if session < 128 {
            Outcome::Done
        } else {
            Outcome::Crowded
        };
        assert!(rt; hub.step(&Event::Joined(session)) == expected);
    }
}

#[test]
fn bytes_one_at_a_time(rt: HostRuntime) {
    let mut hub = new_hub(rt.alloc(), 4096).expect(&rt, "a hub");
    hub.run(&[Event::Joined(1), Event::Joined(2)]);
    for byte in BEGIN.chunks(1) {
        assert!(rt; hub.pending(1).is_empty());
        hub.run(&[Event::Bytes(1, byte), Event::Serve(1)]);
    }
    assert!(rt; hub.pending(1) == b"+OK\r\n".as_slice());
    hub.run(&[Event::Bytes(2, b"*01\r\n"), Event::Serve(2)]);
    assert!(rt; hub.pending(2) == b"-ERR frame\r\n".as_slice());
    assert!(rt; hub.status(2) == Status::Ending);
}

fn expect<S: Store, R: Abort + AllocGlobal>(rt: &R, store: &mut S, asked: &str, expected: &str) {
    let reply = reply_to(rt.alloc(), store, asked).expect(rt, "memory");
    assert!(rt; reply.as_str() == expected, "{asked}: {reply}");
}

/// 64 transactions may be open, and another one once one of them has ended.
#[test]
fn sixty_four_transactions(rt: HostRuntime) {
    let hub = new_hub(rt.alloc(), 4096).expect(&rt, "a hub");
    let mut store = Pieces::new(hub, FRAME_MAX);
    for session in 1..65u64 {
        let asked = format!(in rt.alloc(); "{session} BEGIN").expect(&rt, "memory");
        expect(&rt, &mut store, &asked, "+OK");
    }
    for (asked, expected) in [
        ("65 BEGIN", "-FULL transactions"),
        ("1 ABORT", "+OK"),
        ("65 BEGIN", "+OK"),
    ] {
        expect(&rt, &mut store, asked, expected);
    }
}

/// A text of so many letters.
fn letters<R: Abort + AllocGlobal>(rt: &R, count: usize) -> String {
    let mut text = String::new(rt.alloc());
    for _ in 0..count {
        text.push('v').expect(rt, "memory");
    }
    text
}

/// Sets two keys to values of these lengths, and reads them: a value, one pair and both, and then what is short again.
fn expect_values<R: Abort + AllocGlobal>(rt: &R, store: &mut Pieces, a: usize, b: usize) {
    let (of_a, of_b) = (letters(rt, a), letters(rt, b));
    let alloc = rt.alloc();
    let set_a = format!(in alloc; "1 SET a {of_a}").expect(rt, "memory");
    let set_b = format!(in alloc; "1 SET b {of_b}").expect(rt, "memory");
    let value = format!(in alloc; "${a} {of_a}").expect(rt, "memory");
    let pair = format!(in alloc; "*2 $1 a ${a} {of_a}").expect(rt, "memory");
    let both = format!(in alloc; "*4 $1 a ${a} {of_a} $1 b ${b} {of_b}").expect(rt, "memory");
    for (asked, expected) in [
        (set_a.as_str(), "+OK"),
        (set_b.as_str(), "+OK"),
        ("1 GET a", value.as_str()),
        ("1 RANGE a b 1", pair.as_str()),
        ("1 RANGE a c 2", both.as_str()),
        ("1 PING", "+PONG"),
    ] {
        expect(rt, store, asked, expected);
    }
}

/// Replies of 536 bytes, for which a session keeps the room, of one byte more, and of the longest values, each with a short one behind it.
#[test]
fn replies_around_the_kept_room(rt: HostRuntime) {
    let hub = new_hub(rt.alloc(), 4096).expect(&rt, "a hub");
    let mut store = Pieces::new(hub, FRAME_MAX);
    expect(&rt, &mut store, "1 BEGIN", "+OK");
    for (a, b) in [
        (528usize, 1usize),
        (529, 1),
        (517, 1),
        (518, 1),
        (300, 202),
        (300, 203),
        (16_384, 16_384),
        (1, 1),
    ] {
        expect_values(&rt, &mut store, a, b);
    }
}

/// An old transaction keeps versions and records; once it has ended, the next event drops them.
#[test]
fn kept_versions_and_records(rt: HostRuntime) {
    let asked = [
        ("1 BEGIN", "+OK"),
        ("1 SET a 1", "+OK"),
        ("1 COMMIT", ":1"),
        ("1 BEGIN", "+OK"),
        ("2 BEGIN", "+OK"),
        ("2 SET a 2", "+OK"),
        ("2 COMMIT", ":2"),
        ("2 BEGIN", "+OK"),
        ("2 SET a 3", "+OK"),
        ("2 COMMIT", ":3"),
        ("1 GET a", "$1 1"),
        ("1 ABORT", "+OK"),
    ];
    for (lines, versions, records) in [(10usize, 2usize, 2usize), (12, 1, 0)] {
        let store = played(&rt, &asked[..lines]);
        assert!(rt; kept(store) == (Some(versions), records));
    }
}

/// An old transaction that wrote nothing: it keeps the version of `a` that it began with.
const READER: &[(&str, &str)] = &[
    ("1 BEGIN", "+OK"),
    ("1 SET a 1", "+OK"),
    ("1 COMMIT", ":1"),
    ("1 BEGIN", "+OK"),
    ("2 BEGIN", "+OK"),
    ("2 SET a 2", "+OK"),
    ("2 COMMIT", ":2"),
];

/// One that keeps it too, and whose COMMIT is refused.
const PIVOT: &[(&str, &str)] = &[
    ("1 BEGIN", "+OK"),
    ("1 SET a 1", "+OK"),
    ("1 COMMIT", ":1"),
    ("1 BEGIN", "+OK"),
    ("1 GET a", "$1 1"),
    ("1 SET b 1", "+OK"),
    ("2 BEGIN", "+OK"),
    ("2 GET b", "$-1"),
    ("2 SET a 2", "+OK"),
    ("2 COMMIT", ":2"),
];

/// What ends a transaction drops the versions that were kept for it alone: a COMMIT, also one that is refused, and an ABORT.
#[test]
fn each_end_drops_versions(rt: HostRuntime) {
    let ends = [
        (READER, "1 COMMIT", ":3"),
        (PIVOT, "1 COMMIT", "-CONFLICT pivot self"),
        (READER, "1 ABORT", "+OK"),
    ];
    for (asked, end, expected) in ends {
        let mut store = played(&rt, asked);
        expect(&rt, &mut store, end, expected);
        let (versions, _) = kept(store);
        assert!(rt; versions == Some(1), "{end}: {expected}");
    }
}

/// So does a session that leaves.
#[test]
fn who_leaves_drops_versions(rt: HostRuntime) {
    let mut store = played(&rt, READER);
    store.hub.run(&[Event::Left(1)]);
    assert!(rt; kept(store).0 == Some(1));
    let with_reader = played(&rt, READER);
    assert!(rt; kept(with_reader).0 == Some(2));
}

/// Beside an old transaction each of four keys got a version more, in a commit of its own. Its end leaves two of them to the ends that
/// follow.
const FOUR_KEYS: &[(&str, &str)] = &[
    ("2 BEGIN", "+OK"),
    ("2 SET b 1", "+OK"),
    ("2 SET c 1", "+OK"),
    ("2 SET d 1", "+OK"),
    ("2 SET e 1", "+OK"),
    ("2 COMMIT", ":1"),
    ("1 BEGIN", "+OK"),
    ("2 BEGIN", "+OK"),
    ("2 SET b 2", "+OK"),
    ("2 COMMIT", ":2"),
    ("2 BEGIN", "+OK"),
    ("2 SET c 2", "+OK"),
    ("2 COMMIT", ":3"),
    ("2 BEGIN", "+OK"),
    ("2 SET d 2", "+OK"),
    ("2 COMMIT", ":4"),
    ("2 BEGIN", "+OK"),
    ("2 SET e 2", "+OK"),
    ("2 COMMIT", ":5"),
    ("2 BEGIN", "+OK"),
    ("2 SET a 1", "+OK"),
    ("2 COMMIT", ":6"),
    ("1 ABORT", "+OK"),
    ("2 BEGIN", "+OK"),
    ("2 SET a 2", "+OK"),
    ("2 COMMIT", ":7"),
];

/// What a COMMIT replaces goes at its end, before what an older transaction has left. So a key's versions don't pile up meanwhile.
#[test]
fn what_was_replaced_goes_first(rt: HostRuntime) {
    let store = played(&rt, FOUR_KEYS);
    assert!(rt; kept(store).0 == Some(1));
}

/// A store in which these lines were asked, and answered so.
fn played<R: Abort + AllocGlobal>(rt: &R, asked: &[(&str, &str)]) -> Pieces {
    let hub = new_hub(rt.alloc(), 4096).expect(rt, "a hub");
    let mut store = Pieces::new(hub, FRAME_MAX);
    for (line, expected) in asked {
        expect(rt, &mut store, line, expected);
    }
    store
}

/// How many versions of `a` are kept, and how many records.
fn kept(store: Pieces) -> (Option<usize>, usize) {
    let engine = store.hub.into_engine();
    let versions = KeyRef::new(b"a").map(|key| engine.kept_versions(key));
    (versions, engine.kept_records())
}
