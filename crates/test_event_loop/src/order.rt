//! Which sessions a turn drives: as many as it is wide of those that ask little, and of the others one that writes and one that reads.
use crate::loops::{asks, client, new_loop};
use event_loop::EventLoop;
use sector::Sectors;
use std::io::{Read, Write};
use std::net::Net;
use std::process::Abort;
use std::time::{Clock, Duration, Instant};
use stream_driver::LIGHT_MAX;

/// How many transactions a writer sends in one piece.
const SENT: usize = 4;

/// How many requests a reader sends in one piece, and how many bytes the value that they read has.
const GETS: usize = 60;

const VALUE_LEN: usize = 8_000;

const PING: &[u8] = b"*1\r\n$4\r\nPING\r\n";

/// So many transactions in one piece, each of which writes this key.
fn transactions<R: Abort + AllocGlobal>(rt: &R, key: &[u8]) -> Vec<u8> {
    let mut input = Vec::new(rt.alloc());
    for _ in 0..SENT {
        for part in [
            b"*1\r\n$5\r\nBEGIN\r\n*3\r\n$3\r\nSET\r\n$1\r\n".as_slice(),
            key,
            b"\r\n$1\r\n1\r\n*1\r\n$6\r\nCOMMIT\r\n",
        ] {
            input.extend_from_slice(part).expect(rt, "memory");
        }
    }
    input
}

/// How many COMMITs were answered among what is there to read.
fn answered<S: Read>(client: &mut S) -> usize {
    let mut got = [0u8; 4_096];
    match client.read(&mut got) {
        Ok(n) => got.iter().take(n).filter(|byte| **byte == b':').count(),
        Err(_) => 0,
    }
}

fn turn<D: Sectors, R: Abort>(rt: &R, events: &mut EventLoop<D>) {
    let turned = events.turn(Some(Duration::from_millis(10)));
    turned.expect(rt, "a turn");
}

/// A writer sends transactions in one piece, and a reader a request: the reader is answered before the second COMMIT, and no turn answers
/// two.
fn one_append_each<D: Sectors, R: Net + Abort + AllocGlobal>(rt: &R, events: &mut EventLoop<D>) {
    let mut writer = client(rt, events);
    let mut reader = client(rt, events);
    assert!(rt; asks(rt, events, &mut writer, PING, b"+PONG\r\n"));
    assert!(rt; asks(rt, events, &mut reader, PING, b"+PONG\r\n"));
    let input = transactions(rt, b"a");
    writer.write_all(&input).expect(rt, "written");
    reader.write_all(PING).expect(rt, "written");
    let mut commits = 0usize;
    let mut is_read = false;
    for _ in 0..100u32 {
        turn(rt, events);
        let more = answered(&mut writer);
        let mut got = [0u8; 64];
        is_read = is_read || reader.read(&mut got).is_ok();
        commits = commits.saturating_add(more);
        assert!(rt; more <= 1 && (is_read || commits <= 1));
    }
    assert!(rt; commits == SENT && is_read);
}

/// So it is of a loop over memory.
#[test]
fn one_append_a_turn(rt: HostRuntime) {
    let mut events = new_loop(&rt);
    one_append_each(&rt, &mut events);
}

/// Three writers, each of which was answered a PING, send transactions in one piece each. Each has its turn before another has two, all are
/// answered, and then the loop waits.
fn each_has_a_turn<D: Sectors, R: Net + Clock + Abort + AllocGlobal>(
    rt: &R,
    events: &mut EventLoop<D>,
) {
    let mut first = client(rt, events);
    let mut second = client(rt, events);
    let mut third = client(rt, events);
    assert!(rt; asks(rt, events, &mut first, PING, b"+PONG\r\n"));
    assert!(rt; asks(rt, events, &mut second, PING, b"+PONG\r\n"));
    assert!(rt; asks(rt, events, &mut third, PING, b"+PONG\r\n"));
    first
        .write_all(&transactions(rt, b"a"))
        .expect(rt, "written");
    second
        .write_all(&transactions(rt, b"b"))
        .expect(rt, "written");
    third
        .write_all(&transactions(rt, b"c"))
        .expect(rt, "written");
    let mut commits = [0usize; 3];
    for _ in 0..200u32 {
        turn(rt, events);
        commits = [
            commits[0].saturating_add(answered(&mut first)),
            commits[1].saturating_add(answered(&mut second)),
            commits[2].saturating_add(answered(&mut third)),
        ];
        let most = commits[0].max(commits[1]).max(commits[2]);
        let least = commits[0].min(commits[1]).min(commits[2]);
        assert!(rt; most.saturating_sub(least) <= 1, "{commits:?}");
    }
    assert!(rt; commits == [SENT; 3]);
    let wait = Duration::from_millis(300);
    let before = Instant::now(rt).expect(rt, "a clock");
    events.turn(Some(wait)).expect(rt, "a turn");
    let after = Instant::now(rt).expect(rt, "a clock");
    assert!(rt; after.duration_since(before) >= wait);
}

/// So it is of a loop over memory.
#[test]
fn writers_take_turns(rt: HostRuntime) {
    let mut events = new_loop(&rt);
    each_has_a_turn(&rt, &mut events);
}

/// A transaction that writes such a value, in one piece.
fn one_value<R: Abort + AllocGlobal>(rt: &R) -> Vec<u8> {
    let mut input = Vec::new(rt.alloc());
    let begin = b"*1\r\n$5\r\nBEGIN\r\n*3\r\n$3\r\nSET\r\n$1\r\na\r\n$8000\r\n";
    let value = [b'v'; VALUE_LEN];
    for part in [begin.as_slice(), &value, b"\r\n*1\r\n$6\r\nCOMMIT\r\n"] {
        input.extend_from_slice(part).expect(rt, "memory");
    }
    input
}

/// Its value again and again, in one piece.
fn reads<R: Abort + AllocGlobal>(rt: &R) -> Vec<u8> {
    let mut input = Vec::new(rt.alloc());
    let begin = b"*1\r\n$5\r\nBEGIN\r\n";
    input.extend_from_slice(begin).expect(rt, "memory");
    for _ in 0..GETS {
        let get = b"*2\r\n$3\r\nGET\r\n$1\r\na\r\n";
        input.extend_from_slice(get).expect(rt, "memory");
    }
    input
}

/// How many bytes are there to read.
fn received<S: Read>(client: &mut S) -> usize {
    let mut got = [0u8; 16_384];
    let mut all = 0usize;
    for _ in 0..1_000u32 {
        match client.read(&mut got) {
            Ok(0) | Err(_) => break,
            Ok(n) => all = all.saturating_add(n),
        }
    }
    all
}

/// Two readers ask for more than a turn gives them. If a turn answers both, then the first one alone, with a light share for each. From
/// then on one of them at most has each turn; another client is answered in each, and both are answered all that they asked for.
fn one_heavy_each<D: Sectors, R: Net + Abort + AllocGlobal>(rt: &R, events: &mut EventLoop<D>) {
    let mut other = client(rt, events);
    let input = one_value(rt);
    assert!(rt; asks(rt, events, &mut other, &input, b"+OK\r\n+OK\r\n:1\r\n"));
    let mut one = client(rt, events);
    let mut two = client(rt, events);
    assert!(rt; asks(rt, events, &mut one, PING, b"+PONG\r\n"));
    assert!(rt; asks(rt, events, &mut two, PING, b"+PONG\r\n"));
    let input = reads(rt);
    one.write_all(&input).expect(rt, "written");
    two.write_all(&input).expect(rt, "written");
    let mut all = [0usize; 2];
    let mut together = 0u32;
    for _ in 0..100u32 {
        other.write_all(PING).expect(rt, "written");
        turn(rt, events);
        assert!(rt; received(&mut other) == 7);
        let first = received(&mut one);
        let second = received(&mut two);
        if first > 0 && second > 0 {
            together = together.saturating_add(1);
            assert!(rt; first <= LIGHT_MAX && second <= LIGHT_MAX);
        }
        all = [all[0].saturating_add(first), all[1].saturating_add(second)];
    }
    let whole = 5 + GETS * (7 + VALUE_LEN + 2);
    assert!(rt; all == [whole; 2] && together <= 1);
}

/// So it is of a loop over memory.
#[test]
fn heavy_readers_take_turns(rt: HostRuntime) {
    let mut events = new_loop(&rt);
    one_heavy_each(&rt, &mut events);
}

/// Is anything there to read?
fn is_answered<S: Read>(client: &mut S) -> bool {
    received(client) > 0
}

/// Four readers ask for much at once, none of which was known to. No turn answers more than two of them. Who asks once they have is
/// answered in each.
fn two_of_a_crowd<D: Sectors, R: Net + Abort + AllocGlobal>(rt: &R, events: &mut EventLoop<D>) {
    let mut one = client(rt, events);
    let mut two = client(rt, events);
    let mut three = client(rt, events);
    let mut four = client(rt, events);
    let mut other = client(rt, events);
    let input = one_value(rt);
    assert!(rt; asks(rt, events, &mut other, &input, b"+OK\r\n+OK\r\n:1\r\n"));
    assert!(rt; asks(rt, events, &mut other, PING, b"+PONG\r\n"));
    let input = reads(rt);
    one.write_all(&input).expect(rt, "written");
    two.write_all(&input).expect(rt, "written");
    three.write_all(&input).expect(rt, "written");
    four.write_all(&input).expect(rt, "written");
    turn(rt, events);
    let first = [
        is_answered(&mut one),
        is_answered(&mut two),
        is_answered(&mut three),
        is_answered(&mut four),
    ];
    assert!(rt; first == [true, true, false, false]);
    let mut all = [first[0], first[1], false, false];
    for _ in 0..8u32 {
        other.write_all(PING).expect(rt, "written");
        turn(rt, events);
        assert!(rt; received(&mut other) == 7);
        let now = [
            is_answered(&mut one),
            is_answered(&mut two),
            is_answered(&mut three),
            is_answered(&mut four),
        ];
        assert!(rt; now.iter().filter(|is_so| **is_so).count() <= 2);
        all = [all[0], all[1], all[2] || now[2], all[3] || now[3]];
    }
    assert!(rt; all == [true; 4]);
}

/// So it is of a loop over memory.
#[test]
fn a_crowd_waits_in_turns(rt: HostRuntime) {
    let mut events = new_loop(&rt);
    two_of_a_crowd(&rt, &mut events);
}
