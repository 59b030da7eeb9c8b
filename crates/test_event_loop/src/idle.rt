//! An idle server collects the garbage that an old reader has left.
use crate::loops::{asks, client, new_loop};
use event_loop::EventLoop;
use model::{FRAME_MAX, KeyRef};
use sector::Sectors;
use std::net::Net;
use std::process::Abort;
use std::time::{Clock, Duration, Instant};
use test_hubs::{Pieces, new_hub};
use test_rows::reply_to;

const BEGIN: &[u8] = b"*1\r\n$5\r\nBEGIN\r\n";

const ABORT: &[u8] = b"*1\r\n$5\r\nABORT\r\n";

/// Asks these lines, of which the last is a COMMIT that is answered this number.
fn commit<R: Abort + AllocGlobal>(rt: &R, store: &mut Pieces, lines: &[&str], number: usize) {
    let expected = format!(in rt.alloc(); ":{number}").expect(rt, "memory");
    let mut is_answered = false;
    for line in lines {
        let reply = reply_to(rt.alloc(), store, line).expect(rt, "memory");
        is_answered = reply.as_str() == expected.as_str();
    }
    assert!(rt; is_answered, "{expected}");
}

/// A reader keeps an old version of each of 10 keys, of as many commits. Its end looks at 2 lists of them, and each of 3 steps at 2 more.
fn end_reader<R: Abort + AllocGlobal>(rt: &R, store: &mut Pieces) {
    for n in 0..20usize {
        if n == 10 {
            reply_to(rt.alloc(), store, "1 BEGIN").expect(rt, "memory");
        }
        let set = format!(in rt.alloc(); "2 SET k{} {n}", n % 10).expect(rt, "memory");
        commit(rt, store, &["2 BEGIN", set.as_str(), "2 COMMIT"], n + 1);
        assert!(rt; !store.hub.reclaim_step(), "commit {n}");
    }
    reply_to(rt.alloc(), store, "1 ABORT").expect(rt, "memory");
    for left in [true, true, true, false] {
        assert!(rt; store.hub.reclaim_step() == left);
    }
}

/// No garbage is left after these steps, and one version of each key is.
#[test]
fn steps_finish(rt: HostRuntime) {
    let hub = new_hub(rt.alloc(), 4096).expect(&rt, "a hub");
    let mut store = Pieces::new(hub, FRAME_MAX);
    end_reader(&rt, &mut store);
    let engine = store.hub.into_engine();
    for name in [b"k0".as_slice(), b"k9"] {
        let key = KeyRef::new(name).expect(&rt, "a key");
        assert!(rt; engine.kept_versions(key) == 1);
    }
}

/// A reader keeps old versions of 90 keys, which are written in as many commits, and ends.
fn read_and_write<D: Sectors, R: Net + Abort + AllocGlobal>(rt: &R, events: &mut EventLoop<D>) {
    let mut reader = client(rt, events);
    let mut writer = client(rt, events);
    for n in 0..180usize {
        if n == 90 {
            assert!(rt; asks(rt, events, &mut reader, BEGIN, b"+OK\r\n"));
        }
        let key = 10 + n % 90;
        let request = format!(in rt.alloc();
            "*1\r\n$5\r\nBEGIN\r\n*3\r\n$3\r\nSET\r\n$2\r\n{key}\r\n$1\r\n1\r\n*1\r\n$6\r\nCOMMIT\r\n"
        );
        let request = request.expect(rt, "memory");
        let reply = format!(in rt.alloc(); "+OK\r\n+OK\r\n:{}\r\n", n + 1).expect(rt, "memory");
        assert!(rt;
            asks(
                rt,
                events,
                &mut writer,
                request.as_bytes(),
                reply.as_bytes()
            )
        );
    }
    assert!(rt; asks(rt, events, &mut reader, ABORT, b"+OK\r\n"));
}

/// How long a turn takes that may wait so long.
fn turn_takes<D: Sectors, R: Clock + Abort>(
    rt: &R,
    events: &mut EventLoop<D>,
    wait: Duration,
) -> Duration {
    let before = Instant::now(rt).expect(rt, "a clock");
    events.turn(Some(wait)).expect(rt, "a turn");
    let after = Instant::now(rt).expect(rt, "a clock");
    after.duration_since(before)
}

/// It doesn't wait in the turn after the reader's end, and 50 turns later it does.
fn finishes<D: Sectors, R: Net + Clock + Abort + AllocGlobal>(rt: &R, events: &mut EventLoop<D>) {
    read_and_write(rt, events);
    let first = turn_takes(rt, events, Duration::from_secs(20));
    assert!(rt; first < Duration::from_secs(10));
    for _ in 0..50u32 {
        turn_takes(rt, events, Duration::ZERO);
    }
    let wait = Duration::from_millis(300);
    assert!(rt; turn_takes(rt, events, wait) >= wait);
}

/// So does a loop.
#[test]
fn idle_turns_finish(rt: HostRuntime) {
    let mut events = new_loop(&rt);
    finishes(&rt, &mut events);
}
