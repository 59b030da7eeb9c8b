//! The loop, with clients over sockets of the same process.
use event_loop::EventLoop;
use sector::{MemSectors, Sectors};
use std::io::{Read, Write};
use std::net::{Ipv4Addr, Net, OpenStream, SocketAddr, TcpStream};
use std::process::Abort;
use std::time::{Clock, Duration};
use test_hubs::new_hub;

/// The most turns for one request, each of 10 milliseconds: fewer than 1,000 for six requests.
const TURNS_MAX: u32 = 160;

/// Sends a request, and runs turns until a reply of this length is there or the turns are over. Is it this reply?
pub(crate) fn asks<D: Sectors, R: Abort, S: Read + Write>(
    rt: &R,
    events: &mut EventLoop<D>,
    client: &mut S,
    request: &[u8],
    reply: &[u8],
) -> bool {
    client.write_all(request).expect(rt, "written");
    let mut got = [0u8; 64];
    let mut len = 0usize;
    for _ in 0..TURNS_MAX {
        let turned = events.turn(Some(Duration::from_millis(10)));
        turned.expect(rt, "a turn");
        if len < 64
            && let Ok(n) = client.read(&mut got[len..])
        {
            len = (len + n).min(64);
        }
        if len >= reply.len() {
            break;
        }
    }
    &got[..len.min(64)] == reply
}

/// A loop over an empty store of 4,096 sectors in memory.
pub(crate) fn new_loop<R: Net + Abort + AllocGlobal>(rt: &R) -> EventLoop<MemSectors> {
    let hub = new_hub(rt.alloc(), 4096).expect(rt, "a hub");
    let anywhere = SocketAddr::from((Ipv4Addr::LOCALHOST, 0));
    EventLoop::bind(rt, rt.alloc(), anywhere, hub)
        .ok()
        .expect(rt, "a loop")
}

/// A client of the loop, which doesn't wait.
pub(crate) fn client<R: Net + Abort, D: Sectors>(rt: &R, events: &EventLoop<D>) -> R::Stream {
    let address = events.address().expect(rt, "an address");
    let client = TcpStream::connect(rt, address).expect(rt, "connected");
    client.set_nonblocking(true).expect(rt, "not waiting");
    client
}

/// Two clients, each request with its reply.
fn skews<D: Sectors, R: Net + Abort>(rt: &R, events: &mut EventLoop<D>) {
    let mut one = client(rt, events);
    let mut other = client(rt, events);
    let begin =
        b"*1\r\n$5\r\nBEGIN\r\n*2\r\n$3\r\nGET\r\n$1\r\nx\r\n*2\r\n$3\r\nGET\r\n$1\r\ny\r\n";
    let begun = b"+OK\r\n$-1\r\n$-1\r\n".as_slice();
    let commit = b"*1\r\n$6\r\nCOMMIT\r\n".as_slice();
    let lines = [
        (true, begin.as_slice(), begun),
        (false, begin, begun),
        (
            true,
            b"*3\r\n$3\r\nSET\r\n$1\r\nx\r\n$1\r\n1\r\n",
            b"+OK\r\n",
        ),
        (
            false,
            b"*3\r\n$3\r\nSET\r\n$1\r\ny\r\n$1\r\n1\r\n",
            b"+OK\r\n",
        ),
        (true, commit, b":1\r\n"),
        (false, commit, b"-CONFLICT pivot self\r\n"),
    ];
    for (is_first, request, reply) in lines {
        let client = if is_first { &mut one } else { &mut other };
        assert!(rt; asks(rt, events, client, request, reply), "{reply:?}");
    }
    assert!(rt; !events.stopped());
}

/// So it is of a loop over memory.
#[test]
fn write_skew(rt: HostRuntime) {
    let mut events = new_loop(&rt);
    skews(&rt, &mut events);
}

const PING: &[u8] = b"*1\r\n$4\r\nPING\r\n";

const PONG: &[u8] = b"+PONG\r\n";

/// One leaves, and another comes to its place. The poll reports each under its own key, so who came is answered again and again, and so is
/// who stayed.
fn another_comes<D: Sectors, R: Net + Abort>(rt: &R, events: &mut EventLoop<D>) {
    let mut first = client(rt, events);
    let mut second = client(rt, events);
    assert!(rt; asks(rt, events, &mut first, PING, PONG));
    assert!(rt; asks(rt, events, &mut second, PING, PONG));
    drop(first);
    for _ in 0..20u32 {
        let turned = events.turn(Some(Duration::from_millis(10)));
        turned.expect(rt, "a turn");
    }
    let mut third = client(rt, events);
    for _ in 0..3u32 {
        assert!(rt; asks(rt, events, &mut third, PING, PONG), "who came");
        assert!(rt; asks(rt, events, &mut second, PING, PONG), "who stayed");
    }
}

/// So it is of a loop over memory.
#[test]
fn one_leaves_and_another_comes(rt: HostRuntime) {
    let mut events = new_loop(&rt);
    another_comes(&rt, &mut events);
}

/// Reads what is there, at most 1 MiB, and says how many bytes that was.
fn reads<S: Read>(client: &mut S) -> usize {
    let mut got = [0u8; 4_096];
    let mut count = 0usize;
    for _ in 0..256u32 {
        let Ok(n) = client.read(&mut got) else {
            return count;
        };
        count = count.saturating_add(n);
    }
    count
}

fn add<R: Abort>(rt: &R, bytes: &mut Vec<u8>, more: &[u8]) {
    bytes.extend_from_slice(more).expect(rt, "memory");
}

/// A transaction that is not committed: a value of 16,000 bytes is set, and read so many times.
fn long_transaction<R: Abort + AllocGlobal>(rt: &R, reads: u32) -> Vec<u8> {
    let mut input = Vec::new(rt.alloc());
    add(
        rt,
        &mut input,
        b"*1\r\n$5\r\nBEGIN\r\n*3\r\n$3\r\nSET\r\n$1\r\na\r\n$16000\r\n",
    );
    add(rt, &mut input, &[b'v'; 16_000]);
    add(rt, &mut input, b"\r\n");
    for _ in 0..reads {
        add(rt, &mut input, b"*2\r\n$3\r\nGET\r\n$1\r\na\r\n");
    }
    input
}

/// Replies of more than two shares of a turn come whole, though the poll reports nothing once all requests were read. A value takes 16,010
/// bytes of them, the other two replies take ten.
#[test]
fn more_than_a_share(rt: HostRuntime) {
    let input = long_transaction(&rt, 40);
    let mut events = new_loop(&rt);
    let mut client = client(&rt, &events);
    client.write_all(&input).expect(&rt, "written");
    let mut count = 0usize;
    for _ in 0..200u32 {
        let turned = events.turn(Some(Duration::from_millis(10)));
        turned.expect(&rt, "a turn");
        count = count.saturating_add(reads(&mut client));
    }
    assert!(rt; count == 640_410);
}
