//! A data file that is made, served over a socket, counted, and not made again.
use commands::{DONE, FAULT};
use event_loop::EventLoop;
use sector::{FileSectors, Sectors};
use std::fs::{self, File};
use std::io::{Read, Write};
use std::net::{Ipv4Addr, Net, OpenStream, SocketAddr, TcpStream};
use std::process::Abort;
use std::rt::Files;
use std::time::{Clock, Duration};
use system::run;
use test_hubs::open_hub;

const CREATE: &[&str] = &[
    "ssikvd",
    "create",
    "--data",
    "served.data",
    "--sectors",
    "4",
];

const CHECK: &[&str] = &["ssikvd", "check", "--data", "served.data"];

/// Does the command end with this status, and print these lines?
fn ends<R: Files<File = File> + Net + Clock + AllocGlobal>(
    rt: &R,
    words: &[&str],
    status: u8,
    out: &[u8],
    err: &[u8],
) -> bool {
    let mut printed = Vec::new(rt.alloc());
    let mut reported = Vec::new(rt.alloc());
    let ended = run(
        rt,
        rt.alloc(),
        words,
        b"".as_slice(),
        &mut printed,
        &mut reported,
    );
    ended == status && printed.as_slice() == out && reported.as_slice() == err
}

/// A transaction of a client, which puts a to 1, through a loop.
fn commit_over<D: Sectors, R: Net + Clock + Abort>(rt: &R, events: &mut EventLoop<D>) {
    let address = events.address().expect(rt, "an address");
    let mut client = TcpStream::connect(rt, address).expect(rt, "connected");
    client.set_nonblocking(true).expect(rt, "not waiting");
    let request =
        b"*1\r\n$5\r\nBEGIN\r\n*3\r\n$3\r\nSET\r\n$1\r\na\r\n$1\r\n1\r\n*1\r\n$6\r\nCOMMIT\r\n";
    client.write_all(request).expect(rt, "written");
    let mut got = [0u8; 64];
    let mut len = 0usize;
    for _ in 0..200u32 {
        let turned = events.turn(Some(Duration::from_millis(10)));
        turned.expect(rt, "a turn");
        if len < 14
            && let Ok(n) = client.read(&mut got[len..])
        {
            len = (len + n).min(64);
        }
    }
    assert!(rt; got.starts_with(b"+OK\r\n+OK\r\n:1\r\n"));
}

/// The same, through the loop over the file of this name, which is closed once the loop has given its hub back.
fn commit_into<R: Files<File = File> + Net + Clock + Abort + AllocGlobal>(rt: &R, name: &str) {
    let device = FileSectors::open(rt, name).expect(rt, "a file");
    let hub = open_hub(rt.alloc(), device).expect(rt, "a hub");
    let anywhere = SocketAddr::from((Ipv4Addr::LOCALHOST, 0));
    let mut events = EventLoop::bind(rt, rt.alloc(), anywhere, hub)
        .ok()
        .expect(rt, "a loop");
    commit_over(rt, &mut events);
    events.into_hub().into_device().close();
}

/// One commit through the loop into a file of four sectors.
#[test]
fn a_file_is_made_served_and_counted(rt: HostRuntime) {
    let _ = fs::remove_file(&rt, "served.data");
    assert!(rt; ends(&rt, CREATE, DONE, b"", b""));
    commit_into(&rt, "served.data");
    let line = b"records 1 keys 1 sectors 4 of 4\n";
    assert!(rt; ends(&rt, CHECK, DONE, line, b""));
    assert!(rt; ends(&rt, CREATE, FAULT, b"", b"ssikvd: file fault\n"));
    assert!(rt; ends(&rt, CHECK, DONE, line, b""));
    assert!(rt; fs::remove_file(&rt, "served.data").is_ok());
}
