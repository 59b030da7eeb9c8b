//! The program's commands: their texts and statuses.
use command_line::{Invocation, Refusal, parse};
use commands::{
    BAD_LINE, DONE, Ending, FAULT, Fault, Opener, REFUSED, Reported, Turns, check_device, finish,
    format_device, keep_standard, report, serve_turns,
};
use model::VALUE_MAX;
use scripts::{ScriptFault, play};
use sector::MemSectors;
use sessions::INBOX_MAX;
use std::alloc::Global;
use std::fs::{self, File};
use std::io::{self, ErrorKind, Read, Write};
use std::net::{Net, SocketAddr, TcpListener};
use std::rt::Files;
use std::test::Fail;
use std::time::Clock;
use system::run;

/// A text that is expected.
#[derive(Clone, Copy)]
enum Expected {
    Nothing,
    Is(&'static [u8]),
    Begins(&'static [u8]),
}

impl Expected {
    fn is_met(self, text: &[u8]) -> bool {
        match self {
            Expected::Nothing => text.is_empty(),
            Expected::Is(expected) => text == expected,
            Expected::Begins(expected) => text.starts_with(expected),
        }
    }
}

/// What a command line is given and what is expected.
#[derive(Clone, Copy)]
struct Case {
    words: &'static [&'static str],
    input: &'static [u8],
    status: u8,
    out: Expected,
    err: Expected,
}

fn is_met<R: Files<File = File> + Net + Clock>(rt: &R, alloc: Global, case: Case) -> bool {
    let mut out = Vec::new(alloc);
    let mut err = Vec::new(alloc);
    let status = run(rt, alloc, case.words, case.input, &mut out, &mut err);
    status == case.status && case.out.is_met(&out) && case.err.is_met(&err)
}

const PLAY: &[&str] = &["ssikvd", "play"];

fn played(input: &'static [u8], out: &'static [u8]) -> Case {
    Case {
        words: PLAY,
        input,
        status: DONE,
        out: Expected::Is(out),
        err: Expected::Nothing,
    }
}

fn refused(words: &'static [&'static str], status: u8, err: Expected) -> Case {
    Case {
        words,
        input: b"",
        status,
        out: Expected::Nothing,
        err,
    }
}

fn helped(words: &'static [&'static str], out: &'static [u8]) -> Case {
    Case {
        words,
        input: b"",
        status: DONE,
        out: Expected::Begins(out),
        err: Expected::Nothing,
    }
}

fn bad_line(input: &'static [u8]) -> Case {
    Case {
        words: PLAY,
        input,
        status: BAD_LINE,
        out: Expected::Is(b"0 +PONG\n"),
        err: Expected::Is(b"line 3: bad line\n"),
    }
}

#[test]
fn scripts(rt: HostRuntime) -> Result<(), Fail> {
    let cases = [
        played(
            b"1 BEGIN\n2 BEGIN\n2 SET a 1\n\n2 COMMIT\n1   GET  a",
            b"1 +OK\n2 +OK\n2 +OK\n2 :1\n1 $-1\n",
        ),
        played(
            b"7 BEGIN\n7 SET a \"\"\n7 SET b \t\r\n7 GET a\n7 RANGE a \"\" 9\n7 GET \"\"\n7 FOO\n7 PING",
            b"7 +OK\n7 +OK\n7 +OK\n7 $0 \n7 *4 $1 a $0  $1 b $2 \t\r\n7 -ERR key\n7 -ERR command\n7 +PONG\n",
        ),
        bad_line(b"0 PING\n\n1"),
        bad_line(b"0 PING\n\n 1 PING"),
        bad_line(b"0 PING\n\n1 PING "),
        bad_line(b"0 PING\n\n01 PING"),
        bad_line(b"0 PING\n\n1000000 PING"),
        bad_line(b"0 PING\n\nx PING"),
        bad_line(b"0 PING\n\n1 a b c d e"),
        bad_line(b"0 PING\n\n "),
    ];
    for case in cases {
        assert!(rt; is_met(&rt, rt.alloc(), case));
    }
    Ok(())
}

#[test]
fn command_lines(rt: HostRuntime) -> Result<(), Fail> {
    let cases = [
        refused(
            &["ssikvd", "create", "--data", "f", "--sectors", "1"],
            REFUSED,
            Expected::Begins(b"error: invalid value '1' for '--sectors <N>'"),
        ),
        refused(
            &["ssikvd"],
            REFUSED,
            Expected::Begins(b"error: 'ssikvd' requires a subcommand"),
        ),
        refused(
            &["ssikvd", "compacted"],
            REFUSED,
            Expected::Begins(b"error: unrecognized subcommand"),
        ),
    ];
    for case in cases {
        assert!(rt; is_met(&rt, rt.alloc(), case));
    }
    Ok(())
}

#[test]
fn faults_of_addresses_and_files(rt: HostRuntime) -> Result<(), Fail> {
    let cases = [
        refused(
            &["ssikvd", "serve", "--data", "none", "--listen", "localhost"],
            FAULT,
            Expected::Is(b"ssikvd: listen fault\n"),
        ),
        refused(
            &["ssikvd", "serve", "--data", "none", "--listen", "127.0.0.1"],
            FAULT,
            Expected::Is(b"ssikvd: listen fault\n"),
        ),
        refused(
            &["ssikvd", "serve", "--data", "none", "--listen", ""],
            FAULT,
            Expected::Is(b"ssikvd: listen fault\n"),
        ),
        refused(
            &[
                "ssikvd",
                "serve",
                "--data",
                "none",
                "--listen",
                "127.0.0.1:0",
            ],
            FAULT,
            Expected::Is(b"ssikvd: file fault\n"),
        ),
        refused(
            &["ssikvd", "check", "--data", "none"],
            FAULT,
            Expected::Is(b"ssikvd: file fault\n"),
        ),
    ];
    for case in cases {
        assert!(rt; is_met(&rt, rt.alloc(), case));
    }
    Ok(())
}

#[test]
fn help(rt: HostRuntime) -> Result<(), Fail> {
    let cases = [
        helped(&["ssikvd", "--help"], b"An ordered store"),
        helped(&["ssikvd", "create", "--help"], b"Makes a data file"),
    ];
    for case in cases {
        assert!(rt; is_met(&rt, rt.alloc(), case));
    }
    Ok(())
}

#[test]
fn data_files(rt: HostRuntime) -> Result<(), Fail> {
    let _ = fs::remove_file(&rt, "made.data");
    let create = &["ssikvd", "create", "--data", "made.data", "--sectors", "4"];
    let cases = [
        refused(create, DONE, Expected::Nothing),
        refused(create, FAULT, Expected::Is(b"ssikvd: file fault\n")),
        Case {
            words: &["ssikvd", "check", "--data", "made.data"],
            input: b"",
            status: DONE,
            out: Expected::Is(b"records 0 keys 0 sectors 2 of 4\n"),
            err: Expected::Nothing,
        },
    ];
    for case in cases {
        assert!(rt; is_met(&rt, rt.alloc(), case));
    }
    assert!(rt; fs::remove_file(&rt, "made.data").is_ok());
    Ok(())
}

/// A script in the making ends at the 129th label, and a session at a frame that is too long.
#[test]
fn long_scripts(rt: HostRuntime) -> Result<(), Fail> {
    let mut many = Vec::new(rt.alloc());
    for label in 0..129u32 {
        writeln!(many, "{label} PING")?;
    }
    let mut out = Vec::new(rt.alloc());
    let ended = play(rt.alloc(), 16, many.as_slice(), &mut out);
    assert!(rt; ended == Err(ScriptFault::Crowded(129)));
    for len in [VALUE_MAX + 1, INBOX_MAX + 1] {
        let mut lines = b"1 SET a ".to_vec(rt.alloc())?;
        for _ in 0..len {
            lines.push(b'v')?;
        }
        lines.extend_from_slice(b"\n1 PING\n")?;
        let mut out = Vec::new(rt.alloc());
        let ended = play(rt.alloc(), 16, lines.as_slice(), &mut out);
        assert!(rt; ended.is_ok() && out.as_slice() == b"1 -ERR frame\n".as_slice());
    }
    Ok(())
}

#[test]
fn texts_of_faults(rt: HostRuntime) -> Result<(), Fail> {
    let faults = [
        (Fault::NotALog, FAULT, b"ssikvd: not a log\n".as_slice()),
        (Fault::OldFormat, FAULT, b"ssikvd: old format\n"),
        (Fault::NotEmpty, FAULT, b"ssikvd: not empty\n"),
        (Fault::Damaged(7), FAULT, b"ssikvd: damaged record 7\n"),
        (Fault::LogFull, FAULT, b"ssikvd: log full\n"),
        (Fault::Device, FAULT, b"ssikvd: device fault\n"),
        (Fault::Poll, FAULT, b"ssikvd: poll fault\n"),
        (Fault::Memory, FAULT, b"ssikvd: out of memory\n"),
        (Fault::Crowded(9), BAD_LINE, b"line 9: crowded\n"),
    ];
    for (fault, status, text) in faults {
        let mut err = Vec::new(rt.alloc());
        let reported = report(fault, &mut err);
        assert!(rt;
            reported
                == (Reported {
                    status,
                    is_written: true
                })
                && err.as_slice() == text
        );
    }
    Ok(())
}

/// A reader and a writer that fail.
#[derive(Drop)]
struct Broken;

impl Read for Broken {
    fn read(&mut self, _into: &mut [u8]) -> io::Result<usize> {
        Err(io::ErrorKind::Other.into())
    }
}

impl Write for Broken {
    fn write(&mut self, _from: &[u8]) -> io::Result<usize> {
        Err(io::ErrorKind::Other.into())
    }

    fn flush(&mut self) -> io::Result<()> {
        Ok(())
    }
}

#[test]
fn failing_input_and_output(rt: HostRuntime) -> Result<(), Fail> {
    let mut out = Vec::new(rt.alloc());
    let input = play(rt.alloc(), 16, Broken, &mut out);
    let output = play(rt.alloc(), 16, b"1 PING".as_slice(), &mut Broken);
    assert!(rt; input == Err(ScriptFault::File) && output == Err(ScriptFault::File));
    Ok(())
}

/// What the words ask for, in short: a command's letter and its number of sectors, 0 where it has none.
fn invocation(alloc: Global, words: &[&str]) -> Result<(char, u64), Refusal> {
    match parse(alloc, words)? {
        Invocation::Create { data, sectors } if data == "f" => Ok(('c', sectors)),
        Invocation::Serve { data, listen } if data == "f" && listen == "a" => Ok(('s', 0)),
        Invocation::Check { data } if data == "f" => Ok(('k', 0)),
        Invocation::Play { sectors } => Ok(('p', sectors)),
        _ => Ok(('?', 0)),
    }
}

fn created(alloc: Global, number: &str) -> Result<(char, u64), Refusal> {
    let words = ["ssikvd", "create", "--data", "f", "--sectors", number];
    invocation(alloc, words.as_slice())
}

fn played_over(alloc: Global, number: &str) -> Result<(char, u64), Refusal> {
    let words = ["ssikvd", "play", "--sectors", number];
    invocation(alloc, words.as_slice())
}

fn is_refused(answer: Result<(char, u64), Refusal>) -> bool {
    match answer {
        Err(Refusal::Refused(_)) => true,
        _ => false,
    }
}

const SERVE_F: &[&str] = &["ssikvd", "serve", "--listen", "a", "--data", "f"];

const CHECK_F: &[&str] = &["ssikvd", "check", "--data", "f"];

const PLAY_NINE: &[&str] = &["ssikvd", "play", "--sectors=9"];

/// Each command, and the numbers that it takes, at both bounds.
#[test]
fn what_words_ask_for(rt: HostRuntime) -> Result<(), Fail> {
    for (number, sectors) in [("2", 2), ("+2", 2), ("02", 2), ("4194304", 4_194_304)] {
        assert!(rt; created(rt.alloc(), number) == Ok(('c', sectors)));
    }
    for (number, sectors) in [("2", 2), ("+3", 3), ("0065", 65), ("65536", 65_536)] {
        assert!(rt; played_over(rt.alloc(), number) == Ok(('p', sectors)));
    }
    assert!(rt; invocation(rt.alloc(), PLAY) == Ok(('p', 4_096)));
    assert!(rt; invocation(rt.alloc(), PLAY_NINE) == Ok(('p', 9)));
    assert!(rt; invocation(rt.alloc(), SERVE_F) == Ok(('s', 0)));
    assert!(rt; invocation(rt.alloc(), CHECK_F) == Ok(('k', 0)));
    Ok(())
}

/// The numbers that no command takes.
#[test]
fn numbers_that_are_refused(rt: HostRuntime) -> Result<(), Fail> {
    let odd = [
        "0",
        "1",
        "",
        " 2",
        "2 ",
        "2.0",
        "0x10",
        "two",
        "18446744073709551616",
    ];
    for number in odd {
        assert!(rt; is_refused(created(rt.alloc(), number)));
        assert!(rt; is_refused(played_over(rt.alloc(), number)));
    }
    assert!(rt; is_refused(created(rt.alloc(), "4194305")));
    assert!(rt; is_refused(played_over(rt.alloc(), "65537")));
    Ok(())
}

const CHECK_ODD: &[&str] = &["ssikvd", "check", "--data", "odd.data"];

const SERVE_ODD: &[&str] = &[
    "ssikvd",
    "serve",
    "--data",
    "odd.data",
    "--listen",
    "127.0.0.1:0",
];

/// The head of a log, and behind it an open gate with no record.
fn damaged_log(alloc: Global) -> io::Result<Vec<u8>> {
    let mut bytes = b"SSIKVLG2".to_vec(alloc)?;
    for at in 8..2_048 {
        bytes.push(if at == 512 { 1 } else { 0 })?;
    }
    Ok(bytes)
}

/// What `check` and `serve` report of a file that is no log, and that they leave it as it is.
#[test]
fn files_that_are_no_logs(rt: HostRuntime) -> Result<(), Fail> {
    let damaged = damaged_log(rt.alloc())?;
    let mut old = damaged_log(rt.alloc())?;
    if let Some(version) = old.get_mut(7) {
        *version = b'1';
    }
    let zeros = [0u8; 2_048];
    let cases = [
        (b"".as_slice(), b"ssikvd: not a log\n".as_slice()),
        (&zeros[..512], b"ssikvd: not a log\n"),
        (&zeros[..2_048], b"ssikvd: not a log\n"),
        (&zeros[..1_000], b"ssikvd: file fault\n"),
        (damaged.as_slice(), b"ssikvd: damaged record 0\n"),
        (old.as_slice(), b"ssikvd: old format\n"),
    ];
    for (bytes, text) in cases {
        for words in [CHECK_ODD, SERVE_ODD] {
            fs::write(&rt, "odd.data", bytes)?;
            assert!(rt; is_met(&rt, rt.alloc(), refused(words, FAULT, Expected::Is(text))));
            assert!(rt; fs::read(&rt, "odd.data")?.as_slice() == bytes);
        }
    }
    fs::remove_file(&rt, "odd.data")?;
    Ok(())
}

const CREATE_LISTEN: &[&str] = &[
    "ssikvd",
    "create",
    "--data",
    "listen.data",
    "--sectors",
    "2",
];

const SERVE_LISTEN: &[&str] = &[
    "ssikvd",
    "serve",
    "--data",
    "listen.data",
    "--listen",
    "127.0.0.1:0",
];

/// Does serving at the address end with the fault of listening, and nothing printed?
fn listening_is_refused<R: Files<File = File> + Net + Clock>(
    rt: &R,
    alloc: Global,
    address: &str,
) -> bool {
    let words = [
        "ssikvd",
        "serve",
        "--data",
        "listen.data",
        "--listen",
        address,
    ];
    let mut out = Vec::new(alloc);
    let mut err = Vec::new(alloc);
    let status = run(
        rt,
        alloc,
        words.as_slice(),
        b"".as_slice(),
        &mut out,
        &mut err,
    );
    status == FAULT && out.is_empty() && err.as_slice() == b"ssikvd: listen fault\n".as_slice()
}

/// Does serving end with the fault of a file, where its output fails?
fn printing_is_refused<R: Files<File = File> + Net + Clock>(rt: &R, alloc: Global) -> bool {
    let mut err = Vec::new(alloc);
    let status = run(
        rt,
        alloc,
        SERVE_LISTEN,
        b"".as_slice(),
        &mut Broken,
        &mut err,
    );
    status == FAULT && err.as_slice() == b"ssikvd: file fault\n".as_slice()
}

/// An address that another listens at is a fault, and so is an output that fails before the first turn.
#[test]
fn listening_fails(rt: HostRuntime) -> Result<(), Fail> {
    let _ = fs::remove_file(&rt, "listen.data");
    let made = refused(CREATE_LISTEN, DONE, Expected::Nothing);
    assert!(rt; is_met(&rt, rt.alloc(), made));
    let taken = TcpListener::bind(&rt, "127.0.0.1:0")?;
    let address = format!(in rt.alloc(); "{}", taken.local_addr()?)?;
    assert!(rt; listening_is_refused(&rt, rt.alloc(), &address));
    assert!(rt; printing_is_refused(&rt, rt.alloc()));
    fs::remove_file(&rt, "listen.data")?;
    Ok(())
}

const HELP: &[&str] = &["ssikvd", "--help"];

const PLAY_HELP: &[&str] = &["ssikvd", "play", "--help"];

const COMPACT: &[&str] = &["ssikvd", "compact"];

const CHECK_NONE: &[&str] = &["ssikvd", "check", "--data", "none"];

/// What fails to be written: help is then a fault, and a status stays where its text can't be written.
#[test]
fn outputs_that_fail(rt: HostRuntime) -> Result<(), Fail> {
    for words in [HELP, PLAY_HELP] {
        let mut err = Vec::new(rt.alloc());
        let status = run(
            &rt,
            rt.alloc(),
            words,
            b"".as_slice(),
            &mut Broken,
            &mut err,
        );
        assert!(rt; status == FAULT && err.as_slice() == b"ssikvd: file fault\n".as_slice());
    }
    let reported = [
        (REFUSED, COMPACT, b"".as_slice()),
        (FAULT, CHECK_NONE, b""),
        (BAD_LINE, PLAY, b"x PING"),
        (FAULT, PLAY, b"1 PING"),
    ];
    for (expected, words, input) in reported {
        let status = run(&rt, rt.alloc(), words, input, &mut Broken, &mut Broken);
        assert!(rt; status == expected);
    }
    Ok(())
}

/// A writer that counts the calls that it takes.
#[derive(Drop)]
struct Counting {
    writes: u64,
}

impl Write for Counting {
    fn write(&mut self, from: &[u8]) -> io::Result<usize> {
        self.writes = self.writes.saturating_add(1);
        Ok(from.len())
    }

    fn flush(&mut self) -> io::Result<()> {
        Ok(())
    }
}

const CREATE_LINES: &[&str] = &["ssikvd", "create", "--data", "lines.data", "--sectors", "2"];

const CHECK_LINES: &[&str] = &["ssikvd", "check", "--data", "lines.data"];

/// Each line leaves in one write.
#[test]
fn one_write_a_line(rt: HostRuntime) -> Result<(), Fail> {
    let _ = fs::remove_file(&rt, "lines.data");
    assert!(rt;
        is_met(
            &rt,
            rt.alloc(),
            refused(CREATE_LINES, DONE, Expected::Nothing)
        )
    );
    let cases = [
        (CHECK_LINES, b"".as_slice(), 1, 0),
        (HELP, b"", 1, 0),
        (COMPACT, b"", 0, 1),
        (CHECK_NONE, b"", 0, 1),
        (PLAY, b"1 BEGIN\n1 RANGE a z\n10\n", 2, 1),
    ];
    for (words, input, lines, faults) in cases {
        let mut out = Counting { writes: 0 };
        let mut err = Counting { writes: 0 };
        let _ = run(&rt, rt.alloc(), words, input, &mut out, &mut err);
        assert!(rt; out.writes == lines && err.writes == faults);
    }
    fs::remove_file(&rt, "lines.data")?;
    Ok(())
}

/// What is reported of an ending whose text can't be written, or can.
#[test]
fn endings(rt: HostRuntime) -> Result<(), Fail> {
    let long = Fault::Damaged(u64::MAX);
    let mut err = Vec::new(rt.alloc());
    let reported = finish(&Ending::Failed(long), &mut Broken, &mut err);
    assert!(rt;
        reported
            == (Reported {
                status: FAULT,
                is_written: true
            })
    );
    assert!(rt; err.as_slice() == b"ssikvd: damaged record 18446744073709551615\n".as_slice());
    let reported = finish(
        &Ending::Failed(Fault::BadLine(u64::MAX)),
        &mut Broken,
        &mut Broken,
    );
    assert!(rt;
        reported
            == (Reported {
                status: BAD_LINE,
                is_written: false
            })
    );
    let reported = finish(&Ending::Done, &mut Broken, &mut Broken);
    assert!(rt;
        reported
            == (Reported {
                status: DONE,
                is_written: true
            })
    );
    Ok(())
}

/// A device in memory is formatted and counted as a file is.
#[test]
fn devices_in_memory(rt: HostRuntime) -> Result<(), Fail> {
    for (sectors, made) in [
        (0, Err(Fault::LogFull)),
        (1, Err(Fault::LogFull)),
        (2, Ok(())),
        (9, Ok(())),
    ] {
        let mut device = MemSectors::new(rt.alloc(), sectors)?;
        assert!(rt; format_device(&mut device) == made);
        let mut out = Vec::new(rt.alloc());
        let (counted, _) = check_device(rt.alloc(), device, &mut out);
        if made.is_ok() {
            let line = format!(in rt.alloc(); "records 0 keys 0 sectors 2 of {sectors}\n")?;
            assert!(rt; counted == Ok(()) && out.as_slice() == line.as_bytes());
        } else {
            assert!(rt; counted == Err(Fault::NotALog) && out.is_empty());
        }
    }
    let mut device = MemSectors::new(rt.alloc(), 2)?;
    assert!(rt; format_device(&mut device) == Ok(()));
    let (counted, _) = check_device(rt.alloc(), device, &mut Broken);
    assert!(rt; counted == Err(Fault::File));
    Ok(())
}

/// A server of which the store stops at a turn, and whose poll fails at another.
#[derive(Drop)]
struct Turning {
    turns: u64,
    stops_at: u64,
    fails_at: u64,
    kind: ErrorKind,
}

fn stopping_server(stops_at: u64, fails_at: u64, kind: ErrorKind) -> Turning {
    Turning {
        turns: 0,
        stops_at,
        fails_at,
        kind,
    }
}

impl Turns for Turning {
    type Hub = ();

    fn next_turn(&mut self) -> io::Result<()> {
        self.turns = self.turns.saturating_add(1);
        if self.turns == self.fails_at {
            return Err(self.kind.into());
        }
        Ok(())
    }

    fn is_stopped(&self) -> bool {
        self.turns >= self.stops_at
    }

    fn address(&self) -> io::Result<SocketAddr> {
        Err(ErrorKind::Other.into())
    }

    fn into_hub(self) {}
}

/// That the store has stopped is reported once, whether it stops at the first turn or later, or not at all where the poll fails before.
#[test]
fn a_stop_is_reported_once(rt: HostRuntime) -> Result<(), Fail> {
    let line = b"ssikvd: store stopped\n".as_slice();
    let cases = [
        (1, 9, line),
        (4, 9, line),
        (8, 9, line),
        (9, 9, b""),
        (1, 1, b""),
    ];
    for (stops_at, fails_at, text) in cases {
        for (kind, fault) in [
            (ErrorKind::Other, Fault::Poll),
            (ErrorKind::OutOfMemory, Fault::Memory),
        ] {
            let mut server = stopping_server(stops_at, fails_at, kind);
            let mut err = Vec::new(rt.alloc());
            let ended = serve_turns(&mut server, &mut err);
            assert!(rt; ended == Err(fault) && err.as_slice() == text && server.turns == fails_at);
        }
    }
    Ok(())
}

#[test]
fn a_stop_that_cannot_be_reported_ends_nothing(rt: HostRuntime) -> Result<(), Fail> {
    let mut server = stopping_server(2, 5, ErrorKind::Other);
    let mut err = Counting { writes: 0 };
    assert!(rt; serve_turns(&mut server, &mut err) == Err(Fault::Poll) && err.writes == 1);
    let mut server = stopping_server(2, 5, ErrorKind::Other);
    assert!(rt; serve_turns(&mut server, &mut Broken) == Err(Fault::Poll) && server.turns == 5);
    Ok(())
}

/// An opener that gives these numbers in turn, and then fails.
#[derive(Drop)]
struct Numbers<'a> {
    given: &'a [i32],
    at: usize,
}

impl Opener for Numbers<'_> {
    type File = i32;

    fn open(&mut self) -> io::Result<i32> {
        let Some(number) = self.given.get(self.at) else {
            return Err(ErrorKind::Other.into());
        };
        self.at = self.at.saturating_add(1);
        Ok(*number)
    }
}

/// Files are opened until one is above the standard streams, and the ones before it are kept.
#[test]
fn standard_streams(rt: HostRuntime) -> Result<(), Fail> {
    let cases = [
        ([3, 9].as_slice(), 0),
        ([7].as_slice(), 0),
        ([2, 3, 9].as_slice(), 1),
        ([1, 3, 9].as_slice(), 1),
        ([0, 2, 5, 9].as_slice(), 2),
        ([0, 1, 2, 3, 9].as_slice(), 3),
    ];
    for (given, kept) in cases {
        let mut numbers = Numbers { given, at: 0 };
        let files = keep_standard(&mut numbers)?;
        assert!(rt; files.len() == kept && numbers.at == files.len() + 1);
        for (file, number) in files.as_slice().iter().zip(given) {
            assert!(rt; *file == Some(*number));
        }
    }
    let failing = [
        [].as_slice(),
        [0].as_slice(),
        [0, 1, 2].as_slice(),
        [0, 1, 2, 2, 3].as_slice(),
    ];
    for given in failing {
        assert!(rt; keep_standard(&mut Numbers { given, at: 0 }).is_err());
    }
    Ok(())
}
