//! Requests: how input is decoded, and the commands that requests are.
use model::{Command, FRAME_MAX, Memory, Refusal, VALUE_MAX};
use resp::{Decoded, command, decode};
use std::alloc::Global;

// What the front of the input is: the start of a request, none, a command, or what its request is refused for.
fn answer(input: &[u8]) -> &'static str {
    let request = match decode(input) {
        Decoded::Whole(request, _) => request,
        Decoded::More => return "more",
        Decoded::Bad => return "bad",
    };
    match command(&request) {
        Ok(_) => "command",
        Err(Refusal::UnknownCommand) => "name",
        Err(Refusal::BadArguments) => "arguments",
        Err(Refusal::BadKey) => "key",
        Err(Refusal::BadLimit) => "limit",
        Err(_) => "other",
    }
}

static FRAMES: [(&[u8], &str); 18] = [
    (b"", "more"),
    (b"*1", "more"),
    (b"*1\r\n$409", "more"),
    (b"*1\r\n$2\r\nab", "more"),
    (b"*0", "bad"),
    (b"*5", "bad"),
    (b"*01\r\n", "bad"),
    (b"*11", "bad"),
    (b"*1\n", "bad"),
    (b"*9", "bad"),
    (b"PING\r\n", "bad"),
    (b"*1\r\n$4097", "more"),
    (b"*1\r\n$16384", "more"),
    (b"*1\r\n$16385", "bad"),
    (b"*1\r\n$20000", "bad"),
    (b"*1\r\n$-1", "bad"),
    (b"*1\r\n$00", "bad"),
    (b"*1\r\n$2\r\nabc", "bad"),
];

// A name, then the number of parts, then the keys, then the limit: the first fault is reported.
static COMMANDS: [(&[u8], &str); 30] = [
    (b"*1\r\n$5\r\nbEgIn\r\n", "command"),
    (b"*1\r\n$6\r\nCOMMIT\r\n", "command"),
    (b"*1\r\n$5\r\nABORT\r\n", "command"),
    (b"*1\r\n$4\r\nPING\r\n", "command"),
    (b"*2\r\n$3\r\nget\r\n$1\r\na\r\n", "command"),
    (b"*2\r\n$3\r\ndel\r\n$1\r\na\r\n", "command"),
    (b"*3\r\n$3\r\nSET\r\n$1\r\na\r\n$0\r\n\r\n", "command"),
    (
        b"*4\r\n$5\r\nRANGE\r\n$1\r\na\r\n$0\r\n\r\n$1\r\n1\r\n",
        "command",
    ),
    (b"*1\r\n$3\r\nFOO\r\n", "name"),
    (b"*1\r\n$0\r\n\r\n", "name"),
    (b"*4\r\n$3\r\nFOO\r\n$0\r\n\r\n$0\r\n\r\n$0\r\n\r\n", "name"),
    (b"*2\r\n$5\r\nBEGIN\r\n$0\r\n\r\n", "arguments"),
    (b"*2\r\n$6\r\nCOMMIT\r\n$0\r\n\r\n", "arguments"),
    (b"*2\r\n$5\r\nABORT\r\n$0\r\n\r\n", "arguments"),
    (b"*2\r\n$4\r\nPING\r\n$1\r\na\r\n", "arguments"),
    (b"*1\r\n$3\r\nGET\r\n", "arguments"),
    (b"*3\r\n$3\r\nGET\r\n$0\r\n\r\n$0\r\n\r\n", "arguments"),
    (b"*3\r\n$3\r\nDEL\r\n$0\r\n\r\n$0\r\n\r\n", "arguments"),
    (b"*2\r\n$3\r\nSET\r\n$0\r\n\r\n", "arguments"),
    (b"*3\r\n$5\r\nRANGE\r\n$0\r\n\r\n$0\r\n\r\n", "arguments"),
    (b"*2\r\n$3\r\nGET\r\n$0\r\n\r\n", "key"),
    (b"*3\r\n$3\r\nSET\r\n$0\r\n\r\n$1\r\n1\r\n", "key"),
    (
        b"*4\r\n$5\r\nRANGE\r\n$0\r\n\r\n$1\r\nb\r\n$1\r\n0\r\n",
        "key",
    ),
    (
        b"*4\r\n$5\r\nRANGE\r\n$0\r\n\r\n$1\r\nb\r\n$1\r\n5\r\n",
        "key",
    ),
    (
        b"*4\r\n$5\r\nRANGE\r\n$1\r\na\r\n$0\r\n\r\n$3\r\n128\r\n",
        "command",
    ),
    (
        b"*4\r\n$5\r\nRANGE\r\n$1\r\na\r\n$0\r\n\r\n$3\r\n129\r\n",
        "limit",
    ),
    (
        b"*4\r\n$5\r\nRANGE\r\n$1\r\na\r\n$0\r\n\r\n$1\r\n0\r\n",
        "limit",
    ),
    (
        b"*4\r\n$5\r\nRANGE\r\n$1\r\na\r\n$0\r\n\r\n$2\r\n01\r\n",
        "limit",
    ),
    (
        b"*4\r\n$5\r\nRANGE\r\n$1\r\na\r\n$0\r\n\r\n$2\r\n+1\r\n",
        "limit",
    ),
    (
        b"*4\r\n$5\r\nRANGE\r\n$1\r\na\r\n$0\r\n\r\n$0\r\n\r\n",
        "limit",
    ),
];

#[test]
fn reads_frames_and_commands(rt: HostRuntime) {
    for (input, want) in FRAMES.iter().chain(&COMMANDS) {
        assert!(rt; answer(input) == *want, "{input:?}");
    }
}

static REQUESTS: [(&[u8], &[&[u8]], usize); 4] = [
    (b"*1\r\n$0\r\n\r\n", &[b""], 10),
    (b"*1\r\n$5\r\nBEGIN\r\n", &[b"BEGIN"], 15),
    (b"*2\r\n$3\r\nGET\r\n$1\r\na\r\n", &[b"GET", b"a"], 20),
    (b"*1\r\n$4\r\nPING\r\n*9", &[b"PING"], 14),
];

// Are these the parts of the request at the front, and is it spelled by so many bytes?
fn is_request(input: &[u8], parts: &[&[u8]], used: usize) -> bool {
    let Decoded::Whole(request, n) = decode(input) else {
        return false;
    };
    for i in 0..request.len().min(parts.len()) {
        if request.part(i) != parts[i] {
            return false;
        }
    }
    request.len() == parts.len() && n == used
}

// Does the request of so many bytes need all of them?
fn needs_all(input: &[u8], used: usize) -> bool {
    for end in 0..used.min(input.len()) {
        if !matches!(decode(&input[..end]), Decoded::More) {
            return false;
        }
    }
    true
}

#[test]
fn decodes_requests(rt: HostRuntime) {
    for (input, parts, used) in &REQUESTS {
        assert!(rt; is_request(input, parts, *used), "{input:?}");
        assert!(rt; needs_all(input, *used), "{input:?}");
    }
}

#[test]
fn decodes_the_largest_request(rt: HostRuntime) {
    let line = format!(in rt.alloc(); "${}\r\n", VALUE_MAX).expect(&rt, "memory");
    let mut longest = Vec::new(rt.alloc());
    longest.resize(VALUE_MAX, 7u8).expect(&rt, "memory");
    let mut input = Vec::from_slice(rt.alloc(), b"*4\r\n").expect(&rt, "memory");
    for _ in 0..4 {
        for piece in [line.as_bytes(), &longest, b"\r\n"] {
            input.extend_from_slice(piece).expect(&rt, "memory");
        }
    }
    let part = longest.as_slice();
    assert!(rt; is_request(&input, &[part, part, part, part], FRAME_MAX));
}

// The answer to a request with a key of so many bytes between these two.
fn answer_with_key(
    alloc: Global,
    front: &[u8],
    length: usize,
    back: &[u8],
) -> Result<&'static str, Memory> {
    let mut input = Vec::from_slice(alloc, front)?;
    for _ in 0..length {
        input.push(b'k')?;
    }
    input.extend_from_slice(back)?;
    Ok(answer(&input))
}

static KEYS: [(&[u8], usize, &[u8], &str); 4] = [
    (b"*2\r\n$3\r\nGET\r\n$256\r\n", 256, b"\r\n", "command"),
    (b"*2\r\n$3\r\nGET\r\n$257\r\n", 257, b"\r\n", "key"),
    (
        b"*4\r\n$5\r\nRANGE\r\n$1\r\na\r\n$256\r\n",
        256,
        b"\r\n$1\r\n0\r\n",
        "limit",
    ),
    (
        b"*4\r\n$5\r\nRANGE\r\n$1\r\na\r\n$257\r\n",
        257,
        b"\r\n$1\r\n0\r\n",
        "key",
    ),
];

#[test]
fn bounds_the_length_of_keys(rt: HostRuntime) {
    for (front, length, back, want) in &KEYS {
        let found = answer_with_key(rt.alloc(), front, *length, back);
        assert!(rt; found == Ok(*want), "{length}");
    }
}

// Does the request ask for the pairs of the range?
fn is_range(input: &[u8], lo: &[u8], hi: &[u8], limit: u8) -> bool {
    let Decoded::Whole(request, _) = decode(input) else {
        return false;
    };
    let Ok(Command::Range(range, its_limit)) = command(&request) else {
        return false;
    };
    match range.hi {
        Some(its_hi) => range.lo.bytes() == lo && its_hi.bytes() == hi && its_limit == limit,
        None => false,
    }
}

#[test]
fn reads_arguments(rt: HostRuntime) {
    let input = b"*4\r\n$5\r\nrange\r\n$1\r\na\r\n$1\r\nc\r\n$2\r\n17\r\n";
    assert!(rt; is_range(input, b"a", b"c", 17));
}
