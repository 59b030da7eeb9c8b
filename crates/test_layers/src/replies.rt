//! The texts of replies.
use crate::helpers::{key, put};
use model::{Key, Map, Memory, RANGE_REPLY_MAX, Refusal, Reply, VALUE_MAX};
use resp::{BRIEF_MAX, write_pairs, write_reply};
use std::alloc::Global;

fn write(alloc: Global, reply: &Reply<'_>) -> Result<Vec<u8>, Memory> {
    let mut out = Vec::from_slice(alloc, b"1")?;
    write_reply(&mut out, reply)?;
    Ok(out)
}

// Is this the reply's text, after what is there?
fn is_text(alloc: Global, reply: &Reply<'_>, want: &[u8]) -> bool {
    match write(alloc, reply) {
        Ok(out) => out.strip_prefix(b"1") == Some(want),
        Err(_) => false,
    }
}

#[test]
fn writes_replies(rt: HostRuntime) {
    let (frame, pivot, numbers) = (Refusal::BadFrame, Refusal::Pivot(12), Refusal::FullNumbers);
    let rows: [(Reply<'_>, &[u8]); 10] = [
        (Reply::Done, b"+OK\r\n"),
        (Reply::Pong, b"+PONG\r\n"),
        (Reply::Number(7), b":7\r\n"),
        (Reply::Number(u64::MAX), b":18446744073709551615\r\n"),
        (Reply::Value(Some(b"ab")), b"$2\r\nab\r\n"),
        (Reply::Value(Some(b"")), b"$0\r\n\r\n"),
        (Reply::Value(None), b"$-1\r\n"),
        (Reply::Refused(&frame), b"-ERR frame\r\n"),
        (Reply::Refused(&pivot), b"-CONFLICT pivot 12\r\n"),
        (Reply::Refused(&numbers), b"-FULL numbers\r\n"),
    ];
    for (reply, want) in &rows {
        assert!(rt; is_text(rt.alloc(), reply, want), "{want:?}");
    }
}

#[test]
fn writes_overwritten_keys(rt: HostRuntime) {
    let key_k = Key::from_ref(rt.alloc(), key(b"k")).expect(&rt, "memory");
    let short = Refusal::Overwritten(key_k);
    let text = b"-CONFLICT overwritten 6b\r\n";
    assert!(rt; is_text(rt.alloc(), &Reply::Refused(&short), text));
    let longest = Key::from_ref(rt.alloc(), key(&[255; 256])).expect(&rt, "memory");
    let long = Refusal::Overwritten(longest);
    let out = write(rt.alloc(), &Reply::Refused(&long)).expect(&rt, "memory");
    assert!(rt; out.len() == 1 + BRIEF_MAX);
}

fn write_map(alloc: Global, map: &Map) -> Result<Vec<u8>, Memory> {
    let mut out = Vec::new(alloc);
    write_pairs(&mut out, map.len(), map.pairs())?;
    Ok(out)
}

// Is this the text of the map's pairs?
fn is_map_text(alloc: Global, map: &Map, want: &[u8]) -> bool {
    match write_map(alloc, map) {
        Ok(text) => text.as_slice() == want,
        Err(_) => false,
    }
}

#[test]
fn writes_pairs(rt: HostRuntime) {
    let mut map = Map::new(rt.alloc());
    assert!(rt; is_map_text(rt.alloc(), &map, b"*0\r\n"));
    assert!(rt; put(rt.alloc(), &mut map, b"a", b"1").is_ok());
    assert!(rt; put(rt.alloc(), &mut map, b"b", b"22").is_ok());
    let text = b"*4\r\n$1\r\na\r\n$1\r\n1\r\n$1\r\nb\r\n$2\r\n22\r\n";
    assert!(rt; is_map_text(rt.alloc(), &map, text));
}

#[test]
fn writes_the_longest_pairs(rt: HostRuntime) {
    let mut key = [0u8; 256];
    let mut map = Map::new(rt.alloc());
    let mut value = Vec::new(rt.alloc());
    value.resize(VALUE_MAX, 1).expect(&rt, "memory");
    for i in 0..128u8 {
        key[255] = i;
        assert!(rt; put(rt.alloc(), &mut map, &key, &value).is_ok());
    }
    let text = write_map(rt.alloc(), &map).expect(&rt, "memory");
    assert!(rt; text.len() == RANGE_REPLY_MAX);
}
