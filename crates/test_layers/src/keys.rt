//! Keys and maps.
use crate::helpers::{is_pair, key, put};
use model::{KeyRef, Map, Pair};
use std::cmp::Ordering;

fn length(bytes: &[u8]) -> Option<usize> {
    Some(KeyRef::new(bytes)?.bytes().len())
}

#[test]
fn keys_have_1_to_256_bytes(rt: HostRuntime) {
    let bytes = [7u8; 257];
    for (n, want) in [(0, None), (1, Some(1)), (256, Some(256)), (257, None)] {
        assert!(rt; length(&bytes[..n]) == want, "{n}");
    }
}

fn order(left: &[u8], right: &[u8]) -> Option<Ordering> {
    Some(KeyRef::new(left)?.order(KeyRef::new(right)?))
}

#[test]
fn keys_stand_in_the_order_of_their_bytes(rt: HostRuntime) {
    let rows: [(&[u8], &[u8], Ordering); 4] = [
        (b"a", b"b", Ordering::Less),
        (b"a", b"a\x00", Ordering::Less),
        (b"ab", b"ab", Ordering::Equal),
        (b"\xff", b"b\xff", Ordering::Greater),
    ];
    for (left, right, want) in rows {
        assert!(rt; order(left, right) == Some(want), "{left:?} {right:?}");
    }
}

fn is_owned_pair(pair: Option<Pair>, key: &[u8], value: &[u8]) -> bool {
    match pair {
        Some(pair) => pair.lend_key().bytes() == key && pair.value() == value,
        None => false,
    }
}

#[test]
fn maps_keep_the_last_value(rt: HostRuntime) {
    let mut map = Map::new(rt.alloc());
    for (name, value) in [(b"b", b"1"), (b"a", b"2"), (b"c", b"3"), (b"b", b"4")] {
        assert!(rt; put(rt.alloc(), &mut map, name, value).is_ok());
    }
    map.remove(key(b"c"));
    map.remove(key(b"d"));
    assert!(rt; map.get(key(b"b")) == Some(b"4".as_slice()));
    assert!(rt; map.get(key(b"c")).is_none());
    let mut pairs = map.pairs();
    assert!(rt; is_pair(pairs.next(), b"a", b"2"));
    assert!(rt; is_pair(pairs.next(), b"b", b"4"));
    assert!(rt; map.len() == 2);
    let mut owned = map.into_pairs();
    assert!(rt; is_owned_pair(owned.pop(), b"b", b"4"));
    assert!(rt; is_owned_pair(owned.pop(), b"a", b"2"));
    assert!(rt; owned.is_empty());
}
