//! One transaction over stored pairs, request by request.
use crate::helpers::{key, put};
use model::{KeyRef, Map, Memory, RangeRef};
use snapshot::{Rows, SnapshotFault, Transaction};
use std::alloc::Global;
use versions::Versions;

// A request with what it is answered. The values are of one byte.
#[derive(Clone, Copy)]
enum Step {
    Set(&'static [u8], u8),
    Delete(&'static [u8]),
    Get(&'static [u8], Option<u8>),
    // From, below (nothing for no end), at most so many, and the pairs.
    Range(&'static [u8], &'static [u8], u8, &'static [(u8, u8)]),
    // Has the transaction read the key?
    IsRead(&'static [u8], bool),
}

// The versions of a map in which these keys have the value `1`.
fn store(alloc: Global, keys: &[u8]) -> Result<Versions, Memory> {
    let mut map = Map::new(alloc);
    for byte in keys {
        put(alloc, &mut map, &[*byte], b"1")?;
    }
    Versions::from_map(alloc, map)
}

// Does the key have this value?
fn gets(t: &mut Transaction, versions: &Versions, key: KeyRef<'_>, want: Option<u8>) -> bool {
    match (t.get(versions, key), want) {
        (Ok(None), None) => true,
        (Ok(Some(found)), Some(value)) => found == [value].as_slice(),
        _ => false,
    }
}

// Are these the pairs, keys and values of one byte each?
fn are(rows: Rows<'_>, pairs: &[(u8, u8)]) -> bool {
    let mut left = pairs;
    for (key, value) in rows {
        let [(k, v), rest @ ..] = left else {
            return false;
        };
        if key.bytes() != [*k].as_slice() || value != [*v].as_slice() {
            return false;
        }
        left = rest;
    }
    left.is_empty()
}

// Are these the pairs of the range?
fn ranges(
    t: &mut Transaction,
    versions: &Versions,
    range: RangeRef<'_>,
    limit: u8,
    pairs: &[(u8, u8)],
) -> bool {
    match t.range(versions, range, limit) {
        Ok(rows) => rows.len() == pairs.len() && are(rows, pairs),
        Err(_) => false,
    }
}

// Is the request answered so?
fn holds(t: &mut Transaction, versions: &Versions, step: Step) -> Option<bool> {
    Some(match step {
        Step::Set(key, value) => t.put(KeyRef::new(key)?, &[value]).is_ok(),
        Step::Delete(key) => t.delete(KeyRef::new(key)?).is_ok(),
        Step::Get(key, want) => gets(t, versions, KeyRef::new(key)?, want),
        Step::Range(lo, hi, limit, pairs) => {
            let range = RangeRef {
                lo: KeyRef::new(lo)?,
                hi: KeyRef::new(hi),
            };
            ranges(t, versions, range, limit, pairs)
        }
        Step::IsRead(key, is_read) => t.marks().covers(KeyRef::new(key)?) == is_read,
    })
}

// The place of the first step of a transaction over these keys that is answered otherwise.
fn first_wrong(alloc: Global, keys: &[u8], steps: &[Step]) -> Result<Option<usize>, Memory> {
    let versions = store(alloc, keys)?;
    let mut t = Transaction::new(alloc, 0);
    for (i, step) in steps.iter().enumerate() {
        if holds(&mut t, &versions, *step) != Some(true) {
            return Ok(Some(i));
        }
    }
    Ok(None)
}

static RANGE_OVER_OWN_WRITES: [Step; 7] = [
    Step::Set(b"a", b'2'),
    Step::Delete(b"b"),
    Step::Set(b"d", b'3'),
    Step::Set(b"e", b'4'),
    Step::Range(b"a", b"", 9, &[(b'a', b'2'), (b'd', b'3'), (b'e', b'4')]),
    Step::Range(b"a", b"", 2, &[(b'a', b'2'), (b'd', b'3')]),
    Step::Range(b"b", b"c", 5, &[]),
];

static BOUNDS_AND_LIMITS: [Step; 8] = [
    Step::Range(b"b", b"b", 5, &[]),
    Step::Range(b"c", b"a", 5, &[]),
    Step::IsRead(b"b", false),
    Step::Range(b"a", b"", 5, &[(b'a', b'1'), (b'b', b'1')]),
    Step::Range(b"a", b"", 1, &[(b'a', b'1')]),
    Step::Range(b"a", b"b", 128, &[(b'a', b'1')]),
    Step::IsRead(b"b", true),
    Step::Get(b"c", None),
];

static DELETED_KEY: [Step; 5] = [
    Step::Get(b"a", Some(b'1')),
    Step::Delete(b"a"),
    Step::Get(b"a", None),
    Step::Range(b"a", b"", 9, &[]),
    Step::Get(b"b", None),
];

static READS_AND_WRITES: [Step; 13] = [
    Step::IsRead(b"a", false),
    Step::Get(b"a", Some(b'1')),
    Step::Range(b"b", b"d", 1, &[(b'b', b'1')]),
    Step::IsRead(b"a", true),
    Step::IsRead(b"b", true),
    // The reply reached its limit, so no more is read than up to its last key.
    Step::IsRead(b"c", false),
    Step::Set(b"d", b'1'),
    Step::Set(b"a", b'2'),
    Step::Set(b"d", b'3'),
    Step::Delete(b"a"),
    Step::Get(b"d", Some(b'3')),
    Step::Get(b"a", None),
    // What it wrote itself it has not read.
    Step::IsRead(b"d", false),
];

#[test]
fn worked_steps(rt: HostRuntime) {
    let rows: [(&[u8], &[Step]); 4] = [
        (b"ab", &READS_AND_WRITES),
        (b"bd", &RANGE_OVER_OWN_WRITES),
        (b"ab", &BOUNDS_AND_LIMITS),
        (b"a", &DELETED_KEY),
    ];
    for (keys, steps) in rows {
        assert!(rt;
            first_wrong(rt.alloc(), keys, steps) == Ok(None),
            "{keys:?}"
        );
    }
}

#[test]
fn two_hundred_fifty_six_marks(rt: HostRuntime) {
    let versions = store(rt.alloc(), b"").expect(&rt, "memory");
    let mut t = Transaction::new(rt.alloc(), 0);
    assert!(rt; t.put(key(b"z"), b"1").is_ok());
    for i in 0..=255u8 {
        assert!(rt; gets(&mut t, &versions, key(&[b'k', i]), None));
    }
    assert!(rt; !gets(&mut t, &versions, key(b"y"), None));
    let range = RangeRef {
        lo: key(b"a"),
        hi: None,
    };
    assert!(rt; t.range(&versions, range, 1).is_err());
    assert!(rt; gets(&mut t, &versions, key(b"k7"), None));
    assert!(rt; gets(&mut t, &versions, key(b"z"), Some(b'1')));
    assert!(rt; t.into_writes().len() == 1);
}

#[test]
fn sixty_four_writes(rt: HostRuntime) {
    let mut t = Transaction::new(rt.alloc(), 7);
    for i in 0..64u8 {
        assert!(rt; t.put(key(&[63 - i]), b"1").is_ok());
    }
    assert!(rt; t.put(key(b"z"), b"1") == Err(SnapshotFault::FullWrites));
    assert!(rt; t.put(key(&[63]), b"2").is_ok());
    assert!(rt; t.begin() == 7 && t.entries().len() == 64);
    assert!(rt; t.into_key(3).lend().bytes() == [3].as_slice());
}
