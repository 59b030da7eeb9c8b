//! How many pages of keys a range counts of which a reader sees few pairs.
ghost use Rattle.std.specs.Prelude.{◌≡◌, ◌^◌, ◌<◌};

use crate::helpers::key;
use model::{Key, KeyRef, Map, RangeRef, Write};
use snapshot::Transaction;
use std::process::Abort;
use versions::Versions;

// How many commits there are. Each writes a key of its own.
const COMMITS: u64 = 3_000;

// The number after the first commits: who begins with it sees as many keys.
const FEW: u64 = 3;

// The bytes of the key of a place.
fn at_place(place: u64) -> [u8; 2]
    requires { place < 2 ^ 16 }
{
    [(place / 256) as u8, (place % 256) as u8]
}

// Writes a key of this number, in an order that looks random.
fn commit<R: Abort + AllocGlobal>(rt: &R, versions: &mut Versions, n: u64)
    requires above { versions.old.last < n }
    requires fits { n < 2 ^ 63 }
    ensures { versions.new.last ≡ n }
{
    let bytes = at_place(n % COMMITS * 487 % COMMITS);
    let key = Key::from_ref(rt.alloc(), key(&bytes)).expect(rt, "memory");
    let value = Vec::from_slice(rt.alloc(), b"1").expect(rt, "memory");
    let mut writes = Vec::new(rt.alloc());
    writes
        .push(Write::new(key, Some(value)))
        .expect(rt, "memory");
    versions.prepare(&writes).expect(rt, "memory");
    versions.install(n, writes);
}

// Some thousands of keys, each of a commit of its own.
fn versions_of_many<R: Abort + AllocGlobal>(rt: &R) -> Versions {
    let map = Map::new(rt.alloc());
    let mut versions = Versions::from_map(rt.alloc(), map).expect(rt, "memory");
    for n in 1..COMMITS {
        commit(rt, &mut versions, n);
    }
    versions
}

// How many pairs of the range one who begins with the number reads, and how many pages that takes.
fn counts<R: Abort + AllocGlobal>(
    rt: &R,
    versions: &Versions,
    begin: u64,
    lo: KeyRef<'_>,
    hi: Option<KeyRef<'_>>,
) -> (usize, usize) {
    let mut t = Transaction::new(rt.alloc(), begin);
    let rows = t
        .range(versions, RangeRef { lo, hi }, 128)
        .expect(rt, "rows");
    (rows.len(), rows.pages_looked_at())
}

/// Who began before most keys were written, and isn't among the active, sees few of them, and of each page it isn't known whether it sees
/// any: a range over all keys looks at more pages than it gives pairs.
#[test]
fn a_range_of_few_pairs_counts_its_pages(rt: HostRuntime) {
    let versions = versions_of_many(&rt);
    let pages = versions.pages();
    assert!(rt; pages >= 10);
    let (len, looked_at) = counts(&rt, &versions, FEW, key(b"\0"), None);
    assert!(rt;
        len == 3 && looked_at > 3 && looked_at < pages,
        "{looked_at} of {pages}"
    );
}

/// Neighbouring keys stand in one page or in two.
#[test]
fn a_range_over_neighbours_counts_one_page_at_most(rt: HostRuntime) {
    let versions = versions_of_many(&rt);
    for i in 0..59u64 {
        let place = i * 50;
        let (lo, hi) = (at_place(place + 1), at_place(place + 9));
        let (len, looked_at) = counts(&rt, &versions, COMMITS, key(&lo), Some(key(&hi)));
        assert!(rt; len == 8 && looked_at <= 1, "at {place}");
    }
}
