//! Versions in long use: their pages, the places of these and the groups of older versions stay few.
ghost use Rattle.std.specs.Prelude.{◌≡◌, ◌^◌, ◌<◌};

use crate::helpers::key;
use model::{Key, Map, Write};
use std::process::Abort;
use versions::Versions;

// How many commits there are in each test.
const COMMITS: u64 = 3_000;

// How many keys there are.
const KEYS: u64 = 1_201;

// The bytes of one of the keys, in an order that looks random.
fn scattered(number: u64) -> [u8; 2] {
    let place = number % KEYS * 487 % KEYS;
    [(place / 256) as u8, (place % 256) as u8]
}

// Writes a key of this number, or deletes it.
fn commit<R: Abort + AllocGlobal>(rt: &R, versions: &mut Versions, n: u64)
    requires above { versions.old.last < n }
    requires fits { n < 2 ^ 63 }
    ensures { versions.new.last ≡ n }
{
    let value = if n % 5 == 0 {
        None
    } else {
        Some(Vec::from_slice(rt.alloc(), b"1").expect(rt, "memory"))
    };
    let bytes = scattered(n);
    let key = Key::from_ref(rt.alloc(), key(&bytes)).expect(rt, "memory");
    let mut writes = Vec::new(rt.alloc());
    writes.push(Write::new(key, value)).expect(rt, "memory");
    versions.prepare(&writes).expect(rt, "memory");
    versions.install(n, writes);
}

// Ends the old transaction at one of the places, and has another begin.
fn renew(begins: &mut [u64; 4], n: u64) {
    begins[0] = n;
    if n % 7 == 0 {
        begins[1] = n;
    }
    if n % 50 == 0 {
        begins[2] = n;
    }
    if n % 400 == 0 {
        begins[3] = n;
    }
}

// Are the pages few, each of 144 keys at least and of 288 at most, and have they places for half as many keys more at most?
fn are_small(versions: &Versions, keys: usize) -> bool {
    let pages = versions.pages().saturating_mul(144);
    let few = pages <= keys || versions.pages() <= 1;
    let split = keys <= pages.saturating_mul(2);
    let places = versions.places().saturating_mul(2);
    few && split && (keys < 192 || places <= keys.saturating_mul(3))
}

/// Random keys are written, and deleted, while old transactions come and go.
#[test]
fn pages_places_and_groups_stay_few(rt: HostRuntime) {
    let map = Map::new(rt.alloc());
    let mut versions = Versions::from_map(rt.alloc(), map).expect(&rt, "memory");
    let mut begins = [0; 4];
    for n in 1..COMMITS {
        commit(&rt, &mut versions, n);
        renew(&mut begins, n);
        versions.reclaim_step(&begins);
        assert!(rt; versions.groups() <= 5, "after commit {n}");
        let keys = n.min(KEYS) as usize;
        assert!(rt; are_small(&versions, keys), "after commit {n}");
    }
    versions.reclaim(&[]);
    assert!(rt; versions.groups() <= 1);
}
