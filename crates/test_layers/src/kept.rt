//! Which versions are kept, and in how many steps garbage is collected.
ghost use Rattle.model.specs.Bounds.{value_max};
ghost use Rattle.std.specs.Prelude.{◌≡◌, ◌≤◌, ◌^◌, ◌<◌, IfSome, length};

use crate::helpers::{is_pair, key, put};
use model::{Key, KeyRef, Map, RangeRef, Write};
use std::process::Abort;
use versions::Versions;

// Commits one write, or a deletion, with this number.
fn commit<R: Abort + AllocGlobal>(
    rt: &R,
    versions: &mut Versions,
    n: u64,
    key: KeyRef<'_>,
    value: Option<&[u8]>,
)
    requires bound { IfSome value (λ v. length v.now ≤ value_max) }
    requires above { versions.old.last < n }
    requires fits { n < 2 ^ 63 }
    ensures { versions.new.last ≡ n }
{
    let value = match value {
        Some(bytes) => Some(Vec::from_slice(rt.alloc(), bytes).expect(rt, "memory")),
        None => None,
    };
    let key = Key::from_ref(rt.alloc(), key).expect(rt, "memory");
    let mut writes = Vec::new(rt.alloc());
    writes.push(Write::new(key, value)).expect(rt, "memory");
    versions.prepare(&writes).expect(rt, "memory");
    versions.install(n, writes);
}

// The versions of the map alone.
fn versions_of<R: Abort + AllocGlobal>(rt: &R, map: Map) -> Versions
    ensures { result.last ≡ 0 }
{
    Versions::from_map(rt.alloc(), map).expect(rt, "memory")
}

// The versions of a map with `1` at `a`, after a commit that writes `2` there and one that deletes it.
fn after_two_commits<R: Abort + AllocGlobal>(rt: &R) -> Versions {
    let mut map = Map::new(rt.alloc());
    put(rt.alloc(), &mut map, b"a", b"1").expect(rt, "memory");
    let mut versions = versions_of(rt, map);
    commit(rt, &mut versions, 1, key(b"a"), Some(b"2"));
    commit(rt, &mut versions, 2, key(b"a"), None);
    versions
}

/// A reader of the opened map sees it while two commits go past, and then its version goes.
#[test]
fn kept_versions(rt: HostRuntime) {
    let (a, b) = (key(b"a"), key(b"b"));
    let mut versions = after_two_commits(&rt);
    assert!(rt; versions.kept(a) == 3);
    versions.reclaim(&[0]);
    assert!(rt; versions.kept(a) == 2 && versions.kept(b) == 0);
    assert!(rt; versions.newest(a) == Some(2) && versions.newest(b).is_none());
    assert!(rt; versions.at(0, a) == Some(b"1".as_slice()) && versions.at(2, a).is_none());
    let from_a = RangeRef { lo: a, hi: None };
    assert!(rt; is_pair(versions.range(0, from_a).next(), b"a", b"1"));
    assert!(rt; versions.range(2, from_a).next().is_none());
    versions.reclaim(&[]);
    assert!(rt; versions.kept(a) == 1);
}

// Versions of `a` by five commits, of which the last deletes it, and one of `b`.
fn after_six_commits<R: Abort + AllocGlobal>(rt: &R) -> Versions {
    let mut versions = versions_of(rt, Map::new(rt.alloc()));
    for n in 1..5 {
        commit(rt, &mut versions, n, key(b"a"), Some(b"1"));
    }
    commit(rt, &mut versions, 5, key(b"a"), None);
    commit(rt, &mut versions, 6, key(b"b"), Some(b"6"));
    versions
}

/// Where no number before the last is active, older versions go in three steps, since each of six commits has a list, and a step looks at
/// two. The deleted key before the other isn't shown.
#[test]
fn few_lists_go_in_three_steps(rt: HostRuntime) {
    let (a, b) = (key(b"a"), key(b"b"));
    let mut versions = after_six_commits(&rt);
    assert!(rt; versions.kept(a) == 5);
    assert!(rt; versions.reclaim_step(&[6]));
    assert!(rt; versions.reclaim_step(&[6]));
    assert!(rt; !versions.reclaim_step(&[6]));
    assert!(rt; versions.kept(a) == 1 && versions.kept(b) == 1);
    assert!(rt; versions.newest(a) == Some(5));
    let from_a = RangeRef { lo: a, hi: None };
    assert!(rt; is_pair(versions.range(6, from_a).next(), b"b", b"6"));
    let from_a_to_b = RangeRef { lo: a, hi: Some(b) };
    assert!(rt; versions.range(6, from_a_to_b).next().is_none());
}

// The versions of a map with so many keys, after as many commits that write one of them each: as many lists of an older version.
fn after_commits<R: Abort + AllocGlobal>(rt: &R, keys: u8) -> Versions
    ensures { result.last ≤ keys }
{
    let mut map = Map::new(rt.alloc());
    for n in 0..keys {
        put(rt.alloc(), &mut map, &[n], b"old").expect(rt, "memory");
    }
    let mut versions = versions_of(rt, map);
    for commits in 0..keys {
        let bytes = [commits];
        let n = u64::from(commits) + 1;
        commit(rt, &mut versions, n, key(&bytes), Some(b"new"));
    }
    versions
}

// How many of so many keys have an older version.
fn older_versions(versions: &Versions, keys: u8) -> u64 {
    let mut count = 0u64;
    for n in 0..keys {
        let bytes = [n];
        if versions.kept(key(&bytes)) > 1 {
            count += 1;
        }
    }
    count
}

/// Ten lists go in five steps, two in each, and each step but the last asks for another.
#[test]
fn lists_go_in_instalments(rt: HostRuntime) {
    let mut versions = after_commits(&rt, 10);
    assert!(rt; older_versions(&versions, 10) == 10);
    for left in [8, 6, 4, 2, 0] {
        assert!(rt; versions.reclaim_step(&[10]) == (left > 0), "{left}");
        assert!(rt; older_versions(&versions, 10) == left, "{left}");
    }
    assert!(rt; versions.at(10, key(&[7])) == Some(b"new".as_slice()));
}

/// All of ten lists are looked at in one call, and what an active number sees is left.
#[test]
fn all_lists_go_at_once(rt: HostRuntime) {
    let mut versions = after_commits(&rt, 10);
    versions.reclaim(&[4, 10]);
    assert!(rt; older_versions(&versions, 10) == 6);
    assert!(rt; versions.at(4, key(&[3])) == Some(b"new".as_slice()));
    assert!(rt; versions.at(4, key(&[4])) == Some(b"old".as_slice()));
    assert!(rt; !versions.reclaim_step(&[4, 10]));
    versions.reclaim(&[]);
    assert!(rt; older_versions(&versions, 10) == 0);
    assert!(rt; versions.at(10, key(&[4])) == Some(b"new".as_slice()));
}

/// A step with the numbers of the last, which left nothing, has nothing to do; behind a commit it has, and so has one with fewer numbers.
#[test]
fn steps_with_the_same_numbers_see_new_commits(rt: HostRuntime) {
    let mut versions = after_commits(&rt, 2);
    let (first, second) = (key(&[0]), key(&[1]));
    assert!(rt; !versions.reclaim_step(&[1]));
    assert!(rt; versions.kept(first) == 1 && versions.kept(second) == 2);
    assert!(rt; !versions.reclaim_step(&[1]));
    assert!(rt; versions.kept(first) == 1 && versions.kept(second) == 2);
    commit(&rt, &mut versions, 3, first, Some(b"newer"));
    assert!(rt; versions.kept(first) == 2);
    assert!(rt; !versions.reclaim_step(&[1]));
    assert!(rt; versions.kept(first) == 2 && versions.kept(second) == 2);
    assert!(rt; !versions.reclaim_step(&[3]));
    assert!(rt; versions.kept(first) == 1 && versions.kept(second) == 1);
    assert!(rt; versions.at(3, first) == Some(b"newer".as_slice()));
}

// Commits a value of the key with this number, and takes a step to reclaim what none of two numbers sees.
fn commit_and_reclaim<R: Abort + AllocGlobal>(
    rt: &R,
    versions: &mut Versions,
    n: u64,
    key: KeyRef<'_>,
)
    requires above { versions.old.last < n }
    requires fits { n < 2 ^ 63 }
    ensures { versions.new.last ≡ n }
{
    commit(rt, versions, n, key, Some(b"new"));
    versions.reclaim_step(&[200, 230]);
}

/// While 200 lists are garbage, a key that each commit writes has three versions at most, and one of the lists at least goes with each
/// commit.
#[test]
fn no_chain_grows_while_lists_are_garbage(rt: HostRuntime) {
    let mut versions = after_commits(&rt, 200);
    let at = key(b"key");
    for n in 201..301 {
        commit_and_reclaim(&rt, &mut versions, n, at);
        assert!(rt; versions.kept(at) <= 3);
        assert!(rt; older_versions(&versions, 200) <= 400 - n);
    }
}
