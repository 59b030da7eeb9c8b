//! The check of a commit: worked verdicts, and how much is kept for it.
use model::{KeyRef, Map, RangeRef};
use pivot_check::{Committed, Verdict};
use snapshot::Transaction;
use std::process::Abort;
use versions::Versions;

// What a test expects of a commit.
#[derive(Clone, Copy, Debug, PartialEq, Eq)]
enum Answer {
    Clear,
    // It may commit, and has read what a concurrent one wrote that committed before it.
    ClearWithTarget,
    Overwritten(usize),
    PivotSelf,
    Pivot(u64),
}

// Commits as the next number a transaction that is in reach.
fn commit<R: Abort>(rt: &R, committed: &mut Committed, tx: &Transaction) -> Answer {
    let last = committed.last();
    assert!(rt; tx.begin() <= last && committed.oldest() <= tx.begin() && last < u64::MAX);
    let cleared = match committed.verdict(tx) {
        Verdict::Clear(cleared) => cleared,
        Verdict::Overwritten(i) => return Answer::Overwritten(i),
        Verdict::PivotSelf => return Answer::PivotSelf,
        Verdict::Pivot(n) => return Answer::Pivot(n),
    };
    let has_earlier_target = cleared.has_earlier_target();
    committed.reserve(tx).expect(rt, "memory");
    committed.note(tx, last + 1, cleared);
    if has_earlier_target {
        Answer::ClearWithTarget
    } else {
        Answer::Clear
    }
}

// A request of a transaction, by keys of one letter.
fn read<R: Abort>(rt: &R, tx: &mut Transaction, versions: &Versions, key: &[u8]) {
    let key = KeyRef::new(key).expect(rt, "a key");
    assert!(rt; tx.get(versions, key).is_ok());
}

fn read_range<R: Abort>(rt: &R, tx: &mut Transaction, versions: &Versions, lo: &[u8], hi: &[u8]) {
    let lo = KeyRef::new(lo).expect(rt, "a key");
    let hi = KeyRef::new(hi);
    assert!(rt; tx.range(versions, RangeRef { lo, hi }, 10).is_ok());
}

fn write<R: Abort>(rt: &R, tx: &mut Transaction, key: &[u8]) {
    let key = KeyRef::new(key).expect(rt, "a key");
    assert!(rt; tx.put(key, b"1") == Ok(()));
}

fn no_versions<R: Abort + AllocGlobal>(rt: &R) -> Versions {
    Versions::from_map(rt.alloc(), Map::new(rt.alloc())).expect(rt, "memory")
}

// A transaction that has read some keys and then written others, each of one letter.
fn transaction<R: Abort + AllocGlobal>(
    rt: &R,
    begin: u64,
    reads: &[u8],
    writes: &[u8],
) -> Transaction {
    let versions = no_versions(rt);
    let mut tx = Transaction::new(rt.alloc(), begin);
    for letter in reads {
        read(rt, &mut tx, &versions, &[*letter]);
    }
    for letter in writes {
        write(rt, &mut tx, &[*letter]);
    }
    tx
}

// A commit: the begin, the keys that are read and those that are written, and the answer.
type Commit = (u64, &'static [u8], &'static [u8], Answer);

const FIRST_COMMITTER_WINS: [Commit; 4] = [
    (0, b"", b"jk", Answer::Clear),
    (0, b"", b"k", Answer::Overwritten(0)),
    (0, b"", b"ajk", Answer::Overwritten(1)),
    (1, b"", b"ajk", Answer::Clear),
];

const WRITE_SKEW: [Commit; 2] = [
    (0, b"xy", b"x", Answer::Clear),
    (0, b"xy", b"y", Answer::PivotSelf),
];

const READ_ONLY_ANOMALY: [Commit; 3] = [
    (0, b"y", b"y", Answer::Clear),
    (1, b"xy", b"", Answer::Clear),
    (0, b"xy", b"x", Answer::PivotSelf),
];

const READER_FINDS_A_COMMITTED_PIVOT: [Commit; 3] = [
    (0, b"", b"m", Answer::Clear),
    (0, b"m", b"k", Answer::ClearWithTarget),
    (0, b"k", b"", Answer::Pivot(2)),
];

// That a writer finds a committed pivot behind an earlier reader is harmless.
const EARLIER_READER_AND_COMMITTED_PIVOT: [Commit; 3] = [
    (0, b"k", b"", Answer::Clear),
    (0, b"m", b"k", Answer::Clear),
    (0, b"", b"m", Answer::Clear),
];

const EARLIER_READER_IS_HARMLESS: [Commit; 3] = [
    (0, b"k", b"", Answer::Clear),
    (0, b"", b"m", Answer::Clear),
    (0, b"m", b"k", Answer::ClearWithTarget),
];

const PIVOT_WITH_A_LATER_WRITER_IS_HARMLESS: [Commit; 3] = [
    (0, b"m", b"k", Answer::Clear),
    (0, b"k", b"", Answer::ClearWithTarget),
    (0, b"", b"m", Answer::Clear),
];

const ONE_AFTER_THE_OTHER: [Commit; 2] = [
    (0, b"xy", b"x", Answer::Clear),
    (1, b"xy", b"y", Answer::Clear),
];

static WORKED: [(&str, &[Commit]); 8] = [
    ("first committer wins", &FIRST_COMMITTER_WINS),
    ("write skew", &WRITE_SKEW),
    ("read-only anomaly", &READ_ONLY_ANOMALY),
    (
        "reader finds a committed pivot",
        &READER_FINDS_A_COMMITTED_PIVOT,
    ),
    (
        "writer finds a committed pivot",
        &EARLIER_READER_AND_COMMITTED_PIVOT,
    ),
    ("earlier reader is harmless", &EARLIER_READER_IS_HARMLESS),
    (
        "pivot with a later writer is harmless",
        &PIVOT_WITH_A_LATER_WRITER_IS_HARMLESS,
    ),
    ("one after the other", &ONE_AFTER_THE_OTHER),
];

// Commits one after the other, each with its answer.
fn run<R: Abort + AllocGlobal>(rt: &R, committed: &mut Committed, name: &str, commits: &[Commit]) {
    for (begin, reads, writes, answer) in commits {
        let tx = transaction(rt, *begin, reads, writes);
        assert_eq!(rt; commit(rt, committed, &tx), *answer, "{name}");
    }
}

#[test]
fn worked_verdicts(rt: HostRuntime) {
    for (name, commits) in &WORKED {
        let mut committed = Committed::new(rt.alloc());
        run(&rt, &mut committed, name, commits);
    }
}

fn phantom<R: Abort + AllocGlobal>(rt: &R, written: &[u8]) -> Transaction {
    let versions = no_versions(rt);
    let mut tx = Transaction::new(rt.alloc(), 0);
    read_range(rt, &mut tx, &versions, b"a", b"c");
    write(rt, &mut tx, written);
    tx
}

#[test]
fn phantom_skew(rt: HostRuntime) {
    let mut committed = Committed::new(rt.alloc());
    assert_eq!(rt;
        commit(&rt, &mut committed, &phantom(&rt, b"a")),
        Answer::Clear
    );
    assert_eq!(rt;
        commit(&rt, &mut committed, &phantom(&rt, b"b")),
        Answer::PivotSelf
    );
}

fn forget(committed: &mut Committed, oldest: u64) {
    if oldest <= committed.last() {
        committed.forget(oldest);
    }
}

const TARGET_AND_PIVOT: [Commit; 2] = [
    (0, b"", b"m", Answer::Clear),
    (0, b"m", b"k", Answer::ClearWithTarget),
];

const READER_OF_THE_PIVOT: [Commit; 1] = [(1, b"k", b"", Answer::Pivot(2))];

#[test]
fn pivot_after_its_target_was_forgotten(rt: HostRuntime) {
    let mut committed = Committed::new(rt.alloc());
    run(&rt, &mut committed, "before", &TARGET_AND_PIVOT);
    forget(&mut committed, 1);
    assert_eq!(rt; committed.kept(), 1);
    run(&rt, &mut committed, "after", &READER_OF_THE_PIVOT);
}

const READER_AND_PIVOT: [Commit; 2] = [
    (0, b"k", b"", Answer::Clear),
    (0, b"m", b"k", Answer::Clear),
];

const WRITER_OF_THE_TARGET: [Commit; 1] = [(1, b"", b"m", Answer::Clear)];

#[test]
fn pivot_after_its_neighbour_was_forgotten(rt: HostRuntime) {
    let mut committed = Committed::new(rt.alloc());
    run(&rt, &mut committed, "before", &READER_AND_PIVOT);
    forget(&mut committed, 1);
    assert_eq!(rt; (committed.oldest(), committed.kept()), (1, 1));
    run(&rt, &mut committed, "after", &WRITER_OF_THE_TARGET);
    forget(&mut committed, 2);
    assert_eq!(rt; committed.kept(), 1);
}

const WRITER_NOBODY_AND_READER: [Commit; 3] = [
    (0, b"", b"m", Answer::Clear),
    (1, b"", b"", Answer::Clear),
    (2, b"k", b"", Answer::Clear),
];

/// What is counted is of how many commits something is held: none is of one that read and wrote nothing, nor of those that are forgotten.
#[test]
fn commits_are_counted_by_what_is_held(rt: HostRuntime) {
    let mut committed = Committed::new(rt.alloc());
    assert_eq!(rt; committed.kept(), 0);
    run(&rt, &mut committed, "before", &WRITER_NOBODY_AND_READER);
    for (oldest, held) in [(0u64, 2usize), (1, 1), (2, 1), (3, 0)] {
        forget(&mut committed, oldest);
        assert_eq!(rt; (committed.last(), committed.kept()), (3, held));
    }
}

// A transaction that writes 64 keys, which no other such one writes.
fn writer<R: Abort + AllocGlobal>(rt: &R, begin: u64, n: u8) -> Transaction {
    let mut tx = Transaction::new(rt.alloc(), begin);
    for k in 0..64u8 {
        write(rt, &mut tx, &[n, k]);
    }
    tx
}

/// What 40 transactions have written, 64 keys each, is freed by 1,024 keys a call, where each run counts as a key more.
#[test]
fn old_runs_go_in_steps(rt: HostRuntime) {
    let mut committed = Committed::new(rt.alloc());
    for n in 0..40u8 {
        let tx = writer(&rt, committed.last(), n);
        assert!(rt; commit(&rt, &mut committed, &tx) == Answer::Clear);
    }
    let last = committed.last();
    assert!(rt; last == 40 && !committed.forget_step(0));
    assert!(rt; committed.forget_step(last) && committed.forget_step(last));
    assert!(rt; !committed.forget_step(last) && !committed.forget_step(last));
}

// Forgets, a step of it, what is in reach. Whether garbage is left.
fn forget_step<R: Abort>(rt: &R, committed: &mut Committed, oldest: u64) -> bool {
    assert!(rt; oldest <= committed.last());
    committed.forget_step(oldest)
}

/// Of 40 transactions that wrote 64 keys each the keys of the last are left, and those that a merge had moved, once the others are
/// forgotten: at once, or in steps, of which a look at all keys takes some.
#[test]
fn partial_runs_are_swept(rt: HostRuntime) {
    for at_once in [true, false] {
        let mut committed = Committed::new(rt.alloc());
        for n in 0..40u8 {
            let tx = writer(&rt, committed.last(), n);
            assert!(rt; commit(&rt, &mut committed, &tx) == Answer::Clear);
        }
        assert!(rt; committed.last() == 40 && committed.postings() >= 2_560);
        if at_once {
            committed.forget(39);
        }
        for _ in 0..64 {
            forget_step(&rt, &mut committed, 39);
        }
        assert!(rt; !forget_step(&rt, &mut committed, 39) && committed.postings() <= 160);
    }
}

// A transaction that has read what a `writer` wrote, some of its keys, and then written a key that no other one writes.
fn reader_of<R: Abort + AllocGlobal>(rt: &R, begin: u64, writer: u8, n: u8) -> Transaction {
    let versions = no_versions(rt);
    let mut tx = Transaction::new(rt.alloc(), begin);
    read_range(rt, &mut tx, &versions, &[writer, n % 64], &[writer, 64]);
    write(rt, &mut tx, &[64, n]);
    tx
}

// Commits one that has read what a `writer` wrote, which is found to have committed since its begin.
fn finds<R: Abort + AllocGlobal>(rt: &R, committed: &mut Committed, writer: u8, n: u8) -> bool {
    let tx = reader_of(rt, 0, writer, n);
    commit(rt, committed, &tx) == Answer::ClearWithTarget
}

// Two thousand written keys, and beside them commits that move the merges of their runs on by few steps each, so that large ones are half
// done again and again. Each of these has read what one of the others wrote.
#[test]
fn while_large_runs_are_merged(rt: HostRuntime) {
    let mut committed = Committed::new(rt.alloc());
    for n in 0..33u8 {
        let tx = writer(&rt, committed.last(), n);
        assert!(rt; commit(&rt, &mut committed, &tx) == Answer::Clear);
        assert!(rt; finds(&rt, &mut committed, n, 3 * n));
        assert!(rt; finds(&rt, &mut committed, n - n / 4, 3 * n + 1));
        assert!(rt; finds(&rt, &mut committed, n / 2, 3 * n + 2));
    }
}

/// Runs of written keys stay few while old transactions come and go, and hold three places at most for each of the two keys that a commit
/// wrote, of those that aren't forgotten and 64 more; none is left once all are forgotten.
#[test]
fn written_keys_stay_in_few_runs(rt: HostRuntime) {
    let mut committed = Committed::new(rt.alloc());
    for n in 0..2_000u64 {
        let reads = [(n % 97) as u8];
        let writes = [(n % 101) as u8, (n % 89) as u8];
        let tx = transaction(&rt, n, &reads, &writes);
        assert!(rt; commit(&rt, &mut committed, &tx) == Answer::Clear);
        if n % 16 == 15 && n / 2 <= committed.last() {
            committed.forget_step(n / 2);
        }
        assert!(rt; committed.runs() <= 24, "after commit {n}");
        let in_reach = committed.last().saturating_sub(committed.oldest());
        let most = (in_reach as usize).saturating_add(64).saturating_mul(6);
        assert!(rt; committed.postings() <= most, "after commit {n}");
    }
    forget(&mut committed, 2_000);
    assert!(rt; committed.runs() == 0);
    assert!(rt; committed.postings() == 0);
}

// A transaction that writes one key, of one letter.
fn writer_of<R: Abort + AllocGlobal>(rt: &R, begin: u64, letter: u8) -> Transaction {
    let mut tx = Transaction::new(rt.alloc(), begin);
    write(rt, &mut tx, &[letter]);
    tx
}

/// Beside a transaction that was left open, a key that is written again and again is kept a few times, and not once for each commit.
#[test]
fn one_key_is_kept_a_few_times(rt: HostRuntime) {
    let mut committed = Committed::new(rt.alloc());
    for n in 0..100_000u64 {
        let tx = writer_of(&rt, committed.last(), b'k');
        assert!(rt; commit(&rt, &mut committed, &tx) == Answer::Clear);
        committed.keep_active(&[0]);
        assert!(rt; committed.postings() <= 32, "after commit {n}");
    }
    let old = writer_of(&rt, 0, b'k');
    assert!(rt; commit(&rt, &mut committed, &old) == Answer::Overwritten(0));
}

/// So it is beside eight of them, which began one after another: each keeps its own first commit of each of two keys.
#[test]
fn each_that_is_open_keeps_a_few(rt: HostRuntime) {
    let mut committed = Committed::new(rt.alloc());
    let mut begins = Vec::new(rt.alloc());
    for n in 0..8_000u64 {
        if n % 1_000 == 0 && begins.len() < 64 {
            begins.push(n).expect(&rt, "memory");
        }
        let letter = if n % 3 == 0 { b'a' } else { b'b' };
        let tx = writer_of(&rt, committed.last(), letter);
        assert!(rt; commit(&rt, &mut committed, &tx) == Answer::Clear);
        assert!(rt; begins.len() <= 64);
        committed.keep_active(&begins);
        assert!(rt; committed.postings() <= 96, "after commit {n}");
    }
    let mut letter = b'c';
    for begin in &begins {
        let tx = transaction(&rt, *begin, b"b", &[letter]);
        assert!(rt; commit(&rt, &mut committed, &tx) == Answer::ClearWithTarget);
        letter = letter.saturating_add(1);
    }
}

// A transaction that writes 64 keys, from the one of that number on.
fn writer_of_many<R: Abort + AllocGlobal>(rt: &R, begin: u64, first: u32) -> Transaction {
    let mut tx = Transaction::new(rt.alloc(), begin);
    for i in 0..64u32 {
        write(rt, &mut tx, &first.wrapping_add(i).to_be_bytes());
    }
    tx
}

/// So it is with 192,000 keys that are written again and again. Two runs that are being made one count whole until their merge has ended.
#[test]
fn many_keys_are_kept_a_few_times(rt: HostRuntime) {
    let mut committed = Committed::new(rt.alloc());
    for n in 0..9_000u32 {
        let tx = writer_of_many(&rt, committed.last(), n % 3_000 * 64);
        assert!(rt; commit(&rt, &mut committed, &tx) == Answer::Clear);
        committed.keep_active(&[0]);
        assert!(rt; committed.postings() <= 768_000, "after commit {n}");
    }
    let old = writer_of_many(&rt, 0, 48_000);
    assert!(rt; commit(&rt, &mut committed, &old) == Answer::Overwritten(0));
}

// The next number of a linear congruential generator.
fn next_random(random: u64) -> u64 {
    random
        .wrapping_mul(6_364_136_223_846_793_005)
        .wrapping_add(1_442_695_040_888_963_407)
}

/// What none who may ask is answered by is dropped, and each verdict is that of one who keeps all: of four open transactions at a time,
/// which read a key and write another, of six keys.
#[test]
fn verdicts_stay_while_merges_drop(rt: HostRuntime) {
    let mut all = Committed::new(rt.alloc());
    let mut few = Committed::new(rt.alloc());
    let mut begins = [0u64; 4];
    let mut random = 1u64;
    for n in 0..4_000usize {
        random = next_random(random);
        let place = n % 4;
        let read = b'a' + ((random >> 33) % 6) as u8;
        let write = b'a' + ((random >> 43) % 6) as u8;
        let tx = transaction(&rt, begins[place], &[read], &[write]);
        let answer = commit(&rt, &mut all, &tx);
        assert!(rt; commit(&rt, &mut few, &tx) == answer, "commit {n}");
        if random >> 60 != 0 {
            begins[place] = all.last();
        }
        few.keep_active(&begins);
    }
    assert!(rt; all.last() > 500 && few.postings() < all.postings() / 4);
}
