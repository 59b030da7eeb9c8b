//! The committed transactions of a row, run again one at a time by a plain function: each request is answered by the map that the
//! transaction before left.
use crate::side_by_side::SideBySide;
use crate::stores::{Store, first_difference, reply_to};
use crate::worked::{self, Line};
use std::alloc::{AllocError, Global};
use std::collections::BTreeMap;
use std::test::Fail;

type Text = &'static str;

type Contents = BTreeMap<Text, Text>;

/// What a transaction asks between its BEGIN and its COMMIT.
#[derive(Clone, Copy)]
enum Request {
    Get(Text),
    Set(Text, Text),
    Del(Text),
    Range(Text, Text, usize),
    Other,
}

/// A committed transaction, with its requests and the replies to them.
#[derive(Drop)]
struct Transaction {
    begin: u64,
    commit: u64,
    steps: Vec<(Request, Text)>,
}

fn parsed(request: Text) -> Request {
    let mut words = request.split_whitespace();
    let name = words.next().unwrap_or("");
    let key = words.next().unwrap_or("");
    let other = words.next().unwrap_or("");
    let limit = words.next().unwrap_or("");
    match name {
        "GET" => Request::Get(key),
        "SET" => Request::Set(key, other),
        "DEL" => Request::Del(key),
        "RANGE" => Request::Range(key, other, limit.parse::<usize>().unwrap_or(0)),
        _ => Request::Other,
    }
}

/// The transactions of the lines so far: those that are open, by session, and those that committed, in the order of their commits.
#[derive(Drop)]
struct Found {
    open: BTreeMap<Text, Transaction>,
    committed: Vec<Transaction>,
}

impl Found {
    fn begin(&mut self, alloc: Global, session: Text) -> Result<(), AllocError> {
        let transaction = Transaction {
            begin: self.committed.len() as u64,
            commit: 0,
            steps: Vec::new(alloc),
        };
        self.open.insert(session, transaction)?;
        Ok(())
    }

    fn commit(&mut self, session: Text, reply: Text) -> Result<(), AllocError> {
        let Some(mut transaction) = self.open.remove(session) else {
            return Ok(());
        };
        if let Some(number) = reply.strip_prefix(':') {
            transaction.commit = number.parse::<u64>().unwrap_or(0);
            self.committed.push(transaction)?;
        }
        Ok(())
    }

    fn take(&mut self, alloc: Global, line: Line) -> Result<(), AllocError> {
        let (session, request) = line.0.split_once(' ').unwrap_or(("", ""));
        match request {
            "BEGIN" => self.begin(alloc, session),
            "COMMIT" => self.commit(session, line.1),
            _ => {
                if let Some(transaction) = self.open.get_mut(session) {
                    transaction.steps.push((parsed(request), line.1))?;
                }
                Ok(())
            }
        }
    }
}

/// The transactions of a row that committed, in the order of their commits.
fn committed(alloc: Global, row: &[Line]) -> Result<Vec<Transaction>, AllocError> {
    let mut found = Found {
        open: BTreeMap::new(alloc),
        committed: Vec::new(alloc),
    };
    for line in row {
        found.take(alloc, *line)?;
    }
    Ok(found.committed)
}

/// The key that a request writes.
fn written_key(request: Request) -> Option<Text> {
    match request {
        Request::Set(key, _) => Some(key),
        Request::Del(key) => Some(key),
        _ => None,
    }
}

fn is_written(steps: &[(Request, Text)], key: Text) -> bool {
    steps.iter().any(|step| written_key(step.0) == Some(key))
}

fn is_within(lo: Text, hi: Text, key: Text) -> bool {
    lo.as_bytes() <= key.as_bytes() && (hi == "\"\"" || key.as_bytes() < hi.as_bytes())
}

/// The last key of a reply to RANGE that has as many pairs as its limit.
fn last_of_full(reply: Text, limit: usize) -> Option<Text> {
    let place = limit.saturating_mul(4).saturating_sub(2);
    reply.split_whitespace().nth(place)
}

/// Does a RANGE with this reply read the key? Up to the last key of its reply, where that is full.
fn is_in_reach(lo: Text, hi: Text, limit: usize, reply: Text, key: Text) -> bool {
    let is_before_end = match last_of_full(reply, limit) {
        Some(last) => key.as_bytes() <= last.as_bytes(),
        None => true,
    };
    is_within(lo, hi, key) && is_before_end
}

/// Does the transaction read the key of the map that it began with?
fn is_read(steps: &[(Request, Text)], key: Text) -> bool {
    for (i, step) in steps.iter().enumerate() {
        let reads = match step.0 {
            Request::Get(k) => k == key && !is_written(&steps[..i], key),
            Request::Range(lo, hi, limit) => is_in_reach(lo, hi, limit, step.1, key),
            _ => false,
        };
        if reads {
            return true;
        }
    }
    false
}

fn reads_from(reader: &Transaction, writer: &Transaction) -> bool {
    for step in &writer.steps {
        if let Some(key) = written_key(step.0) {
            if is_read(&reader.steps, key) {
                return true;
            }
        }
    }
    false
}

/// Right before the first concurrent transaction that committed earlier and overwrote what this one read, and else where it committed.
fn place(all: &[Transaction], t: &Transaction) -> (u64, u64, u64) {
    for other in all {
        if other.commit < t.commit && t.begin < other.commit && reads_from(t, other) {
            return (other.commit, 0, t.commit);
        }
    }
    (t.commit, 1, 0)
}

fn places(alloc: Global, all: &[Transaction]) -> Result<Vec<(u64, u64, u64)>, AllocError> {
    let mut places = Vec::new(alloc);
    for t in all {
        places.push(place(all, t))?;
    }
    Ok(places)
}

/// Takes the transactions out in the order of their places.
fn by_place(alloc: Global, mut all: Vec<Transaction>) -> Result<Vec<Transaction>, AllocError> {
    let mut places = places(alloc, &all)?;
    let mut sorted = Vec::new(alloc);
    for _ in 0..all.len() {
        if let Some(i) = least(&places) {
            if i < places.len() && i < all.len() {
                places.remove(i);
                sorted.push(all.remove(i))?;
            }
        }
    }
    Ok(sorted)
}

/// The place of the least element.
fn least(places: &[(u64, u64, u64)]) -> Option<usize> {
    let mut found: Option<usize> = None;
    for (i, p) in places.iter().enumerate() {
        match found {
            Some(k) if k < places.len() && places[k] <= *p => {}
            _ => found = Some(i),
        }
    }
    found
}

/// What the map answers to a request, which may change it.
fn answer(alloc: Global, map: &mut Contents, request: Request) -> Result<String, AllocError> {
    match request {
        Request::Get(key) => match map.get(key) {
            Some(value) => format!(in alloc; "${} {value}", value.len()),
            None => format!(in alloc; "$-1"),
        },
        Request::Set(key, value) => {
            if map.insert(key, value).is_err() {
                return Err(AllocError);
            }
            format!(in alloc; "+OK")
        }
        Request::Del(key) => {
            map.remove(key);
            format!(in alloc; "+OK")
        }
        Request::Range(lo, hi, limit) => range(alloc, map, lo, hi, limit),
        Request::Other => format!(in alloc; "?"),
    }
}

fn range(
    alloc: Global,
    map: &Contents,
    lo: Text,
    hi: Text,
    limit: usize,
) -> Result<String, AllocError> {
    let mut pairs = String::new(alloc);
    let mut count = 0usize;
    for (key, value) in map.iter() {
        if count < limit && is_within(lo, hi, key) {
            count += 1;
            append_pair(alloc, &mut pairs, key, value)?;
        }
    }
    format!(in alloc; "*{}{pairs}", count as u128 * 2)
}

fn append_pair(
    alloc: Global,
    pairs: &mut String,
    key: Text,
    value: Text,
) -> Result<(), AllocError> {
    let pair = format!(in alloc; " ${} {key} ${} {value}", key.len(), value.len())?;
    pairs.push_str(&pair)
}

/// What a replay gives.
#[derive(Drop)]
enum Replayed {
    /// The replies that were given, and at the end this whole map.
    Same(String),
    /// This reply, the first that isn't the one that was given.
    Other(String),
}

/// Runs the transactions one after another from the empty map.
fn replay(alloc: Global, all: &[Transaction]) -> Result<Replayed, AllocError> {
    let mut map = BTreeMap::new(alloc);
    for t in all {
        if let Some(reply) = first_other_reply(alloc, &mut map, &t.steps)? {
            return Ok(Replayed::Other(reply));
        }
    }
    Ok(Replayed::Same(range(alloc, &map, "\0", "\"\"", 128)?))
}

fn first_other_reply(
    alloc: Global,
    map: &mut Contents,
    steps: &[(Request, Text)],
) -> Result<Option<String>, AllocError> {
    for step in steps {
        let reply = answer(alloc, map, step.0)?;
        if reply.as_str() != step.1 {
            return Ok(Some(reply));
        }
    }
    Ok(None)
}

/// The whole map behind a row, as each store answers it.
fn map_behind(alloc: Global, sectors: u64, row: &[Line]) -> Result<String, Fail> {
    let mut stores = SideBySide::new(alloc, sectors, false)?;
    map_by(alloc, &mut stores, row)
}

fn map_by<S: Store>(alloc: Global, store: &mut S, row: &[Line]) -> Result<String, Fail> {
    if first_difference(alloc, store, row)?.is_some() {
        return Err(Fail::new("the row is answered otherwise"));
    }
    let _begun = reply_to(alloc, store, "99 BEGIN")?;
    Ok(reply_to(alloc, store, "99 RANGE \0 \"\" 128")?)
}

/// Are the committed transactions of a row answered alike in the serial order, and do they leave the same map?
fn is_replayed(alloc: Global, sectors: u64, row: &[Line]) -> Result<bool, Fail> {
    let sorted = by_place(alloc, committed(alloc, row)?)?;
    match replay(alloc, &sorted)? {
        Replayed::Same(map) => Ok(map.as_str() == map_behind(alloc, sectors, row)?.as_str()),
        Replayed::Other(_reply) => Ok(false),
    }
}

#[test]
fn serial_order_gives_the_same_replies_and_map(rt: HostRuntime) -> Result<(), Fail> {
    let rows: [&[Line]; 24] = [
        &worked::COMMITTED_WRITE_IS_SEEN,
        &worked::SNAPSHOT_IS_KEPT,
        &worked::OWN_WRITE_IS_PRIVATE,
        &worked::FIRST_COMMITTER_WINS,
        &worked::LEAST_OVERWRITTEN_KEY_IS_NAMED,
        &worked::WRITE_SKEW,
        &worked::PHANTOM_SKEW,
        &worked::RANGE_AT_ITS_LIMIT_MARKS_LESS,
        &worked::LAST_KEY_OF_A_PAGE_IS_MARKED,
        &worked::FULL_PAGE_ENDS_AT_ITS_LAST_KEY,
        &worked::RANGE_BELOW_ITS_LIMIT_MARKS_ALL,
        &worked::READ_ONLY_ANOMALY,
        &worked::READER_FINDS_A_COMMITTED_PIVOT,
        &worked::WRITER_FINDS_A_COMMITTED_PIVOT,
        &worked::ONE_AFTER_THE_OTHER,
        &worked::PIVOT_AFTER_ITS_NEIGHBOUR_WAS_FORGOTTEN,
        &worked::PIVOT_AFTER_ITS_TARGET_WAS_FORGOTTEN,
        &worked::EARLIER_READER_IS_HARMLESS,
        &worked::PIVOT_BEFORE_ITS_TARGET_IS_HARMLESS,
        &worked::PIVOT_WITH_A_LATER_WRITER_IS_HARMLESS,
        &worked::DELETED_KEY,
        &worked::SERIAL_ORDER_IS_NOT_COMMIT_ORDER,
        &worked::REAL_TIME_IS_NOT_COMMIT_ORDER,
        &worked::OLD_VERSION_IS_KEPT,
    ];
    for (i, row) in rows.iter().enumerate() {
        assert!(rt; is_replayed(rt.alloc(), worked::SECTORS, row)?, "row {i}");
    }
    assert!(rt; is_replayed(rt.alloc(), worked::LOG_FULL_SECTORS, &worked::LOG_FULL)?);
    Ok(())
}

/// Two transactions, of which the first in the order of commits is the second in the serial order.
#[test]
fn commit_order_gives_another_reply(rt: HostRuntime) -> Result<(), Fail> {
    let alloc = rt.alloc();
    let all = committed(alloc, &worked::SERIAL_ORDER_IS_NOT_COMMIT_ORDER)?;
    let places = places(alloc, &all)?;
    assert_eq!(rt; places.as_slice(), [(1, 1, 0), (1, 0, 2)].as_slice());
    let is_other = match replay(alloc, &all)? {
        Replayed::Same(_map) => false,
        Replayed::Other(reply) => reply.as_str() == "$1 1",
    };
    assert!(rt; is_other);
    Ok(())
}

/// A reader that commits last has the first place, and one that began after another's COMMIT has a later place than that one.
#[test]
fn places_keep_real_time(rt: HostRuntime) -> Result<(), Fail> {
    let all = committed(rt.alloc(), &worked::REAL_TIME_IS_NOT_COMMIT_ORDER)?;
    let places = places(rt.alloc(), &all)?;
    assert_eq!(rt;
        places.as_slice(),
        [(1, 1, 0), (2, 1, 0), (1, 0, 3)].as_slice()
    );
    Ok(())
}
