//! The largest record: 64 keys of 256 bytes with values of 16,384. Its payload of 1,065,412 bytes, behind 44 of its own, fills 2,081
//! sectors.
use crate::side_by_side::SideBySide;
use crate::stores::reply_to;
use model::{KEY_MAX, Memory, VALUE_MAX};
use std::alloc::Global;
use std::test::Fail;

/// The head, a gate, the body and the gate after it.
const SECTORS: u64 = 2_084;

fn push_often(line: &mut String, letter: char, times: usize) -> Result<(), Memory> {
    for _ in 0..times {
        line.push(letter)?;
    }
    Ok(())
}

/// A line that sets the largest key with this number to the largest value.
fn largest_set(alloc: Global, number: u16) -> Result<String, Memory> {
    let mut line = format!(in alloc; "1 SET {number}")?;
    let begin = line.len().saturating_sub(6);
    push_often(&mut line, 'k', KEY_MAX.saturating_sub(begin))?;
    line.push(' ')?;
    push_often(&mut line, 'v', VALUE_MAX)?;
    Ok(line)
}

/// What stores over so many sectors reply to the COMMIT of a transaction with 64 such writes, and what to a RANGE of another one.
fn replies_over(alloc: Global, sectors: u64) -> Result<(String, String), Fail> {
    let mut stores = SideBySide::new(alloc, sectors, false)?;
    replies_of(alloc, &mut stores)
}

fn replies_of(alloc: Global, stores: &mut SideBySide) -> Result<(String, String), Fail> {
    set_largest(alloc, stores)?;
    let committed = reply_to(alloc, stores, "1 COMMIT")?;
    reply_to(alloc, stores, "2 BEGIN")?;
    let rows = reply_to(alloc, stores, "2 RANGE 1 \"\" 1")?;
    Ok((committed, rows))
}

/// Begins a transaction, which writes the 64 largest pairs.
fn set_largest(alloc: Global, stores: &mut SideBySide) -> Result<(), Fail> {
    reply_to(alloc, stores, "1 BEGIN")?;
    for number in 10..74 {
        let line = largest_set(alloc, number)?;
        let reply = reply_to(alloc, stores, &line)?;
        if reply.as_str() != "+OK" {
            return Err(Fail::new(format_args!("SET {number}: {reply}")));
        }
    }
    Ok(())
}

#[test]
fn largest_record_fits_to_the_sector(rt: HostRuntime) -> Result<(), Fail> {
    let (committed, rows) = replies_over(rt.alloc(), SECTORS)?;
    assert_eq!(rt; committed.as_str(), ":1");
    assert!(rt; rows.len() > KEY_MAX + VALUE_MAX);
    Ok(())
}

#[test]
fn largest_record_has_no_room_in_a_sector_less(rt: HostRuntime) -> Result<(), Fail> {
    let (committed, rows) = replies_over(rt.alloc(), SECTORS - 1)?;
    assert_eq!(rt; committed.as_str(), "-FULL log");
    assert_eq!(rt; rows.as_str(), "*0");
    Ok(())
}
