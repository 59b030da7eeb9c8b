//! Each row over each store.
use crate::lines::with_number;
use crate::side_by_side::{SideBySide, engine_store};
use crate::stored::EngineStore;
use crate::stores::{Decoding, Store, first_difference, reply_to};
use crate::worked::{self, Counted, Line};
use model::KeyRef;
use sector::Sectors;
use std::alloc::Global;
use std::test::Fail;

const SECTORS: u64 = worked::SECTORS;

/// Runs a row over each store.
fn run_over(rt: &HostRuntime, sectors: u64, device_fails: bool, row: &[Line]) -> Result<(), Fail> {
    let mut stores = SideBySide::new(rt.alloc(), sectors, device_fails)?;
    expect_row(rt.alloc(), &mut stores, row)
}

fn run(rt: &HostRuntime, row: &[Line]) -> Result<(), Fail> {
    run_over(rt, SECTORS, false, row)
}

fn expect_row<S: Store>(alloc: Global, store: &mut S, row: &[Line]) -> Result<(), Fail> {
    match first_difference(alloc, store, row)? {
        None => Ok(()),
        Some((asked, reply)) => Err(Fail::new(format_args!("{asked}: {reply}"))),
    }
}

/// Runs the lines of a row, each for its numbers, over each store.
fn run_counted(rt: &HostRuntime, row: &[Counted]) -> Result<(), Fail> {
    let mut stores = SideBySide::new(rt.alloc(), SECTORS, false)?;
    expect_each(rt.alloc(), &mut stores, row)
}

fn expect_each<S: Store>(alloc: Global, store: &mut S, row: &[Counted]) -> Result<(), Fail> {
    for counted in row {
        expect_counted(alloc, store, counted)?;
    }
    Ok(())
}

fn expect_counted<S: Store>(alloc: Global, store: &mut S, counted: &Counted) -> Result<(), Fail> {
    let (from, to, (asked, expected)) = *counted;
    for number in from..to {
        let line = with_number(alloc, asked, number)?;
        let reply = reply_to(alloc, store, &line)?;
        if reply.as_str() != expected {
            return Err(Fail::new(format_args!("{line}: {reply}")));
        }
    }
    Ok(())
}

/// Ends a transaction by bytes that spell no request.
fn expect_abort<S: Store>(alloc: Global, store: &mut S) -> Result<(), Fail> {
    expect_row(alloc, store, &[("1 BEGIN", "+OK")])?;
    let mut out = Vec::new(alloc);
    store.answer(1, b"*01\r\n", &mut out)?;
    if out.as_slice() != b"-ERR frame\r\n".as_slice() {
        return Err(Fail::new("another reply"));
    }
    expect_row(alloc, store, &[("1 GET a", "-ERR none")])
}

/// How many versions of a and how many records a store that reclaims keeps behind the row.
fn kept_behind(alloc: Global, row: &[Line]) -> Result<(usize, usize), Fail> {
    let mut store = engine_store(alloc, SECTORS, false, true)?;
    kept_by(alloc, &mut store, row)
}

fn kept_by<D: Sectors>(
    alloc: Global,
    store: &mut Decoding<EngineStore<D>>,
    row: &[Line],
) -> Result<(usize, usize), Fail> {
    expect_row(alloc, store, row)?;
    let key = KeyRef::new(b"a").ok_or("no key")?;
    let engine = &store.store.engine;
    Ok((engine.kept_versions(key), engine.kept_records()))
}

#[test]
fn committed_write_is_seen(rt: HostRuntime) -> Result<(), Fail> {
    run(&rt, &worked::COMMITTED_WRITE_IS_SEEN)
}

#[test]
fn snapshot_is_kept(rt: HostRuntime) -> Result<(), Fail> {
    run(&rt, &worked::SNAPSHOT_IS_KEPT)
}

#[test]
fn own_write_is_private(rt: HostRuntime) -> Result<(), Fail> {
    run(&rt, &worked::OWN_WRITE_IS_PRIVATE)
}

#[test]
fn first_committer_wins(rt: HostRuntime) -> Result<(), Fail> {
    run(&rt, &worked::FIRST_COMMITTER_WINS)?;
    run(&rt, &worked::LEAST_OVERWRITTEN_KEY_IS_NAMED)
}

#[test]
fn write_skew(rt: HostRuntime) -> Result<(), Fail> {
    run(&rt, &worked::WRITE_SKEW)
}

#[test]
fn phantom_skew(rt: HostRuntime) -> Result<(), Fail> {
    run(&rt, &worked::PHANTOM_SKEW)
}

#[test]
fn range_at_its_limit_marks_less(rt: HostRuntime) -> Result<(), Fail> {
    run(&rt, &worked::RANGE_AT_ITS_LIMIT_MARKS_LESS)?;
    run(&rt, &worked::LAST_KEY_OF_A_PAGE_IS_MARKED)
}

#[test]
fn range_below_its_limit_marks_all(rt: HostRuntime) -> Result<(), Fail> {
    run(&rt, &worked::FULL_PAGE_ENDS_AT_ITS_LAST_KEY)?;
    run(&rt, &worked::RANGE_BELOW_ITS_LIMIT_MARKS_ALL)
}

#[test]
fn read_only_anomaly(rt: HostRuntime) -> Result<(), Fail> {
    run(&rt, &worked::READ_ONLY_ANOMALY)
}

#[test]
fn reader_finds_a_committed_pivot(rt: HostRuntime) -> Result<(), Fail> {
    run(&rt, &worked::READER_FINDS_A_COMMITTED_PIVOT)
}

#[test]
fn writer_finds_a_committed_pivot(rt: HostRuntime) -> Result<(), Fail> {
    run(&rt, &worked::WRITER_FINDS_A_COMMITTED_PIVOT)
}

#[test]
fn one_after_the_other(rt: HostRuntime) -> Result<(), Fail> {
    run(&rt, &worked::ONE_AFTER_THE_OTHER)
}

#[test]
fn pivot_after_its_neighbour_was_forgotten(rt: HostRuntime) -> Result<(), Fail> {
    run(&rt, &worked::PIVOT_AFTER_ITS_NEIGHBOUR_WAS_FORGOTTEN)
}

#[test]
fn pivot_after_its_target_was_forgotten(rt: HostRuntime) -> Result<(), Fail> {
    run(&rt, &worked::PIVOT_AFTER_ITS_TARGET_WAS_FORGOTTEN)
}

#[test]
fn earlier_reader_is_harmless(rt: HostRuntime) -> Result<(), Fail> {
    run(&rt, &worked::EARLIER_READER_IS_HARMLESS)
}

#[test]
fn pivot_before_its_target_is_harmless(rt: HostRuntime) -> Result<(), Fail> {
    run(&rt, &worked::PIVOT_BEFORE_ITS_TARGET_IS_HARMLESS)
}

#[test]
fn pivot_with_a_later_writer_is_harmless(rt: HostRuntime) -> Result<(), Fail> {
    run(&rt, &worked::PIVOT_WITH_A_LATER_WRITER_IS_HARMLESS)
}

#[test]
fn sixty_four_writes(rt: HostRuntime) -> Result<(), Fail> {
    run_counted(&rt, &worked::SIXTY_FOUR_WRITES)
}

#[test]
fn range_bounds_and_limits(rt: HostRuntime) -> Result<(), Fail> {
    run(&rt, &worked::RANGE_BOUNDS_AND_LIMITS)
}

#[test]
fn log_full(rt: HostRuntime) -> Result<(), Fail> {
    run_over(&rt, worked::LOG_FULL_SECTORS, false, &worked::LOG_FULL)
}

#[test]
fn refusals_outside_a_transaction(rt: HostRuntime) -> Result<(), Fail> {
    run(&rt, &worked::REFUSALS_OUTSIDE_A_TRANSACTION)
}

#[test]
fn sixty_four_transactions(rt: HostRuntime) -> Result<(), Fail> {
    run_counted(&rt, &worked::SIXTY_FOUR_TRANSACTIONS)
}

#[test]
fn device_fault(rt: HostRuntime) -> Result<(), Fail> {
    run_over(&rt, SECTORS, true, &worked::DEVICE_FAULT)
}

#[test]
fn two_hundred_fifty_six_marks(rt: HostRuntime) -> Result<(), Fail> {
    run_counted(&rt, &worked::TWO_HUNDRED_FIFTY_SIX_MARKS)
}

#[test]
fn deleted_key(rt: HostRuntime) -> Result<(), Fail> {
    run(&rt, &worked::DELETED_KEY)
}

#[test]
fn serial_order_is_not_commit_order(rt: HostRuntime) -> Result<(), Fail> {
    run(&rt, &worked::SERIAL_ORDER_IS_NOT_COMMIT_ORDER)
}

#[test]
fn real_time_is_not_commit_order(rt: HostRuntime) -> Result<(), Fail> {
    run(&rt, &worked::REAL_TIME_IS_NOT_COMMIT_ORDER)
}

#[test]
fn range_over_own_writes(rt: HostRuntime) -> Result<(), Fail> {
    run(&rt, &worked::RANGE_OVER_OWN_WRITES)
}

/// Bytes that spell no request end the transaction.
#[test]
fn broken_frame_aborts(rt: HostRuntime) -> Result<(), Fail> {
    let mut stores = SideBySide::new(rt.alloc(), SECTORS, false)?;
    expect_abort(rt.alloc(), &mut stores)
}

#[test]
fn kept_versions_and_records(rt: HostRuntime) -> Result<(), Fail> {
    let row = &worked::OLD_VERSION_IS_KEPT;
    let reader = &worked::PIVOT_AFTER_ITS_NEIGHBOUR_WAS_FORGOTTEN;
    let target = &worked::PIVOT_AFTER_ITS_TARGET_WAS_FORGOTTEN;
    for (lines, expected) in [
        (&row[..10], (2, 2)),
        (&row[..], (1, 0)),
        (&reader[..8], (0, 1)),
        (&target[..8], (0, 1)),
    ] {
        assert_eq!(rt; kept_behind(rt.alloc(), lines)?, expected);
    }
    Ok(())
}

/// Begins a transaction of session 1, and then commits one write of one key 40 times by session 2.
fn write_again<S: Store>(alloc: Global, store: &mut S) -> Result<(), Fail> {
    expect_row(alloc, store, &[("1 BEGIN", "+OK"), ("1 SET a 1", "+OK")])?;
    for n in 1..41u16 {
        expect_row(alloc, store, &[("2 BEGIN", "+OK"), ("2 SET a 2", "+OK")])?;
        let reply = reply_to(alloc, store, "2 COMMIT")?;
        let number = format!(in alloc; ":{n}")?;
        if reply.as_str() != number.as_str() {
            return Err(Fail::new(format_args!("commit {n}: {reply}")));
        }
    }
    Ok(())
}

/// Beside a transaction that was left open, a store that reclaims keeps something of a few commits of one key alone, and each store refuses
/// the transaction for the key.
#[test]
fn one_key_beside_an_open_transaction(rt: HostRuntime) -> Result<(), Fail> {
    let mut stores = SideBySide::new(rt.alloc(), SECTORS, false)?;
    write_again(rt.alloc(), &mut stores)?;
    expect_row(
        rt.alloc(),
        &mut stores,
        &[("1 COMMIT", "-CONFLICT overwritten 61")],
    )?;
    let mut store = engine_store(rt.alloc(), SECTORS, false, true)?;
    write_again(rt.alloc(), &mut store)?;
    let kept = store.store.engine.kept_records();
    assert!(rt; 1 <= kept && kept <= 16, "{kept} are kept");
    Ok(())
}
