//! The worked rows, over the hub in pieces of several sizes, and as scripts of the program.
ghost use Rattle.std.specs.Prelude.{◌≤◌};

use model::FRAME_MAX;
use scripts::play;
use std::alloc::Global;
use std::io::Write;
use std::process::Abort;
use test_hubs::{Pieces, new_hub};
use test_rows::worked::{self, Counted, LOG_FULL_SECTORS, Line, SECTORS};
use test_rows::{first_difference, with_number};

/// The rows over a device with room for all.
fn worked_rows() -> [&'static [Line]; 27] {
    [
        &worked::COMMITTED_WRITE_IS_SEEN,
        &worked::SNAPSHOT_IS_KEPT,
        &worked::OWN_WRITE_IS_PRIVATE,
        &worked::FIRST_COMMITTER_WINS,
        &worked::LEAST_OVERWRITTEN_KEY_IS_NAMED,
        &worked::WRITE_SKEW,
        &worked::PHANTOM_SKEW,
        &worked::READ_ONLY_ANOMALY,
        &worked::READER_FINDS_A_COMMITTED_PIVOT,
        &worked::WRITER_FINDS_A_COMMITTED_PIVOT,
        &worked::ONE_AFTER_THE_OTHER,
        &worked::PIVOT_AFTER_ITS_NEIGHBOUR_WAS_FORGOTTEN,
        &worked::RANGE_BOUNDS_AND_LIMITS,
        &worked::REFUSALS_OUTSIDE_A_TRANSACTION,
        &worked::DELETED_KEY,
        &worked::SERIAL_ORDER_IS_NOT_COMMIT_ORDER,
        &worked::RANGE_OVER_OWN_WRITES,
        &worked::OLD_VERSION_IS_KEPT,
        &worked::PIVOT_AFTER_ITS_TARGET_WAS_FORGOTTEN,
        &worked::EARLIER_READER_IS_HARMLESS,
        &worked::PIVOT_BEFORE_ITS_TARGET_IS_HARMLESS,
        &worked::PIVOT_WITH_A_LATER_WRITER_IS_HARMLESS,
        &worked::RANGE_AT_ITS_LIMIT_MARKS_LESS,
        &worked::LAST_KEY_OF_A_PAGE_IS_MARKED,
        &worked::FULL_PAGE_ENDS_AT_ITS_LAST_KEY,
        &worked::RANGE_BELOW_ITS_LIMIT_MARKS_ALL,
        &worked::REAL_TIME_IS_NOT_COMMIT_ORDER,
    ]
}

/// Runs a row over a hub, with its bytes in pieces of each size.
fn over_the_hub<R: Abort + AllocGlobal>(rt: &R, sectors: u64, lines: &[Line]) {
    for size in [1usize, 2, 3, 7, FRAME_MAX] {
        let hub = new_hub(rt.alloc(), sectors).expect(rt, "a hub");
        let mut store = Pieces::new(hub, size);
        let found = first_difference(rt.alloc(), &mut store, lines).expect(rt, "memory");
        if let Some((asked, reply)) = found {
            assert!(rt; false, "{asked}: {reply}, in pieces of {size}");
        }
    }
}

#[test]
fn rows_over_the_hub(rt: HostRuntime) {
    for lines in worked_rows() {
        over_the_hub(&rt, SECTORS, lines);
    }
}

/// A script, and what the program prints for it.
#[derive(Drop)]
struct Expected {
    alloc: Global,
    script: Vec<u8>,
    prints: Vec<u8>,
}

impl Expected {
    fn new(alloc: Global) -> Expected {
        Expected {
            alloc,
            script: Vec::new(alloc),
            prints: Vec::new(alloc),
        }
    }

    fn add<R: Abort>(&mut self, rt: &R, asked: &str, expected: &str) {
        let label = asked.split(' ').next().unwrap_or("");
        assert!(rt; writeln!(self.script, "{asked}").is_ok());
        assert!(rt; writeln!(self.prints, "{label} {expected}").is_ok());
    }

    fn add_counted<R: Abort>(&mut self, rt: &R, counted: &Counted) {
        let (from, to, (asked, expected)) = *counted;
        for number in from..to {
            let line = with_number(self.alloc, asked, number).expect(rt, "memory");
            self.add(rt, &line, expected);
        }
    }

    fn play<R: Abort>(&self, rt: &R, sectors: u64)
        requires { sectors ≤ 4096 }
    {
        let mut out = Vec::new(self.alloc);
        let played = play(self.alloc, sectors, self.script.as_slice(), &mut out);
        assert!(rt;
            played.is_ok() && out.as_slice() == self.prints.as_slice(),
            "{out:?}"
        );
    }
}

/// Runs a row as a script of the program.
fn by_play<R: Abort + AllocGlobal>(rt: &R, sectors: u64, lines: &[Line])
    requires { sectors ≤ 4096 }
{
    let mut expected = Expected::new(rt.alloc());
    for (asked, reply) in lines {
        expected.add(rt, asked, reply);
    }
    expected.play(rt, sectors);
}

#[test]
fn rows_by_play(rt: HostRuntime) {
    for lines in worked_rows() {
        by_play(&rt, SECTORS, lines);
    }
}

#[test]
fn log_full(rt: HostRuntime) {
    over_the_hub(&rt, LOG_FULL_SECTORS, &worked::LOG_FULL);
    by_play(&rt, LOG_FULL_SECTORS, &worked::LOG_FULL);
}

fn counted_by_play<R: Abort + AllocGlobal>(rt: &R, row: &[Counted]) {
    let mut expected = Expected::new(rt.alloc());
    for counted in row {
        expected.add_counted(rt, counted);
    }
    expected.play(rt, SECTORS);
}

#[test]
fn sixty_four_writes(rt: HostRuntime) {
    counted_by_play(&rt, &worked::SIXTY_FOUR_WRITES);
}

#[test]
fn sixty_four_transactions(rt: HostRuntime) {
    counted_by_play(&rt, &worked::SIXTY_FOUR_TRANSACTIONS);
}

#[test]
fn two_hundred_fifty_six_marks(rt: HostRuntime) {
    counted_by_play(&rt, &worked::TWO_HUNDRED_FIFTY_SIX_MARKS);
}
