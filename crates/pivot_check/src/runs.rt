//! Searches over all runs: for an overwritten key, for the first target of a dependency, and for the first pivot.
ghost use Rattle.std.specs.Prelude.{◌≡◌, ◌≤◌, ◌<◌, ℕ, true, false, position, length, map};
ghost use Rattle.std.specs.List.{filter};
ghost use Rattle.model.specs.Map.{KeyWrite};
ghost use Rattle.marks.specs.Lent.{lent_mark};
ghost use Rattle.marks.specs.Marked.{marks_of};
ghost use Rattle.pivot_check.specs.Postings.{CountBoth, least, lesser, asked_of, covered_of};
ghost use Rattle.pivot_check.specs.KeptShort.{AreKeptShort, AreOfCommit};
ghost use Rattle.pivot_check.specs.Reach.{Reach};
ghost use Rattle.merging_runs.specs.RunSizes.{with_run};
ghost use Rattle.pivot_check.specs.Inside.{in_run, postings_in, written_run_size};
ghost use Rattle.pivot_check.specs.Index.{is_written_since};

use crate::by_start::ByStart;
use crate::run::WrittenRun;
use crate::written::Written;
use marks::MarkRef;
use merging_runs::Runs;
use model::Write;

impl WrittenRun {
    // The number that was found, or the least commit number above `begin` that has written a key that the mark covers, of those with
    // the flag where these alone are asked for, where that is lesser. Two binary searches, six while it is being made of two.
    pub(crate) fn least(
        &self,
        mark: MarkRef<'_>,
        found: Option<u64>,
        begin: u64,
        flagged: bool,
    ) -> Option<u64>
        ensures { result ≡ lesser found (least (asked_of (lent_mark mark.entry) begin flagged) (in_run self.now)) }
    {
        let in_made = self.made.least(mark, found, begin, flagged);
        let in_first = self.first.least(mark, in_made, begin, flagged);
        self.second.least(mark, in_first, begin, flagged)
    }

    // As `least`, for several marks.
    pub(crate) fn least_covered(
        &self,
        order: &ByStart<'_>,
        found: Option<u64>,
        begin: u64,
        flagged: bool,
    ) -> Option<u64>
        ensures { result
            ≡ lesser found (least (covered_of (marks_of order.now.marks.now) begin flagged) (in_run self.now)) }
    {
        let in_made = self.made.least_covered(order, found, begin, flagged);
        let in_first = self.first.least_covered(order, in_made, begin, flagged);
        self.second.least_covered(order, in_first, begin, flagged)
    }
}

// The least commit number above `begin` that has written a key that the mark covers, of those with the flag where these alone are asked
// for.
pub(crate) fn least_of(
    runs: &[WrittenRun],
    mark: MarkRef<'_>,
    begin: u64,
    flagged: bool,
) -> Option<u64>
    ensures { result ≡ least (asked_of (lent_mark mark.entry) begin flagged) (postings_in runs.now) }
{
    let mut found = None;
    for run in runs {
        found = run.least(mark, found, begin, flagged);
    }
    found
}

// As `least_of`, for several marks.
fn least_covered(runs: &[WrittenRun], order: &ByStart<'_>, begin: u64, flagged: bool) -> Option<u64>
    ensures { result ≡ least (covered_of (marks_of order.now.marks.now) begin flagged) (postings_in runs.now) }
{
    let mut found = None;
    for run in runs {
        found = run.least_covered(order, found, begin, flagged);
    }
    found
}

// The least commit number above `begin` that has written a key that one of the marks covers: the first target of the reader.
pub(crate) fn first_target(runs: &[WrittenRun], order: &ByStart<'_>, begin: u64) -> Option<u64>
    ensures { result ≡ least (covered_of (marks_of order.now.marks.now) begin false) (postings_in runs.now) }
{
    least_covered(runs, order, begin, false)
}

// The least of these numbers whose transaction has a dependency to a concurrent one that committed before it.
pub(crate) fn first_pivot(runs: &[WrittenRun], order: &ByStart<'_>, begin: u64) -> Option<u64>
    ensures { result ≡ least (covered_of (marks_of order.now.marks.now) begin true) (postings_in runs.now) }
{
    least_covered(runs, order, begin, true)
}

// The place of the first key that was written after `begin`.
pub(crate) fn first_overwritten(runs: &[WrittenRun], writes: &[Write], begin: u64) -> Option<usize>
    ensures { result ≡ position (λ w. is_written_since (postings_in runs.now) begin w.0) writes.now }
{
    writes.iter().position(|write| least_of(
        runs,
        MarkRef::Key(write.lend_key()),
        begin,
        false,
    ).is_some())
}

// Adds a run of what a commit has written, in the room that was made for it. One without keys is left out.
pub(crate) fn add_run(runs: &mut Runs<WrittenRun>, written: Vec<Written>, last: u64)
    requires commit { AreOfCommit last written.items }
    requires room { 0 < runs.old.places }
    ensures same { CountBoth (postings_in runs.new.runs) (postings_in runs.old.runs) written.items }
    ensures sizes { runs.new.sizes ≡ with_run last (length written.items) runs.old.sizes }
    ensures refused { runs.new.refused ≡ runs.old.refused }
    ensures sized { runs.old.sizes ≡ map written_run_size runs.old.runs
        → runs.new.sizes ≡ map written_run_size runs.new.runs }
    ensures kept { (reach : Reach) (before : ℕ) → before ≤ last → AreKeptShort reach before runs.old.runs
        → AreKeptShort reach last runs.new.runs }
{
    if written.is_empty() {
        return;
    }
    runs.push(WrittenRun::of(written, last));
}
