//! Who may still ask of what is kept: transactions, by the numbers with which they began.
ghost use Rattle.std.specs.Prelude.{◌≡◌, ◌≤◌, ◌||◌, [], length, nat_le, nat_lt};
ghost use Rattle.std.specs.List.{list_all};
ghost use Rattle.pivot_check.specs.Active.{reach_of};
ghost use Rattle.pivot_check.specs.Redundant.{is_undivided};

use arrayvec::ArrayVec;
use last_readers::BEGINS_MAX;

/// Who may still ask: one who began at one of `begins`, or at `since` or later.
#[derive(Drop)]
pub(crate) struct ActiveBegins {
    pub(crate) begins: ArrayVec<u64, BEGINS_MAX>,
    pub(crate) since: u64,
}

impl ActiveBegins {
    // All may ask.
    pub(crate) fn all() -> ActiveBegins
        ensures { reach_of result ≡ record { begins = []; since = 0 } }
    {
        ActiveBegins {
            begins: ArrayVec::new(),
            since: 0,
        }
    }

    // One may ask who began at one of these numbers, or at `since` or later.
    pub(crate) fn of(numbers: &[u64], since: u64) -> ActiveBegins
        requires { length numbers.now ≤ BEGINS_MAX }
        ensures { reach_of result ≡ record { begins = numbers.now; since = since } }
    {
        let mut begins = ArrayVec::new();
        match begins.try_extend_from_slice(numbers) {
            Ok(()) => ActiveBegins { begins, since },
            Err(_) => unreachable!(),
        }
    }

    // Has whoever may ask begun before both numbers, or before neither?
    pub(crate) fn is_undivided(&self, first: u64, second: u64) -> bool
        ensures { result ≡ is_undivided (reach_of self.now) first second }
    {
        second <= self.since && none_is_between(self.begins.as_slice(), first, second)
    }
}

// Is none of the numbers from `first` to below `second`?
fn none_is_between(numbers: &[u64], first: u64, second: u64) -> bool
    ensures { result ≡ list_all (λ b. nat_lt b first || nat_le second b) numbers.now }
{
    numbers
        .iter()
        .all(|number| *number < first || second <= *number)
}
