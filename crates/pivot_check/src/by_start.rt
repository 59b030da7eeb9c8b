//! The marks of a transaction by rising first key: in this order a run is searched for what they cover.
ghost use Rattle.std.specs.Prelude.{◌≡◌, ◌≤◌, length};
ghost use Rattle.marks.specs.Marked.{marks_of};
ghost use Rattle.pivot_check.specs.Places.{places_upto, AreAllPlaces};

use arrayvec::ArrayVec;
use marks::{MARKS_MAX, OwnedMark};
use std::cmp::Ordering;

/// Marks, and their places by rising start of the marks. So what one mark covers in a run begins where that of the one before begins or
/// behind it.
#[derive(Drop)]
pub(crate) struct ByStart<'a> {
    pub(crate) marks: &'a [OwnedMark],
    pub(crate) places: ArrayVec<u8, MARKS_MAX>,
    ghost all: { AreAllPlaces (marks_of marks.now) places.items },
}

// Which of the marks at two places starts first.
fn order_at(marks: &[OwnedMark], first: u8, second: u8) -> Ordering {
    match (marks.get(first as usize), marks.get(second as usize)) {
        (Some(first), Some(second)) => first.lend().start().order(second.lend().start()),
        _ => Ordering::Equal,
    }
}

// The places of so many marks.
fn places_of(count: usize) -> ArrayVec<u8, MARKS_MAX>
    requires { count ≤ MARKS_MAX }
    ensures { result.items ≡ places_upto count }
{
    let mut places = ArrayVec::new();
    for place in 0..count {
        places.push(place as u8);
    }
    places
}

impl<'a> ByStart<'a> {
    // Takes no memory.
    pub(crate) fn of(marks: &'a [OwnedMark]) -> ByStart<'a>
        requires { length marks.now ≤ MARKS_MAX }
        ensures { result.marks.now ≡ marks.now }
    {
        let mut places = places_of(marks.len());
        places.sort_unstable_by(|first: &u8, second: &u8| order_at(marks, *first, *second));
        ByStart { marks, places }
    }
}
