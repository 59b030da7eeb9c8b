//! Pages of entries: what a range yields to numbers that are held and to others, and of how many values it asks.
ghost use Rattle.std.specs.Prelude.{◌≡◌, ◌==◌};

use crate::helpers::key;
use model::{Key, KeyRef, RangeRef};
use sorted_pages::{SortedPages, Versioned};
use std::alloc::{AllocError, Global};
use std::cell::Cell;
use std::process::Abort;

// A value that shows or doesn't from a number on.
#[derive(Drop)]
struct Change {
    number: u64,
    shows: bool,
}

// A value that has changed twice at most since it was set: with the number `second` last, and before with `first`. It counts how often it
// is asked what a number sees of it.
#[derive(Drop)]
struct Watched<'a> {
    asked: &'a Cell<u64>,
    first: u64,
    second: u64,
    was: bool,
    did: bool,
    shows: bool,
}

impl Watched<'_> {
    ghost use Rattle.std.specs.Prelude.{◌≡◌, not, if◌then◌else◌};

    // Is there room for a change more?
    fn has_room(&self) -> bool
        ensures { result ≡ (if self.now.was then self.now.did else not self.now.did) }
    {
        if self.was { self.did } else { !self.did }
    }
}

impl Versioned for Watched<'_> {
    ghost use Rattle.std.specs.Prelude.{◌≡◌, nat_le, false, not, if◌then◌else◌};

    type Version = Change;

    ghost change_number = { λ c. c.number };

    ghost adds = { λ c old new. new ≡ record old {
      first = old.second;
      second = c.number;
      was = old.did;
      did = old.shows;
      shows = c.shows;
    } };

    ghost room = { λ v. if (if v.was then v.did else not v.did) then 1 else 0 };

    ghost is_roomier = { λ old new. new ≡ old };

    ghost trimmed = { λ _ value. value };

    ghost has = { λ _ _. false };

    ghost hides = { λ n v. not (if nat_le v.second n then v.shows else if nat_le v.first n then v.did else v.was) };

    ghost shows = { λ v. v.shows };

    ghost last = { λ v. v.second };

    // Where it has changed twice there is no room for a third change.
    fn reserve(&mut self, _alloc: Global) -> Result<(), AllocError> {
        if self.has_room() {
            Ok(())
        } else {
            Err(AllocError)
        }
    }

    fn add(&mut self, version: Change) {
        self.first = self.second;
        self.second = version.number;
        self.was = self.did;
        self.did = self.shows;
        self.shows = version.shows;
    }

    fn trim(&mut self, _numbers: &[u64]) {}

    fn has(&self, _number: u64) -> bool {
        false
    }

    fn hides(&self, number: u64) -> bool {
        self.asked.set(self.asked.get().saturating_add(1));
        if self.second <= number {
            return !self.shows;
        }
        if self.first <= number {
            return !self.did;
        }
        !self.was
    }

    fn shows(&self) -> bool {
        self.shows
    }

    fn last(&self) -> u64 {
        self.second
    }

    fn change_number(version: &Change) -> u64
        ensures { result ≡ version.now.number }
    {
        version.number
    }
}

// A value that numbers from this one on see.
fn set_at(number: u64, asked: &Cell<u64>) -> Watched<'_>
    ensures first { result.first ≡ number }
    ensures second { result.second ≡ number }
    ensures was { result.was ≡ (number == 0) }
{
    let to_all = number == 0;
    Watched {
        asked,
        first: number,
        second: number,
        was: to_all,
        did: to_all,
        shows: true,
    }
}

// Adds a value of the key of these bytes, which has none: numbers from that one on see it.
fn add<'a, R: Abort + AllocGlobal>(
    rt: &R,
    pages: &mut SortedPages<Watched<'a>>,
    bytes: &[u8],
    number: u64,
    asked: &'a Cell<u64>,
) {
    let at = KeyRef::new(bytes).expect(rt, "a key");
    if let Err(point) = pages.find(at) {
        pages.reserve(point, at, 1).expect(rt, "memory");
    }
    let key = Key::from_ref(rt.alloc(), at).expect(rt, "memory");
    let room = pages.room(at);
    let last = pages.last();
    match pages.find(at) {
        Err(point) if room > 0 && last <= number => pages.insert(point, key, set_at(number, asked)),
        _ => panic!(rt; "the key is there"),
    }
}

// Pages of 2,000 values that all numbers see.
fn filled<'a, R: Abort + AllocGlobal>(rt: &R, asked: &'a Cell<u64>) -> SortedPages<Watched<'a>> {
    let mut pages = SortedPages::new(rt.alloc());
    for i in 0..2_000u16 {
        add(rt, &mut pages, i.to_be_bytes().as_slice(), 0, asked);
    }
    pages
}

// Lets the value of the key of these bytes show or not from one number on.
fn change_one<R: Abort>(
    rt: &R,
    pages: &mut SortedPages<Watched<'_>>,
    bytes: &[u8],
    number: u64,
    shows: bool,
) {
    let at = KeyRef::new(bytes).expect(rt, "a key");
    if let Ok(place) = pages.find(at) {
        pages.reserve_value(place, at).expect(rt, "room");
    }
    let last = pages.last();
    match pages.find(at) {
        Ok(place) if last <= number && pages.value(place, at).has_room() => {
            pages.add(place, at, Change { number, shows });
        }
        _ => panic!(rt; "a key is missing"),
    }
}

// The same of each of the 2,000.
fn change_all<R: Abort>(rt: &R, pages: &mut SortedPages<Watched<'_>>, number: u64, shows: bool) {
    for i in 0..2_000u16 {
        change_one(rt, pages, i.to_be_bytes().as_slice(), number, shows);
    }
}

// How many values are asked until the number has come to the first that it sees, or to the end of the range. Does it see one?
fn looks_up_to(
    pages: &SortedPages<Watched<'_>>,
    hi: Option<KeyRef<'_>>,
    number: u64,
    asked: &Cell<u64>,
) -> (u64, bool) {
    asked.set(0);
    let lo = key(b"\0");
    let seen = pages.range(RangeRef { lo, hi }, number).next().is_some();
    (asked.get(), seen)
}

// The same of a range over all keys.
fn looks(pages: &SortedPages<Watched<'_>>, number: u64, asked: &Cell<u64>) -> (u64, bool) {
    looks_up_to(pages, None, number, asked)
}

/// What was deleted and set again shows to the numbers before and after, and not to those between. Of those that are held no page behind
/// the first is looked at where they see nothing; of others each is.
#[test]
fn refilled_pages_are_passed_over(rt: HostRuntime) {
    let asked = Cell::new(0);
    let mut pages = filled(&rt, &asked);
    pages.hold(&[4]);
    change_all(&rt, &mut pages, 5, false);
    assert!(rt; looks(&pages, 4, &asked) == (1, true));
    assert!(rt; looks(&pages, 5, &asked) == (0, false));
    pages.hold(&[4, 6]);
    change_all(&rt, &mut pages, 9, true);
    assert!(rt; looks(&pages, 4, &asked) == (1, true));
    assert!(rt; looks(&pages, 9, &asked) == (1, true));
    let (held, sees) = looks(&pages, 6, &asked);
    assert!(rt; !sees && held < 300);
    assert!(rt; looks(&pages, 7, &asked) == (2_000, false));
    pages.hold(&[4]);
    assert!(rt; looks(&pages, 6, &asked) == (2_000, false));
    pages.hold(&[4, 6]);
    assert!(rt;
        looks(&pages, 6, &asked) == (2_000, false) && looks(&pages, 4, &asked) == (1, true)
    );
}

/// Nor where such pages are split for new keys, of which the number sees nothing either.
#[test]
fn split_pages_are_passed_over(rt: HostRuntime) {
    let asked = Cell::new(0);
    let mut pages = filled(&rt, &asked);
    change_all(&rt, &mut pages, 5, false);
    pages.hold(&[6]);
    change_all(&rt, &mut pages, 9, true);
    let before = pages.pages();
    for i in 0..2_000u16 {
        let [high, low] = i.to_be_bytes();
        add(&rt, &mut pages, &[high, low, 0], 20, &asked);
    }
    assert!(rt; pages.pages() > before);
    let (held, sees) = looks(&pages, 6, &asked);
    assert!(rt; !sees && held < 300);
    assert!(rt; looks(&pages, 20, &asked) == (1, true));
}

/// Of 64 numbers that are held each passes over the pages of which it sees nothing, and no other.
#[test]
fn each_held_number_passes_over_its_pages(rt: HostRuntime) {
    let asked = Cell::new(0);
    let mut pages = filled(&rt, &asked);
    let mut numbers = [0; 64];
    for i in 0..64u8 {
        let number = u64::from(i) + 10;
        numbers[usize::from(i)] = number;
        pages.hold(&numbers[..usize::from(i) + 1]);
        change_one(&rt, &mut pages, &[i >> 4, i << 4], number + 1, false);
    }
    for i in 0..64u8 {
        let at = [i >> 4, i << 4];
        let hi = [i >> 4, (i << 4) + 1];
        let lo = KeyRef::new(&at).expect(&rt, "a key");
        let range = RangeRef {
            lo,
            hi: KeyRef::new(&hi),
        };
        let number = u64::from(i) + 10;
        assert!(rt; pages.range(range, number).next().is_some());
        assert!(rt; pages.range(range, number + 1).next().is_none());
    }
}

/// No page is looked at behind that of the range's end, also where the number sees nothing before it.
#[test]
fn a_range_ends_at_the_page_of_its_end(rt: HostRuntime) {
    let asked = Cell::new(0);
    let mut pages = filled(&rt, &asked);
    change_all(&rt, &mut pages, 5, false);
    assert!(rt; pages.pages() > 3);
    change_one(&rt, &mut pages, b"\x04\0", 6, true);
    assert!(rt; looks(&pages, 6, &asked) == (1, true));
    assert!(rt; looks_up_to(&pages, Some(key(b"\0\x01")), 6, &asked) == (0, false));
    assert!(rt; looks_up_to(&pages, Some(key(b"\x04\0")), 6, &asked) == (1, false));
    assert!(rt; looks_up_to(&pages, Some(key(b"\x05\0")), 6, &asked) == (1, true));
}

/// Of a page of which one value shows the others aren't asked by a number from the page's last change on. Numbers before that change ask
/// each.
#[test]
fn values_that_do_not_show_are_passed_over(rt: HostRuntime) {
    let asked = Cell::new(0);
    let mut pages = filled(&rt, &asked);
    change_all(&rt, &mut pages, 5, false);
    change_one(&rt, &mut pages, &[0, 100], 9, true);
    assert!(rt; looks(&pages, 9, &asked) == (1, true));
    assert!(rt; looks(&pages, 8, &asked).0 > 100);
    pages.hold(&[]);
    assert!(rt; !pages.trim_at(key(b"\0\x20"), &[], 0) && looks(&pages, 9, &asked) == (1, true));
    add(&rt, &mut pages, b"\0\x10\0", 12, &asked);
    assert!(rt; looks(&pages, 12, &asked) == (1, true) && looks(&pages, 11, &asked).0 > 100);
}

/// A value that has no room for a change more is refused it, and is as it was.
#[test]
fn a_value_without_room_is_refused_it(rt: HostRuntime) {
    let asked = Cell::new(0);
    let mut pages = filled(&rt, &asked);
    change_one(&rt, &mut pages, b"\0\0", 5, false);
    change_one(&rt, &mut pages, b"\0\0", 9, true);
    let at = key(b"\0\0");
    match pages.find(at) {
        Ok(place) => {
            assert!(rt; pages.reserve_value(place, at).is_err());
        }
        Err(_) => panic!(rt; "a key is missing"),
    }
    match pages.get(at) {
        Some(value) => assert!(rt; !value.hides(4) && value.hides(5) && !value.hides(9)),
        None => panic!(rt; "a key is missing"),
    }
}

/// Pages have places in whole steps of 96, also where each entry has asked for one.
#[test]
fn places_are_whole_steps(rt: HostRuntime) {
    let asked = Cell::new(0);
    let pages = filled(&rt, &asked);
    assert!(rt; pages.places() >= 2_000 && pages.places() % 96 == 0);
}
