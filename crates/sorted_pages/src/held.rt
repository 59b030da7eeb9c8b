//! The numbers that are held: those at which readers began who may still ask. Each stands in a slot, and has the bit of that slot in what
//! is known of a page.
ghost use Rattle.std.specs.Prelude.{◌≡◌, ◌==◌, ◌&&◌, ◌≤◌, ◌<◌, ℕ, true, nat_le, nat_lt, false, if◌then◌else◌};
ghost use Rattle.std.specs.Prelude.{IfSome, length, position};
ghost use Rattle.sorted_pages.specs.Held.{AreApart, AreBits, AreBounded, AreFreeFrom, AreHeldFrom, AreHeldOf};
ghost use Rattle.sorted_pages.specs.Held.{AreHeldFor, IsHeldLate, IsReader, is_among, with_number};
ghost use Rattle.std.specs.Int.{bit_at};
ghost use Rattle.sorted_pages.specs.Summaries.{BitsHide, are_hidden};

use crate::number_set::NumberSet;
use crate::versioned::Versioned;
use model::Key;
use std::marker::Model;

/// The most numbers that are held: a page has a bit for each.
pub const HELD_MAX: usize = 64;

// What stands in a slot of no number. No value changes with a number above it.
pub(crate) const FREE: u64 = u64::MAX;

// One who reads: the number at which it began, and the bit of its slot, or none where the number isn't held.
#[derive(Clone, Copy)]
pub(crate) struct Reader {
    pub(crate) number: u64,
    pub(crate) bit: u64,
}

// The numbers that are held, by their slots. A clause sees what stands in each slot.
#[derive(Drop)]
pub(crate) struct Held {
    slots: [u64; HELD_MAX],
    // the slots from here on are free: only those before it are looked at
    used: usize,
    // each held number is below it; 0 where none is held
    bound: u64,
    // the numbers that were given last, so many; more than there are places where the slots have changed since
    asked: [u64; HELD_MAX],
    asked_count: usize,
    // of these the ones from this on are held
    asked_since: u64,
}

// More numbers than are noted: the slots have changed since.
const NOT_NOTED: usize = HELD_MAX + 1;

impl Model for Held {
    ghost use Rattle.std.specs.Prelude.{ℕ, List, ◌≤◌, take};
    ghost use Rattle.sorted_pages.specs.Held.{AreApart, AreBounded, AreFreeFrom, AreHeldFor};
    ghost use Rattle.sorted_pages.specs.declared.held.TheConstants.{HELD_MAX};

    ghost Value = { List ℕ };

    ghost view = { λ h. h.slots };

    ghost invariant = { λ h.
        AreApart h.slots × AreBounded h.bound h.slots × AreFreeFrom h.used h.slots × (h.used ≤ HELD_MAX)
        × (h.asked_count ≤ HELD_MAX → AreHeldFor h.asked_since (take h.asked_count h.asked) h.slots) };
}

impl Held {
    ghost use Rattle.std.specs.Prelude.{◌<◌, ◌==◌};
    ghost use Rattle.sorted_pages.specs.declared.held.TheConstants.{HELD_MAX};

    // No number is held.
    pub(crate) fn none() -> Held {
        Held {
            slots: [FREE; HELD_MAX],
            used: 0,
            bound: 0,
            asked: [0; HELD_MAX],
            asked_count: 0,
            asked_since: 0,
        }
    }

    // The first slot of the number, or for `FREE` the first that is free. No number from `bound` on stands in one.
    fn slot_of(&self, number: u64) -> Option<usize>
        ensures first { result ≡ position (λ n. n == number) self.now }
        ensures within { IfSome result (λ slot. slot < HELD_MAX) }
    {
        if self.bound <= number && number < FREE {
            return None;
        }
        match place_of(number, &self.slots[..self.used]) {
            Some(slot) => Some(slot),
            None if number == FREE && self.used < HELD_MAX => Some(self.used),
            None => None,
        }
    }

    // One who began at the number.
    pub(crate) fn reader(&self, number: u64) -> Reader
        ensures number { result.number ≡ number }
        ensures slot { IsReader self.now result }
        ensures known { is_among self.now number ≡ true → 0 < result.bit }
    {
        let bit = match self.slot_of(number) {
            Some(slot) => 1 << slot,
            None => 0,
        };
        Reader { number, bit }
    }

    // The bits of the numbers from `low` on and below `high`.
    pub(crate) fn bits_between(&self, low: u64, high: u64) -> u64
        ensures bits { AreBits (λ n. nat_le low n && nat_lt n high) self.now result }
        ensures places { length self.now ≡ HELD_MAX }
    {
        if self.bound <= low {
            return 0;
        }
        let mut bits = 0;
        for slot in 0..self.used {
            let number = self.slots[slot];
            if is_between(number, low, high) {
                bits |= 1 << slot;
            }
        }
        bits
    }

    // The bits of the numbers below `high` that see nothing of the entries. Of those whose bits are in `known` none is asked, since they
    // see nothing.
    pub(crate) fn bits_hiding<V: Versioned>(
        &self,
        entries: &[(Key, V)],
        high: u64,
        known: u64,
    ) -> u64
        requires { BitsHide V.hides self.now high entries.now known }
        ensures { AreBits (λ n. nat_lt n high && are_hidden (V.hides n) entries.now) self.now result }
    {
        let mut bits = 0;
        for slot in 0..self.used {
            let number = self.slots[slot];
            if is_hidden(entries, number, high, has_bit(known, slot)) {
                bits |= 1 << slot;
            }
        }
        bits
    }

    // Releases all numbers but these.
    fn release_others(&mut self, numbers: &NumberSet<'_>)
        ensures kept { AreHeldOf numbers.now self.old self.new }
        ensures places { length self.new ≡ HELD_MAX }
        ensures apart { AreApart self.new }
    {
        let mut used = 0;
        for slot in 0..self.used {
            let number = kept(self.slots[slot], numbers);
            self.slots[slot] = number;
            if number != FREE {
                used = slot + 1;
            }
        }
        self.used = used;
        self.bound = bound_of(numbers.numbers());
        self.asked_count = NOT_NOTED;
    }

    // Holds the number, where a slot is free.
    fn add(&mut self, number: u64)
        requires { is_among self.old number ≡ false }
        ensures { self.new ≡ with_number number self.old }
    {
        if let Some(slot) = self.slot_of(FREE) {
            self.slots[slot] = number;
            self.used = self.used.max(slot + 1);
            self.bound = self.bound.max(number.saturating_add(1));
            self.asked_count = NOT_NOTED;
        }
    }

    // Holds the number too, where it isn't below `last`.
    fn add_late(&mut self, number: u64, last: u64)
        ensures { IsHeldLate last number self.old self.new }
    {
        if number < last {
            return;
        }
        match self.slot_of(number) {
            Some(_) => {}
            None => self.add(number),
        }
    }

    // Were these numbers given last, and are those of them held that aren't below `last`?
    fn are_noted(&self, numbers: &[u64], last: u64) -> bool
        ensures { result ≡ true → AreHeldFor last numbers.now self.now }
    {
        self.asked_since <= last
            && self.asked_count <= HELD_MAX
            && numbers == &self.asked[..self.asked_count]
    }

    // Notes that these numbers were given, unless they are too many.
    fn note(&mut self, numbers: &[u64], last: u64)
        requires { length numbers.now ≤ HELD_MAX → AreHeldFor last numbers.now self.old }
        ensures { self.new ≡ self.old }
    {
        if numbers.len() <= HELD_MAX {
            self.asked[..numbers.len()].copy_from_slice(numbers);
            self.asked_count = numbers.len();
            self.asked_since = last;
        }
    }

    // Holds these numbers alone: those that were held, and those that aren't below `last`, as many as fit.
    pub(crate) fn hold(&mut self, numbers: &[u64], last: u64)
        ensures slots { AreHeldFrom last self.old self.new }
        ensures among { (n : ℕ) → is_among self.new n ≡ true → n < last → is_among numbers.now n ≡ true }
        ensures held { length numbers.now ≤ HELD_MAX
            → (n : ℕ) → is_among numbers.now n ≡ true → is_among self.old n ≡ true → is_among self.new n ≡ true }
        ensures added { length numbers.now ≤ HELD_MAX
            → (n : ℕ) → is_among numbers.now n ≡ true → last ≤ n → is_among self.new n ≡ true }
    {
        if self.are_noted(numbers, last) {
            return;
        }
        self.release_others(&NumberSet::of(numbers));
        for number in numbers {
            self.add_late(*number, last);
        }
        self.note(numbers, last);
    }
}

// The first place of the number among these.
fn place_of(number: u64, numbers: &[u64]) -> Option<usize>
    ensures first { result ≡ position (λ n. n == number) numbers.now }
    ensures within { IfSome result (λ place. place < length numbers.now) }
{
    numbers.iter().position(|held| *held == number)
}

// One more than the greatest of the numbers; 0 where there is none.
fn bound_of(numbers: &[u64]) -> u64
    ensures { AreBounded result numbers.now }
{
    let mut bound: u64 = 0;
    for number in numbers {
        bound = bound.max(number.saturating_add(1));
    }
    bound
}

// What stands in the number's slot when only these are held.
fn kept(number: u64, numbers: &NumberSet<'_>) -> u64
    ensures { result ≡ (if is_among numbers.now number then number else FREE) }
{
    if number == FREE || numbers.contains(number) {
        number
    } else {
        FREE
    }
}

// Is the number at least `low`, and below `high`?
fn is_between(number: u64, low: u64, high: u64) -> bool
    ensures { result ≡ (nat_le low number && nat_lt number high) }
{
    low <= number && number < high
}

// Is the bit of this slot among these?
fn has_bit(bits: u64, slot: usize) -> bool
    requires { slot < HELD_MAX }
    ensures { result ≡ (bit_at bits slot == 1) }
{
    (bits >> slot) % 2 == 1
}

// Is the number below `high`, and does it see nothing of the entries? It isn't asked where that is known.
fn is_hidden<V: Versioned>(entries: &[(Key, V)], number: u64, high: u64, known: bool) -> bool
    requires { known ≡ true → number < high → are_hidden (V.hides number) entries.now ≡ true }
    ensures { result ≡ (nat_lt number high && are_hidden (V.hides number) entries.now) }
{
    number < high && (known || hides_all(entries, number))
}

// Does the number see nothing of the entries?
fn hides_all<V: Versioned>(entries: &[(Key, V)], number: u64) -> bool
    ensures { result ≡ are_hidden (V.hides number) entries.now }
{
    entries.iter().all(|entry| entry.1.hides(number))
}
