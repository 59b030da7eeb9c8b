//! One page: entries by rising key, room for more, and which of their values show.
ghost use Rattle.std.specs.Prelude.{◌≡◌, max, ◌+◌, ◌-◌, ◌*◌, ◌^◌, ◌<◌, ◌≤◌, ℕ, T, true, false, [], ◌∷◌, ◌++◌, length};
ghost use Rattle.std.specs.Prelude.{not};
ghost use Rattle.std.specs.Prelude.{take, drop, Some, IfOk, IfErr, IsOk, OnOk, OnErr, option_copied, is_ok};
ghost use Rattle.std.specs.Prelude.{if◌then◌else◌};
ghost use Rattle.std.specs.Ordering.{nat_cmp};
ghost use Rattle.std.specs.Cmp.Lexicographic.{slice_cmp};
ghost use Rattle.std.specs.FinMap.Entries.{find, put, is_sorted};
ghost use Rattle.std.specs.Vec.{vec_len, vec_capacity};
ghost use Rattle.model.specs.Map.{key_cmp};
ghost use Rattle.model.specs.Entries.{IsAt, IsGap, IsSplit};
ghost use Rattle.sorted_pages.specs.Pages.{stands_behind, starts_by};
ghost use Rattle.sorted_pages.specs.Ranges.{shown};
ghost use Rattle.sorted_pages.specs.Values.{IsFresh};
ghost use Rattle.sorted_pages.specs.Changes.{HasRoomAt};
ghost use Rattle.sorted_pages.specs.Rooms.{HasRoomFor, IsEmptyFor};
ghost use Rattle.sorted_pages.specs.Trims.{changed_at, passes};

use crate::flagging::{copied_flags, count_flagged, next_flagged};
use crate::heads::{SoughtKey, first_head, renewed_head};
use crate::versioned::Versioned;
use model::{Key, KeyRef};
use std::alloc::{AllocError, Global};
use std::cmp::Ordering;
use std::marker::Model;
use std::mem;

// A page's places come in steps. They are few and large, since a page that moves leaves a block behind that larger pages don't fit in.
const STEP: usize = 96;

// A page that would need more places is split. It is three steps.
pub(crate) const PAGE_MAX: usize = 288;

// How much room to make beside `len` entries for `n` more, so that the places are whole steps.
fn room_in_steps(len: usize, n: usize) -> usize
    ensures least { n ≤ result }
    ensures most { result ≤ n + (STEP - 1) }
{
    // There is no memory for so many.
    if usize::MAX - STEP < n {
        return n;
    }
    match (len % STEP + n) % STEP {
        0 => n,
        over => n + (STEP - over),
    }
}

// A vector with places for so many entries and for `n` more, in whole steps.
fn vector_for<V>(alloc: Global, len: usize, n: usize) -> Result<Vec<(Key, V)>, AllocError>
    ensures none { IfOk result (λ v. v.items ≡ []) }
    ensures least { IfOk result (λ v. len + n ≤ vec_capacity v) }
    ensures most { IfOk result (λ v. vec_capacity v ≤ len + n + (STEP - 1)) }
{
    match len.checked_add(room_in_steps(len, n)) {
        None => Err(AllocError),
        Some(places) => Vec::with_capacity(alloc, places),
    }
}

// Moves the first `at` of the entries to one vector and the others to another, which both have the places.
fn deal<V: Drop>(
    entries: Vec<(Key, V)>,
    at: usize,
    lower: &mut Vec<(Key, V)>,
    upper: &mut Vec<(Key, V)>,
)
    requires within { at ≤ vec_len entries }
    requires lower { IsEmptyFor at lower.old }
    requires upper { IsEmptyFor (vec_len entries - at) upper.old }
    ensures lower { lower.new.items ≡ take at entries.items }
    ensures upper { upper.new.items ≡ drop at entries.items }
    ensures lower_places { vec_capacity lower.new ≡ vec_capacity lower.old }
    ensures upper_places { vec_capacity upper.new ≡ vec_capacity upper.old }
{
    for entry in entries {
        if lower.len() < at {
            lower.push_reserved(entry);
        } else {
            upper.push_reserved(entry);
        }
    }
}

// Entries by rising key. A clause sees them, and how many more fit without memory. Each place takes a byte beside the entry's own.
#[derive(Drop)]
pub(crate) struct Page<V: Versioned> {
    entries: Vec<(Key, V)>,
    // for each entry whether its value shows
    flags: Vec<bool>,
    // how many of them do
    showing: usize,
    // the number of the last change of its values
    last: u64,
    // that of the first key
    head: u128,
}

impl<V: Versioned> Model for Page<V> {
    ghost use Rattle.std.specs.Prelude.{ℕ, List, ◌-◌};
    ghost use Rattle.std.specs.Vec.{vec_len, vec_capacity};
    ghost use Rattle.std.specs.Prelude.{count_by, ◌≡◌};
    ghost use Rattle.sorted_pages.specs.Flags.{HaveFlags};
    ghost use Rattle.sorted_pages.specs.Heads.{IsFirstHead};
    ghost use Rattle.sorted_pages.specs.Summaries.{AreOver};

    ghost Value = { List (List ℕ × V) × ℕ };

    ghost view = { λ p. (p.entries.items, vec_capacity p.entries - vec_len p.entries) };

    ghost invariant = { λ p. IsFirstHead p.entries.items p.head
        × HaveFlags V.shows p.entries p.flags
        × (count_by (λ e. V.shows e.1) p.entries.items ≡ p.showing)
        × AreOver V.hides V.shows V.last p.last p.entries.items };
}

// Which of the entry's key and another stands first.
fn compare<V>(entry: &(Key, V), key: KeyRef<'_>) -> Ordering
    ensures { result ≡ key_cmp entry.now.0 key.entry.bytes.now }
{
    entry.0.lend().order(key)
}

impl<V: Versioned> Page<V> {
    ghost use Rattle.model.specs.KeyBytes.{end_bytes};
    ghost use Rattle.sorted_pages.specs.Ranges.{IsFirstShown, IsLeastFrom};
    ghost use Rattle.sorted_pages.specs.Changes.{ChangesEntry};
    ghost use Rattle.sorted_pages.specs.Summaries.{AreOver, KeepsSummaries, RaisesSummaries, is_any_shown};

    // An empty page with room for so many entries, in whole steps.
    pub(crate) fn with_room_in_steps(alloc: Global, room: usize) -> Result<Page<V>, AllocError>
        ensures none { IfOk result (λ p. p.0 ≡ []) }
        ensures least { IfOk result (λ p. room ≤ p.1) }
        ensures most { IfOk result (λ p. p.1 ≤ room + (STEP - 1)) }
    {
        Page::with_room(alloc, room_in_steps(0, room))
    }

    // An empty page with room for so many entries.
    pub(crate) fn with_room(alloc: Global, room: usize) -> Result<Page<V>, AllocError>
        ensures { IfOk result (λ p. p ≡ ([], room)) }
    {
        let flags = Vec::with_capacity(alloc, room)?;
        Ok(Page {
            entries: Vec::with_capacity(alloc, room)?,
            flags,
            showing: 0,
            last: 0,
            head: 0,
        })
    }

    pub(crate) fn len(&self) -> usize
        ensures { result ≡ length self.now.0 }
    {
        self.entries.len()
    }

    // How many entries it has places for, in use and free.
    pub(crate) fn places(&self) -> usize
        ensures { result ≡ length self.now.0 + self.now.1 }
    {
        self.entries.capacity()
    }

    // How many more entries fit without memory.
    pub(crate) fn room(&self) -> usize
        ensures { result ≡ self.now.1 }
    {
        self.entries.capacity().saturating_sub(self.entries.len())
    }

    // Is the first key at most this one?
    pub(crate) fn starts_by(&self, sought: SoughtKey<'_>) -> bool
        ensures { result ≡ starts_by sought.entry.key.bytes.now self.now.0 }
    {
        match self.entries.first() {
            None => true,
            Some(_) if self.head != sought.head => self.head < sought.head,
            Some(entry) => compare(entry, sought.key).is_le(),
        }
    }

    // Where to cut the page so that the key gets room: in the middle, and before its last entry where the key stands behind all of
    // them, so that keys that come by rising order leave full pages. It is 0 where there are fewer than two entries.
    pub(crate) fn cut_for(&self, key: KeyRef<'_>) -> usize
        ensures within { result ≤ length self.now.0 - 1 }
        ensures some { 1 < length self.now.0 → 0 < result }
        ensures behind { stands_behind key.entry.bytes.now self.now.0 ≡ true → result ≡ length self.now.0 - 1 }
        ensures low { stands_behind key.entry.bytes.now self.now.0 ≡ false → 2 * result ≤ length self.now.0 }
        ensures high { stands_behind key.entry.bytes.now self.now.0 ≡ false → length self.now.0 ≤ 2 * result + 1 }
    {
        match self.entries.last() {
            Some(entry) if compare(entry, key).is_lt() => self.entries.len() - 1,
            _ => self.entries.len() / 2,
        }
    }

    // Where the key's entry is, or where it would stand.
    pub(crate) fn search(&self, key: KeyRef<'_>) -> Result<usize, usize>
        requires { T (is_sorted (slice_cmp nat_cmp) self.now.0) }
        ensures found { IfOk result (IsAt self.now.0 key.entry.bytes.now) }
        ensures absent { IfErr result (IsGap self.now.0 key.entry.bytes.now) }
    {
        self.entries.binary_search_by(|entry| compare(entry, key))
    }

    // How many of the entries have keys below this one.
    pub(crate) fn split_place(&self, key: KeyRef<'_>) -> usize
        requires { T (is_sorted (slice_cmp nat_cmp) self.now.0) }
        ensures { IsSplit self.now.0 key.entry.bytes.now result }
    {
        match self.entries.binary_search_by(|entry| compare(entry, key)) {
            Ok(i) => i,
            Err(i) => i,
        }
    }

    // Lends the entries.
    pub(crate) fn entries(&self) -> &[(Key, V)]
        ensures { result.now ≡ self.now.0 }
    {
        &self.entries
    }

    // Does one of its values show?
    pub(crate) fn shows(&self) -> bool
        ensures { result ≡ is_any_shown V.shows self.now.0 }
    {
        self.showing > 0
    }

    // The next place from this one on whose value has to be asked: one whose value shows, where the number isn't below that of the page's
    // last change.
    fn next_asked(&self, from: usize, number: u64) -> usize
        ensures from { from ≤ result }
        ensures shown { shown (V.hides number) (drop result self.now.0)
            ≡ shown (V.hides number) (drop from self.now.0) }
    {
        if number < self.last {
            return from;
        }
        next_flagged(&self.flags, from)
    }

    // The next place from this one on of which the number sees something; where there is none, it is behind the last.
    pub(crate) fn next_seen(&self, from: usize, number: u64) -> usize
        ensures first { IsFirstShown (V.hides number) (drop result self.now.0) }
        ensures shown { shown (V.hides number) (drop result self.now.0)
            ≡ shown (V.hides number) (drop from self.now.0) }
    {
        let mut at = self.next_asked(from, number);
        while at < self.entries.len() && self.entries[at].1.hides(number) {
            at = self.next_asked(at + 1, number);
        }
        at
    }

    // Lends the least key that is at least this one.
    pub(crate) fn first_from(&self, key: KeyRef<'_>) -> Option<KeyRef<'_>>
        requires { T (is_sorted (slice_cmp nat_cmp) self.now.0) }
        ensures { IsLeastFrom self.now.0 key.entry.bytes.now (end_bytes result) }
    {
        match self.entries.get(self.split_place(key)) {
            None => None,
            Some(entry) => Some(entry.0.lend()),
        }
    }

    // Lends the key's value.
    pub(crate) fn get(&self, key: KeyRef<'_>) -> Option<&V>
        requires { T (is_sorted (slice_cmp nat_cmp) self.now.0) }
        ensures { option_copied result ≡ find (slice_cmp nat_cmp) key.entry.bytes.now self.now.0 }
    {
        match self.search(key) {
            Ok(i) => Some(&self.entries[i].1),
            Err(_) => None,
        }
    }

    // Lends the key's value, which stands at `i`.
    pub(crate) fn value(&self, key: KeyRef<'_>, i: usize) -> &V
        requires sorted { T (is_sorted (slice_cmp nat_cmp) self.now.0) }
        requires place { IsAt self.now.0 key.bytes.now i }
        ensures { find (slice_cmp nat_cmp) key.entry.bytes.now self.now.0 ≡ Some result.now }
    {
        &self.entries[i].1
    }

    // Makes room for a version more in the key's value, which stands at `i`.
    pub(crate) fn reserve_value(
        &mut self,
        key: KeyRef<'_>,
        i: usize,
        alloc: Global,
    ) -> Result<(), AllocError>
        requires sorted { T (is_sorted (slice_cmp nat_cmp) self.old.0) }
        requires place { IsAt self.old.0 key.bytes.now i }
        ensures changed { ChangesEntry key.entry.bytes.now V.is_roomier self.old self.new }
        ensures made { OnOk result (HasRoomAt V.room key.entry.bytes.now self.new.0) }
        ensures known { HasRoomAt V.room key.entry.bytes.now self.old.0 → IsOk result }
        ensures summaries { KeepsSummaries V.hides V.shows V.last self.old.0 self.new.0 }
    {
        self.entries[i].1.reserve(alloc)
    }

    // Adds a version to the key's value, which stands at `i`, in the room that was made for it.
    pub(crate) fn add(&mut self, key: KeyRef<'_>, i: usize, version: V::Version)
        requires sorted { T (is_sorted (slice_cmp nat_cmp) self.old.0) }
        requires place { IsAt self.old.0 key.bytes.now i }
        requires room { HasRoomAt V.room key.bytes.now self.old.0 }
        ensures changed { ChangesEntry key.entry.bytes.now (V.adds version) self.old self.new }
        ensures summaries { RaisesSummaries V.hides V.shows V.last (V.change_number version) self.old.0 self.new.0 }
    {
        let value = &mut self.entries[i].1;
        value.add(version);
        self.last = self.last.max(value.last());
        let shows = value.shows();
        self.showing = recounted(self.showing, self.flags[i], shows);
        self.flags[i] = shows;
    }

    // Makes room for `n` more entries. Where it is missing the places become whole steps.
    pub(crate) fn reserve(&mut self, n: usize) -> Result<(), AllocError>
        ensures entries { self.new.0 ≡ self.old.0 }
        ensures room { self.old.1 ≤ self.new.1 }
        ensures made { OnOk result (n ≤ self.new.1) }
        ensures tight { self.new.1 ≤ max self.old.1 (n + (STEP - 1)) }
    {
        if n <= self.room() {
            return Ok(());
        }
        let more = room_in_steps(self.entries.len(), n);
        // There is a place for each flag, also where there is no memory for the entries.
        self.flags.reserve_exact(more)?;
        self.entries.reserve_exact(more)
    }

    // Adds an entry of a new key at `i`, where it would stand, in the room that was made for it.
    pub(crate) fn insert(&mut self, i: usize, key: Key, value: V)
        requires gap { IsGap self.old.0 key i }
        requires room { 0 < self.old.1 }
        requires fresh { IsFresh V.hides V.last value }
        ensures entries { self.new.0 ≡ put (slice_cmp nat_cmp) key value self.old.0 }
        ensures room { self.old.1 ≡ self.new.1 + 1 }
        ensures summaries { RaisesSummaries V.hides V.shows V.last (V.last value) self.old.0 self.new.0 }
    {
        self.last = self.last.max(value.last());
        let shows = value.shows();
        match self.entries.insert(i, (key, value)) {
            Ok(()) => {}
            Err(_) => unreachable!(),
        }
        match self.flags.insert(i, shows) {
            Ok(()) => {}
            Err(_) => unreachable!(),
        }
        self.showing = recounted(self.showing, false, shows);
        self.head = renewed_head(&self.entries, i, self.head);
    }
}

impl<V: Versioned + Drop> Page<V> {
    ghost use Rattle.sorted_pages.specs.Summaries.{RaisesSummaries};

    // Adds an entry at the end.
    pub(crate) fn push(&mut self, key: Key, value: V) -> Result<(), AllocError>
        requires fresh { IsFresh V.hides V.last value }
        ensures entries { self.new.0 ≡ (if is_ok result then self.old.0 ++ (key, value) ∷ [] else self.old.0) }
        ensures places { length self.old.0 + self.old.1 ≤ length self.new.0 + self.new.1 }
        ensures tight { self.new.1 ≤ max self.old.1 STEP }
        ensures summaries { OnOk result
            (RaisesSummaries V.hides V.shows V.last (V.last value) self.old.0 self.new.0) }
    {
        self.reserve(1)?;
        self.last = self.last.max(value.last());
        let last = self.entries.len();
        let shows = value.shows();
        self.entries.push_reserved((key, value));
        self.flags.push_reserved(shows);
        self.showing = recounted(self.showing, false, shows);
        self.head = renewed_head(&self.entries, last, self.head);
        Ok(())
    }

    // Moves the entries from `at` on to a page of their own. Both get places of their own, with room for `n` more entries.
    pub(crate) fn split_off(&mut self, at: usize, n: usize) -> Result<Page<V>, AllocError>
        requires { at ≤ length self.old.0 }
        ensures lower { OnOk result (HasRoomFor n (take at self.old.0) self.new) }
        ensures upper { IfOk result (HasRoomFor n (drop at self.old.0)) }
        ensures failed { OnErr result (self.new ≡ self.old) }
    {
        let alloc = *self.entries.allocator();
        let mut lower = vector_for(alloc, at, n)?;
        let mut upper = vector_for(alloc, self.entries.len() - at, n)?;
        let lower_flags = copied_flags(alloc, &self.flags[..at], lower.capacity())?;
        let flags = copied_flags(alloc, &self.flags[at..], upper.capacity())?;
        let entries = mem::replace(&mut self.entries, Vec::new(alloc));
        deal(entries, at, &mut lower, &mut upper);
        self.entries = lower;
        self.showing = count_flagged(&lower_flags);
        self.flags = lower_flags;
        let head = first_head(&upper);
        Ok(Page {
            entries: upper,
            showing: count_flagged(&flags),
            flags,
            last: self.last,
            head,
        })
    }
}

impl<V: Versioned> Page<V> {
    ghost use Rattle.sorted_pages.specs.Summaries.{KeepsSummariesOf};

    // Trims the key's value, where it has one. Does it keep something of this number then?
    pub(crate) fn trim_at(&mut self, key: KeyRef<'_>, numbers: &[u64], number: u64) -> bool
        requires { T (is_sorted (slice_cmp nat_cmp) self.old.0) }
        ensures entries { self.new.0 ≡ changed_at (V.trimmed numbers.now) key.entry.bytes.now self.old.0 }
        ensures room { self.new.1 ≡ self.old.1 }
        ensures left { result ≡ passes (V.has number) (find (slice_cmp nat_cmp) key.entry.bytes.now self.new.0) }
        ensures summaries { KeepsSummariesOf numbers.now V.hides V.shows V.last self.old.0 self.new.0 }
    {
        match self.search(key) {
            Ok(i) => {
                let value = &mut self.entries[i].1;
                value.trim(numbers);
                value.has(number)
            }
            Err(_) => false,
        }
    }
}

// How many values show where one of them did or didn't, and does or doesn't now.
fn recounted(showing: usize, did: bool, does: bool) -> usize
    requires some { did ≡ true → 0 < showing }
    requires few { showing < 2 ^ 64 - 1 }
    ensures { result + (if did then 1 else 0) ≡ showing + (if does then 1 else 0) }
{
    match (did, does) {
        (true, false) => showing - 1,
        (false, true) => showing + 1,
        _ => showing,
    }
}
