//! The table of the sessions that are present, by number.
ghost use Rattle.std.specs.Prelude.{◌≡◌, [], length, Some, IfOk, IfErr, IfNone, OnOk, OnErr, option_copied};
ghost use Rattle.std.specs.Option.{option_copied_mut};
ghost use Rattle.std.specs.Map.{lookup, remove_entry};
ghost use Rattle.std.specs.BTreeMap.{insert_entry, is_at};
ghost use Rattle.std.specs.Ordering.{nat_cmp};
ghost use Rattle.std.specs.Borrow.{sem};
ghost use Rattle.sessions.specs.Places.{IsSessionPlace, IsSessionGap, lends_session, lends_session_if_present};

use crate::session::Session;
use model::Memory;
use std::alloc::Global;
use std::cell::Cell;
use std::marker::Model;

/// Sessions by rising number. A look-up of the session that was found last costs one comparison, any other a binary search.
#[derive(Drop)]
pub(crate) struct Present {
    rows: Vec<(u64, Session)>,
    /// Where a session was found last. Another may stand there now, or none.
    last: Cell<usize>,
}

impl Model for Present {
    ghost use Rattle.std.specs.Prelude.{ℕ, List, T};
    ghost use Rattle.std.specs.FinMap.Entries.{is_sorted};
    ghost use Rattle.std.specs.Ordering.{nat_cmp};
    ghost use Rattle.sessions.specs.SessionStreams.{SessionState};

    ghost Value = { List (ℕ × SessionState) };

    ghost view = { λ p. p.rows.items };

    ghost invariant = { λ p. T (is_sorted nat_cmp p.rows.items) };
}

impl Present {
    /// Nobody. Takes no memory.
    pub(crate) fn new(alloc: Global) -> Present
        ensures { result ≡ [] }
    {
        Present {
            rows: Vec::new(alloc),
            last: Cell::new(0),
        }
    }

    pub(crate) fn len(&self) -> usize
        ensures { result ≡ length self.now }
    {
        self.rows.len()
    }

    /// Where the session's row is, or where it would stand.
    fn search(&self, s: u64) -> Result<usize, usize>
        ensures found { IfOk result (IsSessionPlace self.now s) }
        ensures absent { IfErr result (IsSessionGap self.now s) }
    {
        self.rows.binary_search_by(|row| row.0.cmp(&s))
    }

    /// As `search`, but it looks first at the row that it found last time.
    fn place(&self, s: u64) -> Result<usize, usize>
        ensures found { IfOk result (IsSessionPlace self.now s) }
        ensures absent { IfErr result (IsSessionGap self.now s) }
    {
        let last = self.last.get();
        if let Some(row) = self.rows.get(last) {
            if row.0 == s {
                return Ok(last);
            }
        }
        let found = self.search(s);
        if let Ok(place) = found {
            self.last.set(place);
        }
        found
    }

    /// Lends the session. Takes no memory.
    pub(crate) fn get(&self, s: u64) -> Option<&Session>
        ensures value { option_copied result ≡ lookup (is_at (nat_cmp s)) self.now }
    {
        match self.place(s) {
            Ok(place) => Some(&self.rows[place].1),
            Err(_) => None,
        }
    }

    /// Lends the session at its place for writing.
    fn session_at(&mut self, s: u64, place: usize) -> &mut Session
        requires { IsSessionPlace self.old s place }
        ensures* writes_back { sem 𝓛 (lends_session self.entry s result) }
        ensures value { lookup (is_at (nat_cmp s)) self.old ≡ Some result.now }
    {
        let row = &mut self.rows[place];
        &mut row.1
    }

    /// Lends the session for writing. Takes no memory.
    pub(crate) fn get_mut(&mut self, s: u64) -> Option<&mut Session>
        ensures* writes_back { sem 𝓛 (lends_session_if_present self.entry s result) }
        ensures value { option_copied_mut result ≡ lookup (is_at (nat_cmp s)) self.old }
    {
        match self.place(s) {
            Ok(place) => Some(self.session_at(s, place)),
            Err(_) => None,
        }
    }

    /// A session comes, or takes the place of the one with its number. Takes memory for its row; `Memory` where that is refused, and
    /// nothing has changed then.
    pub(crate) fn insert(&mut self, s: u64, session: Session) -> Result<(), Memory>
        ensures entries { OnOk result (self.new ≡ insert_entry nat_cmp self.old s session) }
        ensures err { OnErr result (self.new ≡ self.old) }
    {
        match self.place(s) {
            Ok(place) => {
                self.rows[place] = (s, session);
                Ok(())
            }
            Err(place) => match self.rows.insert(place, (s, session)) {
                Ok(()) => Ok(()),
                Err(_refused) => Err(Memory),
            },
        }
    }

    /// The session leaves, and is returned. Takes no memory, and frees none but the session's.
    pub(crate) fn remove(&mut self, s: u64) -> Option<Session>
        ensures value { result ≡ lookup (is_at (nat_cmp s)) self.old }
        ensures entries { self.new ≡ remove_entry (is_at (nat_cmp s)) self.old }
        ensures unchanged { IfNone result (self.new ≡ self.old) }
    {
        match self.place(s) {
            Ok(place) => Some(self.rows.remove(place).1),
            Err(_) => None,
        }
    }
}
