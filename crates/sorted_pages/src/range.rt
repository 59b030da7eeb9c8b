//! The entries of a range of which a begin number sees something, borrowed one by one.
ghost use Rattle.std.specs.Prelude.{◌+◌, ◌<◌, ◌^◌, length};

use crate::held::Reader;
use crate::page::Page;
use crate::passing::{behind_first, passed_pages};
use crate::summary::Summary;
use crate::versioned::Versioned;
use model::KeyRef;
use std::alloc::AllocError;

/// The entries of a range of which a number sees something, by rising key, lent one by one. Its calls take no memory.
pub struct Entries<'a, V: Versioned> {
    // the pages that are left, and a place of the first of them: the entries before it aren't
    pub(crate) pages: &'a [Page<V>],
    pub(crate) at: usize,
    // the summaries of the pages
    pub(crate) summaries: &'a [Summary],
    // the upper end, where there is one
    pub(crate) hi: Option<KeyRef<'a>>,
    pub(crate) reader: Reader,
    // how many pages behind the first were looked at
    pub(crate) pages_looked_at: usize,
    ghost counted: { pages_looked_at + length pages.now < 2 ^ 64 },
}

impl<'a, V: Versioned> Clone for Entries<'a, V> {
    ghost use Rattle.std.specs.Prelude.{◌≡◌, ⊤};

    ghost is_clone = { λ x y. y ≡ x };

    ghost is_infallible = { λ _. ⊤ };

    fn clone(&self) -> Result<Self, AllocError> {
        Ok(*self)
    }
}

impl<'a, V: Versioned> Copy for Entries<'a, V> {}

impl<'a, V: Versioned> Entries<'a, V> {
    ghost use Rattle.std.specs.Prelude.{◌≡◌};
    ghost use Rattle.model.specs.Map.{is_below};
    ghost use Rattle.model.specs.KeyBytes.{end_bytes};

    /// How many pages behind the first were looked at so far. Those that are passed over in one step don't count. Takes no memory.
    pub fn pages_looked_at(&self) -> usize
        ensures { result ≡ self.now.pages_looked_at }
    {
        self.pages_looked_at
    }

    // Is the key below the upper end?
    fn is_in(&self, key: KeyRef<'_>) -> bool
        ensures { result ≡ is_below key.entry.bytes.now (end_bytes self.now.hi) }
    {
        match self.hi {
            None => true,
            Some(hi) => key.order(hi).is_lt(),
        }
    }
}

impl<'a, V: Versioned> Iterator for Entries<'a, V> {
    type Item = (KeyRef<'a>, &'a V);

    ghost use Rattle.std.specs.Prelude.{⊤};
    ghost use Rattle.std.specs.Iterator.{MakesProgress, YieldsFirstBy, item_count};
    ghost use Rattle.sorted_pages.specs.Ranges.{GoesOn, entries_left, lent_entry};

    ghost next_gives = { YieldsFirstBy lent_entry (entries_left V.hides) };

    ghost remaining = { item_count (entries_left V.hides) };

    fn next(&mut self) -> Option<(KeyRef<'a>, &'a V)>
        ensures steps { YieldsFirstBy lent_entry (entries_left V.hides) self.old result self.new }
        ensures goes { MakesProgress (λ _. ⊤) (item_count (entries_left V.hides)) self.old result self.new }
        // It looks at no other pages than the first of those that were left to look at, and counts each of them.
        ensures ahead { GoesOn self.old self.new }
    {
        while let Some((page, rest)) = self.pages.split_first() {
            self.at = page.next_seen(self.at, self.reader.number);
            if let Some(entry) = page.entries().get(self.at) {
                let key = entry.0.lend();
                if !self.is_in(key) {
                    return None;
                }
                self.at += 1;
                return Some((key, &entry.1));
            }
            let summaries = behind_first(self.summaries);
            let passed = passed_pages(rest, summaries, self.reader);
            self.pages = &rest[passed..];
            self.summaries = &summaries[passed..];
            self.at = 0;
            // the page that is first now, where there is one
            self.pages_looked_at += self.pages.len().min(1);
        }
        None
    }
}
