//! Merges a transaction's own writes over the visible pairs, by rising key.
ghost use Rattle.std.specs.Option.{ForSome};
ghost use Rattle.model.specs.Key.{IsValue};

use model::{KeyRef, Write};
use std::cmp::Ordering;
use versions::Pairs;

// The pairs with the writes over them, by rising key. Its calls take no memory, and each pair is looked for once, however many writes
// stand before it.
#[derive(Clone, Copy)]
pub(crate) struct MergedPairs<'a> {
    writes: &'a [Write],
    pairs: Pairs<'a>,
    // the pair that stands before the others, where it was looked at and isn't given yet
    ahead: Option<(KeyRef<'a>, &'a [u8])>,
    ghost short: { ForSome ahead (λ p. IsValue p.1.now) },
}

impl<'a> MergedPairs<'a> {
    ghost use Rattle.std.specs.Prelude.{◌≡◌, [], None};
    ghost use Rattle.versions.specs.Lent.{GoesOn, pages_looked_at, range_pairs};
    ghost use Rattle.snapshot.specs.Merged.{merged};
    ghost use Rattle.snapshot.specs.Ahead.{merged_pairs, with_ahead};

    pub(crate) fn new(writes: &'a [Write], pairs: Pairs<'a>) -> MergedPairs<'a>
        ensures { merged_pairs result ≡ merged writes.now (range_pairs pairs.entry) }
    {
        MergedPairs {
            writes,
            pairs,
            ahead: None,
        }
    }

    // How many pages of keys behind the first of the range were looked at so far.
    pub(crate) fn pages_looked_at(&self) -> usize
        ensures { result ≡ pages_looked_at self.now.pairs }
    {
        self.pairs.pages_looked_at()
    }

    // Looks at the first of the pairs, unless that is done. A copy made from now on need not look for it.
    pub(crate) fn look(&mut self)
        ensures writes { self.new.writes ≡ self.old.writes }
        ensures pairs { with_ahead self.new.ahead (range_pairs self.new.pairs)
            ≡ with_ahead self.old.ahead (range_pairs self.old.pairs) }
        ensures none { self.new.ahead ≡ None → range_pairs self.new.pairs ≡ [] }
        ensures counts { GoesOn self.old.pairs self.new.pairs }
    {
        if self.ahead.is_none() {
            self.ahead = self.pairs.next();
        }
    }
}

impl<'a> Iterator for MergedPairs<'a> {
    type Item = (KeyRef<'a>, &'a [u8]);

    ghost use Rattle.std.specs.Prelude.{⊤, IfSome};
    ghost use Rattle.std.specs.Iterator.{MakesProgress, YieldsFirstBy, item_count};
    ghost use Rattle.model.specs.Key.{IsValue};
    ghost use Rattle.model.specs.KeyBytes.{pair_bytes};
    ghost use Rattle.versions.specs.Lent.{GoesOn};
    ghost use Rattle.snapshot.specs.Ahead.{merged_pairs};

    ghost next_gives = { YieldsFirstBy pair_bytes merged_pairs };

    ghost remaining = { item_count merged_pairs };

    // A deletion hides the pair of its key.
    fn next(&mut self) -> Option<(KeyRef<'a>, &'a [u8])>
        ensures steps { YieldsFirstBy pair_bytes merged_pairs self.old result self.new }
        ensures goes { MakesProgress (λ _. ⊤) (item_count merged_pairs) self.old result self.new }
        // It counts the pages that it goes on to.
        ensures counts { GoesOn self.old.pairs self.new.pairs }
        // Each value is short.
        ensures short { IfSome result (λ p. IsValue p.1.now) }
    {
        while let Some((first, rest)) = self.writes.split_first() {
            self.look();
            if let Some((key, value)) = self.ahead {
                match first.lend_key().order(key) {
                    Ordering::Greater => {
                        self.ahead = None;
                        return Some((key, value));
                    }
                    Ordering::Equal => self.ahead = None,
                    Ordering::Less => {}
                }
            }
            self.writes = rest;
            if let Some(value) = first.value() {
                return Some((first.lend_key(), value));
            }
        }
        match self.ahead.take() {
            Some(pair) => Some(pair),
            None => self.pairs.next(),
        }
    }
}
