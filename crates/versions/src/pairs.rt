//! The pairs of a range that a begin number sees, borrowed one by one.
use crate::chain::Chain;
use model::KeyRef;
use sorted_pages::Entries;

/// The pairs of a range that one number sees, by rising key. Its calls take no memory.
#[derive(Clone, Copy)]
pub struct Pairs<'a> {
    entries: Entries<'a, Chain>,
    n: u64,
}

impl<'a> Pairs<'a> {
    ghost use Rattle.std.specs.Prelude.{◌≡◌};
    ghost use Rattle.sorted_pages.specs.Ranges.{entries_left, pages_ahead as entries_pages_ahead};
    ghost use Rattle.versions.specs.Chains.{hides, visible};
    ghost use Rattle.versions.specs.Lent.{pages_ahead, pages_looked_at, range_pairs};

    pub(crate) fn new(entries: Entries<'a, Chain>, n: u64) -> Pairs<'a>
        ensures pairs { range_pairs result ≡ visible n (entries_left hides entries.entry) }
        ensures ahead { pages_ahead result ≡ entries_pages_ahead entries.entry }
        ensures looked_at { pages_looked_at result ≡ entries.entry.pages_looked_at }
    {
        Pairs { entries, n }
    }

    /// How many pages behind the first were looked at so far. Those that are passed over in one step don't count. Takes no memory.
    pub fn pages_looked_at(&self) -> usize
        ensures { result ≡ pages_looked_at self.now }
    {
        self.entries.pages_looked_at()
    }
}

impl<'a> Iterator for Pairs<'a> {
    type Item = (KeyRef<'a>, &'a [u8]);

    ghost use Rattle.std.specs.Prelude.{⊤, IfSome};
    ghost use Rattle.std.specs.Iterator.{MakesProgress, YieldsFirstBy, item_count};
    ghost use Rattle.model.specs.Key.{IsValue};
    ghost use Rattle.model.specs.KeyBytes.{pair_bytes};
    ghost use Rattle.versions.specs.Lent.{GoesOn, range_pairs};

    ghost next_gives = { YieldsFirstBy pair_bytes range_pairs };

    ghost remaining = { item_count range_pairs };

    fn next(&mut self) -> Option<(KeyRef<'a>, &'a [u8])>
        ensures steps { YieldsFirstBy pair_bytes range_pairs self.old result self.new }
        ensures goes { MakesProgress (λ _. ⊤) (item_count range_pairs) self.old result self.new }
        // It looks at no other pages than the first of those that were left to look at, and counts each of them.
        ensures ahead { GoesOn self.old self.new }
        // Each value is short.
        ensures short { IfSome result (λ p. IsValue p.1.now) }
    {
        while let Some((key, chain)) = self.entries.next() {
            if let Some(value) = chain.seen(self.n) {
                return Some((key, value));
            }
        }
        None
    }
}
