//! The pairs of a map, borrowed one by one.
ghost use Rattle.std.specs.Prelude.{◌≡◌};
ghost use Rattle.model.specs.Map.{IsInBounds};

use crate::keys::KeyRef;
use crate::pair::Pair;
use std::marker::Model;

/// The pairs of a map by rising key, lent one by one. A clause sees those that are left.
#[derive(Drop)]
pub struct Pairs<'a> {
    rest: &'a [Pair],
}

impl<'a> Model for Pairs<'a> {
    ghost use Rattle.std.specs.Prelude.{ℕ, List};
    ghost use Rattle.model.specs.Map.{IsInBounds};

    ghost Value = { List (List ℕ × List ℕ) };

    ghost view = { λ p. p.rest.now };

    ghost invariant = { λ p. IsInBounds p.rest.now };
}

impl<'a> Pairs<'a> {
    // An iterator over these pairs of a map.
    pub(crate) fn new(rest: &'a [Pair]) -> Pairs<'a>
        requires { IsInBounds rest.now }
        ensures { result ≡ rest.entry.now }
    {
        Pairs { rest }
    }
}

impl<'a> Iterator for Pairs<'a> {
    type Item = (KeyRef<'a>, &'a [u8]);

    ghost use Rattle.std.specs.Iterator.{YieldsFirstBy, item_count};
    ghost use Rattle.model.specs.KeyBytes.{pair_bytes};

    ghost next_gives = { YieldsFirstBy pair_bytes (λ p. p) };

    ghost remaining = { item_count (λ p. p) };

    /// The pair of the next key, or `None` after the last. Takes no memory.
    fn next(&mut self) -> Option<(KeyRef<'a>, &'a [u8])> {
        match self.rest.split_first() {
            Some((pair, rest)) => {
                self.rest = rest;
                Some((pair.lend_key(), pair.value()))
            }
            None => None,
        }
    }
}
