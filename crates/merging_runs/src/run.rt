//! The trait of a run: what it offers so that it can be merged, freed and swept, and its laws.
ghost use Rattle.std.specs.Prelude.{◌≡◌, ◌≤◌, ◌<◌, ◌+◌, ◌-◌, ◌^◌, ◌++◌, ◌&&◌, ◌||◌, ℕ, Bool, true, false, List, []};
ghost use Rattle.std.specs.Prelude.{◌∷◌, min, nat_le, IfSome, ⊤};
ghost use Rattle.merging_runs.specs.Next.{IsNext};
ghost use Rattle.merging_runs.specs.RunSizes.{IsMerged, IsReleased, IsSwept, RunSize, is_finished, joined, with_room};

use crate::free_part::FreePart;
use std::alloc::Global;

/// A run of elements with numbers. It is at rest, or is being made of two runs, element by element.
pub trait Run: Drop {
    /// Places for the elements of a run that is made of two.
    type Places: Drop;

    /// What is left of it while it is freed.
    type Stale: FreePart;

    /// What says who may still ask.
    type Active;

    /// How far it is merged.
    ghost sizes: { Self → RunSize };

    /// How many elements it holds.
    ghost elements: { Self → ℕ };

    /// A number that none of its numbers is below.
    ghost from: { Self → ℕ };

    /// All that it holds has a number above that one, or none.
    ghost above: { ℕ → Self → Type 0 };

    /// Whether an element of it has that number.
    ghost has: { Self → ℕ → Bool };

    /// For how many elements the two that it is made of have room.
    ghost capacity: { Self → ℕ };

    /// There are places for so many elements.
    ghost fit: { ℕ → Self.Places → Type 0 };

    /// How many elements a move takes at most.
    ghost each: { ℕ };

    /// The numbers at which those began who may still ask.
    ghost begin_numbers: { Self.Active → List ℕ };

    /// What a move may make of a run, where those may still ask, and nothing is asked of the numbers up to that one.
    ghost makes: { Self.Active → ℕ → Self → Self → Type 0 } = { λ _ _ _ _. ⊤ };

    /// The number from which on all may ask.
    ghost since: { Self.Active → ℕ } = { λ _. 0 };

    /// What holds of a run where those may still ask, while it is merged, released and swept.
    ghost holds: { Self.Active → Self → Type 0 } = { λ _ _. ⊤ };

    /// Whether one who began at that number may still ask.
    ghost asks: { Self.Active → ℕ → Bool };

    /// Runs answer as others do, whoever asks that began at a number of these.
    ghost agree: { (ℕ → Bool) → List Self → List Self → Type 0 };

    /// A number that none of its numbers is above. Takes no memory.
    fn last(&self) -> u64
        ensures { result ≡ (sizes self.now).last };

    /// A number that none of its numbers is below. Takes no memory.
    fn earliest(&self) -> u64
        ensures { result ≡ from self.now };

    /// How many elements it holds, and one more: 2^64 - 1 where there were more. Takes no memory.
    fn size(&self) -> usize
        ensures { result ≡ min (elements self.now + 1) (2 ^ 64 - 1) };

    /// The number above `n` that was found, or the least above `n` that one of its elements has, where that is less. It looks at each
    /// element, and takes no memory.
    fn next_number(&self, found: Option<u64>, n: u64) -> Option<u64>
        ensures { (p : ℕ → Bool) → IsNext p n found → IsNext (λ k. p k || has self.now k) n result };

    /// How many elements were made. Takes no memory.
    fn made(&self) -> usize
        ensures { result ≡ (sizes self.now).made };

    /// For how many elements the memory of the longer of the two that it was made of is still to be released. Takes no memory.
    fn room(&self) -> usize
        ensures { result ≡ (sizes self.now).room };

    /// The numbers at which those began who may still ask. Takes no memory.
    fn begin_numbers(active: &Self::Active) -> &[u64]
        ensures { result.now ≡ begin_numbers active.now };

    /// Places for the elements of both, `None` where memory is refused.
    fn places_for(alloc: Global, first: &Self, second: &Self) -> Option<Self::Places>
        ensures { IfSome result (fit ((sizes first.now).made + (sizes second.now).made)) };

    /// Begins to make one run of this and a later one, in the places that were made for it. Both are finished: nothing is left to move, and
    /// no memory is still to be released. Takes no memory.
    fn join(&mut self, second: Self, places: Self::Places)
        requires first { is_finished (sizes self.old) ≡ true }
        requires second { is_finished (sizes second) ≡ true }
        requires places { fit ((sizes self.old).made + (sizes second).made) places }
        ensures sizes { sizes self.new ≡ joined (sizes self.old) (sizes second) }
        ensures agree { (begins : ℕ → Bool) → agree begins (self.new ∷ []) (self.old ∷ second ∷ []) }
        ensures from { min (from self.old) (from second) ≤ from self.new }
        ensures holds { (active : Self.Active) → (sizes self.old).last ≤ since active
            → (sizes second).last ≤ since active → (sizes self.old).last ≤ from second
            → holds active self.old → holds active second → holds active self.new };

    /// Is it not being made of two? Takes no memory.
    fn is_at_rest(&self) -> bool
        ensures rest { result ≡ true → (sizes self.now).left ≡ 0 }
        ensures under_way { result ≡ false → 0 < (sizes self.now).left };

    /// Moves an element of the two, or more of one key. It may drop what none who may still ask is answered by. Takes no memory.
    fn move_one(&mut self, oldest: u64, active: &Self::Active)
        requires late { oldest < (sizes self.old).last }
        requires some { 0 < (sizes self.old).left }
        ensures makes { makes active.now oldest self.old self.new }
        ensures agree { agree (λ b. nat_le oldest b && asks active.now b) (self.new ∷ []) (self.old ∷ []) }
        ensures merged { IsMerged each 1 (sizes self.old) (sizes self.new) }
        ensures from { from self.old ≤ from self.new }
        ensures holds { holds active.now self.old → holds active.now self.new };

    /// Releases memory of the two, for so many elements of the longer one, once nothing is left to move. So no call returns all of it to
    /// the system, which would take long. It changes nothing else.
    fn release(&mut self, most: usize)
        requires rest { (sizes self.old).left ≡ 0 }
        ensures sizes { sizes self.new ≡ with_room ((sizes self.old).room - most) (sizes self.old) }
        ensures agree { (begins : ℕ → Bool) → agree begins (self.new ∷ []) (self.old ∷ []) }
        ensures makes { (active : Self.Active) (oldest : ℕ) → makes active oldest self.old self.new }
        ensures released { IsReleased (sizes self.new).room (capacity self.old) (capacity self.new) }
        ensures from { from self.new ≡ from self.old }
        ensures holds { (active : Self.Active) → holds active self.old → holds active self.new };

    /// Drops what has a number up to `oldest`. It looks at each element that it holds, and takes no memory.
    fn sweep(&mut self, oldest: u64)
        requires late { oldest < (sizes self.old).last }
        ensures from { oldest < from self.new }
        ensures rises { from self.old ≤ from self.new }
        ensures agree { agree (nat_le oldest) (self.new ∷ []) (self.old ∷ []) }
        ensures swept { IsSwept (sizes self.old) (sizes self.new) }
        ensures fewer { elements self.new ≤ elements self.old }
        ensures holds { (active : Self.Active) → holds active self.old → holds active self.new };

    /// What there is to free of it. Takes no memory.
    fn into_stale(self) -> Self::Stale
        ensures { elements self ≡ Self.Stale.left result };

    /// Runs answer as they do.
    ghost same: { (begins : ℕ → Bool) (rs : List Self) → agree begins rs rs };

    /// They answer as what answers as they do.
    ghost through: { (begins : ℕ → Bool) (xs ys zs : List Self) → agree begins xs ys → agree begins ys zs
        → agree begins xs zs };

    /// So they do between others.
    ghost between: { (begins : ℕ → Bool) (front xs ys rest : List Self) → agree begins xs ys
        → agree begins (front ++ (xs ++ rest)) (front ++ (ys ++ rest)) };

    /// A run without a number above that one answers as none, whoever asks that didn't begin before it.
    ghost old: { (o : ℕ) (r : Self) → (sizes r).last ≤ o → agree (nat_le o) [] (r ∷ []) };

    /// A run whose numbers are all from one on that is above that number holds nothing up to it.
    ghost later: { (o : ℕ) (r : Self) → o < from r → above o r };
}
