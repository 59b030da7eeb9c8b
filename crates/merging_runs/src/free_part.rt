//! Frees elements in bounded steps, since each may have memory of its own.
ghost use Rattle.std.specs.Prelude.{◌≡◌, ◌≤◌, ◌<◌, ◌+◌, ℕ};
ghost use Rattle.std.specs.Vec.{vec_len};

/// Elements of which nothing is asked any more. Each may have memory of its own, so that they aren't dropped at once.
pub trait FreePart: Drop {
    /// How many are left.
    ghost left: { Self → ℕ };

    /// Drops so many at most: how many more may be dropped, which are none while one is left. Takes no memory.
    fn free_part(&mut self, most: usize) -> usize
        ensures most { result ≤ most }
        ensures left { left self.old + result ≡ left self.new + most }
        ensures ended { 0 < result → left self.new ≡ 0 };
}

impl<T: Drop> FreePart for Vec<T> {
    ghost left = { vec_len };

    // The memory is released with the elements: that of many at once would take the system long.
    fn free_part(&mut self, most: usize) -> usize {
        let count = self.len().min(most);
        self.truncate(self.len() - count);
        self.shrink_to_fit();
        most - count
    }
}

// what is left of the two runs that one is made of, and what was made of them
impl<L: FreePart> FreePart for (L, L, L) {
    ghost left = { λ parts. L.left parts.0 + L.left parts.1 + L.left parts.2 };

    fn free_part(&mut self, most: usize) -> usize {
        let more = self.0.free_part(most);
        let still_more = self.1.free_part(more);
        self.2.free_part(still_more)
    }
}
