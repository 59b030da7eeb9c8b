//! A block of memory that is asked for again at the end of turns.
//!
//! The C library (glibc) joins its small free blocks where it is asked for 1,024 bytes or more (`malloc_consolidate`), and then sorts what
//! it has joined, until it meets a block of just the size that is asked for. So each turn before or after which garbage is left has it
//! join what its own step freed, and one of a few others what their requests did; and no request pays for many. A block of the size of
//! one that was freed before would be met at once, and all else left for a request to sort. So each is of another size than the last two.
ghost use Rattle.std.specs.Prelude.{◌≡◌, ◌-◌, ◌≤◌, IfSome, cond, true, vec_capacity};
ghost use Rattle.event_loop.specs.Spares.{asks_again, size_behind};
ghost use Rattle.event_loop.specs.declared.spare.TheConstants.{SPARE_MIN, SPARE_TURNS};

use std::alloc::Global;

/// The least size of such a block, in bytes.
pub(crate) const SPARE_MIN: usize = 2_040;

/// The greatest. There is one more between them.
pub(crate) const SPARE_MAX: usize = 4_088;

/// How far the sizes are apart.
pub(crate) const SPARE_STEP: usize = 1_024;

/// Of so many turns before and after which no garbage is left one asks for a block.
pub(crate) const SPARE_TURNS: u8 = 8;

/// The block that was asked for last, if it was given, and its size.
#[derive(Drop)]
pub struct Spare {
    block: Option<Vec<u8>>,
    size: usize,
    /// How many more turns may pass in which none is asked for.
    rests: u8,
}

// The size behind this one: the next of three, round.
fn size_behind(size: usize) -> usize
    ensures { result ≡ size_behind size }
{
    if size < SPARE_MAX {
        size.saturating_add(SPARE_STEP)
    } else {
        SPARE_MIN
    }
}

impl Spare {
    /// No block. Takes no memory.
    pub(crate) fn none() -> Spare
        ensures { (result.size ≡ SPARE_MIN) × (result.rests ≡ 0) }
    {
        Spare {
            block: None,
            size: SPARE_MIN,
            rests: 0,
        }
    }

    /// A turn ends. Where garbage was left before it or is after it, or none was asked for in `SPARE_TURNS - 1` turns, it asks for a block
    /// in place of the last, of another size. A refusal changes nothing.
    pub(crate) fn end_turn(&mut self, alloc: Global, garbage_left: bool)
        ensures size { self.new.size
            ≡ cond (asks_again garbage_left self.old.rests) (size_behind self.old.size) self.old.size }
        ensures rests { self.new.rests
            ≡ cond (asks_again garbage_left self.old.rests) (SPARE_TURNS - 1) (self.old.rests - 1) }
        ensures block { asks_again garbage_left self.old.rests ≡ true
            → IfSome self.new.block (λ b. self.new.size ≤ vec_capacity b) }
    {
        if !garbage_left && self.rests > 0 {
            self.rests -= 1;
            return;
        }
        self.rests = SPARE_TURNS - 1;
        self.size = size_behind(self.size);
        self.block = Vec::with_capacity(alloc, self.size).ok();
    }
}
