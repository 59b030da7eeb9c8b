//! A sorted run: the last readers among consecutive commits, as steps by rising key.
ghost use Rattle.std.specs.Prelude.{◌≡◌, ◌≤◌, ◌+◌, ◌-◌, ◌++◌, IsTrue, length};
ghost use Rattle.model.specs.Map.{Bytes};
ghost use Rattle.last_readers.specs.Steps.{AreNumbered, are_from, steps_rise, merged_at};

use crate::steps::{Steps, number_from};
use model::KeyRef;

/// The keys that a commit read that has no number yet: 1 stands for it.
#[derive(Drop)]
pub(crate) struct Ready {
    pub(crate) steps: Steps,
    ghost rising: { IsTrue (steps_rise steps.items) },
}

/// For each key the number of its last reader among commits that came one after another, a number that none is above, and one that none is
/// below. It is at rest, with all its steps in `made`, or is being made of two runs. Then it has places for what is left of them. Once it
/// is made, the memory of the two is released in parts. When it is freed, its memory is released in parts with its steps.
#[derive(Drop)]
pub(crate) struct ReadRun {
    pub(crate) last: u64,
    // a number that none of its numbers is below
    pub(crate) earliest: u64,
    // what is left of the two runs that it is made of
    pub(crate) first: Steps,
    pub(crate) second: Steps,
    // what was made of their ends
    pub(crate) made: Steps,
    // for how many steps of the longer of the two the memory is still to be released
    pub(crate) room: usize,
    ghost first_rises: { IsTrue (steps_rise (first.items ++ made.items)) },
    ghost second_rises: { IsTrue (steps_rise (second.items ++ made.items)) },
    ghost places: { length first.items + length second.items ≤ made.capacity - length made.items },
    ghost upto: { (k : Bytes) → merged_at first.items second.items made.items k ≤ last },
    ghost numbers: { IsTrue (are_from earliest first.items second.items made.items) },
}

impl ReadRun {
    // What was made ready, read by the commit with this number.
    pub(crate) fn numbered(ready: Ready, number: u64) -> ReadRun
        ensures numbers { AreNumbered number result.first.items result.second.items result.made.items
            ready.steps.items }
        ensures last { result.last ≡ number }
        ensures left { length result.first.items + length result.second.items ≡ 0 }
        ensures made { length result.made.items ≡ length ready.steps.items }
        ensures room { result.room ≡ 0 }
    {
        let Ready { steps: mut made } = ready;
        made.renumber(number);
        let alloc = made.allocator();
        ReadRun {
            last: number,
            earliest: number,
            first: Steps::new(alloc),
            second: Steps::new(alloc),
            made,
            room: 0,
        }
    }

    // The number at the key. A binary search, and three while it is being made of two.
    pub(crate) fn number(&self, key: KeyRef<'_>) -> u64
        ensures { result
            ≡ merged_at self.now.first.items self.now.second.items self.now.made.items key.entry.bytes.now }
    {
        let below = number_from(&self.first, 0, key).max(number_from(&self.second, 0, key));
        number_from(&self.made, below, key)
    }
}
