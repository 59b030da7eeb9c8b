//! The writes of a log, which are collected while it is read and then made into a map.
ghost use Rattle.std.specs.Prelude.{◌≡◌, ◌<◌, ◌≤◌, ◌/◌, [], reverse, length, vec_capacity, IfOk, IfSome};
ghost use Rattle.model.specs.Key.{IsValue};
ghost use Rattle.model.specs.Map.{after_write, after_writes};

use crate::entries::Entry;
use crate::sweep::{keep_latest, sort, weight_of};
use model::{Map, Memory, Write};
use std::alloc::Global;
use std::marker::Model;

/// About as many bytes are taken before writes are left out for the first time.
const LEAST_LIMIT: usize = 1 << 23;

/// The writes of a log, which make a map. A clause sees the map.
///
/// What is buffered weighs at most twice what was kept when writes were last left out, with one of each key then, or `LEAST_LIMIT` (8 MiB),
/// where that is more (`IsBuffered`).
#[derive(Drop)]
pub struct LatestWrites {
    entries: Vec<Entry>,
    /// About the bytes that the entries take in memory.
    weight: usize,
    /// The weight from which on those are left out that others have replaced.
    limit: usize,
}

impl Model for LatestWrites {
    ghost use Rattle.std.specs.Prelude.{[]};
    ghost use Rattle.model.specs.Map.{KeyMap, after_writes};
    ghost use Rattle.latest_writes.specs.Buffered.{IsBuffered};

    ghost Value = { KeyMap };

    ghost view = { λ l. after_writes [] l.entries.items };

    ghost invariant = { λ l. IsBuffered l.entries.items l.weight l.limit };
}

impl LatestWrites {
    /// No writes. Takes no memory.
    pub fn new(alloc: Global) -> LatestWrites
        ensures { result ≡ [] }
    {
        LatestWrites {
            entries: Vec::new(alloc),
            weight: 0,
            limit: LEAST_LIMIT,
        }
    }

    /// Adds a write behind the others. Where memory is refused it answers `Memory`, and the writes are given up.
    pub fn write(self, alloc: Global, write: Write) -> Result<LatestWrites, Memory>
        requires { IfSome write.1 IsValue }
        ensures { IfOk result (λ latest. latest ≡ after_write self write.0 write.1) }
    {
        let entry = Entry::new(write);
        let weight = self.weight.saturating_add(entry.weight());
        let limit = self.limit;
        let mut entries = self.entries;
        entries.push(entry)?;
        if weight < limit {
            return Ok(LatestWrites {
                entries,
                weight,
                limit,
            });
        }
        sweep(alloc, entries)
    }

    /// The map that the writes make. Sorting takes room for as many entries again for a while, unless their keys rise already. Then each
    /// write is let go as the map takes it up, and the entries' room is freed by halves. `Memory` where memory is refused, and the writes
    /// are given up.
    pub fn into_map(self, alloc: Global) -> Result<Map, Memory>
        ensures { IfOk result (λ map. map ≡ self) }
    {
        let mut entries = self.entries;
        sort(&mut entries)?;
        entries.reverse();
        put_all(alloc, entries)
    }
}

// Leaves out the writes that others have replaced.
fn sweep(alloc: Global, mut entries: Vec<Entry>) -> Result<LatestWrites, Memory>
    ensures { IfOk result (λ latest. latest ≡ after_writes [] entries.items) }
{
    sort(&mut entries)?;
    let kept = keep_latest(alloc, entries)?;
    let weight = weight_of(&kept);
    Ok(LatestWrites {
        entries: kept,
        weight,
        limit: weight.saturating_mul(2).max(LEAST_LIMIT),
    })
}

// Gives the room of entries back, where no more than half of it is used.
fn free_last(entries: &mut Vec<Entry>)
    ensures items { entries.new.items ≡ entries.old.items }
    ensures less { vec_capacity entries.new ≤ vec_capacity entries.old }
    ensures none { length entries.old.items ≡ 0 → vec_capacity entries.new ≡ 0 }
    ensures rare { vec_capacity entries.old / 2 < length entries.old.items → entries.new ≡ entries.old }
{
    if entries.len() <= entries.capacity() / 2 {
        entries.shrink_to_fit();
    }
}

// Puts the writes into an empty map, from the last to the first. Their keys rise then, so that each comes to the map's end.
fn put_all(alloc: Global, mut rest: Vec<Entry>) -> Result<Map, Memory>
    ensures { IfOk result (λ map. map ≡ after_writes [] (reverse rest.items)) }
{
    let mut map = Map::new(alloc);
    while let Some(entry) = rest.pop() {
        entry.apply(&mut map)?;
        free_last(&mut rest);
    }
    Ok(map)
}
