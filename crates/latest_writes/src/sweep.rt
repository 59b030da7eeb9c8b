//! Sorts writes by key, and drops those that a later one of the same key has replaced.
ghost use Rattle.std.specs.Prelude.{◌≡◌, ◌-◌, ◌^◌, min, [], OnOk, IfOk};
ghost use Rattle.std.specs.List.Sorted.{IsSortedBy};
ghost use Rattle.model.specs.Map.{after_writes};
ghost use Rattle.latest_writes.specs.Buffered.{weight_of, HasOneOfEach};
ghost use Rattle.latest_writes.specs.Rising.{has_lower_key};

use crate::entries::Entry;
use model::Memory;
use std::alloc::Global;

// Sorts the entries by rising key. Those of one key stay in their order.
pub(crate) fn sort(entries: &mut Vec<Entry>) -> Result<(), Memory>
    ensures same { after_writes [] entries.new.items ≡ after_writes [] entries.old.items }
    ensures rising { OnOk result (IsSortedBy has_lower_key entries.new.items) }
{
    entries.sort_by(|a, b| a.order(b))?;
    Ok(())
}

// Of each key keeps the last write, and of deletions at most the last of all.
pub(crate) fn keep_latest(alloc: Global, entries: Vec<Entry>) -> Result<Vec<Entry>, Memory>
    requires { IsSortedBy has_lower_key entries.items }
    ensures map { IfOk result (λ kept. after_writes [] kept.items ≡ after_writes [] entries.items) }
    ensures one_of_each { IfOk result (λ kept. HasOneOfEach kept.items) }
{
    let mut kept = Vec::new(alloc);
    let mut rest = entries.into_iter();
    let Some(mut latest) = rest.next() else {
        return Ok(kept);
    };
    for entry in rest {
        if !latest.is_superseded(&entry) {
            kept.push(latest)?;
        }
        latest = entry;
    }
    kept.push(latest)?;
    Ok(kept)
}

// About the bytes that the entries take in memory, and `usize::MAX` where these are more.
pub(crate) fn weight_of(entries: &[Entry]) -> usize
    ensures { result ≡ min (weight_of entries.now) (2 ^ 64 - 1) }
{
    let mut weight: usize = 0;
    for entry in entries {
        weight = weight.saturating_add(entry.weight());
    }
    weight
}
