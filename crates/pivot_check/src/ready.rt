//! Copies of a transaction's written keys, and places for them, made before its record is appended.
ghost use Rattle.std.specs.Prelude.{◌≡◌, ◌≤◌, ◌-◌, length, IfOk, IsTrue};
ghost use Rattle.std.specs.Vec.{vec_len, vec_capacity};
ghost use Rattle.pivot_check.specs.Kept.{keys_of};
ghost use Rattle.pivot_check.specs.Postings.{rise_strictly};

use crate::written::Written;
use model::{Key, Memory, Write};
use snapshot::Transaction;
use std::alloc::Global;

/// What was made ready for the commit of a transaction: copies of its written keys, and places for these.
#[derive(Drop)]
pub(crate) struct Ready {
    pub(crate) keys: Vec<Key>,
    pub(crate) places: Vec<Written>,
    ghost none: { length places.items ≡ 0 },
    ghost room: { length keys.items ≤ vec_capacity places - vec_len places },
    ghost once: { IsTrue (rise_strictly keys.items) },
}

// Copies of the keys of the writes.
fn copy_keys(alloc: Global, writes: &[Write]) -> Result<Vec<Key>, Memory>
    ensures { IfOk result (λ keys. keys.items ≡ keys_of writes.now) }
{
    let mut keys = Vec::with_capacity(alloc, writes.len())?;
    for write in writes {
        keys.push(Key::from_ref(alloc, write.lend_key())?)?;
    }
    Ok(keys)
}

impl Ready {
    // Makes it.
    pub(crate) fn for_commit(alloc: Global, transaction: &Transaction) -> Result<Ready, Memory>
        ensures { IfOk result (λ r. r.keys.items ≡ keys_of transaction.now.writes) }
    {
        let keys = copy_keys(alloc, transaction.entries())?;
        let places = Vec::with_capacity(alloc, keys.len())?;
        Ok(Ready { keys, places })
    }
}
