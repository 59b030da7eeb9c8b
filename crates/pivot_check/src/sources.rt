//! The last concurrent reader of the keys that a transaction wrote: the last source of a dependency on it.
ghost use Rattle.std.specs.Prelude.{◌≡◌};
ghost use Rattle.last_readers.specs.Readers.{last_reader};
ghost use Rattle.pivot_check.specs.Kept.{greater, keys_of, last_source};

use last_readers::LastReaders;
use model::Write;

// The greater of two numbers that may be there.
fn greater_of(found: Option<u64>, other: Option<u64>) -> Option<u64>
    ensures { result ≡ greater found other }
{
    match (found, other) {
        (None, _) => other,
        (Some(_), None) => found,
        (Some(n), Some(m)) => Some(n.max(m)),
    }
}

// The commit number of the last that has read a key of these writes, where it is above `begin`. A look-up for each key.
pub(crate) fn last_source(readers: &LastReaders, writes: &[Write], begin: u64) -> Option<u64>
    ensures { result ≡ last_source (last_reader readers.now.readers) begin (keys_of writes.now) }
{
    let mut source = None;
    for write in writes {
        source = greater_of(source, readers.last(write.lend_key(), begin));
    }
    source
}
