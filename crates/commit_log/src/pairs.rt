//! Encodes records that put the pairs of a map, in one buffer that has room for each.
ghost use Rattle.std.specs.Prelude.{◌≡◌, ◌≤◌, ◌+◌, ◌*◌, ◌++◌, take, drop, vec_len, vec_capacity};
ghost use Rattle.std.specs.List.{flat_map};
ghost use Rattle.model.specs.Bounds.{value_max, payload_bound, body_bound};
ghost use Rattle.model.specs.Machine.{payload_size};
ghost use Rattle.sector.specs.declared.device.TheConstants.{SECTOR_SIZE};
ghost use Rattle.commit_log.specs.declared.copying.TheConstants.{PUTS_MAX};
ghost use Rattle.commit_log.specs.RecordFormat.{entry_bytes};
ghost use Rattle.commit_log.specs.Copying.{HasNext, IsBodyOf, puts};

use crate::encode::{add_entry, begin, end, entry_len};
use model::Pairs;

/// How many bytes the payload of a record has that puts the next `count` pairs, which it passes over.
pub fn next_payload_len(pairs: &mut Pairs<'_>, count: u32) -> u32
    requires count { count ≤ PUTS_MAX }
    requires next { HasNext count pairs.old }
    ensures len { result ≡ payload_size (puts (take count pairs.old)) }
    ensures rest { pairs.new ≡ drop count pairs.old }
    ensures bound { result ≤ payload_bound value_max }
{
    let mut len = 4;
    for i in 0..count {
        let Some((key, value)) = pairs.next() else {
            unreachable!()
        };
        len += entry_len(key, Some(value));
    }
    len
}

/// Adds the entries that put the next `count` pairs, which it passes over.
fn add_pairs(body: &mut Vec<u8>, pairs: &mut Pairs<'_>, count: u32)
    requires next { HasNext count pairs.old }
    requires room { vec_len body.old + payload_size (puts (take count pairs.old)) ≤ vec_capacity body.old + 4 }
    ensures items { body.new.items ≡ body.old.items ++ flat_map entry_bytes (puts (take count pairs.old)) }
    ensures rest { pairs.new ≡ drop count pairs.old }
    ensures capacity { vec_capacity body.old ≤ vec_capacity body.new }
{
    for i in 0..count {
        let Some((key, value)) = pairs.next() else {
            unreachable!()
        };
        add_entry(body, key, Some(value));
    }
}

/// Makes a buffer the body of the record with this index, behind the one with that digest, that puts the next `count` pairs. It passes
/// over them and answers the record's digest. `len` is how many bytes its payload has, and the buffer has room for the body.
pub fn encode_pairs(
    body: &mut Vec<u8>,
    pairs: &mut Pairs<'_>,
    count: u32,
    len: u32,
    before: &[u8; 32],
    index: u64,
) -> [u8; 32]
    requires next { HasNext count pairs.old }
    requires len { len ≡ payload_size (puts (take count pairs.old)) }
    requires bound { len ≤ payload_bound value_max }
    requires room { SECTOR_SIZE * body_bound value_max ≤ vec_capacity body.old }
    ensures encoded { IsBodyOf before.now index (puts (take count pairs.old)) body.new.items result }
    ensures rest { pairs.new ≡ drop count pairs.old }
    ensures capacity { vec_capacity body.old ≤ vec_capacity body.new }
{
    begin(body, len, index, count);
    add_pairs(body, pairs, count);
    end(body, before, index, len)
}
