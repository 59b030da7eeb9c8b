//! The first 16 bytes of a key as one number: where those of two keys differ, the keys stand as they do.
ghost use Rattle.std.specs.Prelude.{◌≡◌, ◌<◌};
ghost use Rattle.sorted_pages.specs.Heads.{IsFirstHead, IsHeadOf};

use byteorder::{BigEndian, ByteOrder};
use model::{Key, KeyRef};

// The bytes that a head is made of.
const HEAD_SIZE: usize = 16;

// The number of the first 16 bytes, the highest first, with zeros in the place of bytes that are not there.
fn head_of(bytes: &[u8]) -> u128
    ensures { IsHeadOf bytes.now result }
{
    if bytes.len() >= HEAD_SIZE {
        return BigEndian::read_u128(bytes);
    }
    let mut padded = [0; HEAD_SIZE];
    padded[..bytes.len()].copy_from_slice(bytes);
    BigEndian::read_u128(&padded)
}

// The head of the first of the entries' keys, and 0 where there is none.
pub(crate) fn first_head<V>(entries: &[(Key, V)]) -> u128
    ensures { IsFirstHead entries.now result }
{
    match entries.first() {
        None => 0,
        Some(entry) => head_of(entry.0.lend().bytes()),
    }
}

// The head of the first of the entries' keys, of which the one at `i` is new. Before it came the head was this one.
pub(crate) fn renewed_head<V>(entries: &[(Key, V)], i: usize, head: u128) -> u128
    requires { 0 < i → IsFirstHead entries.now head }
    ensures { IsFirstHead entries.now result }
{
    if i == 0 { first_head(entries) } else { head }
}

// A key that is sought, with its head.
#[derive(Clone, Copy)]
pub(crate) struct SoughtKey<'a> {
    pub(crate) key: KeyRef<'a>,
    pub(crate) head: u128,
    ghost is: { IsHeadOf key.bytes.now head },
}

impl<'a> SoughtKey<'a> {
    pub(crate) fn new(key: KeyRef<'a>) -> SoughtKey<'a>
        ensures { result.key.bytes.now ≡ key.entry.bytes.now }
    {
        SoughtKey {
            key,
            head: head_of(key.bytes()),
        }
    }
}
