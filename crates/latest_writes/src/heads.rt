//! The first 16 bytes of a key as two numbers.
ghost use Rattle.std.specs.Prelude.{◌≡◌, ◌<◌, length, drop};
ghost use Rattle.model.specs.FirstBytes.{AreBytes, first_bytes};

use byteorder::{BigEndian, ByteOrder};

// The number of the first 8 bytes, the highest first, with zeros in the place of bytes that are not there.
fn number(bytes: &[u8]) -> u64
    ensures { result ≡ first_bytes 8 bytes.now }
{
    if bytes.len() >= 8 {
        return BigEndian::read_u64(bytes);
    }
    let mut padded = [0; 8];
    padded[..bytes.len()].copy_from_slice(bytes);
    BigEndian::read_u64(&padded)
}

/// The numbers of the first 8 bytes and of the next 8. Takes no memory.
pub(crate) fn head_of(bytes: &[u8]) -> (u64, u64)
    ensures heads { result ≡ (first_bytes 8 bytes.now, first_bytes 8 (drop 8 bytes.now)) }
    ensures bytes { AreBytes bytes.now }
{
    if bytes.len() < 8 {
        return (number(bytes), 0);
    }
    (number(bytes), number(&bytes[8..]))
}
