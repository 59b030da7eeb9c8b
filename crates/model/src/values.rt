//! The most bytes of a value, the most pairs of a RANGE, and what follows: the most bytes of a part, of a request and of a reply.

use crate::keys::KEY_MAX;

/// The most bytes of a value, which may also have none.
pub const VALUE_MAX: usize = 16_384;

/// The digits of the number of bytes of the longest value.
const VALUE_DIGITS: usize = 5;

/// The most bytes of a part of a request, as a bulk string: `$`, its length, the line's end, the bytes, the line's end.
pub const PART_MAX: usize = 1 + VALUE_DIGITS + 2 + VALUE_MAX + 2;

/// The most bytes of a request: `*`, a digit, the line's end, and four parts.
pub const FRAME_MAX: usize = 1 + 1 + 2 + 4 * PART_MAX;

/// The most pairs that a RANGE may ask for.
pub const PAIRS_MAX: usize = 128;

/// The most bytes of a reply to RANGE: `*`, three digits, the line's end, and the most pairs, each of the longest key and value.
pub const RANGE_REPLY_MAX: usize = 1 + 3 + 2 + PAIRS_MAX * (1 + 3 + 2 + KEY_MAX + 2 + PART_MAX);
