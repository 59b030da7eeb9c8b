//! The two formats of the log: their heads and their limits.
ghost use Rattle.std.specs.Prelude.{◌≡◌};
ghost use Rattle.model.specs.Bounds.{body_bound};
ghost use Rattle.commit_log.specs.Format.{value_bound, version_byte, format_number};

use crate::encode::sectors_for;
use model::{KEY_MAX, VALUE_MAX};

/// A format of the log. The formats differ in the head, in the most bytes of a value, and so in the most sectors of a record's body.
#[derive(Clone, Copy, Debug, PartialEq, Eq)]
pub enum LogFormat {
    /// The head is `SSIKVLG1`, and a value has at most 4,096 bytes.
    One,
    /// The head is `SSIKVLG2`, and a value has at most 16,384 bytes.
    Two,
}

/// The format that is written.
pub const CURRENT: LogFormat = LogFormat::Two;

impl LogFormat {
    /// The last byte of the head, a digit.
    pub(crate) fn version(self) -> u8
        ensures { result ≡ version_byte self }
    {
        match self {
            LogFormat::One => b'1',
            LogFormat::Two => b'2',
        }
    }

    /// Its number, 1 or 2.
    pub(crate) fn number(self) -> u8
        ensures { result ≡ format_number self }
    {
        match self {
            LogFormat::One => 1,
            LogFormat::Two => 2,
        }
    }

    /// The most bytes of a value.
    pub(crate) fn value_max(self) -> usize
        ensures { result ≡ value_bound self }
    {
        match self {
            LogFormat::One => 4_096,
            LogFormat::Two => VALUE_MAX,
        }
    }

    /// The most sectors of a record's body: that of 64 of the longest entries, behind their count.
    pub(crate) fn body_max(self) -> u64
        ensures { result ≡ body_bound (value_bound self) }
    {
        sectors_for((4 + 64 * (2 + KEY_MAX + 1 + 4 + self.value_max())) as u32)
    }
}
