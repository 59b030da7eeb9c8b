//! The lines that are printed, each built in a fixed buffer that the longest of them fits.
ghost use Rattle.std.specs.Prelude.{◌≡◌, ◌≤◌, ◌+◌, ◌++◌, length, decimal};

use arrayvec::ArrayVec;
use itoa::Buffer;

// The longest line that is printed has so many bytes, or fewer: it has four numbers.
const LINE_MAX: usize = 128;

// A number has so many digits at most.
const DIGITS_MAX: usize = 20;

/// The bytes of a line that is printed.
pub(crate) type Line = ArrayVec<u8, LINE_MAX>;

/// Adds a text to a line.
pub(crate) fn push_text(line: &mut Line, text: &[u8])
    requires { length line.old.items + length text.now ≤ LINE_MAX }
    ensures { line.new.items ≡ line.old.items ++ text.now }
{
    // It can't fail: the contract asks for the room.
    let _fits = line.try_extend_from_slice(text);
}

/// Adds a number to a line.
pub(crate) fn push_number(line: &mut Line, number: u64)
    requires { length line.old.items + DIGITS_MAX ≤ LINE_MAX }
    ensures number { line.new.items ≡ line.old.items ++ decimal number }
    ensures short { length line.new.items ≤ length line.old.items + DIGITS_MAX }
{
    let mut digits = Buffer::new();
    push_text(line, digits.format(number).as_bytes());
}

/// A line of a text, a number, and a text behind it.
pub(crate) fn numbered_line(before: &[u8], number: u64, behind: &[u8]) -> Line
    requires { length before.now + DIGITS_MAX + length behind.now ≤ LINE_MAX }
    ensures { result.items ≡ before.now ++ decimal number ++ behind.now }
{
    let mut line = Line::new();
    push_text(&mut line, before);
    push_number(&mut line, number);
    push_text(&mut line, behind);
    line
}
