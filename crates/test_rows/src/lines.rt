//! A line is a session's label and the words of one request, parted by spaces. The word `""` stands for the empty part.
use model::Memory;
use std::alloc::{AllocError, Global};

/// The session of a line, 0 where the label is no number, and the frame of its request. `Memory` where it is refused.
pub fn frame_of(alloc: Global, line: &str) -> Result<(u64, Vec<u8>), Memory> {
    let (label, request) = line.split_once(' ').unwrap_or((line, ""));
    let mut frame = Vec::new(alloc);
    append_count(alloc, &mut frame, b"*", request.split_whitespace().count())?;
    for part in request.split_whitespace() {
        append_part(alloc, &mut frame, part)?;
    }
    Ok((label.parse::<u64>().unwrap_or(0), frame))
}

/// The line with the number in the place of its `#`, if it has one. `AllocError` where memory is refused.
pub fn with_number(alloc: Global, line: &str, number: u16) -> Result<String, AllocError> {
    match line.split_once('#') {
        Some((front, back)) => format!(in alloc; "{front}{number}{back}"),
        None => String::from_str(alloc, line),
    }
}

fn append_part(alloc: Global, frame: &mut Vec<u8>, part: &str) -> Result<(), Memory> {
    let bytes: &[u8] = if part == "\"\"" { b"" } else { part.as_bytes() };
    append_count(alloc, frame, b"$", bytes.len())?;
    frame.extend_from_slice(bytes)?;
    frame.extend_from_slice(b"\r\n")?;
    Ok(())
}

fn append_count(
    alloc: Global,
    frame: &mut Vec<u8>,
    mark: &[u8],
    count: usize,
) -> Result<(), Memory> {
    let digits = format!(in alloc; "{count}")?;
    frame.extend_from_slice(mark)?;
    frame.extend_from_slice(digits.as_bytes())?;
    frame.extend_from_slice(b"\r\n")?;
    Ok(())
}

/// A reply's text as one line: its last line end is dropped, and each other one is a space. `Memory` where it is refused.
pub fn shown(alloc: Global, reply: &[u8]) -> Result<String, Memory> {
    let mut line = String::new(alloc);
    for byte in reply {
        match *byte {
            b'\r' => {}
            b'\n' => line.push(' ')?,
            other => line.push(char::from(other))?,
        }
    }
    line.pop();
    Ok(line)
}
