//! Writes the texts of replies and of requests.
ghost use Rattle.std.specs.Prelude.{◌≡◌, ◌≤◌, ◌<◌, ◌+◌, ◌*◌, ◌++◌, ◌∷◌, [], ℕ, List, length, map, vec_len};
ghost use Rattle.std.specs.Prelude.{vec_capacity, OnOk, OnErr, IsOk, codes};
ghost use Rattle.std.specs.List.{flat_map};
ghost use Rattle.std.specs.Iterator.{IsFinite};
ghost use Rattle.std.specs.Fmt.{decimal};
ghost use Rattle.model.specs.Grammar.{array_of_bulks, bulk, crlf};
ghost use Rattle.model.specs.Key.{IsKey};
ghost use Rattle.model.specs.Operations.{response_of};
ghost use Rattle.model.specs.Operations.Response.{Refused};
ghost use Rattle.model.specs.ReplyText.{reply_text, refusal_text, hex_text};
ghost use Rattle.resp.specs.Replies.{FirstReplies, OneReading};
ghost use Rattle.resp.specs.Writing.{AppendsText, GivesPairs, IsBrief, OfText, joined_pieces, detail, digits_max};
ghost use Rattle.resp.specs.Writing.{words_max};

use model::{KeyRef, Memory, Refusal, Reply};

/// The most bytes of a reply that is neither a value nor pairs: those of a refusal that names a key of 256 bytes.
pub const BRIEF_MAX: usize = 536;

// Adds these pieces, all or none.
fn append(out: &mut Vec<u8>, pieces: &[&[u8]]) -> Result<(), Memory>
    ensures { AppendsText out.old out.new (joined_pieces pieces.now) result }
{
    let before = out.len();
    for piece in pieces {
        if out.extend_from_slice(piece).is_err() {
            out.truncate(before);
            return Err(Memory);
        }
    }
    Ok(())
}

// A number's text between two others.
fn append_number(out: &mut Vec<u8>, before: &[u8], n: u64, after: &[u8]) -> Result<(), Memory>
    ensures text { AppendsText out.old out.new (before.now ++ decimal n ++ after.now) result }
    ensures brief { length (before.now ++ decimal n ++ after.now) ≤ length before.now + length after.now + digits_max }
{
    let mut buffer = itoa::Buffer::new();
    let digits = buffer.format(n).as_bytes();
    append(out, &[before, digits, after])
}

// Adds bytes in room that is there.
fn put(out: &mut Vec<u8>, bytes: &[u8])
    requires { vec_len out.old + length bytes.now ≤ vec_capacity out.old }
    ensures items { out.new.items ≡ out.old.items ++ bytes.now }
    ensures capacity { vec_capacity out.old ≤ vec_capacity out.new }
{
    match out.extend_from_slice(bytes) {
        Ok(()) => {}
        Err(_) => unreachable!(),
    }
}

// Adds the end of a line in room that is there.
fn put_line_end(out: &mut Vec<u8>)
    requires { vec_len out.old + 2 ≤ vec_capacity out.old }
    ensures items { out.new.items ≡ out.old.items ++ crlf }
    ensures capacity { vec_capacity out.old ≤ vec_capacity out.new }
{
    out.push_reserved(b'\r');
    out.push_reserved(b'\n');
}

// Adds a bulk in room that is there. The digits are those of its length.
fn put_bulk(out: &mut Vec<u8>, digits: &[u8], bytes: &[u8])
    requires digits { digits.now ≡ decimal (length bytes.now) }
    requires room { vec_len out.old + length (bulk bytes.now) ≤ vec_capacity out.old }
    ensures items { out.new.items ≡ out.old.items ++ bulk bytes.now }
    ensures capacity { vec_capacity out.old ≤ vec_capacity out.new }
{
    out.push_reserved(b'$');
    put(out, digits);
    put_line_end(out);
    put(out, bytes);
    put_line_end(out);
}

// A bulk. Its room is asked for once.
fn append_bulk(out: &mut Vec<u8>, bytes: &[u8]) -> Result<(), Memory>
    ensures { AppendsText out.old out.new (bulk bytes.now) result }
{
    let mut buffer = itoa::Buffer::new();
    let digits = buffer.format(bytes.len()).as_bytes();
    out.reserve(digits.len() + bytes.len() + 5)?;
    put_bulk(out, digits, bytes);
    Ok(())
}

// Fills a buffer with the hex digits of these bytes.
fn write_hex(bytes: &[u8], digits: &mut [u8])
    requires { length digits.old ≡ 2 * length bytes.now }
    ensures { digits.new ≡ hex_text bytes.now }
{
    hex::encode_to_slice(bytes, digits).unwrap();
}

/// Writes a pair's key and value, as bulks, at the end of `out`. It may grow `out`; where that is refused it answers `Memory`, and the
/// bytes are as they were.
pub fn write_pair(out: &mut Vec<u8>, key: &[u8], value: &[u8]) -> Result<(), Memory>
    ensures { AppendsText out.old out.new (bulk key.now ++ bulk value.now) result }
{
    let before = out.len();
    append_bulk(out, key)?;
    if append_bulk(out, value).is_err() {
        out.truncate(before);
        return Err(Memory);
    }
    Ok(())
}

/// Writes the line before an array of so many pairs at the end of `out`. It may grow `out`; where that is refused it answers `Memory`, and
/// the bytes are as they were.
pub fn write_array_line(out: &mut Vec<u8>, pairs: usize) -> Result<(), Memory>
    ensures { AppendsText out.old out.new (codes "*" ++ decimal (2 * pairs) ++ crlf) result }
{
    let mut buffer = itoa::Buffer::new();
    let digits = buffer.format(2 * pairs as u128).as_bytes();
    append(out, &[b"*", digits, b"\r\n"])
}

// A key in hex, at the end of an error.
fn append_overwritten(out: &mut Vec<u8>, key: &[u8]) -> Result<(), Memory>
    requires { IsKey key.now }
    ensures text { AppendsText out.old out.new (codes "-CONFLICT overwritten " ++ hex_text key.now ++ crlf) result }
    ensures brief { length (codes "-CONFLICT overwritten " ++ hex_text key.now ++ crlf) ≤ BRIEF_MAX }
{
    let mut buffer = [0u8; 512];
    let digits = &mut buffer[..2 * key.len()];
    write_hex(key, digits);
    append(out, &[b"-CONFLICT overwritten ", digits, b"\r\n"])
}

// What a refusal's text begins with, and what it is where no detail follows.
fn words(refusal: &Refusal) -> &'static [u8]
    ensures text { refusal_text refusal.now ≡ result.now ++ detail refusal.now }
    ensures short { length result.now ≤ words_max }
{
    match refusal {
        Refusal::BadFrame => b"ERR frame",
        Refusal::UnknownCommand => b"ERR command",
        Refusal::BadArguments => b"ERR arguments",
        Refusal::BadKey => b"ERR key",
        Refusal::BadLimit => b"ERR limit",
        Refusal::AlreadyOpen => b"ERR open",
        Refusal::NotOpen => b"ERR none",
        Refusal::FullWrites => b"FULL writes",
        Refusal::FullMarks => b"FULL marks",
        Refusal::FullTransactions => b"FULL transactions",
        Refusal::Overwritten(_) => b"CONFLICT overwritten ",
        Refusal::PivotSelf => b"CONFLICT pivot self",
        Refusal::Pivot(_) => b"CONFLICT pivot ",
        Refusal::FullLog => b"FULL log",
        Refusal::StoreFault => b"STORE fault",
        Refusal::StoreStopped => b"STORE stopped",
        Refusal::FullNumbers => b"FULL numbers",
    }
}

// A refusal, as an error.
fn append_refusal(out: &mut Vec<u8>, refusal: &Refusal) -> Result<(), Memory>
    ensures text { AppendsText out.old out.new (reply_text (Refused refusal.now)) result }
    ensures brief { length (reply_text (Refused refusal.now)) ≤ BRIEF_MAX }
{
    match refusal {
        Refusal::Overwritten(key) => append_overwritten(out, key.lend().bytes()),
        Refusal::Pivot(n) => append_number(out, b"-CONFLICT pivot ", *n, b"\r\n"),
        _ => append(out, &[b"-", words(refusal), b"\r\n"]),
    }
}

/// Writes a reply's text, in RESP2's form, at the end of `out`. It may grow `out`; where that is refused it answers `Memory`, and
/// the bytes are as they were. A text that fits the room left takes no memory.
pub fn write_reply(out: &mut Vec<u8>, reply: &Reply<'_>) -> Result<(), Memory>
    // The text is added, and nothing else.
    ensures ok { OnOk result (out.new.items ≡ out.old.items ++ reply_text (response_of reply.now)) }
    // A refusal leaves the bytes as they were.
    ensures err { OnErr result (out.new.items ≡ out.old.items) }
    // A text that fits the room left is never refused.
    ensures room { vec_len out.old + length (reply_text (response_of reply.now)) ≤ vec_capacity out.old → IsOk result }
    // No reply but a value is longer.
    ensures brief { IsBrief reply.now → length (reply_text (response_of reply.now)) ≤ BRIEF_MAX }
    // No room is lost.
    ensures capacity { vec_capacity out.old ≤ vec_capacity out.new }
{
    match reply {
        Reply::Done => append(out, &[b"+OK\r\n"]),
        Reply::Pong => append(out, &[b"+PONG\r\n"]),
        Reply::Number(n) => append_number(out, b":", *n, b"\r\n"),
        Reply::Value(None) => append(out, &[b"$-1\r\n"]),
        Reply::Value(Some(bytes)) => append_bulk(out, bytes),
        Reply::Refused(refusal) => append_refusal(out, refusal),
    }
}

/// Writes the text of an array of `n` pairs, each key followed by its value, at the end of `out`. It may grow `out`; where that is
/// refused it answers `Memory`, and the bytes are as they were. A text that fits the room left takes no memory.
pub fn write_pairs<'a, I: Iterator<Item = (KeyRef<'a>, &'a [u8])> + Drop>(
    out: &mut Vec<u8>,
    n: usize,
    pairs: I,
) -> Result<(), Memory>
    requires can { I.can_next pairs }
    requires finite { IsFinite (I.remaining pairs) }
    // Whatever its calls give, it is these n pairs.
    requires gives { (all : List (List ℕ × List ℕ)) × GivesPairs I.next_gives pairs n all }

    // Their text is added, and nothing else.
    ensures ok { OfText I.next_gives pairs n (λ text. OnOk result (out.new.items ≡ out.old.items ++ text)) }
    // A refusal leaves the bytes as they were.
    ensures err { OnErr result (out.new.items ≡ out.old.items) }
    // A text that fits the room left is never refused.
    ensures room { OfText I.next_gives pairs n
        (λ text. vec_len out.old + length text ≤ vec_capacity out.old → IsOk result) }
    // No room is lost.
    ensures capacity { vec_capacity out.old ≤ vec_capacity out.new }
{
    let len = out.len();
    write_array_line(out, n)?;
    for (key, value) in pairs {
        if write_pair(out, key.bytes(), value).is_err() {
            out.truncate(len);
            return Err(Memory);
        }
    }
    Ok(())
}

/// Writes the request of these parts, as one frame, behind what `out` holds. It takes no memory where `out` has the room; where memory
/// is refused, `out` holds what it held.
pub fn write_request(out: &mut Vec<u8>, parts: &[&[u8]]) -> Result<(), Memory>
    ensures { AppendsText out.old out.new (array_of_bulks (map (λ part. part.now) parts.now)) result }
{
    let before = out.len();
    append_number(out, b"*", parts.len() as u64, b"\r\n")?;
    for part in parts {
        if append_bulk(out, part).is_err() {
            out.truncate(before);
            return Err(Memory);
        }
    }
    Ok(())
}

/// No reply's text begins another's, whatever follows either of them, and each is the text of one reply alone. So a client that reads one
/// reply after another finds what was answered, and never takes the first bytes of one for another.
pub fn law_one_reading()
    ensures replies { OneReading }
    ensures stream { FirstReplies }
{}
