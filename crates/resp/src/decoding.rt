//! Decodes the request at the head of the input: a whole one, the beginning of one, or none.
ghost use Rattle.std.specs.Prelude.{◌≡◌, ◌≤◌, ◌<◌, ◌+◌, ◌^◌, ◌↔◌, ◌∷◌, ◌++◌, [], ℕ, List, length, take, slice_index};
ghost use Rattle.std.specs.Prelude.{MatchOption, EachIndex};
ghost use Rattle.std.specs.Fmt.{decimal};
ghost use Rattle.model.specs.Grammar.{crlf, bulk, IsRequest, Spells, FrontSpells, IsProperBeginning, OneSpelling};
ghost use Rattle.resp.specs.Reading.{Reads, Passes, LengthLine, CountLine, PartText};
ghost use Rattle.resp.specs.Answers.{IsWhole, IsMore, IsBad};

use crate::parts::Request;
use model::VALUE_MAX;

/// What the front of the input is.
#[derive(Drop)]
pub enum Decoded<'a> {
    /// A request, and how many bytes spell it.
    Whole(Request<'a>, usize),
    /// The input is a proper beginning of a request: more bytes are needed.
    More,
    /// No request begins with the input, nor the input with one.
    Bad,
}

/// Why nothing could be read.
#[derive(Clone, Copy)]
pub(crate) enum Stop {
    // The input begins a text, and more bytes are needed.
    More,
    // No text begins with the input, nor the input with one.
    Bad,
}

/// The number from 0 to `max` that these bytes are the decimal of, with no leading zero; None where they are of none. Takes no memory.
pub fn read_decimal(digits: &[u8], max: usize) -> Option<usize>
    requires { max < 2 ^ 32 }
    ensures { MatchOption result ((n : ℕ) → n ≤ max → digits.now ≡ decimal n → ⊥)
        (λ n. (n ≤ max) × (digits.now ≡ decimal n)) }
{
    let mut value = 0;
    for (i, digit) in digits.iter().enumerate() {
        let digit = *digit;
        if digit < b'0' || digit > b'9' {
            return None;
        }
        if i > 0 && value == 0 {
            return None;
        }
        value = value * 10 + (digit - b'0') as usize;
        if value > max {
            return None;
        }
    }
    if digits.is_empty() { None } else { Some(value) }
}

// What follows this byte.
#[tactic(auto, using(crate::proofs::Behind::nothing_of_word))]
fn after(mark: u8, bytes: &[u8]) -> Result<&[u8], Stop>
    ensures { Passes (mark ∷ []) bytes.now result }
{
    match bytes {
        [] => Err(Stop::More),
        [first, rest @ ..] => {
            if *first == mark {
                Ok(rest)
            } else {
                Err(Stop::Bad)
            }
        }
    }
}

// What follows a line's end.
fn after_line_end(bytes: &[u8]) -> Result<&[u8], Stop>
    ensures { Passes crlf bytes.now result }
{
    let rest = after(b'\r', bytes)?;
    after(b'\n', rest)
}

// How many digits stand at the front.
fn digits_at(bytes: &[u8]) -> usize
    ensures within { result ≤ length bytes.now }
    ensures digits { (k : ℕ) → k < result → (48 ≤ slice_index bytes.now k) × (slice_index bytes.now k ≤ 57) }
    ensures all { result < length bytes.now → (48 ≤ slice_index bytes.now result) → (slice_index bytes.now result ≤ 57)
        → ⊥ }
{
    for (i, b) in bytes.iter().enumerate() {
        if *b < b'0' || *b > b'9' {
            return i;
        }
    }
    bytes.len()
}

// A line with the length of a part, and what follows it.
fn length_line(bytes: &[u8]) -> Result<(usize, &[u8]), Stop>
    ensures { Reads LengthLine (λ n. n) bytes.now result }
{
    if bytes.is_empty() {
        return Err(Stop::More);
    }
    let (digits, rest) = bytes.split_at(digits_at(bytes));
    let Some(len) = read_decimal(digits, VALUE_MAX) else {
        return Err(Stop::Bad);
    };
    let rest = after_line_end(rest)?;
    Ok((len, rest))
}

// A line with the number of parts, and what follows it.
fn count_line(bytes: &[u8]) -> Result<(usize, &[u8]), Stop>
    ensures { Reads CountLine (λ n. n) bytes.now result }
{
    match bytes {
        [] => Err(Stop::More),
        [digit, rest @ ..] => {
            let digit = *digit;
            if digit < b'1' || digit > b'4' {
                return Err(Stop::Bad);
            }
            let rest = after_line_end(rest)?;
            Ok(((digit - b'0') as usize, rest))
        }
    }
}

// A part, and what follows it.
fn part(bytes: &[u8]) -> Result<(&[u8], &[u8]), Stop>
    ensures { Reads PartText (λ part. part.now) bytes.now result }
{
    let rest = after(b'$', bytes)?;
    let (len, rest) = length_line(rest)?;
    if rest.len() < len {
        return Err(Stop::More);
    }
    let (part, rest) = rest.split_at(len);
    let rest = after_line_end(rest)?;
    Ok((part, rest))
}

// A request, and what follows it.
fn request_at(input: &[u8]) -> Result<(Request<'_>, &[u8]), Stop>
    ensures { Reads Spells (λ request. request) input.now result }
{
    let rest = after(b'*', input)?;
    let (count, rest) = count_line(rest)?;
    let (first, mut rest) = part(rest)?;
    let mut request = Request::of(first);
    for _i in 1..count {
        let (part, after) = part(rest)?;
        request.push(part);
        rest = after;
    }
    Ok((request, rest))
}

/// Reads the request at the front of the input, a RESP2 array of 1 to 4 bulk strings of 0 to `VALUE_MAX` bytes each. What follows it may
/// be anything. Takes no memory.
pub fn decode(input: &[u8]) -> Decoded<'_>
    // A request exactly where the first n bytes spell it.
    ensures whole { (parts : List (List ℕ)) (n : ℕ) → IsWhole result parts n ↔ FrontSpells input.now n parts }
    // More exactly where the input and at least one more byte spell a request.
    ensures more { IsMore result ↔ IsProperBeginning input.now }
    // Bad in every other case.
    ensures bad { IsBad result
        ↔ (((parts : List (List ℕ)) (n : ℕ) → ¬ FrontSpells input.now n parts) × ¬ IsProperBeginning input.now) }
{
    match request_at(input) {
        Ok((request, rest)) => Decoded::Whole(request, input.len() - rest.len()),
        Err(Stop::More) => Decoded::More,
        Err(Stop::Bad) => Decoded::Bad,
    }
}

/// No request's spelling begins another's, and each spells one request alone.
#[tactic(auto, using(crate::proofs::Requests::array_one_form))]
pub fn law_one_spelling()
    ensures { OneSpelling }
{}
