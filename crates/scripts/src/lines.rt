//! Reads the lines of a script, and writes the lines that are printed.
ghost use Rattle.std.specs.Prelude.{◌≡◌, ◌≤◌, ◌<◌, ◌++◌, ◌∷◌, [], List, ℕ, length, take, drop, map, slice_index_or};
ghost use Rattle.std.specs.Prelude.{MatchOption, OnOk, IsTrue, false};
ghost use Rattle.resp.specs.Writing.{AppendsText};
ghost use Rattle.scripts.specs.declared.lines.TheConstants.{WORDS_MAX};
ghost use Rattle.scripts.specs.Lines.{IsLine, IsNoLine, words_of, part_of, frame_of, on_one_line, printed_line};

use model::Memory;
use resp::{read_decimal, write_request};
use std::marker::Model;

/// The greatest label.
const LABEL_MAX: usize = 999_999;

/// The most words of a line, its label among them.
const WORDS_MAX: usize = 5;

/// Up to five words. A clause sees the list of their bytes.
#[derive(Debug, Drop)]
struct Words<'a> {
    parts: [&'a [u8]; WORDS_MAX],
    count: usize,
}

impl<'a> Model for Words<'a> {
    ghost Value = { List (List ℕ) };

    ghost view = { λ w. take w.count (map (λ part. part.now) w.parts) };

    ghost invariant = { λ w. w.count ≤ WORDS_MAX };
}

impl<'a> Words<'a> {
    /// The words of a text. None where there are more than five. Takes no memory.
    fn of(text: &'a [u8]) -> Option<Words<'a>>
        ensures { MatchOption result (WORDS_MAX < length (words_of text.now)) (λ words. words ≡ words_of text.now) }
    {
        let mut words = Words::none();
        for word in text.split(|byte| *byte == b' ') {
            if !word.is_empty() && !words.add(word) {
                return None;
            }
        }
        Some(words)
    }

    // No words.
    fn none() -> Words<'a>
        ensures { result ≡ [] }
    {
        let none: &[u8] = &[];
        Words {
            parts: [none; WORDS_MAX],
            count: 0,
        }
    }

    // Adds a word at the end, if there is a place for one more.
    fn add(&mut self, word: &'a [u8]) -> bool
        ensures added { IsTrue result → self.new ≡ self.old ++ word.now ∷ [] }
        ensures full { result ≡ false → length self.old ≡ WORDS_MAX }
    {
        if self.count == WORDS_MAX {
            return false;
        }
        self.parts[self.count] = word;
        self.count += 1;
        true
    }

    // How many words there are.
    fn len(&self) -> usize
        ensures len { result ≡ length self.now }
        ensures few { length self.now ≤ WORDS_MAX }
    {
        self.count
    }

    // The first word.
    fn first(&self) -> &'a [u8]
        requires { 0 < length self.now }
        ensures { result.now ≡ slice_index_or self.now 0 [] }
    {
        self.parts[0]
    }

    // Writes the request of the words behind the first.
    fn write_frame(&self, frame: &mut Vec<u8>) -> Result<(), Memory>
        requires { 0 < length self.now }
        ensures { AppendsText frame.old frame.new (frame_of (drop 1 self.now)) result }
    {
        let parts = parts_of(&self.parts);
        write_request(frame, &parts[1..self.count])
    }
}

// The part of a request that a word stands for.
fn part_of<'a>(word: &'a [u8]) -> &'a [u8]
    ensures { result.now ≡ part_of word.now }
{
    if word == b"\"\"".as_slice() {
        &[]
    } else {
        word
    }
}

// The parts that these words stand for.
fn parts_of<'a>(words: &[&'a [u8]; WORDS_MAX]) -> [&'a [u8]; WORDS_MAX]
    ensures { map (λ part. part.now) result ≡ map (λ word. part_of word.now) words.now }
{
    let mut parts = *words;
    for (i, word) in words.iter().enumerate() {
        parts[i] = part_of(word);
    }
    parts
}

/// A line: a label from 0 to 999,999, and one to four words.
#[derive(Debug, Drop)]
pub(crate) struct Line<'a> {
    label: usize,
    /// The label's digits, and the words.
    words: Words<'a>,
}

impl<'a> Model for Line<'a> {
    ghost use Rattle.std.specs.Prelude.{◌<◌, length, drop};
    ghost use Rattle.scripts.specs.Lines.{ScriptLine};

    ghost Value = { ScriptLine };

    ghost view = { λ l. record { label = l.label; words = drop 1 l.words } };

    ghost invariant = { λ l. 0 < length l.words };
}

impl<'a> Line<'a> {
    /// Reads a line, without its end. None where it isn't one of a script. Takes no memory.
    pub(crate) fn read(text: &'a [u8]) -> Option<Line<'a>>
        ensures { MatchOption result (IsNoLine text.now) (λ line. IsLine text.now line) }
    {
        if text.starts_with(b" ") || text.ends_with(b" ") {
            return None;
        }
        let words = Words::of(text)?;
        if words.len() < 2 {
            return None;
        }
        let label = read_decimal(words.first(), LABEL_MAX)?;
        Some(Line { label, words })
    }

    /// The label. Takes no memory.
    pub(crate) fn label(&self) -> usize
        ensures { result ≡ self.now.label }
    {
        self.label
    }

    /// Writes the words as one request frame behind what `frame` holds. It may grow `frame`; where that is refused, it holds what it
    /// held.
    pub(crate) fn write_frame(&self, frame: &mut Vec<u8>) -> Result<(), Memory>
        ensures { AppendsText frame.old frame.new (frame_of self.now.words) result }
    {
        self.words.write_frame(frame)
    }
}

/// Writes the line that is printed for a reply behind what `line` holds. It may grow `line`; where that is refused, it may hold a part
/// of it.
pub(crate) fn write_reply(label: usize, reply: &[u8], line: &mut Vec<u8>) -> Result<(), Memory>
    ensures { OnOk result (line.new.items ≡ line.old.items ++ printed_line label reply.now) }
{
    let mut digits = itoa::Buffer::new();
    line.extend_from_slice(digits.format(label).as_bytes())?;
    line.push(b' ')?;
    write_on_one_line(reply, line)?;
    line.push(b'\n')?;
    Ok(())
}

// Writes a text with its last CRLF dropped and each other as a space.
fn write_on_one_line(text: &[u8], line: &mut Vec<u8>) -> Result<(), Memory>
    ensures { OnOk result (line.new.items ≡ line.old.items ++ on_one_line text.now) }
{
    let mut rest = text;
    while let [first, behind @ ..] = rest {
        match rest {
            [b'\r', b'\n'] => break,
            [b'\r', b'\n', behind @ ..] => {
                line.push(b' ')?;
                rest = behind;
            }
            _ => {
                line.push(*first)?;
                rest = behind;
            }
        }
    }
    Ok(())
}
