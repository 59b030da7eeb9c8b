//! The buffer of one reply, until it was sent. A long reply has a buffer of its own.
ghost use Rattle.std.specs.Prelude.{◌≡◌, ◌≤◌, ◌<◌, ◌+◌, ◌++◌, [], length, vec_len, vec_capacity, IfOk, OnOk, OnErr};
ghost use Rattle.std.specs.Fmt.{decimal};
ghost use Rattle.model.specs.declared.values.TheConstants.{PAIRS_MAX};
ghost use Rattle.model.specs.Grammar.{bulk};

use crate::events::{OUTPUT_KEPT, OUTPUT_ROOM};
use model::{Memory, Reply};
use resp::{write_array_line, write_pair, write_reply};
use snapshot::Rows;
use std::alloc::Global;
use std::marker::Model;

/// How many digits a length has.
fn digits(n: usize) -> usize
    requires { n < 100000 }
    ensures all { length (decimal n) ≤ result }
    ensures few { result ≤ 5 }
{
    match n {
        0..=9 => 1,
        10..=99 => 2,
        100..=999 => 3,
        1_000..=9_999 => 4,
        _ => 5,
    }
}

/// How many bytes the bulk of these has.
fn bulk_len(bytes: &[u8]) -> usize
    requires { length bytes.now < 100000 }
    ensures all { length (bulk bytes.now) ≤ result }
    ensures few { result ≤ length bytes.now + 10 }
{
    1 + digits(bytes.len()) + 2 + bytes.len() + 2
}

/// What stands in `brief` moves to `large`, which has room for `more` bytes behind it then. `Memory` where that is refused, and nothing
/// has changed then.
fn move_text(brief: &mut Vec<u8>, large: &mut Vec<u8>, more: usize) -> Result<(), Memory>
    requires nothing { large.old.items ≡ [] }
    requires more { more < 100000 }
    ensures moved { OnOk result ((brief.new.items ≡ []) × (large.new.items ≡ brief.old.items)) }
    ensures room { OnOk result (vec_len large.new + more ≤ vec_capacity large.new) }
    ensures err { OnErr result
        ((brief.new ≡ brief.old) × (large.new.items ≡ []) × (vec_capacity large.new ≡ vec_capacity large.old)) }
    ensures capacity { vec_capacity brief.new ≡ vec_capacity brief.old }
{
    if large.try_reserve(brief.len() + more).is_err() {
        return Err(Memory);
    }
    let _ = large.extend_from_slice(brief);
    brief.clear();
    Ok(())
}

/// Room for a brief text: it asked for `OUTPUT_ROOM` bytes and no more.
fn brief_room(alloc: Global) -> Result<Vec<u8>, Memory>
    ensures empty { IfOk result (λ v. v.items ≡ []) }
    ensures exact { IfOk result (λ v. vec_capacity v ≡ OUTPUT_ROOM) }
{
    match Vec::with_capacity(alloc, OUTPUT_ROOM) {
        Ok(room) => Ok(room),
        Err(_refused) => Err(Memory),
    }
}

/// The text of a reply: in the room of `OUTPUT_ROOM` bytes, which is kept, or in a buffer of its own where it is longer.
#[derive(Drop)]
struct ReplyText {
    brief: Vec<u8>,
    /// Empty, unless a longer text stands here. Where none does, its room is at most `OUTPUT_KEPT` bytes.
    large: Vec<u8>,
}

impl Model for ReplyText {
    ghost use Rattle.std.specs.Prelude.{ℕ, List, ◌≡◌, ◌≤◌, ◌<◌, ◌++◌, vec_len, vec_capacity};
    ghost use Rattle.sessions.specs.declared.events.TheConstants.{OUTPUT_ROOM};
    ghost use Rattle.sessions.specs.Calls.{output_kept};

    ghost Value = { List ℕ };

    ghost view = { λ t. t.brief.items ++ t.large.items };

    ghost invariant = { λ t. (OUTPUT_ROOM ≤ vec_capacity t.brief) × (0 < vec_len t.large → vec_len t.brief ≡ 0)
        × (vec_len t.large ≡ 0 → vec_capacity t.large ≤ output_kept) };
}

impl ReplyText {
    ghost use Rattle.std.specs.Prelude.{◌≡◌, ◌≤◌, ◌++◌, [], length, IfOk, IfSome, OnOk, OnErr, Some, option_copied};
    ghost use Rattle.model.specs.Grammar.{bulk};
    ghost use Rattle.model.specs.Key.{IsKey, IsValue};
    ghost use Rattle.model.specs.Map.{IsInBounds};
    ghost use Rattle.model.specs.Operations.{response_of};
    ghost use Rattle.model.specs.Operations.Response.{Pairs, Value as OfValue};
    ghost use Rattle.model.specs.ReplyText.{reply_text};
    ghost use Rattle.resp.specs.Writing.{IsBrief};
    ghost use Rattle.snapshot.specs.RowPairs.{row_pairs};
    ghost use Rattle.sessions.specs.Calls.{Writes};

    /// No text. It takes `OUTPUT_ROOM` bytes; `Memory` where they are refused.
    fn new(alloc: Global) -> Result<ReplyText, Memory>
        ensures { IfOk result (λ t. t ≡ []) }
    {
        let brief = brief_room(alloc)?;
        Ok(ReplyText {
            brief,
            large: Vec::new(alloc),
        })
    }

    fn as_slice(&self) -> &[u8]
        ensures { result.now ≡ self.now }
    {
        if self.large.is_empty() {
            &self.brief
        } else {
            &self.large
        }
    }

    /// No text stands here then. Takes no memory, and frees what `large` has beyond `OUTPUT_KEPT` bytes.
    fn clear(&mut self)
        ensures { self.new ≡ [] }
    {
        self.brief.clear();
        self.large.clear();
        if self.large.capacity() > OUTPUT_KEPT {
            self.large = Vec::new(*self.brief.allocator());
        }
    }

    /// Writes a reply that always has room: any but a value and the pairs of a range. Takes no memory.
    fn write_brief(&mut self, reply: &Reply<'_>) -> Result<(), Memory>
        requires brief { IsBrief reply.now }
        requires empty { self.old ≡ [] }
        ensures written { Writes (Some (response_of reply.now)) self.new result }
        ensures short { length (reply_text (response_of reply.now)) ≤ OUTPUT_ROOM }
    {
        write_reply(&mut self.brief, reply)
    }

    /// Writes a value, in `large` where its text is longer than `OUTPUT_ROOM` bytes; `Memory` where room for it is refused there.
    fn write_value(&mut self, value: Option<&[u8]>) -> Result<(), Memory>
        requires value { IfSome value (λ v. IsValue v.now) }
        requires empty { self.old ≡ [] }
        ensures ok { OnOk result (self.new ≡ reply_text (OfValue (option_copied value.entry))) }
        ensures err { OnErr result (self.new ≡ []) }
    {
        let len = match value {
            Some(bytes) => bulk_len(bytes),
            None => 5,
        };
        if len <= OUTPUT_ROOM {
            return write_reply(&mut self.brief, &Reply::Value(value));
        }
        if self.large.try_reserve(len).is_err() {
            return Err(Memory);
        }
        write_reply(&mut self.large, &Reply::Value(value))
    }

    /// Adds a pair. Where the text no longer fits the room of `brief` it moves to `large`, once. `Memory` where room is refused there, and
    /// the text is as it was.
    fn append_pair(&mut self, key: &[u8], value: &[u8]) -> Result<(), Memory>
        requires key { IsKey key.now }
        requires value { IsValue value.now }
        ensures ok { OnOk result (self.new ≡ self.old ++ (bulk key.now ++ bulk value.now)) }
        ensures err { OnErr result (self.new ≡ self.old) }
    {
        if self.large.is_empty() {
            let more = bulk_len(key) + bulk_len(value);
            if more <= self.brief.capacity() - self.brief.len() {
                return write_pair(&mut self.brief, key, value);
            }
            move_text(&mut self.brief, &mut self.large, more + OUTPUT_ROOM)?;
        }
        write_pair(&mut self.large, key, value)
    }

    /// Writes the pairs of a range, in `large` where their text is longer than `OUTPUT_ROOM` bytes; `Memory` where room for it is refused
    /// there.
    fn write_pairs(&mut self, rows: Rows<'_>) -> Result<(), Memory>
        requires few { length (row_pairs rows) ≤ PAIRS_MAX }
        requires in_bounds { IsInBounds (row_pairs rows) }
        requires empty { self.old ≡ [] }
        ensures ok { OnOk result (self.new ≡ reply_text (Pairs (row_pairs rows.entry))) }
        ensures err { OnErr result (self.new ≡ []) }
    {
        write_array_line(&mut self.brief, rows.len())?;
        for (key, value) in rows {
            if self.append_pair(key.bytes(), value).is_err() {
                self.clear();
                return Err(Memory);
            }
        }
        Ok(())
    }
}

/// Room for the text of one reply at a time, of which the first bytes may be consumed. Its `OUTPUT_ROOM` bytes are kept; a longer text has
/// a buffer of its own, and what that has beyond `OUTPUT_KEPT` bytes goes once all of the text is consumed.
#[derive(Drop)]
pub(crate) struct ReplyBuffer {
    text: ReplyText,
    /// How many bytes of the text are consumed.
    start: usize,
}

impl Model for ReplyBuffer {
    ghost use Rattle.std.specs.Prelude.{ℕ, List, ◌≡◌, ◌≤◌, drop, length};
    ghost use Rattle.model.specs.Bounds.{range_reply_max};

    ghost Value = { List ℕ };

    ghost view = { λ b. drop b.start b.text };

    ghost invariant = { λ b. (b.start ≤ length b.text) × (b.start ≡ length b.text → length b.text ≡ 0)
        × (length b.text ≤ range_reply_max) };
}

impl ReplyBuffer {
    ghost use Rattle.std.specs.Prelude.{◌≡◌, ◌≤◌, [], drop, length, IfOk, IfSome, OnOk, OnErr, Some, option_copied};
    ghost use Rattle.model.specs.Bounds.{range_reply_max};
    ghost use Rattle.model.specs.Key.{IsValue};
    ghost use Rattle.model.specs.Map.{IsInBounds};
    ghost use Rattle.model.specs.Operations.{response_of};
    ghost use Rattle.model.specs.Operations.Response.{Pairs, Value as OfValue};
    ghost use Rattle.model.specs.ReplyText.{reply_text};
    ghost use Rattle.resp.specs.Writing.{IsBrief};
    ghost use Rattle.snapshot.specs.RowPairs.{row_pairs};
    ghost use Rattle.sessions.specs.Calls.{Writes};

    /// Nothing is left. It takes `OUTPUT_ROOM` bytes; `Memory` where they are refused.
    pub(crate) fn new(alloc: Global) -> Result<ReplyBuffer, Memory>
        ensures { IfOk result (λ b. b ≡ []) }
    {
        let text = ReplyText::new(alloc)?;
        Ok(ReplyBuffer { text, start: 0 })
    }

    /// What is left.
    pub(crate) fn as_slice(&self) -> &[u8]
        ensures bytes { result.now ≡ self.now }
        ensures short { length result.now ≤ range_reply_max }
    {
        &self.text.as_slice()[self.start..]
    }

    /// The first `n` bytes are consumed. No byte is moved. Takes no memory.
    pub(crate) fn consume(&mut self, n: usize)
        requires { n ≤ length self.old }
        ensures { self.new ≡ drop n self.old }
    {
        self.start += n;
        if self.start == self.text.as_slice().len() {
            self.text.clear();
            self.start = 0;
        }
    }

    /// Writes a reply that always has room: any but a value and the pairs of a range. Takes no memory.
    pub(crate) fn write_brief(&mut self, reply: &Reply<'_>) -> Result<(), Memory>
        requires { IsBrief reply.now }
        ensures { Writes (Some (response_of reply.now)) self.new result }
    {
        self.text.clear();
        self.start = 0;
        self.text.write_brief(reply)
    }

    /// Writes a value. It takes memory where its text is longer than `OUTPUT_ROOM` bytes; `Memory` where that is refused, and nothing is
    /// left then.
    pub(crate) fn write_value(&mut self, value: Option<&[u8]>) -> Result<(), Memory>
        requires { IfSome value (λ v. IsValue v.now) }
        ensures ok { OnOk result (self.new ≡ reply_text (OfValue (option_copied value.entry))) }
        ensures err { OnErr result (self.new ≡ []) }
    {
        self.text.clear();
        self.start = 0;
        self.text.write_value(value)
    }

    /// Writes the pairs of a range. It takes memory where their text is longer than `OUTPUT_ROOM` bytes; `Memory` where that is refused,
    /// and nothing is left then.
    pub(crate) fn write_pairs(&mut self, rows: Rows<'_>) -> Result<(), Memory>
        requires few { length (row_pairs rows) ≤ PAIRS_MAX }
        requires in_bounds { IsInBounds (row_pairs rows) }
        ensures ok { OnOk result (self.new ≡ reply_text (Pairs (row_pairs rows.entry))) }
        ensures err { OnErr result (self.new ≡ []) }
    {
        self.text.clear();
        self.start = 0;
        self.text.write_pairs(rows)
    }
}
