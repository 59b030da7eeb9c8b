//! A request: one to four parts, borrowed from the input.
ghost use Rattle.std.specs.Prelude.{◌≡◌, ◌+◌, ◌<◌, ◌≤◌, [], ◌∷◌, ◌++◌, List, ℕ, length, take, map, Some, slice_get};
ghost use Rattle.std.specs.Prelude.{slice_index_or};
ghost use Rattle.model.specs.Grammar.{IsPart, IsRequest};
ghost use Rattle.resp.specs.declared.parts.TheConstants.{PARTS_MAX};

use std::marker::Model;

// The most parts of a request.
const PARTS_MAX: usize = 4;

/// The parts of a request, which are slices of the input. A clause sees the list of their bytes.
#[derive(Drop)]
pub struct Request<'a> {
    parts: [&'a [u8]; PARTS_MAX],
    len: usize,
}

impl<'a> Model for Request<'a> {
    ghost Value = { List (List ℕ) };

    ghost view = { λ r. take r.len (map (λ part. part.now) r.parts) };

    ghost invariant = { λ r. (r.len ≤ PARTS_MAX) × IsRequest (take r.len (map (λ part. part.now) r.parts)) };
}

impl<'a> Request<'a> {
    // A request of one part.
    pub(crate) fn of(part: &'a [u8]) -> Request<'a>
        requires { IsPart part.now }
        ensures { result ≡ part.now ∷ [] }
    {
        Request {
            parts: [part; PARTS_MAX],
            len: 1,
        }
    }

    // Adds a part at the end.
    pub(crate) fn push(&mut self, part: &'a [u8])
        requires room { length self.old < PARTS_MAX }
        requires part { IsPart part.now }
        ensures { self.new ≡ self.old ++ part.now ∷ [] }
    {
        self.parts[self.len] = part;
        self.len += 1;
    }

    fn parts(&self) -> &[&'a [u8]]
        ensures parts { map (λ part. part.now) result.now ≡ self.now }
        ensures request { IsRequest self.now }
    {
        &self.parts[..self.len]
    }

    /// How many parts there are, from 1 to 4. Takes no memory.
    pub fn len(&self) -> usize
        ensures len { result ≡ length self.now }
        ensures request { IsRequest self.now }
    {
        self.parts().len()
    }

    // The first part, which names the command.
    pub(crate) fn name(&self) -> &'a [u8]
        ensures { result.now ≡ slice_index_or self.now 0 [] }
    {
        self.parts()[0]
    }

    /// Part `i`, counted from 0: 0 to `VALUE_MAX` bytes, which may outlive this value. Takes no memory.
    pub fn part(&self, i: usize) -> &'a [u8]
        requires { i < length self.now }
        ensures value { slice_get self.now i ≡ Some result.now }
        // The same, as what stands at that place.
        ensures place { result.now ≡ slice_index_or self.now i [] }
        ensures part { IsPart result.now }
    {
        self.parts()[i]
    }
}
