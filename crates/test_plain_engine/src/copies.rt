//! A transaction's private copy.
ghost use Rattle.model.specs.Key.{IsValue};

use crate::commits::Commit;
use crate::faults::EngineFault;
use crate::marks::{Mark, copied_marks, is_among as is_marked};
use crate::pairs::{
    Value, copied_map, is_among, is_empty_range, page_end, pairs_within, value_of, values_of,
    with_key, with_value, without_key,
};
use model::{Key, KeyRef, Memory, RangeRef, Refusal};
use std::alloc::Global;

const MARKS_MAX: usize = 256;

const WRITES_MAX: usize = 64;

/// A map, with the keys that were written in it and the marks of what was read.
#[derive(Drop)]
pub struct PrivateCopy {
    contents: Vec<(Key, Value)>,
    /// By rising key.
    written: Vec<Key>,
    marks: Vec<Mark>,
}

impl PrivateCopy {
    /// The copy of a map.
    pub fn new(alloc: Global, contents: &[(Key, Value)]) -> Result<PrivateCopy, Memory> {
        let contents = copied_map(alloc, contents)?;
        Ok(PrivateCopy {
            contents,
            written: Vec::new(alloc),
            marks: Vec::new(alloc),
        })
    }

    /// A copy of the key's value.
    fn peek(&self, alloc: Global, key: KeyRef<'_>) -> Result<Option<Vec<u8>>, Memory> {
        match value_of(&self.contents, key) {
            Some(value) => Ok(Some(value.lend().to_vec(alloc)?)),
            None => Ok(None),
        }
    }

    fn is_written(&self, key: KeyRef<'_>) -> bool {
        is_among(&self.written, key)
    }

    /// Makes a mark, unless it is there already.
    fn mark(&mut self, mark: Mark) -> Result<(), EngineFault> {
        if is_marked(&self.marks, &mark) {
            return Ok(());
        }
        if self.marks.len() >= MARKS_MAX {
            return Err(EngineFault::Refused(Refusal::FullMarks));
        }
        self.marks.push(mark)?;
        Ok(())
    }

    pub fn get(&mut self, alloc: Global, key: KeyRef<'_>) -> Result<Option<Vec<u8>>, EngineFault> {
        let value = self.peek(alloc, key)?;
        if self.is_written(key) {
            return Ok(value);
        }
        let mark = Mark::of_key(alloc, key)?;
        match self.mark(mark) {
            Ok(()) => Ok(value),
            Err(fault) => Err(fault),
        }
    }

    pub fn range(
        &mut self,
        alloc: Global,
        range: RangeRef<'_>,
        limit: u8,
    ) -> Result<Vec<(Key, Value)>, EngineFault> {
        if is_empty_range(range) {
            return Ok(Vec::new(alloc));
        }
        let mut rows = pairs_within(alloc, &self.contents, range)?;
        rows.truncate(limit as usize);
        let end = page_end(&rows, limit);
        let mark = Mark::of_page(alloc, range, end)?;
        match self.mark(mark) {
            Ok(()) => Ok(rows),
            Err(fault) => Err(fault),
        }
    }

    pub fn set(&mut self, alloc: Global, key: KeyRef<'_>, value: &[u8]) -> Result<(), EngineFault>
        requires { IsValue value.now }
    {
        if self.is_written(key) {
            self.contents = with_value(alloc, &self.contents, key, value)?;
            return Ok(());
        }
        if self.written.len() >= WRITES_MAX {
            return Err(EngineFault::Refused(Refusal::FullWrites));
        }
        let contents = with_value(alloc, &self.contents, key, value)?;
        self.written = with_key(alloc, &self.written, key)?;
        self.contents = contents;
        Ok(())
    }

    pub fn del(&mut self, alloc: Global, key: KeyRef<'_>) -> Result<(), EngineFault> {
        if self.is_written(key) {
            self.contents = without_key(alloc, &self.contents, key)?;
            return Ok(());
        }
        if self.written.len() >= WRITES_MAX {
            return Err(EngineFault::Refused(Refusal::FullWrites));
        }
        let contents = without_key(alloc, &self.contents, key)?;
        self.written = with_key(alloc, &self.written, key)?;
        self.contents = contents;
        Ok(())
    }

    /// What is kept of the transaction once it has committed.
    pub fn to_commit(&self, alloc: Global, begin: u64, commit: u64) -> Result<Commit, Memory> {
        let writes = values_of(alloc, &self.contents, &self.written)?;
        let marks = copied_marks(alloc, &self.marks)?;
        Ok(Commit::new(begin, commit, marks, writes))
    }
}
