//! Counts of a stream's calls that moved no bytes, by their answers, and its last call.
use crate::answers::{Call, ReadAnswer, WriteAnswer};

/// How often a stream gave each answer but `Moved`, and its last call with the answer. A count stays at its highest.
#[derive(Clone, Copy, PartialEq, Debug)]
pub struct CallCounts {
    /// Reads that blocked.
    pub read_blocked: u64,
    /// Reads that failed.
    pub read_failed: u64,
    /// Reads that found the end.
    pub read_ended: u64,
    /// Writes that blocked.
    pub write_blocked: u64,
    /// Writes that failed.
    pub write_failed: u64,
    /// The last call, if there was one.
    pub last: Option<Call>,
}

impl CallCounts {
    ghost use Rattle.std.specs.Prelude.{◌≡◌};
    ghost use Rattle.stream_driver.specs.Traffic.{untouched};
    ghost use Rattle.stream_driver.specs.Counts.{Notes, counted};

    /// The counts before the first call. Takes no memory.
    pub fn new() -> CallCounts
        ensures { counted result ≡ untouched }
    {
        CallCounts {
            read_blocked: 0,
            read_failed: 0,
            read_ended: 0,
            write_blocked: 0,
            write_failed: 0,
            last: None,
        }
    }

    /// One more read, with this answer. Takes no memory.
    pub fn note_read(&mut self, answer: ReadAnswer)
        ensures { Notes (Call.Read answer) self.old self.new }
    {
        match answer {
            ReadAnswer::Moved(_) => {}
            ReadAnswer::Blocked => self.read_blocked = self.read_blocked.saturating_add(1),
            ReadAnswer::Failed => self.read_failed = self.read_failed.saturating_add(1),
            ReadAnswer::Ended => self.read_ended = self.read_ended.saturating_add(1),
        }
        self.last = Some(Call::Read(answer));
    }

    /// One more write, with this answer. Takes no memory.
    pub fn note_write(&mut self, answer: WriteAnswer)
        ensures { Notes (Call.Write answer) self.old self.new }
    {
        match answer {
            WriteAnswer::Moved(_) => {}
            WriteAnswer::Blocked => self.write_blocked = self.write_blocked.saturating_add(1),
            WriteAnswer::Failed => self.write_failed = self.write_failed.saturating_add(1),
        }
        self.last = Some(Call::Write(answer));
    }
}
