//! A peer in memory, with trouble at one of its calls.
ghost use Rattle.std.specs.Prelude.{◌≡◌, ◌≤◌, ◌<◌, ◌+◌, length, vec_len};

use sector::Sectors;
use stream_driver::{CallCounts, ReadAnswer, ShareEnd, Stream, WriteAnswer};

/// What goes wrong at one call of a stream.
#[derive(Clone, Copy, PartialEq, Eq, Debug)]
pub enum Trouble {
    /// One byte moves and no more.
    Fewer,
    /// The call blocks.
    Blocked,
    /// The call fails.
    Failed,
}

/// A peer in memory: it sends its bytes and then ends, keeps what it receives, and meets trouble at one of its calls. When its bytes left
/// isn't known.
#[derive(PartialEq, Drop)]
pub struct Script {
    input: Vec<u8>,
    at: usize,
    sent: Vec<u8>,
    /// The calls that are left until there is trouble, this one included; 0 where there is none.
    left: u64,
    trouble: Trouble,
    /// The last of its reads that moved bytes gave fewer than it asked for. Nothing but clauses reads it.
    came_short: bool,
    counts: CallCounts,
    ghost within: { at ≤ vec_len input },
}

impl Script {
    /// A peer that sends the input and has received what was sent. Its `nth` call, from 1, meets trouble; none does where `nth` is 0. Takes
    /// no memory.
    pub fn new(input: Vec<u8>, sent: Vec<u8>, nth: u64, trouble: Trouble) -> Script {
        Script {
            input,
            at: 0,
            sent,
            left: nth,
            trouble,
            came_short: false,
            counts: CallCounts::new(),
        }
    }

    /// What was sent to it. Takes no memory.
    pub fn sent(&self) -> &[u8] {
        self.sent.as_slice()
    }

    /// Has its trouble come? Takes no memory.
    pub fn is_troubled(&self) -> bool {
        self.left == 0
    }

    // The trouble of this call.
    fn next_trouble(&mut self) -> Option<Trouble>
        ensures { self.new ≡ record self.old { left = self.new.left } }
    {
        if self.left == 0 {
            return None;
        }
        self.left -= 1;
        if self.left == 0 {
            Some(self.trouble)
        } else {
            None
        }
    }
}

impl Stream for Script {
    ghost use Rattle.std.specs.Prelude.{◌≡◌, take, true, false, []};
    ghost use Rattle.stream_driver.specs.Counts.{counted_with};

    ghost reports = { Unit {0} };

    ghost keeps_share = { ⊥ };

    ghost share = { λ s. record { left = 0; ended = false; appended = false } };

    ghost came_short = { λ s. s.came_short ≡ true };

    ghost is_sound = { λ s. Unit {0} };

    ghost waits = { λ s. Unit {0} };

    ghost traffic = { λ s. counted_with s.counts (take s.at s.input.items) s.sent.items [] 0 };

    fn read<D: Sectors>(&mut self, device: &D, into: &mut [u8]) -> ReadAnswer {
        let _ = device;
        let most = match self.next_trouble() {
            None => into.len(),
            Some(Trouble::Fewer) => 1,
            Some(Trouble::Blocked) => {
                self.counts.note_read(ReadAnswer::Blocked);
                return ReadAnswer::Blocked;
            }
            Some(Trouble::Failed) => {
                self.counts.note_read(ReadAnswer::Failed);
                return ReadAnswer::Failed;
            }
        };
        let n = most.min(self.input.len() - self.at);
        if n == 0 {
            self.counts.note_read(ReadAnswer::Ended);
            return ReadAnswer::Ended;
        }
        into[..n].copy_from_slice(&self.input[self.at..self.at + n]);
        self.at += n;
        self.came_short = n < into.len();
        self.counts.note_read(ReadAnswer::Moved(n));
        ReadAnswer::Moved(n)
    }

    fn write<D: Sectors>(&mut self, device: &D, from: &[u8]) -> WriteAnswer {
        let _ = device;
        let n = match self.next_trouble() {
            None => from.len(),
            Some(Trouble::Fewer) => 1,
            Some(Trouble::Blocked) => {
                self.counts.note_write(WriteAnswer::Blocked);
                return WriteAnswer::Blocked;
            }
            Some(Trouble::Failed) => {
                self.counts.note_write(WriteAnswer::Failed);
                return WriteAnswer::Failed;
            }
        };
        if self.sent.extend_from_slice(&from[..n]).is_err() {
            self.counts.note_write(WriteAnswer::Failed);
            return WriteAnswer::Failed;
        }
        self.counts.note_write(WriteAnswer::Moved(n));
        WriteAnswer::Moved(n)
    }

    fn end_share(&mut self, reply: usize, cause: ShareEnd) {
        let _ = (reply, cause);
    }
}
