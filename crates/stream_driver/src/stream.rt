//! The trait of connections whose calls don't block, with the bytes that they received and sent.

use crate::answers::{Call, ReadAnswer, WriteAnswer};
use sector::Sectors;

/// Why a stream's share of a turn ends with a reply.
#[derive(Clone, Copy, PartialEq, Eq, Debug)]
pub enum ShareEnd {
    /// The request appended a record to the log.
    Appended,
    /// The request looked at many pages of keys.
    Looked,
}

/// A connection whose calls don't wait.
///
/// What it has moved and answered is known by five counts, of each answer but `Moved` of each call, by the last call with its answer, and
/// by the bytes that went each way. A count is a u64: it rises with its answer, and once it stands at 2^64 - 1 it stays. The bytes are
/// claimed under a premise of the type, `reports`: of a peer in memory it holds, and of a socket one may grant it.
///
/// Each call is shown the device of the store. It can't be copied or changed by the call, so this is how the device stands as the call is
/// made: what leaves for the peer in the call leaves at that moment of the device.
pub trait Stream: Drop {
    ghost use Rattle.std.specs.Prelude.{◌≡◌, ◌<◌, length, take};
    ghost use Rattle.stream_driver.specs.Traffic.{CountsLast, EndsFor, ReceivesBytes, ReadsWithin, Share, TakesOf};
    ghost use Rattle.stream_driver.specs.Traffic.{Traffic, SendsBytes, WritesWithin, bytes_read, bytes_written};
    ghost use Rattle.stream_driver.specs.Waits.{ReadStays, WriteStays};

    /// The bytes of `traffic` are those that the calls moved: said of each call where this holds.
    ghost reports: { Type 0 };

    /// It keeps to its share of a turn: said of each call where this holds.
    ghost keeps_share: { Type 0 };

    /// How many bytes are left of that share, whether it was ended with a reply (`end_share`), and whether a record was appended then.
    ghost share: { Self → Share };

    /// The last of its reads that moved bytes gave fewer than it asked for.
    ghost came_short: { Self → Type 0 };

    /// What it has noted of its reads is so: said of each call where it was so before.
    ghost is_sound: { Self → Type 0 };

    /// If its last call blocked, this is why. A stream that buffers or keeps to a share may block though the system would not.
    ghost waits: { Self → Type 0 };

    /// The bytes that were moved, how often each call gave each answer but `Moved`, and the last call with its answer.
    ghost traffic: { Self → Traffic };

    /// Reads at least one byte and at most as many as `into` holds, or answers why none came. What it answers stands at the front of
    /// `into`. Takes no memory.
    fn read<D: Sectors>(&mut self, device: &D, into: &mut [u8]) -> ReadAnswer
        requires { 0 < length into.old }
        ensures within { ReadsWithin result (length into.old) }
        ensures moved { reports → ReceivesBytes (D.moment device.now) (traffic self.old)
            (take (bytes_read result) into.new) (traffic self.new) }
        ensures answered { CountsLast (Call.Read result) (traffic self.old) (traffic self.new) }
        ensures taken { keeps_share → TakesOf (share self.old) 0 (share self.new) }
        ensures stays { ReadStays came_short is_sound waits self.old (length into.old) result self.new };

    /// Writes at least one byte from the front of `from`, or answers why none went. Takes no memory that a caller sees.
    fn write<D: Sectors>(&mut self, device: &D, from: &[u8]) -> WriteAnswer
        requires { 0 < length from.now }
        ensures within { WritesWithin result (length from.now) }
        ensures moved { reports → SendsBytes (D.moment device.now) (traffic self.old)
            (take (bytes_written result) from.now) (traffic self.new) }
        ensures answered { CountsLast (Call.Write result) (traffic self.old) (traffic self.new) }
        ensures taken { keeps_share → TakesOf (share self.old) (bytes_written result) (share self.new) }
        ensures stays { WriteStays came_short is_sound waits self.old self.new };

    /// The drive has served a request that took long, for this reason, and a reply of so many bytes reports it: with these bytes the
    /// stream's share of the turn ends, so that others have theirs before this session is served again. It moves no byte. Takes no memory.
    fn end_share(&mut self, reply: usize, cause: ShareEnd)
        ensures ended { keeps_share → EndsFor cause reply (share self.old) (share self.new) }
        ensures traffic { traffic self.new ≡ traffic self.old }
        ensures sound { is_sound self.old → is_sound self.new }
        ensures waits { waits self.old → waits self.new };
}
