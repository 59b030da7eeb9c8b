//! A stream that buffers what is written to it, so that replies which were served together are sent in one call. In a drive it takes no
//! more than its share.

use crate::answers::{Call, ReadAnswer, WriteAnswer};
use crate::buffered_bytes::{BUFFERED_MAX, BufferedBytes};
use crate::counts::CallCounts;
use crate::stream::{ShareEnd, Stream};
use sector::Sectors;
use std::alloc::{AllocError, Global};

/// The most bytes that a buffered stream takes in one turn: the share of one whose turn it is.
pub const SHARE_MAX: usize = 262_144;

/// A light share: that of a stream that takes no turns. A drive that takes so many bytes is heavy.
pub const LIGHT_MAX: usize = 32_768;

/// For how many turns of its own a stream counts as heavy after a heavy drive, that of the drive included.
pub const HEAVY_TURNS: u8 = 16;

/// How the writing of what a stream buffers came out.
#[derive(Clone, Copy, PartialEq, Eq, Debug)]
pub enum Flushed {
    /// It buffers nothing.
    All,
    /// The inner stream blocked, and the rest stays buffered.
    Blocked,
    /// The inner stream failed, and the rest stays buffered.
    Failed,
}

/// A stream over an inner one: it buffers what is written to it, at most `BUFFERED_MAX` bytes, and passes it on in one write once there is
/// no room for more, before it reads, and where it is flushed. So replies that were served together leave together. Where it buffers
/// nothing, a piece of `BUFFERED_MAX` bytes or more goes straight to the inner stream.
///
/// What was sent over it is what was sent over the inner stream, followed by what is buffered. A write is answered `Blocked` or `Failed`
/// only where the inner stream was written last, and answered so. A read is answered by the inner stream once nothing is buffered; before
/// that, `Blocked` or `Failed` only where that was written last, and answered so. Once what is buffered has failed to leave, also between
/// two drives, reads and writes are answered `Failed` with no further call. It counts as failed from a write that failed to the next that
/// moves bytes. After a read of fewer bytes than it asked for nothing more is there, until the poll reports it: so once a reply to it was
/// written, a read is answered `Blocked` with no call, until the next drive begins.
///
/// In a drive it takes no more bytes than its share of the turn (`begin_turn`), at most `SHARE_MAX`: a write takes no more than is left of
/// it. Once none is left, reads and writes are answered `Blocked` with no call of the inner stream, until the next drive begins. No poll
/// reports that, so whoever drives it asks whether it `has_had_its_share`. A reply that is larger than the share is taken in parts, over
/// several turns.
///
/// A drive that appends a record, or serves a request that looks at many pages of keys, ends the share with the reply to it (`end_share`).
/// Where another reply of the drive came before it, the session may have come with a whole transaction in one piece, and the stream is a
/// writer's (`is_writer`) until it takes bytes in a turn of its own in which that isn't so; and so where it is passed over and its session
/// writes. An append with the first reply of a drive is of
/// a transaction that had written before the drive. A drive is heavy that takes `LIGHT_MAX` bytes, or serves a request that looks at many
/// pages. The stream is heavy (`is_heavy`) until `HEAVY_TURNS` turns of its own have begun since; and, where it was passed over, until one
/// has.
#[derive(Drop)]
pub struct BufferedStream<S: Stream> {
    inner: S,
    buffered: BufferedBytes,
    /// The last write of what is buffered failed.
    has_failed: bool,
    /// The last read of this drive gave fewer bytes than it asked for.
    is_short: bool,
    /// And bytes were written to it since.
    is_drained: bool,
    /// A short read means nothing.
    reads_on: bool,
    /// How many bytes it may still take in this drive.
    share: usize,
    /// How many it might take when the turn began.
    whole: usize,
    /// In the last turn of its own the share was ended with a reply.
    is_ended: bool,
    /// And that after a record was appended.
    appended: bool,
    /// And in the last in which it took bytes so it was, behind another reply; or it was passed over since, and its session writes.
    is_writer: bool,
    /// For how many more turns of its own it is heavy.
    heavy_for: u8,
    counts: CallCounts,
}

impl<S: Stream> BufferedStream<S> {
    ghost use Rattle.std.specs.Prelude.{◌≡◌, ◌≢◌, ◌≤◌, ◌↔◌, [], IfOk, length, true};
    ghost use Rattle.stream_driver.specs.Buffers.{IsNew, fresh, has_had_share, in_turn_of, buffered_in};
    ghost use Rattle.stream_driver.specs.Buffers.{after_taking, is_flushed_or_failed, is_heavy, is_late, passed_over};
    ghost use Rattle.stream_driver.specs.Buffers.{Finishes, Flushes, KeepsBytes, RoomFails, WhyRoom, WritesBuffered};
    ghost use Rattle.stream_driver.specs.Buffers.{GivesSome, TakesSome, WhyGave, WhyGaveSome, WhyTook, WhyTookSome};
    ghost use Rattle.stream_driver.specs.Traffic.{bytes_written};
    ghost use Rattle.stream_driver.specs.Waits.{GivesSoundly};

    /// A stream over this one, which buffers nothing. Takes the memory for `BUFFERED_MAX` bytes, and none later.
    pub fn new(alloc: Global, inner: S) -> Result<BufferedStream<S>, AllocError>
        ensures { IfOk result (λ stream. IsNew inner stream) }
    {
        Ok(BufferedStream {
            inner,
            buffered: BufferedBytes::new(alloc)?,
            has_failed: false,
            is_short: false,
            is_drained: false,
            reads_on: false,
            share: SHARE_MAX,
            whole: SHARE_MAX,
            is_ended: false,
            appended: false,
            is_writer: false,
            heavy_for: 0,
            counts: CallCounts::new(),
        })
    }

    /// The inner stream. What is buffered is lost. Takes no memory.
    pub fn into_inner(self) -> S
        ensures { result ≡ self.inner }
    {
        self.inner
    }

    /// Does it buffer nothing, or has the inner stream failed to take it? Takes no memory.
    pub fn is_flushed_or_failed(&self) -> bool
        ensures { result ≡ is_flushed_or_failed self.now }
    {
        self.has_failed || self.buffered.is_empty()
    }

    /// From now on a read that gives fewer bytes than it asked for doesn't mean that nothing more is there. Takes no memory.
    pub fn read_on(&mut self)
        ensures { self.new ≡ record self.old { reads_on = true } }
    {
        self.reads_on = true;
    }

    /// A new drive begins: there may be more to read, and the stream has a whole share. Takes no memory.
    pub fn begin_drive(&mut self)
        ensures { self.new ≡ fresh self.old }
    {
        self.is_short = false;
        self.is_drained = false;
        self.share = SHARE_MAX;
    }

    /// Has it taken its share of this turn? Then it answers `Blocked` until the next drive begins, and no poll reports that it goes on.
    /// Takes no memory.
    pub fn has_had_its_share(&self) -> bool
        ensures { result ≡ has_had_share self.now }
    {
        self.share == 0
    }

    /// Did the last drive in which it took bytes append a record, behind another reply? One in which nothing is answered changes nothing.
    /// Where it was passed over since, it says whether its session wrote then. Takes no memory.
    pub fn is_writer(&self) -> bool
        ensures { result ≡ self.now.is_writer }
    {
        self.is_writer
    }

    /// Is it heavy: was a drive so in one of its last turns, or was it passed over since the last? Takes no memory.
    pub fn is_heavy(&self) -> bool
        ensures { result ≡ is_heavy self.now }
    {
        self.heavy_for > 0
    }

    /// Is it heavy for one more turn of its own alone: was it passed over, or was a drive heavy long enough ago? Takes no memory.
    pub fn is_late(&self) -> bool
        ensures { result ≡ is_late self.now }
    {
        self.heavy_for == 1
    }

    /// A turn of its own begins, with a share of so many bytes: no drive of it has ended that yet, appended a record or taken much. Takes
    /// no memory.
    pub fn begin_turn(&mut self, bytes: usize)
        ensures { self.new ≡ in_turn_of bytes self.old }
    {
        self.share = bytes;
        self.whole = bytes;
        self.is_ended = false;
        self.appended = false;
        self.heavy_for = self.heavy_for.saturating_sub(1);
    }

    /// It is passed over in this turn: it has no share of it, and is heavy until a turn of its own has begun. It is a writer's where its
    /// session writes, so that nobody has to ask that again before it is answered. Takes no memory.
    pub fn pass_over(&mut self, writes: bool)
        ensures { self.new ≡ passed_over writes self.old }
    {
        self.share = 0;
        self.heavy_for = self.heavy_for.max(1);
        self.is_writer = writes;
    }

    // It has taken bytes: so many in this turn, perhaps, that the drive is heavy. Where the share was ended, what is gone of it says
    // nothing of that.
    fn note_taken(&mut self)
        ensures { self.new ≡ after_taking self.old }
    {
        if !self.is_ended && LIGHT_MAX <= self.whole.saturating_sub(self.share) {
            self.heavy_for = HEAVY_TURNS;
        }
    }

    // One write of what is buffered. It stands by itself, so that `flush` is small, and costs no call where nothing is buffered.
    #[inline(never)]
    fn write_buffered<D: Sectors>(&mut self, device: &D) -> WriteAnswer
        requires { buffered_in self.old.buffered ≢ [] }
        ensures wrote { WritesBuffered S.reports S.traffic (D.moment device.now) self.old result self.new }
        ensures short { S.came_short self.old.inner ↔ S.came_short self.new.inner }
    {
        let answer = self.inner.write(device, self.buffered.as_slice());
        match answer {
            WriteAnswer::Moved(n) => {
                self.buffered.leave(n);
                self.has_failed = false;
            }
            WriteAnswer::Blocked => {}
            WriteAnswer::Failed => self.has_failed = true,
        }
        answer
    }

    /// Writes what is buffered, as far as the inner stream takes it. Takes no memory that a caller sees.
    #[inline(always)]
    pub fn flush<D: Sectors>(&mut self, device: &D) -> Flushed
        ensures flushed { Flushes S.reports S.traffic (D.moment device.now) self.old result self.new }
        ensures some { result ≡ Flushed.Blocked → buffered_in self.new.buffered ≢ [] }
        ensures short { S.came_short self.old.inner ↔ S.came_short self.new.inner }
    {
        while !self.buffered.is_empty() {
            match self.write_buffered(device) {
                WriteAnswer::Moved(_) => {}
                WriteAnswer::Blocked => return Flushed::Blocked,
                WriteAnswer::Failed => return Flushed::Failed,
            }
        }
        Flushed::All
    }

    /// Writes what is buffered, as far as the inner stream takes it, unless that has failed. Takes no memory that a caller sees.
    pub fn finish<D: Sectors>(&mut self, device: &D)
        ensures { Finishes S.reports S.traffic (D.moment device.now) self.old self.new }
    {
        if !self.has_failed {
            let _ = self.flush(device);
        }
    }

    // Writes what is buffered where there is no room for more. `All` where there is some then.
    fn make_room<D: Sectors>(&mut self, device: &D) -> Flushed
        ensures kept { KeepsBytes S.reports S.traffic (D.moment device.now) self.old self.new }
        ensures why { WhyRoom S.traffic self.old result self.new }
        ensures failed { RoomFails self.old result self.new }
        ensures short { S.came_short self.old.inner ↔ S.came_short self.new.inner }
    {
        if self.buffered.room() > 0 {
            return Flushed::All;
        }
        self.flush(device)
    }

    // Takes bytes from the front. Where nothing is buffered and there are at least `BUFFERED_MAX`, the inner stream takes them.
    fn take_some<D: Sectors>(&mut self, device: &D, from: &[u8]) -> WriteAnswer
        requires { from.now ≢ [] }
        ensures takes { TakesSome S.reports S.traffic (D.moment device.now) self.old from.now result self.new }
        ensures why { WhyTookSome S.traffic self.old result self.new }
        ensures short { S.came_short self.old.inner ↔ S.came_short self.new.inner }
    {
        match self.make_room(device) {
            Flushed::All => {}
            Flushed::Blocked => return WriteAnswer::Blocked,
            Flushed::Failed => return WriteAnswer::Failed,
        }
        if from.len() >= BUFFERED_MAX && self.buffered.is_empty() {
            return self.inner.write(device, from);
        }
        WriteAnswer::Moved(self.buffered.put(from))
    }

    // Takes bytes from the front, no more than are left of the share, and none once what is buffered has failed to leave.
    fn take_in_share<D: Sectors>(&mut self, device: &D, from: &[u8]) -> WriteAnswer
        requires { from.now ≢ [] }
        ensures takes { TakesSome S.reports S.traffic (D.moment device.now) self.old from.now result self.new }
        ensures why { WhyTook S.traffic self.old result self.new }
        ensures share { bytes_written result ≤ self.old.share }
        ensures short { S.came_short self.old.inner ↔ S.came_short self.new.inner }
    {
        let most = from.len().min(self.share);
        if most == 0 {
            return WriteAnswer::Blocked;
        }
        if self.has_failed {
            return WriteAnswer::Failed;
        }
        self.take_some(device, &from[..most])
    }

    // Reads from the inner stream, once nothing is buffered.
    fn give_some<D: Sectors>(&mut self, device: &D, into: &mut [u8]) -> ReadAnswer
        requires { into.old ≢ [] }
        ensures gives { GivesSome S.reports S.traffic (D.moment device.now) self.old into.old result self.new into.new }
        ensures why { WhyGaveSome S.traffic self.old result self.new }
        ensures sound { GivesSoundly S.came_short S.traffic self.old (length into.old) result self.new }
    {
        match self.flush(device) {
            Flushed::All => {}
            Flushed::Blocked => return ReadAnswer::Blocked,
            Flushed::Failed => return ReadAnswer::Failed,
        }
        if self.is_drained {
            return ReadAnswer::Blocked;
        }
        let answer = self.inner.read(device, into);
        if let ReadAnswer::Moved(n) = answer {
            self.is_short = n < into.len() && !self.reads_on;
        }
        answer
    }

    // Reads, while some of the share is left and what is buffered hasn't failed to leave.
    fn give_in_share<D: Sectors>(&mut self, device: &D, into: &mut [u8]) -> ReadAnswer
        requires { into.old ≢ [] }
        ensures gives { GivesSome S.reports S.traffic (D.moment device.now) self.old into.old result self.new into.new }
        ensures why { WhyGave S.traffic self.old result self.new }
        ensures sound { GivesSoundly S.came_short S.traffic self.old (length into.old) result self.new }
    {
        if self.share == 0 {
            ReadAnswer::Blocked
        } else if self.has_failed {
            ReadAnswer::Failed
        } else {
            self.give_some(device, into)
        }
    }
}

impl<S: Stream> Stream for BufferedStream<S> {
    ghost use Rattle.std.specs.Prelude.{◌≡◌, ◌<◌, length, take};
    ghost use Rattle.stream_driver.specs.Traffic.{CountsLast, EndsFor, ReceivesBytes, ReadsWithin, SendsBytes};
    ghost use Rattle.stream_driver.specs.Traffic.{WritesWithin, bytes_read, bytes_written};
    ghost use Rattle.stream_driver.specs.Buffers.{AfterRead, AfterWrite, share_ended, share_of, traffic_through};
    ghost use Rattle.stream_driver.specs.Waits.{HasSoundNotes, ReadStays, SaysWhyBlocked, WriteStays};

    ghost reports = { S.reports };

    ghost keeps_share = { Unit {0} };

    ghost share = { share_of };

    ghost came_short = { λ b. S.came_short b.inner };

    ghost is_sound = { HasSoundNotes S.came_short };

    ghost waits = { SaysWhyBlocked S.came_short S.traffic };

    ghost traffic = { traffic_through S.traffic };

    fn read<D: Sectors>(&mut self, device: &D, into: &mut [u8]) -> ReadAnswer
        requires { 0 < length into.old }
        ensures within { ReadsWithin result (length into.old) }
        ensures moved { S.reports → ReceivesBytes (D.moment device.now) (traffic_through S.traffic self.old)
            (take (bytes_read result) into.new) (traffic_through S.traffic self.new) }
        ensures answered { CountsLast (Call.Read result) (traffic_through S.traffic self.old)
            (traffic_through S.traffic self.new) }
        ensures buffer { AfterRead S.traffic self.old (length into.old) result self.new }
        ensures stays { ReadStays (λ b. S.came_short b.inner) (HasSoundNotes S.came_short)
            (SaysWhyBlocked S.came_short S.traffic) self.old (length into.old) result self.new }
    {
        let answer = self.give_in_share(device, into);
        self.counts.note_read(answer);
        answer
    }

    fn write<D: Sectors>(&mut self, device: &D, from: &[u8]) -> WriteAnswer
        requires { 0 < length from.now }
        ensures within { WritesWithin result (length from.now) }
        ensures moved { S.reports → SendsBytes (D.moment device.now) (traffic_through S.traffic self.old)
            (take (bytes_written result) from.now) (traffic_through S.traffic self.new) }
        ensures answered { CountsLast (Call.Write result) (traffic_through S.traffic self.old)
            (traffic_through S.traffic self.new) }
        ensures buffer { AfterWrite S.traffic self.old result self.new }
        ensures stays { WriteStays (λ b. S.came_short b.inner) (HasSoundNotes S.came_short)
            (SaysWhyBlocked S.came_short S.traffic) self.old self.new }
    {
        let answer = self.take_in_share(device, from);
        if let WriteAnswer::Moved(n) = answer {
            self.is_drained = self.is_drained || self.is_short;
            self.share -= n;
            self.is_writer = self.is_writer && self.appended;
            self.note_taken();
        }
        self.counts.note_write(answer);
        answer
    }

    fn end_share(&mut self, reply: usize, cause: ShareEnd)
        ensures ended { EndsFor cause reply (share_of self.old) (share_of self.new) }
        ensures traffic { traffic_through S.traffic self.new ≡ traffic_through S.traffic self.old }
        ensures share { self.new ≡ share_ended cause reply self.old }
    {
        match cause {
            ShareEnd::Appended => {
                self.is_writer = self.share < self.whole;
                self.appended = true;
            }
            ShareEnd::Looked => self.heavy_for = HEAVY_TURNS,
        }
        self.share = self.share.min(reply);
        self.is_ended = true;
    }
}
