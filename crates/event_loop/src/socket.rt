//! A TCP connection as a stream, which passes on the system's answers and counts them.

ghost use Rattle.std.specs.Prelude.{◌≡◌, ◌≤◌, ◌↔◌, ℕ, true};
ghost use Rattle.std.specs.IoError.{error_kind};
ghost use Rattle.std.specs.declared.io.ErrorKind.TheVariants.{WouldBlock};
ghost use Rattle.stream_driver.specs.Traffic.{ReadsWithin, WritesWithin, bytes_read, bytes_written};
ghost use Rattle.stream_driver.specs.Waits.{ComesShort};
ghost use Rattle.socket_calls.specs.OpenFacts.{moved};
ghost use Rattle.event_loop.specs.Outcomes.{ReadsAs, WritesAs};

use mio::{Interest, Token};
use sector::Sectors;
use socket_calls::{AcceptedSocket, CountedPoll, CountedSocket};
use std::io::{self, ErrorKind};
use stream_driver::{CallCounts, ReadAnswer, ShareEnd, Stream, WriteAnswer};

/// For how many seconds a peer is silent before the system asks whether it is still there.
const SILENT_SECONDS: u32 = 120;

/// How many seconds lie between two such probes.
const SECONDS_BETWEEN_PROBES: u32 = 30;

/// How many of them go without an answer where the peer is gone.
const PROBES: u32 = 4;

/// A TCP connection as a stream. That its calls move the bytes that its traffic tells is a premise of whoever relies on it: neither claimed
/// here nor denied. An interrupted call, and a write of no byte, are `Failed`; a read of none is `Ended`.
#[derive(Drop)]
pub struct Socket {
    socket: CountedSocket,
    counts: CallCounts,
    /// The last of its reads that moved bytes gave fewer than it asked for. Nothing but clauses reads it.
    came_short: bool,
}

impl Socket {
    ghost use Rattle.stream_driver.specs.Traffic.{IsUncalled};
    ghost use Rattle.std.specs.Prelude.{IfErr, OnOk};
    ghost use Rattle.socket_calls.specs.HappenedCalls.{AsksWhetherThere, SendsAtOnce, SocketAnswered, WasRegistered};
    ghost use Rattle.socket_calls.specs.OpenFacts.{IsConnectionOf};
    ghost use Rattle.event_loop.specs.Lingerings.{IsHealthy};
    ghost use Rattle.event_loop.specs.Sockets.{IsHalfClosed, IsSetUp, SocketsReport, all_interests, traffic_of};

    /// The connection under this number, of which nothing has been counted. Takes no memory.
    pub fn new(accepted: AcceptedSocket, connection: u64) -> Socket
        ensures uncalled { IsUncalled SocketsReport connection (traffic_of result) }
        ensures connection { IsConnectionOf accepted result.socket }
    {
        Socket {
            socket: CountedSocket::new(accepted, connection),
            counts: CallCounts::new(),
            came_short: false,
        }
    }

    /// Has the poll report under this token what comes in, urgent bytes among it, and room for what goes. Answers the system's error.
    pub(crate) fn register(&mut self, poll: &CountedPoll, token: Token) -> io::Result<()>
        ensures same { self.new ≡ self.old }
        ensures registered { OnOk result (WasRegistered self.old.socket token all_interests) }
        ensures error { IfErr result (λ e. SocketAnswered e) }
    {
        let interests = Interest::READABLE | Interest::WRITABLE | Interest::PRIORITY;
        self.socket.register(poll, token, interests)
    }

    /// Has the system send at once what is written. Answers the system's error.
    pub(crate) fn send_at_once(&self) -> io::Result<()>
        ensures sends { OnOk result (SendsAtOnce self.now.socket) }
        ensures error { IfErr result (λ e. SocketAnswered e) }
    {
        self.socket.send_at_once()
    }

    /// Has the system ask the peer whether it is still there once it was silent for two minutes, and again each half minute: a peer that
    /// vanished is gone for good at the fourth probe without an answer, four minutes after its last byte. Answers the system's error.
    pub(crate) fn ask_whether_there(&self) -> io::Result<()>
        ensures asks { OnOk result (AsksWhetherThere self.now.socket SILENT_SECONDS SECONDS_BETWEEN_PROBES PROBES) }
        ensures error { IfErr result (λ e. SocketAnswered e) }
    {
        self.socket
            .ask_whether_there(SILENT_SECONDS, SECONDS_BETWEEN_PROBES, PROBES)
    }

    /// Has no call failed, and no read ended?
    pub(crate) fn is_in_order(&self) -> bool
        ensures { (result ≡ true) ↔ IsHealthy (traffic_of self.now) }
    {
        let counts = &self.counts;
        counts.read_failed == 0 && counts.read_ended == 0 && counts.write_failed == 0
    }

    /// Has the poll report it under this token, has the system send at once what is written, and ask a silent peer whether it is still
    /// there. Answers the system's error, the first that comes.
    pub(crate) fn set_up(&mut self, poll: &CountedPoll, token: Token) -> io::Result<()>
        ensures same { self.new ≡ self.old }
        ensures set_up { OnOk result (IsSetUp token self.old.socket) }
        ensures error { IfErr result (λ e. SocketAnswered e) }
    {
        self.register(poll, token)?;
        self.send_at_once()?;
        self.ask_whether_there()
    }

    /// Shuts the connection down for writing once what was written has gone, and has the poll report under this token what still comes.
    pub(crate) fn half_close(&mut self, poll: &CountedPoll, token: Token) -> io::Result<()>
        ensures same { self.new ≡ self.old }
        ensures half_closed { OnOk result (IsHalfClosed token self.old.socket) }
        ensures error { IfErr result (λ e. SocketAnswered e) }
    {
        self.socket.end_writing()?;
        self.socket.reregister(poll, token, Interest::READABLE)
    }
}

/// Would a call that gave this error have waited?
pub(crate) fn would_wait(error: &io::Error) -> bool
    ensures { (result ≡ true) ↔ (error_kind error.now ≡ WouldBlock) }
{
    matches!(error.kind(), ErrorKind::WouldBlock)
}

// What a read answers where the system answers so.
fn read_answer(outcome: io::Result<usize>) -> ReadAnswer
    ensures answers { ReadsAs outcome result }
    ensures bytes { bytes_read result ≡ moved outcome }
    ensures within { (len : ℕ) → moved outcome ≤ len → ReadsWithin result len }
{
    match outcome {
        Ok(0) => ReadAnswer::Ended,
        Ok(n) => ReadAnswer::Moved(n),
        Err(error) if would_wait(&error) => ReadAnswer::Blocked,
        Err(_) => ReadAnswer::Failed,
    }
}

// Did the last read that moved bytes come short, after one of so many bytes that answers so?
fn comes_short(before: bool, asked: usize, answer: ReadAnswer) -> bool
    ensures { ComesShort (λ b. b ≡ true) before asked answer result }
{
    match answer {
        ReadAnswer::Moved(n) => n < asked,
        _ => before,
    }
}

// What a write answers where the system answers so.
fn write_answer(outcome: io::Result<usize>) -> WriteAnswer
    ensures answers { WritesAs outcome result }
    ensures bytes { bytes_written result ≡ moved outcome }
    ensures within { (len : ℕ) → moved outcome ≤ len → WritesWithin result len }
{
    match outcome {
        Ok(0) => WriteAnswer::Failed,
        Ok(n) => WriteAnswer::Moved(n),
        Err(error) if would_wait(&error) => WriteAnswer::Blocked,
        Err(_) => WriteAnswer::Failed,
    }
}

impl Stream for Socket {
    ghost use Rattle.std.specs.Prelude.{false};
    ghost use Rattle.event_loop.specs.Sockets.{CameShort, SocketsReport, traffic_of};

    ghost reports = { SocketsReport };

    ghost keeps_share = { ⊥ };

    ghost share = { λ s. record { left = 0; ended = false; appended = false } };

    ghost came_short = { CameShort };

    ghost is_sound = { λ s. Unit {0} };

    ghost waits = { λ s. Unit {0} };

    ghost traffic = { traffic_of };

    fn read<D: Sectors>(&mut self, device: &D, into: &mut [u8]) -> ReadAnswer {
        // Shown for the contract alone: a read moves nothing to the peer.
        let _ = device;
        let asked = into.len();
        let answer = read_answer(self.socket.read(into));
        self.came_short = comes_short(self.came_short, asked, answer);
        self.counts.note_read(answer);
        answer
    }

    fn write<D: Sectors>(&mut self, device: &D, from: &[u8]) -> WriteAnswer {
        let answer = write_answer(self.socket.write(device, from));
        self.counts.note_write(answer);
        answer
    }

    fn end_share(&mut self, reply: usize, cause: ShareEnd) {
        // A socket has no share of a turn that could end.
        let _ = (reply, cause);
    }
}
