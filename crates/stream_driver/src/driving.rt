//! One drive of a session: it reads, serves requests and writes, until the stream blocks, the session leaves, or 64 requests were served.
ghost use Rattle.std.specs.Prelude.{◌≡◌, ◌≢◌, ◌<◌, length};
ghost use Rattle.sessions.specs.StandsFor.{pending_of, records_of, status_of};
ghost use Rattle.stream_driver.specs.Sessions.{IsPresent, RunLeads, Stands};
ghost use Rattle.stream_driver.specs.Appends.{AppendsOnce, KeepsShare, ServesInShare, ServesOnce, SpendsShare};
ghost use Rattle.stream_driver.specs.Sends.{LeadsAs};
ghost use Rattle.stream_driver.specs.Drives.{Drove, Disconnects};
ghost use Rattle.stream_driver.specs.Calls.{ReadsInTurn, WritesSome, WritesOut, Exchanges, MayBeServed};
ghost use Rattle.stream_driver.specs.Traffic.{ReadsWithin, WritesWithin};
ghost use Rattle.stream_driver.specs.Waits.{StaysSound};

use crate::answers::{Progress, ReadAnswer, WriteAnswer};
use crate::stream::{ShareEnd, Stream};
use sector::Sectors;
use sessions::{Event, Hub, Outcome, Status};

/// The most requests that one drive serves.
pub const REQUESTS_MAX: u32 = 64;

/// The most bytes that one read asks for.
pub const READ_MAX: usize = 4_096;

/// A request that looks at so many pages of keys, behind the first of a range, ends its stream's share of the turn: they take some 40 us.
pub const LOOKED_MAX: u64 = 8;

// How the output of a session stands.
#[derive(Clone, Copy)]
enum OutputState {
    Empty,
    Blocked,
    Failed,
}

// How one request went. `Replied`: it was executed, or was a broken frame, and its reply is pending.
#[derive(Clone, Copy)]
enum Exchange {
    Replied,
    Starved,
    Blocked,
    Failed,
    Ended,
}

// One write of what is pending.
fn write_some<D: Sectors, S: Stream>(hub: &mut Hub<D>, s: u64, stream: &mut S) -> WriteAnswer
    requires present { status_of hub.old s ≢ Status.Absent }
    requires some { 0 < length (pending_of hub.old s) }
    ensures within { WritesWithin result (length (pending_of hub.old s)) }
    ensures written { LeadsAs s S.reports WritesSome result hub.old (S.traffic stream.old) hub.new
        (S.traffic stream.new) }
    ensures spends { Stands hub.old
        → SpendsShare S.keeps_share S.reports S.traffic S.share s hub.old stream.old hub.new stream.new }
    ensures stays { StaysSound S.is_sound S.waits (result ≡ WriteAnswer.Blocked) stream.old stream.new }
{
    hub.law_runs_follow();
    let answer = stream.write(hub.device(), hub.pending(s));
    if let WriteAnswer::Moved(n) = answer {
        let _ = hub.step(&Event::Sent(s, n));
    }
    answer
}

// Writes what is pending, so many bytes, as far as the stream takes them.
fn write_out<D: Sectors, S: Stream>(
    hub: &mut Hub<D>,
    s: u64,
    pending: usize,
    stream: &mut S,
) -> OutputState
    requires present { IsPresent hub.old s }
    requires pending { pending ≡ length (pending_of hub.old s) }
    ensures written { LeadsAs s S.reports WritesOut result hub.old (S.traffic stream.old) hub.new
        (S.traffic stream.new) }
    ensures spends { SpendsShare S.keeps_share S.reports S.traffic S.share s hub.old stream.old hub.new stream.new }
    ensures stays { StaysSound S.is_sound S.waits (result ≡ OutputState.Blocked) stream.old stream.new }
{
    hub.law_runs_follow();
    let mut owed = pending;
    while owed > 0 {
        match write_some(hub, s, stream) {
            WriteAnswer::Moved(n) => owed -= n,
            WriteAnswer::Blocked => return OutputState::Blocked,
            WriteAnswer::Failed => return OutputState::Failed,
        }
    }
    OutputState::Empty
}

// One read into the inbox, which has so much room and holds only the beginning of a request. The bytes come over the buffer.
fn read_some<D: Sectors, S: Stream>(
    hub: &mut Hub<D>,
    s: u64,
    room: usize,
    stream: &mut S,
    buffer: &mut [u8; READ_MAX],
) -> ReadAnswer
    requires { 0 < room }
    ensures within { ReadsWithin result room }
    ensures read { LeadsAs s S.reports (ReadsInTurn room) result hub.old (S.traffic stream.old) hub.new
        (S.traffic stream.new) }
    ensures keeps { Stands hub.old
        → KeepsShare S.keeps_share S.reports S.traffic S.share s hub.old stream.old hub.new stream.new }
    ensures stays { StaysSound S.is_sound S.waits (result ≡ ReadAnswer.Blocked) stream.old stream.new }
{
    hub.law_runs_follow();
    let most = room.min(READ_MAX);
    let piece = &mut buffer[..most];
    let answer = stream.read(hub.device(), piece);
    if let ReadAnswer::Moved(n) = answer {
        let _ = hub.step(&Event::Bytes(s, &piece[..n]));
    }
    answer
}

// Reads until one request can be served, and serves it. The session is open and owes no reply, and its inbox has so much room.
fn serve_one<D: Sectors, S: Stream>(
    hub: &mut Hub<D>,
    s: u64,
    room: usize,
    stream: &mut S,
    buffer: &mut [u8; READ_MAX],
) -> Exchange
    requires { MayBeServed hub.old s room }
    ensures served { LeadsAs s S.reports Exchanges result hub.old (S.traffic stream.old) hub.new
        (S.traffic stream.new) }
    ensures once { ServesOnce S.keeps_share S.reports S.traffic S.share s hub.old stream.old result hub.new stream.new }
    ensures stays { StaysSound S.is_sound S.waits (result ≡ Exchange.Blocked) stream.old stream.new }
{
    hub.law_runs_follow();
    let mut room = room;
    loop {
        match hub.step(&Event::Serve(s)) {
            Outcome::Done => return Exchange::Replied,
            Outcome::Memory => return Exchange::Starved,
            _ => {}
        }
        match read_some(hub, s, room, stream, buffer) {
            ReadAnswer::Moved(n) => room -= n,
            ReadAnswer::Blocked => return Exchange::Blocked,
            ReadAnswer::Failed => return Exchange::Failed,
            ReadAnswer::Ended => return Exchange::Ended,
        }
    }
}

// As `serve_one`. Where the request appended a record to the log, or looked at `LOOKED_MAX` pages, the reply to it is the last that the
// stream's share takes.
fn serve_in_share<D: Sectors, S: Stream>(
    hub: &mut Hub<D>,
    s: u64,
    room: usize,
    stream: &mut S,
    buffer: &mut [u8; READ_MAX],
) -> Exchange
    requires { MayBeServed hub.old s room }
    ensures served { LeadsAs s S.reports Exchanges result hub.old (S.traffic stream.old) hub.new
        (S.traffic stream.new) }
    ensures once { ServesInShare S.keeps_share S.reports S.traffic S.share s hub.old stream.old result hub.new
        stream.new }
    ensures stays { StaysSound S.is_sound S.waits (result ≡ Exchange.Blocked) stream.old stream.new }
{
    let records = hub.records();
    let looked_at = hub.pages_looked_at();
    let exchange = serve_one(hub, s, room, stream, buffer);
    if hub.records() != records {
        stream.end_share(hub.pending(s).len(), ShareEnd::Appended);
    } else if hub.pages_looked_at().saturating_sub(looked_at) >= LOOKED_MAX {
        stream.end_share(hub.pending(s).len(), ShareEnd::Looked);
    }
    exchange
}

// The session leaves.
fn disconnect<D: Sectors>(hub: &mut Hub<D>, s: u64) -> Progress
    ensures answer { result ≡ Progress.Gone }
    ensures left { RunLeads hub.old hub.new (λ h k. Disconnects s h k) }
    ensures records { Stands hub.old → records_of hub.new ≡ records_of hub.old }
{
    let _ = hub.step(&Event::Left(s));
    Progress::Gone
}

// As `drive`, with a buffer for what is read. It stands by itself, so that what is asked of each entry of a table costs no call.
#[inline(never)]
pub(crate) fn drive_over<D: Sectors, S: Stream>(
    hub: &mut Hub<D>,
    s: u64,
    stream: &mut S,
    buffer: &mut [u8; READ_MAX],
) -> Progress
    requires { IsPresent hub.old s }
    ensures driven { LeadsAs s S.reports Drove result hub.old (S.traffic stream.old) hub.new (S.traffic stream.new) }
    ensures appends { S.keeps_share → AppendsOnce S.reports S.traffic S.share hub.old stream.old hub.new stream.new }
    ensures stays { StaysSound S.is_sound S.waits (result ≡ Progress.Waiting) stream.old stream.new }
{
    hub.law_runs_follow();
    'requests: for _served in 0..REQUESTS_MAX {
        let view = hub.view(s);
        match write_out(hub, s, view.pending, stream) {
            OutputState::Empty => {}
            OutputState::Blocked => return Progress::Waiting,
            OutputState::Failed => return disconnect(hub, s),
        }
        match view.status {
            Status::Open => {}
            _ => return disconnect(hub, s),
        }
        match serve_in_share(hub, s, view.room, stream, buffer) {
            Exchange::Replied => {}
            Exchange::Blocked => return Progress::Waiting,
            _ => return disconnect(hub, s),
        }
    }
    let view = hub.view(s);
    match write_out(hub, s, view.pending, stream) {
        OutputState::Empty => {}
        OutputState::Blocked => return Progress::Waiting,
        OutputState::Failed => return disconnect(hub, s),
    }
    match view.status {
        Status::Open => Progress::Again,
        _ => disconnect(hub, s),
    }
}

/// Carries bytes between a stream and a session that is present, until the stream blocks, the session has left, or `REQUESTS_MAX`
/// requests were served and their replies sent.
///
/// It writes what is pending; where nothing is, it serves a request; where the inbox holds only the beginning of one, it reads, at most
/// `READ_MAX` bytes and never more than the inbox has room for. A call of the stream that moves no bytes is the last of the drive.
///
/// `Waiting` where a write blocked, or a read while the inbox held only the beginning of a request. `Again` where the session is open and
/// owes no reply after `REQUESTS_MAX` requests. `Gone` where the session has left, which aborts its transaction: a call of the stream
/// failed, the stream ended (what was read of a request is dropped), a request was refused memory, or there was a broken frame, whose reply
/// is written. Other sessions are unchanged.
///
/// Where a request appends a record to the log, which syncs, or looks at `LOOKED_MAX` pages of keys, the stream's share of the turn is
/// ended with the reply (`Stream::end_share`). A stream that keeps to that takes no other reply in this drive, so a drive appends one
/// record at most. The next reply blocks, and the drive ends. Where no share was ended, what is gone of it was sent.
///
/// Its events are a run of the hub: lawful at each moment, with the device's failures counted, and what a crash leaves known.
///
/// It may grow what the requests grow, and the output of the session.
///
/// Where it answers `Waiting`, the stream can say why its last call blocked, if its notes were sound before.
///
/// Where the stream tells what it moves, what leaves for the peer had been answered: the run passes a hub whose device stood as it did
/// when the bytes left, and by then the session had been answered them.
pub fn drive<D: Sectors, S: Stream>(hub: &mut Hub<D>, s: u64, stream: &mut S) -> Progress
    requires { IsPresent hub.old s }
    ensures driven { LeadsAs s S.reports Drove result hub.old (S.traffic stream.old) hub.new (S.traffic stream.new) }
    ensures appends { S.keeps_share → AppendsOnce S.reports S.traffic S.share hub.old stream.old hub.new stream.new }
    ensures stays { StaysSound S.is_sound S.waits (result ≡ Progress.Waiting) stream.old stream.new }
{
    let mut buffer = [0u8; READ_MAX];
    drive_over(hub, s, stream, &mut buffer)
}
