//! The table of connections: which are admitted, which become ready, and which are taken out.
ghost use Rattle.std.specs.Prelude.{◌≡◌, ◌<◌, ◌||◌, ℕ, MatchResult, OnOk};
ghost use Rattle.mio.specs.Event.{is_priority, is_read_closed};
ghost use Rattle.mio.specs.Events.{items};
ghost use Rattle.slab.specs.Slab.{HasRoomFor};
ghost use Rattle.stream_driver.specs.Buffers.{IsNew};
ghost use Rattle.event_loop.specs.Accepts.{more};
ghost use Rattle.event_loop.specs.Leavings.{EndAll, EndsAt};
ghost use Rattle.event_loop.specs.Lingerings.{lingers_in};
ghost use Rattle.event_loop.specs.Sockets.{IsNewSocket, SocketsReport, traffic_of};
ghost use Rattle.event_loop.specs.Tables.{AcceptsInto, Comes, ComesAs, EachEnds, IsOutsideCause, TableStands};
ghost use Rattle.event_loop.specs.Tables.{after_poll, is_any_ready, refusals_as};
ghost use Rattle.event_loop.specs.Tables.{is_ready as is_ready_in, slot_at, reported};

use crate::lingering::Lingering;
use crate::listener::{AcceptAnswer, Listener};
use crate::socket::Socket;
use mio::{Events, Token, event};
use sector::Sectors;
use sessions::{Event, Hub, Outcome, SESSIONS_MAX};
use slab::Slab;
use socket_calls::{AcceptedSocket, CountedPoll};
use std::alloc::Global;
use stream_driver::{BufferedStream, Entry, EntryState, Stream, end_drive};

/// The token of the connections that linger, which no key of the table is.
pub(crate) const LINGERER: Token = Token(usize::MAX - 1);

/// What a listener may still hold. The poll reports a change alone, so it is kept from turn to turn.
#[derive(Clone, Copy, PartialEq, Eq, Debug)]
pub enum Backlog {
    /// Nothing, until the poll reports the listener.
    Empty,
    /// More: as many were accepted as one turn accepts.
    More,
    /// More: an accept failed.
    Failed,
}

// Is it to be driven?
fn is_ready(entry: &Entry<BufferedStream<Socket>>) -> bool
    ensures { result ≡ is_ready_in entry.now.state }
{
    entry.state == EntryState::Ready
}

/// Is an entry to be driven?
pub(crate) fn any_ready(table: &Slab<Entry<BufferedStream<Socket>>>) -> bool
    ensures { result ≡ is_any_ready table.now }
{
    for (_key, entry) in table.iter() {
        if is_ready(entry) {
            return true;
        }
    }
    false
}

// Does an event report urgent bytes, at which a read ends early, or that the peer has ended, which no other event may report?
fn reports_to_read_on(event: &event::Event) -> bool
    ensures { result ≡ (is_priority event.now || is_read_closed event.now) }
{
    event.is_priority() || event.is_read_closed()
}

// The poll reported an entry: if it waited, it is to be driven.
fn make_ready(entry: &mut Entry<BufferedStream<Socket>>, reads_on: bool)
    ensures { entry.new ≡ reported reads_on entry.old }
{
    if entry.state == EntryState::Idle {
        entry.state = EntryState::Ready;
    }
    if reads_on {
        entry.stream.read_on();
    }
}

/// Makes the entries ready that wait and that the poll reports, and no others. Those for which it reports urgent bytes, or that no more
/// will come, are read until their streams block or end. Takes no memory.
pub(crate) fn make_polled_ready(events: &Events, table: &mut Slab<Entry<BufferedStream<Socket>>>)
    ensures { (key : ℕ)
        → slot_at table.new.slots key ≡ after_poll (items events.now) key (slot_at table.old.slots key) }
{
    for event in events {
        let Token(key) = event.token();
        if let Some(entry) = table.get_mut(key) {
            make_ready(entry, reports_to_read_on(event));
        }
    }
}

// Ends the drive of the entry at a key, if there is one, and takes it out if it is over.
fn end_drive_at<D: Sectors>(
    device: &D,
    poll: &CountedPoll,
    key: usize,
    table: &mut Slab<Entry<BufferedStream<Socket>>>,
    lingering: &mut Lingering,
)
    ensures { EndsAt (D.moment device.now) key table.old.slots (lingers_in lingering.old) table.new.slots
        (lingers_in lingering.new) }
{
    let Some(entry) = table.get_mut(key) else {
        return;
    };
    if !end_drive(device, entry) {
        return;
    }
    if let Some(entry) = table.try_remove(key) {
        lingering.begin(poll, entry.stream.into_inner());
    }
}

/// Ends the drives of a turn: makes the entries ready again that wait only as their streams have had their share of it, writes what the
/// streams buffer, but for those that wait, and takes the entries out that are gone and whose streams buffer nothing or failed, and no
/// others. Connections that ended in good order linger, and the others are closed. Takes no memory.
pub(crate) fn end_drives<D: Sectors>(
    device: &D,
    poll: &CountedPoll,
    table: &mut Slab<Entry<BufferedStream<Socket>>>,
    lingering: &mut Lingering,
)
    ensures ended { EachEnds SocketsReport traffic_of (D.moment device.now) table.old.slots table.new.slots }
    ensures left { EndAll (D.moment device.now) table.old.slots (lingers_in lingering.old) table.new.slots
        (lingers_in lingering.new) }
{
    for key in 0..table.capacity() {
        end_drive_at(device, poll, key, table, lingering);
    }
}

/// Accepts at most `SESSIONS_MAX` connections of a listener, each under the next number, and says what the listener may still hold: `More`
/// where it accepted that many, `Empty` where none waits, `Failed` where a call failed.
///
/// Each connection that an accept gave, in the order of the accepts, is let in with a session that joins, and registered with the poll
/// under its key in the table, or turned away, and nothing else happens to the hub and the table. One for which there is no place, or that
/// is refused for memory or by the system, is closed, and these refusals are counted. It may grow the table, and takes the memory of the
/// sessions and of their streams.
pub fn accept_some<D: Sectors, L: Listener>(
    alloc: Global,
    poll: &CountedPoll,
    listener: &mut L,
    hub: &mut Hub<D>,
    next: &mut u64,
    refused: &mut u64,
    table: &mut Slab<Entry<BufferedStream<Socket>>>,
) -> Backlog
    requires { TableStands hub.old next.old table.old.slots }
    ensures accepts { AcceptsInto IsNewSocket L.answers L.accepts hub.old next.old table.old.slots refused.old
        listener.old result hub.new next.new table.new.slots refused.new listener.new }
    ensures table { TableStands hub.new next.new table.new.slots }
{
    hub.law_runs_follow();
    for _accepted in 0..SESSIONS_MAX {
        match listener.accept() {
            AcceptAnswer::Accepted(accepted) => {
                admit(alloc, poll, accepted, hub, next, refused, table)
            }
            AcceptAnswer::Blocked => return Backlog::Empty,
            AcceptAnswer::Failed => return Backlog::Failed,
        }
    }
    Backlog::More
}

/// Why a connection is turned away.
#[derive(Clone, Copy, PartialEq, Eq, Debug)]
pub enum Refusal {
    /// No number is left for its session.
    Numbers,
    /// There are as many entries as may be.
    Full,
    /// There was no memory for it, or the next place of the table is none that an entry may have.
    Room,
    /// The system refused to report it, or to set an option of it.
    System,
    /// The hub refused its session.
    Session,
}

// A stream of a connection, which buffers nothing. It is refused for memory alone.
fn buffered(alloc: Global, socket: Socket) -> Result<BufferedStream<Socket>, Refusal>
    ensures { MatchResult result (IsNew socket) (λ refusal. refusal ≡ Refusal.Room) }
{
    match BufferedStream::new(alloc, socket) {
        Ok(stream) => Ok(stream),
        Err(_) => Err(Refusal::Room),
    }
}

// The stream of a connection under this number, which the poll reports under this key. It wasn't read or written, sends what is written at
// once, and ends where its peer vanishes. It is refused for memory, or by the system.
fn prepare(
    alloc: Global,
    poll: &CountedPoll,
    accepted: AcceptedSocket,
    number: u64,
    key: usize,
) -> Result<BufferedStream<Socket>, Refusal>
    ensures { MatchResult result (IsNewSocket accepted key number) IsOutsideCause }
{
    let mut socket = Socket::new(accepted, number);
    match socket.set_up(poll, Token(key)) {
        Ok(()) => buffered(alloc, socket),
        Err(_) => Err(Refusal::System),
    }
}

// A place in the table for the stream of a connection under this number, which the poll reports under the key of that place. It is refused
// for memory, or by the system.
fn make_place(
    alloc: Global,
    poll: &CountedPoll,
    accepted: AcceptedSocket,
    number: u64,
    table: &mut Slab<Entry<BufferedStream<Socket>>>,
) -> Result<BufferedStream<Socket>, Refusal>
    ensures fresh { MatchResult result (IsNewSocket accepted table.new.vacant_key number) IsOutsideCause }
    ensures place { OnOk result (HasRoomFor table.new 1 × (table.new.vacant_key < SESSIONS_MAX)) }
    ensures slots { table.new.slots ≡ table.old.slots }
{
    let key = table.vacant_key();
    if key >= SESSIONS_MAX || table.reserve(1).is_err() {
        return Err(Refusal::Room);
    }
    prepare(alloc, poll, accepted, number, key)
}

// A connection becomes a session, or it is closed, for the cause that is answered.
fn let_in<D: Sectors>(
    alloc: Global,
    poll: &CountedPoll,
    accepted: AcceptedSocket,
    hub: &mut Hub<D>,
    next: &mut u64,
    table: &mut Slab<Entry<BufferedStream<Socket>>>,
) -> Result<(), Refusal>
    ensures { ComesAs (IsNewSocket accepted) hub.old next.old table.old.slots result hub.new next.new table.new.slots }
{
    hub.law_runs_follow();
    let session = *next;
    if session == u64::MAX {
        return Err(Refusal::Numbers);
    }
    if table.len() >= SESSIONS_MAX {
        return Err(Refusal::Full);
    }
    let stream = match make_place(alloc, poll, accepted, session, table) {
        Ok(stream) => stream,
        Err(refusal) => return Err(refusal),
    };
    match hub.step(&Event::Joined(session)) {
        Outcome::Done => {}
        _ => return Err(Refusal::Session),
    }
    *next = session + 1;
    table.insert_reserved(Entry {
        session,
        stream,
        state: EntryState::Ready,
    });
    Ok(())
}

// Counts a refusal for memory or by the system.
fn count_refusal(answer: Result<(), Refusal>, refused: &mut u64)
    ensures { refused.new ≡ more (refusals_as answer) refused.old }
{
    if let Err(Refusal::Room | Refusal::System) = answer {
        *refused = refused.saturating_add(1);
    }
}

// A connection comes. It becomes a session, or it is closed; a refusal for memory or by the system is counted.
fn admit<D: Sectors>(
    alloc: Global,
    poll: &CountedPoll,
    accepted: AcceptedSocket,
    hub: &mut Hub<D>,
    next: &mut u64,
    refused: &mut u64,
    table: &mut Slab<Entry<BufferedStream<Socket>>>,
)
    ensures { Comes (IsNewSocket accepted) hub.old next.old table.old.slots refused.old hub.new next.new table.new.slots
        refused.new }
{
    let answer = let_in(alloc, poll, accepted, hub, next, table);
    count_refusal(answer, refused);
}
