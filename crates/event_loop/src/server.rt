//! The event loop, and one turn of it.
ghost use Rattle.std.specs.Prelude.{◌+◌, ◌*◌, ◌<◌, ◌≤◌};
ghost use Rattle.mio.specs.Events.{capacity as events_capacity};
ghost use Rattle.sessions.specs.declared.events.TheConstants.{SESSIONS_MAX};
ghost use Rattle.stream_driver.specs.Sessions.{Stands};
ghost use Rattle.stream_driver.specs.Entries.{HaveSessions};
ghost use Rattle.event_loop.specs.declared.lingering.TheConstants.{LINGERING_MAX};
ghost use Rattle.event_loop.specs.declared.order.TheConstants.{WIDTH_MIN, WIDTH_PARTS};
ghost use Rattle.event_loop.specs.Departures.{IsServing};
ghost use Rattle.event_loop.specs.Numbers.{SessionsAreBelow, HaveTablePlaces};
ghost use Rattle.event_loop.specs.Peers.{AreRested, LackNothing};
ghost use Rattle.event_loop.specs.Tables.{HaveEntries};

use crate::connections::{
    Backlog, LINGERER, accept_some, any_ready, end_drives, make_polled_ready,
};
use crate::lingering::Lingering;
use crate::listener::Port;
use crate::listening::{Listening, Unbound};
use crate::order::{
    Turns, WIDTH_MIN, WIDTH_PARTS, classes_of, heavy_streams, law_each_comes_nearer, next_turns,
    next_width, take_turns,
};
use crate::polling::Poller;
use crate::socket::Socket;
use crate::spare::Spare;
use crate::waiting::longest_wait;
use mio::Token;
use sector::Sectors;
use sessions::Hub;
use slab::Slab;
use std::alloc::Global;
use std::io;
use std::net::{Net, SocketAddr};
use std::time::Duration;
use stream_driver::{BufferedStream, Entry, Stream, drive_ready_then};

/// The token of the listener, which no key of the table is.
pub(crate) const LISTENER: Token = Token(usize::MAX);

/// A listener, its connections, and the hub of their sessions.
#[derive(Drop)]
pub struct EventLoop<D: Sectors> {
    alloc: Global,
    poller: Poller,
    port: Port,
    backlog: Backlog,
    lingering: Lingering,
    hub: Hub<D>,
    /// Was garbage of the store left at the end of the last turn?
    has_garbage: bool,
    /// The number of the next session.
    next: u64,
    /// How many connections were turned away as memory, registration or an option of the socket was refused. It stays at 2^64 - 1.
    refused: u64,
    /// Who of those that take turns had the last.
    turns: Turns,
    /// How many of those that take no turns the next one drives, in parts of `WIDTH_PARTS`.
    next_width: usize,
    /// A block that is asked for again at the end of each turn, so that the C library joins what the turn has freed.
    spare: Spare,
    table: Slab<Entry<BufferedStream<Socket>>>,
    ghost room: { SESSIONS_MAX + LINGERING_MAX + 1 ≤ events_capacity poller.events },
    ghost stands: { Stands hub },
    ghost serving: { IsServing hub table.slots lingering.queue.items },
    ghost sessions: { HaveSessions hub table.slots },
    ghost entries: { HaveEntries hub table.slots },
    ghost numbers: { SessionsAreBelow next table.slots },
    ghost places: { HaveTablePlaces table.slots },
    ghost peers: { LackNothing hub table.slots },
    ghost rested: { AreRested table.slots },
    ghost next_place: { turns.next < SESSIONS_MAX },
    ghost beside_place: { turns.beside < SESSIONS_MAX },
    ghost width: { (WIDTH_MIN ≤ turns.width) × (turns.width ≤ SESSIONS_MAX) },
    ghost width_next: { (WIDTH_MIN * WIDTH_PARTS ≤ next_width) × (next_width ≤ SESSIONS_MAX * WIDTH_PARTS) },
}

impl<D: Sectors> EventLoop<D> {
    ghost use Rattle.std.specs.Prelude.{◌≡◌, true, IfOk, MatchResult, OnOk, OnErr};
    ghost use Rattle.mio.specs.Events.{items};
    ghost use Rattle.sessions.specs.Laws.{CollectsStep};
    ghost use Rattle.sessions.specs.Restarts.{IsOpened, IsServed};
    ghost use Rattle.sessions.specs.SessionStreams.{HubState};
    ghost use Rattle.sessions.specs.StandsFor.{StandsFor, device};
    ghost use Rattle.event_loop.specs.AllThatLeft.{HaveOneRun};
    ghost use Rattle.event_loop.specs.Lingerings.{lingers_in, unless_failed};
    ghost use Rattle.event_loop.specs.Loops.{HasItsSessions, HasAddress, ListensFor, hub_of};
    ghost use Rattle.event_loop.specs.Sockets.{SocketsReport};
    ghost use Rattle.event_loop.specs.TableBytes.{KeepBytes};
    ghost use Rattle.event_loop.specs.Turns.{Accepted, DrivesAndEnds, EndsWithGarbage, IsTurn, IsUntouched};
    ghost use Rattle.event_loop.specs.Turns.{KeepsTurns};
    ghost use Rattle.event_loop.specs.Turns.{Rests};
    ghost use Rattle.event_loop.specs.Turns.{EachBecomesReady, EachGetsOn, EachHasItsTurn, TurnsAreRuns, Waits};
    ghost use Rattle.event_loop.specs.Turns.{accepts_now, has_work, is_reported_of, turn_waits};
    ghost use Rattle.event_loop.specs.Waits.{nanos_of};

    /// Listens at an address for the sessions of a hub that was opened. Port 0 stands for one that the system picks. The poll reports the
    /// listener under a key that no entry of the table has.
    ///
    /// A fault is the system's, or out of memory, which is `OutOfMemory`; the hub is given back with it, as it was. It takes memory for the
    /// events of one poll, and for the connections that linger.
    pub fn bind<R: Net>(
        rt: &R,
        alloc: Global,
        address: SocketAddr,
        hub: Hub<D>,
    ) -> Result<EventLoop<D>, Unbound<D>>
        requires { IsOpened hub }
        ensures hub { MatchResult result (λ events. hub_of events ≡ hub) (λ unbound. unbound.hub ≡ hub) }
        ensures listens { IfOk result (λ events. ListensFor events address) }
    {
        hub.law_runs_follow();
        match Listening::at(rt, alloc, address) {
            Ok(listening) => Ok(EventLoop {
                alloc,
                poller: listening.poller,
                port: listening.port,
                backlog: Backlog::Empty,
                lingering: listening.lingering,
                hub,
                has_garbage: false,
                next: 0,
                refused: 0,
                turns: Turns::new(),
                next_width: WIDTH_MIN * WIDTH_PARTS,
                spare: Spare::none(),
                table: Slab::new(alloc),
            }),
            Err(error) => Err(Unbound { error, hub }),
        }
    }

    /// The address that it listens at. A fault is the system's. Takes no memory.
    pub fn address(&self) -> io::Result<SocketAddr>
        ensures { IfOk result (λ address. HasAddress self.now address) }
    {
        self.port.address()
    }

    /// How many connections it has closed as memory, registration or an option of the socket was refused. Takes no memory.
    pub fn refused(&self) -> u64
        ensures { result ≡ self.now.refused }
    {
        self.refused
    }

    /// Has the store stopped? Takes no memory.
    pub fn stopped(&self) -> bool
        ensures { (h : HubState) → StandsFor (hub_of self.now) h → result ≡ h.machine.stopped }
    {
        self.hub.stopped()
    }

    /// One turn: polls, drives each session that is ready and whose turn it is once, writes what their streams buffer, takes out those that
    /// have left and buffer nothing, and accepts at most 128 connections, which the next turn drives.
    ///
    /// It is the turn of those that have written nothing and whose last drives were short, of one at most that writes, and of one at most
    /// whose stream is heavy (`BufferedStream`). So nobody waits for more than one of each, and for what the others have of the turn:
    /// `LIGHT_MAX` bytes each, and `SHARE_MAX` for these two. Those write whose open transaction has written, or whose last drive that was
    /// answered appended a record behind another reply. Of the two kinds together the next by key, round the table, has its turn, and
    /// beside it one of the other kind; the rest are ready in the next turn, which doesn't wait. So each is driven within as many turns as
    /// the table has places, and one (`law_each_has_its_turn`). An append ends the share of its stream, so what comes behind it in one
    /// piece waits for a later turn. So a turn appends one record at most for the one that writes, and one for each other that comes with
    /// a write and its COMMIT in one piece. That one takes turns from then on, until a drive answers it that appends nothing, or appends
    /// with its first reply, for a transaction that had written before. The one that writes is driven behind the others, so that none of
    /// them waits for its syncs.
    ///
    /// A request that looks at `LOOKED_MAX` pages of keys ends the share of its stream, too, however short its reply is, and the stream is
    /// heavy from then on. The next reply of it waits for a later drive.
    ///
    /// Of those that take no turns it drives as many as it is wide, `WIDTH_MIN` at least, with the least keys. The others are late: they
    /// take turns until they have had one, and of them it drives one less than it is wide besides. It is wider after a turn that drove as
    /// many as it might, and as narrow as may be after one in which several streams turned out heavy. So a crowd whose first requests are
    /// all large waits in turns, and who comes after it doesn't wait for it.
    ///
    /// It drives before it accepts: so an event of this poll can't be taken for one of a connection that came since under the same key,
    /// and the places of those that left are free for those that come.
    ///
    /// At its end it frees what no open transaction needs, a step of it (`Hub::reclaim_step`). So turns go on with that, also where no
    /// session sends anything, until no garbage is left. Where the turn before it left garbage, or it does, and in one of `SPARE_TURNS`
    /// other turns, it then asks for a block in place of the last such (`Spare`); a refusal of that changes nothing.
    ///
    /// It waits for no more than `timeout`, without end where none is given. It doesn't wait at all where a session is still ready, where
    /// 128 connections were accepted last time, or where the turn before it has left garbage, or more input to drop. After an accept that
    /// fails, the next turn waits for no more than `RETRY_AFTER_MILLIS` and accepts again. A connection beyond 128 sessions, or for which
    /// memory, registration or an option of the socket is refused, is closed without a byte.
    ///
    /// The connection of a session that left is closed once its stream buffers nothing, or has failed. Where none of its calls failed and
    /// its peer has not ended, it lingers first: it is shut down for writing, and what comes in is dropped, at most
    /// `LINGERING_BYTES_A_TURN` a turn, so that the last replies arrive. It is closed where the peer ends, after `LINGERING_BYTES` bytes,
    /// where `LINGERING_MAX` others have come to linger since, or where an accept fails, perhaps because there are no more descriptors. No
    /// time bounds it: a peer that never ends holds a descriptor until then.
    ///
    /// It polls once, and answers a fault exactly where that failed, of that fault's kind; nothing else was done then. It may grow the
    /// table, and what the sessions' requests grow.
    ///
    /// The hub's events are those of the drives, each of its own session over its own stream, and then the joins of the accepts, and no
    /// others: which entries are ready is what the poll reported and whose turn it is. No entry is taken out but one whose session has
    /// left. Before the turn and after it the entries that aren't gone are those of the hub's sessions, so that none is lost or made up.
    ///
    /// Whatever the connections send, and however their bytes are cut and interleaved, these events are one run of the hub. So
    /// every reply between a transaction's begin and its commit or abort is what a private copy of the map committed at its begin
    /// answers to its own requests alone, and the committed transactions, run one at a time in one order, give the same replies and the
    /// same final map. (Serializable snapshot isolation as in Cahill, Röhm and Fekete, SIGMOD 2008.) All turns since the opening are one
    /// run, in which the hub after each event is known: a crash at any later moment leaves no map that is older than the one committed
    /// there.
    ///
    /// What has left over all connections since the opening, those that a turn took out or closed among them, is kept in that run
    /// (`law_all_have_one_run`).
    pub fn turn(&mut self, timeout: Option<Duration>) -> io::Result<()>
        ensures turned { OnOk result
            (IsTurn ⟦<Socket as Stream>⟧.reports ⟦<Socket as Stream>⟧.traffic self.old self.new) }
        ensures collects { OnOk result
            (EndsWithGarbage ⟦<Socket as Stream>⟧.reports ⟦<Socket as Stream>⟧.traffic self.old self.new) }
        ensures fault { OnErr result (IsUntouched self.old self.new) }
        ensures bytes { OnOk result (KeepBytes self.old.hub self.old.table.slots self.new.hub self.new.table.slots) }
        ensures waits { Waits timeout self.old result self.new }
        ensures sessions { HasItsSessions self.old × HasItsSessions self.new }
        ensures served { IsServed (hub_of self.old) × IsServed (hub_of self.new) }
    {
        self.hub.law_runs_follow();
        let wait = self.next_wait(timeout);
        self.poller.wait(wait)?;
        self.drive();
        let comes_more = self.is_reported(LINGERER);
        self.lingering.turn(self.hub.device(), comes_more);
        self.accept_reported();
        self.collect_garbage();
        Ok(())
    }

    /// Does nothing, and takes no memory. Its contract says that what a turn does to its hub is a run of the hub, as a restart of a store
    /// has it.
    pub fn law_turns_are_runs(&self)
        ensures runs { TurnsAreRuns ⟦<Socket as Stream>⟧.reports ⟦<Socket as Stream>⟧.traffic self.now }
    {}

    /// Does nothing, and takes no memory. Its contract says that a session that is ready is driven within as many turns as the table has
    /// places, and one: in each turn it is driven, or it is ready still and comes nearer, or takes turns from then on. And one that is
    /// driven gets on: it is served each request that had come in whole, or `REQUESTS_MAX`, or what it has had of the turn is its share of
    /// bytes, or the reply to a request that appended a record or looked at `LOOKED_MAX` pages of keys, with which its share was ended; or
    /// its peer takes no more; or it leaves.
    ///
    /// Under the premise that a poll reports what was registered with it and became ready, and that on sockets, a session over whose
    /// connection something came is ready in the turn whose poll ended then.
    pub fn law_each_has_its_turn(&self)
        ensures soon { EachHasItsTurn ⟦<Socket as Stream>⟧.reports ⟦<Socket as Stream>⟧.traffic self.now }
        ensures ready { EachBecomesReady ⟦<Socket as Stream>⟧.reports ⟦<Socket as Stream>⟧.traffic self.now }
        ensures gets_on { EachGetsOn ⟦<Socket as Stream>⟧.reports ⟦<Socket as Stream>⟧.traffic self.now }
    {
        law_each_comes_nearer();
    }

    /// Does nothing, and takes no memory. Its contract says that no wake-up is lost: between two turns each connection that isn't to be
    /// driven waits for its peer, and lacks nothing that the loop could do. Either its last call was a write, which blocked, and a reply is
    /// pending or buffered. Or all was read that the peer has sent, since the last read blocked or came short; no reply is pending or
    /// buffered, and the inbox holds only the beginning of a request.
    pub fn law_who_waits_lacks_nothing(&self)
        ensures waits { LackNothing (hub_of self.now) self.now.table.slots }
    {}

    /// Does nothing, and takes no memory. Its contract is one law of all connections that ever were, under the premise that sockets report
    /// the bytes that they move. For whatever turns are taken from here there is one run from the opening to the hub after them, and so one
    /// serial order, in which all of this holds.
    ///
    /// The hub stands for the lawful state to which the run has come. What came in over each connection whose session has not left is the
    /// spellings of its session's requests and the beginning of one, and what went over it, with what its stream buffers and what is
    /// pending, is the texts of the machine's replies to them.
    ///
    /// For each connection that is in the table, lingers, or was taken out or closed in any of the turns, and each of its departures, the
    /// run passes a hub whose device stood at the moment of the departure, and by then the session had been answered the bytes that had
    /// left. A crash at that moment or since leaves no map that is older than the one committed at that hub, and so whatever restarts
    /// follow begin with such a map: it is that after some number of the run's commits, or that with one commit more, and no commit whose
    /// number had been answered by then is above that number. So a COMMIT whose number has left over a connection is never lost.
    ///
    /// And where a connection's session has left, what was served for it was requested: the spellings of all its requests are the beginning
    /// of what came in over the connection.
    pub fn law_all_have_one_run(&self)
        ensures run { SocketsReport → HaveOneRun self.now }
    {
        self.hub.law_loses_nothing();
    }

    // How long the next poll waits.
    fn next_wait(&self, timeout: Option<Duration>) -> Option<Duration>
        ensures { nanos_of result ≡ turn_waits self.now timeout }
    {
        longest_wait(self.backlog, self.has_work(), timeout)
    }

    // Is there work: garbage, input to drop, or a session that is ready?
    fn has_work(&self) -> bool
        ensures { result ≡ has_work self.now }
    {
        self.has_garbage || self.lingering.has_more() || any_ready(&self.table)
    }

    // Frees what no open transaction needs, a step of it, and has the C library join what was freed.
    fn collect_garbage(&mut self)
        ensures collects { CollectsStep self.old.hub self.new.hub self.new.has_garbage }
        ensures rests { Rests self.old self.new }
        ensures keeps { KeepsTurns self.old self.new }
    {
        let had_garbage = self.has_garbage;
        self.has_garbage = self.hub.reclaim_step();
        self.spare
            .end_turn(self.alloc, had_garbage || self.has_garbage);
    }

    // Accepts connections, where the listener may hold more or the last poll reported it.
    fn accept_reported(&mut self)
        ensures accepts { Accepted (accepts_now self.old.backlog (items self.old.poller.events)) self.old self.new }
        ensures lingerers { lingers_in self.new.lingering
            ≡ unless_failed self.new.backlog (lingers_in self.old.lingering) }
        ensures keeps { KeepsTurns self.old self.new }
    {
        if self.accepts_now() {
            self.accept();
        }
    }

    // Accepts connections. After an accept that failed, perhaps because there were no more descriptors, none lingers.
    fn accept(&mut self)
        ensures accepts { Accepted true self.old self.new }
        ensures lingerers { lingers_in self.new.lingering
            ≡ unless_failed self.new.backlog (lingers_in self.old.lingering) }
        ensures keeps { KeepsTurns self.old self.new }
    {
        self.backlog = accept_some(
            self.alloc,
            self.poller.poll(),
            &mut self.port,
            &mut self.hub,
            &mut self.next,
            &mut self.refused,
            &mut self.table,
        );
        if self.backlog == Backlog::Failed {
            self.lingering.close();
        }
    }

    // Drives the sessions that are ready and whose turn it is, those that the last poll reported among them. Each has its share of the
    // turn: so many bytes, or the replies up to that to a request that appends a record or looks at many pages of keys.
    fn drive(&mut self)
        ensures drives { DrivesAndEnds ⟦<Socket as Stream>⟧.reports ⟦<Socket as Stream>⟧.traffic self.old self.new }
        ensures poller { self.new.poller ≡ self.old.poller }
        ensures next { self.new.next ≡ self.old.next }
        ensures port { self.new.port ≡ self.old.port }
        ensures backlog { self.new.backlog ≡ self.old.backlog }
        ensures refused { self.new.refused ≡ self.old.refused }
        ensures keeps { KeepBytes self.old.hub self.old.table.slots self.new.hub self.new.table.slots }
    {
        make_polled_ready(self.poller.events(), &mut self.table);
        let width = self.next_width / WIDTH_PARTS;
        let classes = classes_of(&self.hub, &self.table);
        self.turns = next_turns(&self.hub, &self.table, &classes, self.turns, width);
        let unused = take_turns(&self.hub, self.turns, &classes, &mut self.table);
        let heavy_before = heavy_streams(&self.table);
        drive_ready_then(&mut self.hub, &mut self.table, self.turns.writer());
        let heavy_after = heavy_streams(&self.table);
        let turned_out = heavy_after.saturating_sub(heavy_before);
        self.next_width = next_width(self.next_width, unused, turned_out);
        end_drives(
            self.hub.device(),
            self.poller.poll(),
            &mut self.table,
            &mut self.lingering,
        );
    }

    // May the listener hold more, or did the last poll report it?
    fn accepts_now(&self) -> bool
        ensures { result ≡ accepts_now self.now.backlog (items self.now.poller.events) }
    {
        match self.backlog {
            Backlog::Empty => self.is_reported(LISTENER),
            Backlog::More | Backlog::Failed => true,
        }
    }

    // Did the last poll report this token?
    fn is_reported(&self, token: Token) -> bool
        ensures { result ≡ is_reported_of token (items self.now.poller.events) }
    {
        self.poller
            .events()
            .iter()
            .any(|event| event.token() == token)
    }

    /// Gives the hub back, and drops the rest: the listener and the connections are closed. Takes no memory.
    pub fn into_hub(self) -> Hub<D>
        ensures { result ≡ hub_of self }
    {
        self.hub
    }
}
