//! The hub: the sessions that are present, over one engine, one event at a time.
ghost use Rattle.std.specs.Prelude.{◌≡◌, ◌↔◌, ◌≤◌, true, false, [], length, map};
ghost use Rattle.engine.specs.Changes.{UsesLogOnce};
ghost use Rattle.engine.specs.Meaning.{IsReadOnly, StandsFor as EngineStandsFor, device_of};
ghost use Rattle.model.specs.Laws.{IsOrderedByPlace};
ghost use Rattle.model.specs.Machine.{State};
ghost use Rattle.sessions.specs.Crashes.{SurvivesEvent, AppliesWhole, KeepsCommitted};
ghost use Rattle.sessions.specs.Laws.{CollectsStep, IsLawful, NoneRuns, Runs, RunsAlone, RunsFollow, RunsLead};
ghost use Rattle.sessions.specs.Laws.{RunsPart};
ghost use Rattle.sessions.specs.FoundMaps.{LosesNothing};
ghost use Rattle.sessions.specs.Restarts.{CutsReopen, KeepsAnswered, RestartsLoseNothing, RestartsFromNothing};
ghost use Rattle.sessions.specs.OneOrder.{RestartsHaveOneHistory};
ghost use Rattle.sessions.specs.Readings.{RunsHaveOneReading};
ghost use Rattle.sessions.specs.SessionStreams.{HubState, is_above, hub_over, Joins, Receives, Serves, Sends, Leaves};
ghost use Rattle.sessions.specs.StandsFor.{HubLeads, StandsFor, event_of, status_of, room_of, pending_of, device};
ghost use Rattle.sessions.specs.StandsFor.{AsksDevice, CountsRecords, failures, has_written, log, records_of};
ghost use Rattle.sessions.specs.StandsFor.{pages_looked_at_of};

use crate::events::{Event, Outcome, SESSIONS_MAX, SessionView, Status};
use crate::present::Present;
use crate::requests::abort_transaction;
use crate::session::Session;
use engine::Engine;
use model::{RANGE_REPLY_MAX, law_machine_is_serializable, law_restarts_have_one_order};
use sector::Sectors;
use std::alloc::Global;

/// Whether the number is above the greatest that has joined.
fn is_above(s: u64, latest: Option<u64>) -> bool
    ensures { result ≡ is_above s latest }
{
    match latest {
        Some(t) => t < s,
        None => true,
    }
}

/// The sessions that are present, over one engine. It takes one event at a time.
///
/// A session's requests are those that the grammar finds in the bytes that came in, however these were cut into pieces, and its
/// replies are those of the machine in `model`, one Serve after another. What a hub stands for are the machine's states with each
/// session's bytes, and each event leads from every one of them to the next.
#[derive(Drop)]
pub struct Hub<D: Sectors> {
    alloc: Global,
    engine: Engine<D>,
    sessions: Present,
    /// The greatest number that has joined.
    latest: Option<u64>,
}

impl<D: Sectors> Hub<D> {
    /// A hub over an engine with no open transaction. No session is present. Takes no memory.
    pub fn new(alloc: Global, engine: Engine<D>) -> Hub<D>
        requires { (m : State) → EngineStandsFor engine m → m.running ≡ [] }
        ensures stands { (m : State) → EngineStandsFor engine m → StandsFor result (hub_over m) }
        ensures device { device result ≡ device_of engine }
    {
        engine.law_is_lawful();
        Hub {
            alloc,
            engine,
            sessions: Present::new(alloc),
            latest: None,
        }
    }

    /// How the session stands: `Absent` where it has not joined or has left. Takes no memory.
    pub fn status(&self, s: u64) -> Status
        ensures { result ≡ status_of self.now s }
    {
        match self.sessions.get(s) {
            Some(session) => session.status(),
            None => Status::Absent,
        }
    }

    /// How many bytes the session's inbox has room for, from 0 to `INBOX_MAX`; 0 for an absent session. One that is not `Open` takes none
    /// of them, whatever its room. Takes no memory.
    pub fn room(&self, s: u64) -> usize
        ensures { result ≡ room_of self.now s }
    {
        match self.sessions.get(s) {
            Some(session) => session.room(),
            None => 0,
        }
    }

    /// The session's bytes that are to be sent, `RANGE_REPLY_MAX` at most; none for an absent session. Takes no memory.
    pub fn pending(&self, s: u64) -> &[u8]
        ensures bytes { result.now ≡ pending_of self.now s }
        ensures short { length result.now ≤ RANGE_REPLY_MAX }
    {
        match self.sessions.get(s) {
            Some(session) => session.pending(),
            None => &[],
        }
    }

    /// How many bytes of the session are pending, how it stands and how many its inbox has room for: as `pending`, `status` and `room`
    /// answer, in one look-up of the session. Takes no memory.
    pub fn view(&self, s: u64) -> SessionView
        ensures { (result.pending ≡ length (pending_of self.now s)) × (result.status ≡ status_of self.now s)
            × (result.room ≡ room_of self.now s) }
    {
        match self.sessions.get(s) {
            Some(session) => SessionView {
                pending: session.pending().len(),
                status: session.status(),
                room: session.room(),
            },
            None => SessionView {
                pending: 0,
                status: Status::Absent,
                room: 0,
            },
        }
    }

    /// Whether the device has failed in a COMMIT: BEGIN and COMMIT are then refused until the log is opened again. Takes no memory.
    pub fn stopped(&self) -> bool
        ensures { (h : HubState) → StandsFor self.now h → result ≡ h.machine.stopped }
    {
        self.engine.stopped()
    }

    /// Has the session's open transaction written a key? Where none is open it hasn't. Takes no memory.
    pub fn has_written(&self, s: u64) -> bool
        ensures buffer { result ≡ has_written self.now s }
        ensures written { (h : HubState) → StandsFor self.now h → (result ≡ false) ↔ IsReadOnly h.machine s }
    {
        self.engine.has_written(s)
    }

    /// How many records the log has. Takes no memory.
    pub fn records(&self) -> u64
        ensures { result ≡ records_of self.now }
    {
        self.engine.records()
    }

    /// How many pages of keys the ranges of its sessions have looked at since the store was opened (`Engine::pages_looked_at`). Takes no
    /// memory.
    pub fn pages_looked_at(&self) -> u64
        ensures { result ≡ pages_looked_at_of self.now }
    {
        self.engine.pages_looked_at()
    }

    /// The device of the engine, lent. Takes no memory.
    pub fn device(&self) -> &D
        ensures { result.now ≡ device self.now }
    {
        self.engine.device()
    }

    /// Gives the engine back. Open transactions stay open in it. Takes no memory.
    pub fn into_engine(self) -> Engine<D>
        ensures { (h : HubState) → StandsFor self h → EngineStandsFor result h.machine }
    {
        let Hub {
            alloc: _,
            engine,
            sessions: _,
            latest: _,
        } = self;
        engine
    }

    /// Gives the device of the engine back, and drops the rest. Takes no memory.
    pub fn into_device(self) -> D
        ensures { result ≡ device self }
    {
        self.engine.into_device()
    }

    /// A session joins.
    fn join(&mut self, s: u64) -> Outcome
        ensures step { HubLeads self.old self.new (Joins s) result }
        ensures log { log self.new ≡ log self.old }
    {
        if !is_above(s, self.latest) {
            return Outcome::Unknown;
        }
        if self.sessions.len() >= SESSIONS_MAX {
            return Outcome::Crowded;
        }
        let Ok(session) = Session::new(self.alloc) else {
            return Outcome::Memory;
        };
        match self.sessions.insert(s, session) {
            Ok(()) => {
                self.latest = Some(s);
                Outcome::Done
            }
            Err(_memory) => Outcome::Memory,
        }
    }

    /// A piece of a session's bytes comes in.
    fn receive(&mut self, s: u64, piece: &[u8]) -> Outcome
        ensures step { HubLeads self.old self.new (Receives s piece.now) result }
        ensures log { log self.new ≡ log self.old }
    {
        match self.sessions.get_mut(s) {
            Some(session) => {
                if !session.is_open() {
                    return Outcome::Idle;
                }
                if piece.len() > session.room() {
                    return Outcome::NoRoom;
                }
                session.receive(piece);
                Outcome::Done
            }
            None => Outcome::Unknown,
        }
    }

    /// A session's next request is executed.
    fn serve(&mut self, s: u64) -> Outcome
        ensures step { HubLeads self.old self.new (Serves s) result }
        ensures crash { SurvivesEvent self.old self.new (Serves s) }
        ensures once { UsesLogOnce (log self.old) (log self.new) }
    {
        match self.sessions.get_mut(s) {
            Some(session) => session.serve(&mut self.engine, s),
            None => Outcome::Unknown,
        }
    }

    /// Pending bytes of a session were sent.
    fn sent(&mut self, s: u64, n: usize) -> Outcome
        ensures step { HubLeads self.old self.new (Sends s n) result }
        ensures log { log self.new ≡ log self.old }
    {
        match self.sessions.get_mut(s) {
            Some(session) => {
                if n > session.pending().len() {
                    return Outcome::BadCount;
                }
                session.mark_sent(n);
                Outcome::Done
            }
            None => Outcome::Unknown,
        }
    }

    /// A session leaves.
    fn left(&mut self, s: u64) -> Outcome
        ensures step { HubLeads self.old self.new (Leaves s) result }
        ensures log { log self.new ≡ log self.old }
    {
        match self.sessions.remove(s) {
            Some(_session) => {
                abort_transaction(&mut self.engine, s);
                Outcome::Done
            }
            None => Outcome::Unknown,
        }
    }

    /// Applies one event. Each caller has one kind of them, so the others fall away where this is inlined.
    #[inline(always)]
    fn apply(&mut self, event: &Event<'_>) -> Outcome
        ensures step { HubLeads self.old self.new (event_of event.now) result }
        ensures crash { SurvivesEvent self.old self.new (event_of event.now) }
        ensures once { UsesLogOnce (log self.old) (log self.new) }
    {
        match event {
            Event::Joined(s) => self.join(*s),
            Event::Bytes(s, piece) => self.receive(*s, piece),
            Event::Serve(s) => self.serve(*s),
            Event::Sent(s, n) => self.sent(*s, *n),
            Event::Left(s) => self.left(*s),
        }
    }

    /// Does nothing, and takes no memory. Its contract says what a crash between two events leaves: the map that is committed; once the
    /// store is stopped, that or the one with the writes of the COMMIT that was answered a store fault.
    pub fn law_is_stored(&self)
        ensures { D.keeps_model → KeepsCommitted self.now }
    {
        self.engine.law_is_stored();
    }

    /// Applies one event, exactly where it may be applied, and answers `Done` then. Each other outcome and what it leaves stands at
    /// `Outcome`.
    ///
    /// `Joined` takes the session's inbox and output, 131,608 bytes, and its place; `Serve` what the engine takes for the request, and a
    /// buffer for a reply whose text is longer than 536 bytes. `Bytes`, `Sent` and `Left` take no memory.
    ///
    /// A crash at any moment of the event leaves the map committed before it or, where it executes a COMMIT, that with the
    /// transaction's writes; after the event it leaves the map that is then committed. The event, alone, is a run. It adds a record to the
    /// log only where it serves a request of a session whose transaction has written: one, and that transaction is over. It asks the device
    /// for two syncs at most, and for none where it adds no record and no call fails. A store that is stopped leaves the device alone.
    #[inline(always)]
    pub fn step(&mut self, event: &Event<'_>) -> Outcome
        ensures step { HubLeads self.old self.new (event_of event.now) result }
        ensures crash { D.keeps_model → AppliesWhole self.old self.new (event_of event.now) }
        ensures asks { AsksDevice self.old self.new }
        ensures stored { D.keeps_model → KeepsCommitted self.new }
        ensures ran { RunsAlone self.old self.new (event_of event.now) }
        ensures device { failures self.old ≤ failures self.new }
        ensures records { CountsRecords self.old self.new (event_of event.now) }
    {
        law_machine_is_serializable();
        self.law_is_stored();
        let outcome = self.apply(event);
        self.law_is_stored();
        outcome
    }

    /// Applies events one after another, and takes the memory that `step` takes.
    ///
    /// Whatever the sessions send, and however their bytes are cut and interleaved: every reply between a transaction's begin and its
    /// commit or abort is what a private copy of the map committed at its begin answers to its own requests alone, and the committed
    /// transactions, run one at a time in one order, give the same replies and the same final map. (Serializable snapshot isolation
    /// as in Cahill, Röhm and Fekete, SIGMOD 2008.) The device fails in one of the events at most, and in none where its count of
    /// failures stays.
    pub fn run(&mut self, events: &[Event<'_>])
        ensures run { Runs self.old self.new (map event_of events.now) }
        ensures device { failures self.old ≤ failures self.new }
    {
        law_machine_is_serializable();
        self.law_is_stored();
        for event in events {
            let _outcome = self.step(event);
        }
    }

    /// Drops garbage, which no open transaction needs, a step of it, and answers whether any is left. It may come between any two events,
    /// and is none: what the hub stands for stays, and so does the device. Ends of transactions take such a step themselves; called again
    /// until it answers no, it ends what an old reader has left. It looks at 2 garbage lists of superseded versions, and frees 1,024
    /// written keys and as many steps of last readers of old runs, so it is short. Takes no memory.
    pub fn reclaim_step(&mut self) -> bool
        ensures { CollectsStep self.old self.new result }
    {
        law_machine_is_serializable();
        self.law_is_stored();
        let more = self.engine.reclaim_step();
        self.law_is_stored();
        more
    }

    /// Does nothing, and takes no memory. Its contract says that no event is a run, that runs that follow each other are one run and a run
    /// is two at each of its events, and what it leads to from each state that its first hub stood for.
    pub fn law_runs_follow(&self)
        ensures none { NoneRuns self.now }
        ensures follow { RunsFollow self.now }
        ensures part { RunsPart self.now }
        ensures lead { RunsLead self.now }
    {
        law_machine_is_serializable();
        self.law_is_stored();
    }

    /// Does nothing, and takes no memory. Its contract is the law of a store's whole run: a crash at any moment after some events were
    /// answered leaves the map committed when they were answered or at a later moment, one with a COMMIT that was under way since, or
    /// one with the COMMIT that was answered a store fault. So does one at any moment of a process since any of its events.
    pub fn law_loses_nothing(&self)
        ensures crash { LosesNothing self.now }
        ensures answered { KeepsAnswered self.now }
    {}

    /// Does nothing, and takes no memory. Its contract is the law of a store's restarts, one after another: each is opened over what the
    /// end of the one before left, by a power cut or a kill of the process at any moment, during its opening too, and begins with the map
    /// of the last answered COMMIT, or with that and one COMMIT more, which was under way at the end or was answered a store fault. A log
    /// that was made empty, or that a map was copied into, is never found damaged. All that was committed in them has one order, in which
    /// each transaction is given the replies that it had, and at whose end is the map that is found.
    pub fn law_restarts_lose_nothing(&self)
        ensures restarts { D.keeps_model → RestartsLoseNothing self.now }
        ensures from_nothing { D.keeps_model → RestartsFromNothing self.now }
        ensures cut { CutsReopen self.now }
        ensures one_history { D.keeps_model → RestartsHaveOneHistory self.now }
    {
        law_restarts_have_one_order();
    }

    /// Does nothing, and takes no memory. Its contract says what a client reads from the bytes that its session is sent, at each moment of
    /// a run since an opening: the machine's replies, in order, and no others. For each of them can be sent: its numbers and lengths fit 64
    /// bits.
    pub fn law_replies_have_one_reading(&self)
        ensures { RunsHaveOneReading self.now }
    {}

    /// Does nothing, and takes no memory. Its contract says what holds of every state that the hub stands for: no reply of an open
    /// transaction depends on others, what has committed has a serial order, and each session's bytes are those of its requests and of
    /// the machine's replies. The order by places is such an order, in which each dependency rises: there is no dangerous pivot, and no two
    /// concurrent transactions wrote one key.
    pub fn law_is_lawful(&self)
        ensures lawful { (h : HubState) → StandsFor self.now h → IsLawful h }
        ensures ordered { (h : HubState) → StandsFor self.now h → IsOrderedByPlace h.machine }
    {
        law_machine_is_serializable();
    }
}
