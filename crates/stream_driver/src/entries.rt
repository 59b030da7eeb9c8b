//! The table of connections: drives each that is ready once.
ghost use Rattle.std.specs.Prelude.{◌≡◌, ◌≢◌};
ghost use Rattle.stream_driver.specs.Appends.{AppendsAtMost, UsesShare, ready_count, count_if_ready};
ghost use Rattle.stream_driver.specs.Sessions.{IsPresent};
ghost use Rattle.stream_driver.specs.Buffers.{has_had_share};
ghost use Rattle.stream_driver.specs.Entries.{LeadsAll, LeadsEntry, LeadsThen, HaveSessions, KeepSessions, EndsDrive};
ghost use Rattle.stream_driver.specs.Entries.{is_over, state_at_end};
ghost use Rattle.stream_driver.specs.Waits.{EachEntry, WaitsSince};

use crate::answers::Progress;
use crate::buffered::BufferedStream;
use crate::driving::{READ_MAX, drive_over};
use crate::stream::Stream;
use sector::Sectors;
use sessions::Hub;
use slab::Slab;

/// How a connection stands.
#[derive(Clone, Copy, PartialEq, Eq, Debug)]
pub enum EntryState {
    /// It waits for its stream.
    Idle,
    /// It is to be driven.
    Ready,
    /// Its session has left. It is to be taken out.
    Gone,
}

/// A connection: the number of its session, its stream, and how it stands.
#[derive(Drop)]
pub struct Entry<S: Stream> {
    pub session: u64,
    pub stream: S,
    pub state: EntryState,
}

// Drives an entry, if it is ready. Most of a large table aren't, so the question is asked where the table is walked.
#[inline(always)]
fn drive_entry<D: Sectors, S: Stream>(
    hub: &mut Hub<D>,
    entry: &mut Entry<S>,
    buffer: &mut [u8; READ_MAX],
)
    requires { entry.old.state ≢ EntryState.Gone → IsPresent hub.old entry.old.session }
    ensures driven { LeadsEntry S.reports S.traffic hub.old entry.old hub.new entry.new }
    ensures session { entry.new.session ≡ entry.old.session }
    ensures gone { entry.old.state ≡ EntryState.Gone → entry.new.state ≡ EntryState.Gone }
    ensures appends { S.keeps_share → AppendsAtMost (count_if_ready entry.old.state) hub.old hub.new }
    ensures shares { S.keeps_share → UsesShare S.reports S.traffic S.share entry.old entry.new }
    ensures waits { WaitsSince S.is_sound S.waits entry.old entry.new }
{
    hub.law_runs_follow();
    if let EntryState::Ready = entry.state {
        entry.state = match drive_over(hub, entry.session, &mut entry.stream, buffer) {
            Progress::Waiting => EntryState::Idle,
            Progress::Again => EntryState::Ready,
            Progress::Gone => EntryState::Gone,
        };
    }
}

/// Drives each entry that is `Ready` once, by rising key, and leaves the others as they are: as `drive_ready_then`, with none that is last.
///
/// It may grow what the requests grow, and the outputs of the sessions.
pub fn drive_ready<D: Sectors, S: Stream>(hub: &mut Hub<D>, table: &mut Slab<Entry<S>>)
    requires { HaveSessions hub.old table.old.slots }
    ensures driven { LeadsAll S.reports S.traffic hub.old table.old.slots hub.new table.new.slots }
    ensures sessions { HaveSessions hub.new table.new.slots }
    ensures numbers { KeepSessions table.old.slots table.new.slots }
    ensures appends { S.keeps_share → AppendsAtMost (ready_count table.old.slots) hub.old hub.new }
    ensures shares { S.keeps_share → EachEntry (UsesShare S.reports S.traffic S.share) table.old.slots table.new.slots }
    ensures waits { EachEntry (WaitsSince S.is_sound S.waits) table.old.slots table.new.slots }
{
    drive_ready_then(hub, table, table.capacity());
}

/// Drives each entry that is `Ready` once, by rising key but for the one at a key that is driven last, if there is one, and leaves the
/// others as they are. After `Waiting` an entry is `Idle`, after `Again` it stays `Ready`, after `Gone` it is `Gone`.
///
/// Where the streams keep to their shares, each of these drives appends one record to the log at most, and what is gone of a share was
/// sent, unless the share was ended with the reply to a request that appended a record or looked at `LOOKED_MAX` pages of keys. So where
/// the last is the only one that writes, no other waits for its syncs.
///
/// The session of each entry that isn't `Gone` is present, and no other entry has it. The stream of each that was driven and is `Idle` can
/// say why its last call blocked.
///
/// It may grow what the requests grow, and the outputs of the sessions.
pub fn drive_ready_then<D: Sectors, S: Stream>(
    hub: &mut Hub<D>,
    table: &mut Slab<Entry<S>>,
    last: usize,
)
    requires { HaveSessions hub.old table.old.slots }
    ensures driven { LeadsThen S.reports S.traffic last hub.old table.old.slots hub.new table.new.slots }
    ensures sessions { HaveSessions hub.new table.new.slots }
    ensures numbers { KeepSessions table.old.slots table.new.slots }
    ensures appends { S.keeps_share → AppendsAtMost (ready_count table.old.slots) hub.old hub.new }
    ensures shares { S.keeps_share → EachEntry (UsesShare S.reports S.traffic S.share) table.old.slots table.new.slots }
    ensures waits { EachEntry (WaitsSince S.is_sound S.waits) table.old.slots table.new.slots }
{
    hub.law_runs_follow();
    let mut buffer = [0u8; READ_MAX];
    for key in 0..table.capacity() {
        if key == last {
            continue;
        }
        if let Some(entry) = table.get_mut(key) {
            drive_entry(hub, entry, &mut buffer);
        }
    }
    if let Some(entry) = table.get_mut(last) {
        drive_entry(hub, entry, &mut buffer);
    }
}

// An entry that waits as its stream has had its share is to be driven again.
fn ready_again<S: Stream>(entry: &mut Entry<BufferedStream<S>>)
    ensures { entry.new ≡ record entry.old { state = state_at_end entry.old.state (has_had_share entry.old.stream) } }
{
    if entry.state == EntryState::Idle && entry.stream.has_had_its_share() {
        entry.state = EntryState::Ready;
    }
}

/// Ends the drive of an entry. One that waits only as its stream has had its share of the turn is ready again, since no poll reports that.
/// What the stream buffers is written, as far as the inner stream takes it, and the next drive may read and has a share of its own. A
/// stream that is waited for has blocked, and is left alone. Is the entry gone, and does its stream buffer nothing that may still leave?
///
/// Takes no memory that a caller sees.
pub fn end_drive<D: Sectors, S: Stream>(device: &D, entry: &mut Entry<BufferedStream<S>>) -> bool
    ensures ends { EndsDrive S.reports S.traffic (D.moment device.now) entry.old entry.new }
    ensures over { result ≡ is_over entry.new }
{
    ready_again(entry);
    entry.stream.begin_drive();
    if entry.state != EntryState::Idle {
        entry.stream.finish(device);
    }
    entry.state == EntryState::Gone && entry.stream.is_flushed_or_failed()
}
