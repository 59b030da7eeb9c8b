//! Fairness: which of the sessions that are ready are driven in a turn.
//!
//! A COMMIT that writes waits for its syncs, and a long reply takes its time, and so does a RANGE that looks at much, however little it is
//! answered. Everybody waits meanwhile. So a turn drives the sessions that have written nothing and whose last drives were short, with a
//! light share of it, which ends with the reply to a request that appends a record or looks at much. Who needs more takes turns from then
//! on.
//! Of the others it drives two at most, with a whole share: the next by key, round the table, and one of the other kind, a reader if the
//! next is a writer, and a writer if it is a reader. So between two polls one session writes at most, and one reads much. The one that
//! writes is driven last, so that no other of the turn waits for its syncs. Each that waits is driven within as many turns as the table has
//! places.
//!
//! What a request takes isn't known before it was served. So of those that take no turns a turn drives as many as its width, and the rest
//! are passed over and late until they have had a turn: who becomes ready later doesn't wait for them. Of those that are late it drives one
//! less than it is wide, besides those that have a turn. The width grows while none of them turns out heavy, as the window of TCP does
//! (Jacobson, Congestion Avoidance and Control, 1988), and falls where several do.
ghost use Rattle.std.specs.Prelude.{◌≡◌, ◌-◌, ◌*◌, ◌<◌, ◌≤◌, length, nat_lt, not, slice_index_or, ℕ, Bool, Some};
ghost use Rattle.event_loop.specs.declared.order.Class.TheVariants.{Light};
ghost use Rattle.event_loop.specs.declared.order.Kind.TheVariants.{Any};
ghost use Rattle.event_loop.specs.Numbers.{HaveTablePlaces};
ghost use Rattle.event_loop.specs.Order.{AreClasses, AreNext, ComesNearer, HasNextTurn, after_turn, behind, class_in};
ghost use Rattle.event_loop.specs.Order.{class_of, has_turn, heavy_streams, in_turn, is_class_of, is_late_class};
ghost use Rattle.event_loop.specs.Order.{is_late_entry, is_of_kind, is_one, is_writer, late_in, light_in, share_at};
ghost use Rattle.event_loop.specs.Order.{share_in_turn, takes_turns, unused_in, width_after, writer_of, writes_in};
ghost use Rattle.event_loop.specs.Tables.{slot_at};

use crate::socket::Socket;
use arrayvec::ArrayVec;
use sector::Sectors;
use sessions::{Hub, SESSIONS_MAX};
use slab::Slab;
use stream_driver::{BufferedStream, Entry, EntryState, LIGHT_MAX, SHARE_MAX};

/// How many of those that take no turns a turn drives at least, where so many are ready; and how many that turn out heavy make it so few.
pub const WIDTH_MIN: usize = 2;

/// A width is kept in so many parts of one. It falls by a part where little of a turn was used.
pub const WIDTH_PARTS: usize = 16;

/// By how many parts it grows where all of a turn was used.
pub const WIDENED_BY: usize = 4;

/// The sessions that take turns.
#[derive(Clone, Copy, PartialEq, Eq, Debug)]
pub enum Kind {
    /// All of them.
    Any,
    /// Those that write: whose open transaction has written, or whose last drive that was answered appended a record behind another
    /// reply, so that they may come with a whole transaction in one piece again.
    Writer,
    /// The others: whose streams are heavy.
    Reader,
}

/// Who of those that take turns has this one, and how many of the others.
#[derive(Clone, Copy, PartialEq, Eq, Debug)]
pub struct Turns {
    /// The key of the first that waits behind the one of the last turn, round the table.
    pub next: usize,
    /// Of which kind one more has this turn: the other than that of the next.
    pub kind: Kind,
    /// The key of the first of that kind behind the one that had a turn so last.
    pub beside: usize,
    /// How many of those that are ready and take no turns are driven, those with the least keys.
    pub width: usize,
}

impl Turns {
    /// Before the first turn. Takes no memory.
    pub(crate) fn new() -> Turns
        ensures places { (result.next < SESSIONS_MAX) × (result.beside < SESSIONS_MAX) }
        ensures width { result.width ≡ WIDTH_MIN }
    {
        Turns {
            next: 0,
            kind: Kind::Writer,
            beside: 0,
            width: WIDTH_MIN,
        }
    }

    /// The key of the one that writes of those that have this turn, if one does. It is driven last, so that nobody waits for its syncs.
    /// Takes no memory.
    pub(crate) fn writer(self) -> usize
        ensures { result ≡ writer_of self }
    {
        match self.kind {
            Kind::Reader => self.next,
            Kind::Writer | Kind::Any => self.beside,
        }
    }
}

/// What an entry that is to be driven is to a turn.
#[derive(Clone, Copy, PartialEq, Eq, Debug, Default)]
pub(crate) enum Class {
    /// It takes no turns.
    #[default]
    Light,
    /// It takes turns, since it writes.
    Writing,
    /// It takes turns, since its stream is heavy.
    Heavy,
    /// And that for one more turn of its own alone.
    Late,
}

/// The classes of the entries at the places of a table. One that isn't to be driven counts as light.
pub(crate) type Classes = ArrayVec<Class, SESSIONS_MAX>;

impl Class {
    // Is one of this class of that kind?
    fn is_of_kind(self, kind: Kind) -> bool
        ensures { result ≡ is_class_of kind self }
    {
        match kind {
            Kind::Any => !matches!(self, Class::Light),
            Kind::Writer => matches!(self, Class::Writing),
            Kind::Reader => matches!(self, Class::Heavy | Class::Late),
        }
    }

    // Is it late?
    fn is_late(self) -> bool
        ensures { result ≡ is_late_class self }
    {
        matches!(self, Class::Late)
    }
}

// Does the entry write: does its stream say so, or has its session's open transaction written? The session is looked up where the stream
// doesn't.
fn is_writer<D: Sectors>(hub: &Hub<D>, entry: &Entry<BufferedStream<Socket>>) -> bool
    ensures { result ≡ is_writer hub.now entry.now }
{
    entry.stream.is_writer() || hub.has_written(entry.session)
}

// Is it of this kind?
fn is_of_kind<D: Sectors>(hub: &Hub<D>, kind: Kind, entry: &Entry<BufferedStream<Socket>>) -> bool
    ensures { result ≡ is_of_kind hub.now kind entry.now }
{
    let is_writer = is_writer(hub, entry);
    match kind {
        Kind::Any => is_writer || entry.stream.is_heavy(),
        Kind::Writer => is_writer,
        Kind::Reader => !is_writer && entry.stream.is_heavy(),
    }
}

// What an entry is to a turn in which it is to be driven.
fn class_of<D: Sectors>(hub: &Hub<D>, entry: &Entry<BufferedStream<Socket>>) -> Class
    ensures { result ≡ class_of hub.now entry.now }
{
    if is_writer(hub, entry) {
        Class::Writing
    } else if entry.stream.is_late() {
        Class::Late
    } else if entry.stream.is_heavy() {
        Class::Heavy
    } else {
        Class::Light
    }
}

// The class of the entry at a key, light where there is none.
fn class_at<D: Sectors>(
    hub: &Hub<D>,
    table: &Slab<Entry<BufferedStream<Socket>>>,
    key: usize,
) -> Class
    ensures { result ≡ class_in hub.now (slot_at table.now.slots key) }
{
    match table.get(key) {
        Some(entry) => {
            if entry.state == EntryState::Ready {
                class_of(hub, entry)
            } else {
                Class::Light
            }
        }
        None => Class::Light,
    }
}

/// The classes of the entries of a table. They are asked for once in a turn, since each may look a session up. Takes no memory.
pub(crate) fn classes_of<D: Sectors>(
    hub: &Hub<D>,
    table: &Slab<Entry<BufferedStream<Socket>>>,
) -> Classes
    requires { HaveTablePlaces table.now.slots }
    ensures { AreClasses hub.now (slot_at table.now.slots) result.items }
{
    let mut classes = ArrayVec::new();
    for key in 0..table.capacity().min(SESSIONS_MAX) {
        classes.push(class_at(hub, table, key));
    }
    classes
}

// Does the entry at a key write?
fn writes_at<D: Sectors>(
    hub: &Hub<D>,
    table: &Slab<Entry<BufferedStream<Socket>>>,
    key: usize,
) -> bool
    ensures { result ≡ writes_in hub.now (slot_at table.now.slots key) }
{
    match table.get(key) {
        Some(entry) => is_writer(hub, entry),
        None => false,
    }
}

// How many places a key stands behind another, round the table: from 1, and `SESSIONS_MAX` behind itself.
fn places_behind(last: usize, key: usize) -> usize
    requires last { last < SESSIONS_MAX }
    requires place { key < SESSIONS_MAX }
    ensures { result ≡ behind last key }
{
    if last < key {
        key - last
    } else {
        SESSIONS_MAX + key - last
    }
}

// The class at a key, light beyond the last.
fn class_of_place(classes: &Classes, key: usize) -> Class
    ensures { result ≡ slice_index_or classes.now.items key Light }
{
    match classes.get(key) {
        Some(class) => *class,
        None => Class::Light,
    }
}

// The key of the next in turn: of those of a kind that wait, the first behind this one, round the table; where none waits, this one still.
fn next_in_turn(classes: &Classes, kind: Kind, last: usize) -> usize
    requires { last < SESSIONS_MAX }
    ensures next { HasNextTurn (λ key. is_class_of kind (slice_index_or classes.now.items key Light)) last result }
    ensures place { result < SESSIONS_MAX }
{
    let mut next = last;
    for key in 0..classes.len() {
        if classes[key].is_of_kind(kind) && places_behind(last, key) < places_behind(last, next) {
            next = key;
        }
    }
    next
}

/// Who has this turn, after those that had the last, and of those that take no turns so many. Takes no memory.
pub(crate) fn next_turns<D: Sectors>(
    hub: &Hub<D>,
    table: &Slab<Entry<BufferedStream<Socket>>>,
    classes: &Classes,
    last: Turns,
    width: usize,
) -> Turns
    requires classes { AreClasses hub.now (slot_at table.now.slots) classes.now.items }
    requires next { last.next < SESSIONS_MAX }
    requires beside { last.beside < SESSIONS_MAX }
    ensures next { AreNext hub.now (slot_at table.now.slots) last result }
    ensures places { (result.next < SESSIONS_MAX) × (result.beside < SESSIONS_MAX) }
    ensures width { result.width ≡ width }
{
    let next = next_in_turn(classes, Kind::Any, last.next);
    let kind = if writes_at(hub, table, next) {
        Kind::Reader
    } else {
        Kind::Writer
    };
    Turns {
        next,
        kind,
        beside: next_in_turn(classes, kind, last.beside),
        width,
    }
}

// Does it have one of the turns?
fn has_turn<D: Sectors>(
    hub: &Hub<D>,
    turns: Turns,
    key: usize,
    entry: &Entry<BufferedStream<Socket>>,
) -> bool
    ensures { result ≡ has_turn hub.now turns key entry.now }
{
    key == turns.next || (key == turns.beside && is_of_kind(hub, turns.kind, entry))
}

// How many more of those that take no turns a turn may drive, and of those that are late.
#[derive(Clone, Copy)]
struct Left {
    light: usize,
    late: usize,
}

// How many bytes it may be sent in this turn: a whole share where it takes turns and has this. A light one where it takes none, or is late,
// and more of these may be driven. `None` where it is passed over.
fn share_in_turn<D: Sectors>(
    hub: &Hub<D>,
    turns: Turns,
    left: Left,
    key: usize,
    class: Class,
    entry: &Entry<BufferedStream<Socket>>,
) -> Option<usize>
    requires takes_turns { is_class_of Any class ≡ is_of_kind hub.now Any entry.now }
    requires late { is_late_class class ≡ is_late_entry hub.now entry.now }
    ensures { result ≡ share_in_turn hub.now turns (nat_lt 0 left.light) (nat_lt 0 left.late) key entry.now }
{
    if class.is_of_kind(Kind::Any) {
        if has_turn(hub, turns, key, entry) {
            return Some(SHARE_MAX);
        }
        if left.late == 0 || !class.is_late() {
            return None;
        }
    } else if left.light == 0 {
        return None;
    }
    Some(LIGHT_MAX)
}

impl Left {
    // How many more may be driven behind one that is ready.
    fn behind(self, class: Class) -> Left
        ensures light { result.light ≡ self.light - is_one (not (is_class_of Any class)) }
        ensures late { result.late ≡ self.late - is_one (is_late_class class) }
    {
        let takes_turns = class.is_of_kind(Kind::Any);
        Left {
            light: self.light.saturating_sub(usize::from(!takes_turns)),
            late: self.late.saturating_sub(usize::from(class.is_late())),
        }
    }
}

// An entry that is ready has its share of the turn, or is passed over. How many more may be driven.
fn take_turn<D: Sectors>(
    hub: &Hub<D>,
    turns: Turns,
    left: Left,
    key: usize,
    class: Class,
    entry: &mut Entry<BufferedStream<Socket>>,
) -> Left
    requires { class ≡ class_in hub.now (Some entry.old) }
    ensures taken { entry.new ≡ in_turn (is_writer hub.now entry.old) entry.old.state
        (share_in_turn hub.now turns (nat_lt 0 left.light) (nat_lt 0 left.late) key entry.old) entry.old }
    ensures light { result.light ≡ left.light - is_one (light_in hub.now (Some entry.old)) }
    ensures late { result.late ≡ left.late - is_one (late_in hub.now (Some entry.old)) }
{
    if entry.state != EntryState::Ready {
        return left;
    }
    match share_in_turn(hub, turns, left, key, class, entry) {
        Some(bytes) => entry.stream.begin_turn(bytes),
        None => {
            entry.state = EntryState::Idle;
            entry.stream.pass_over(class.is_of_kind(Kind::Writer));
        }
    }
    left.behind(class)
}

/// Passes over the entries that take turns but for those whose turn it is, and over those that take none but for as many as the turn is
/// wide: they aren't ready in this turn, and are again at its end. Of those that are late it drives one less, too. The others have their
/// shares of the turn. How many more of those that take no turns, or are late, it might drive, whichever are fewer. Takes no memory.
pub(crate) fn take_turns<D: Sectors>(
    hub: &Hub<D>,
    turns: Turns,
    classes: &Classes,
    table: &mut Slab<Entry<BufferedStream<Socket>>>,
) -> usize
    requires { AreClasses hub.now (slot_at table.old.slots) classes.now.items }
    ensures shares { (key : ℕ) → slot_at table.new.slots key
        ≡ after_turn (writes_in hub.now (slot_at table.old.slots key))
        (share_at hub.now turns (slot_at table.old.slots) key) (slot_at table.old.slots key) }
    ensures unused { result ≡ unused_in hub.now turns (slot_at table.old.slots) (length table.old.slots) }
{
    let mut left = Left {
        light: turns.width,
        late: turns.width.saturating_sub(1),
    };
    for key in 0..table.capacity() {
        if let Some(entry) = table.get_mut(key) {
            left = take_turn(hub, turns, left, key, class_of_place(classes, key), entry);
        }
    }
    left.light.min(left.late)
}

// Is there an entry at a key whose stream is heavy?
fn is_heavy_at(table: &Slab<Entry<BufferedStream<Socket>>>, key: usize) -> bool
    ensures { result ≡ takes_turns (slot_at table.now.slots key) }
{
    match table.get(key) {
        Some(entry) => entry.stream.is_heavy(),
        None => false,
    }
}

/// How many streams are heavy. Takes no memory.
pub(crate) fn heavy_streams(table: &Slab<Entry<BufferedStream<Socket>>>) -> usize
    ensures { result ≡ heavy_streams table.now.slots }
{
    let mut count: usize = 0;
    for key in 0..table.capacity() {
        count += usize::from(is_heavy_at(table, key));
    }
    count
}

/// How wide the next turn is, after one so wide that might have driven so many more of those that take no turns, and in which so many
/// streams turned out heavy; widths are in parts of `WIDTH_PARTS`. It is as narrow as may be where these were several. It is wider by
/// `WIDENED_BY` parts where all of it was used and none of them was, and narrower by one where less than half of it was used. Takes no
/// memory.
pub(crate) fn next_width(last: usize, unused: usize, heavy: usize) -> usize
    requires some { WIDTH_MIN * WIDTH_PARTS ≤ last }
    requires few { last ≤ SESSIONS_MAX * WIDTH_PARTS }
    ensures is { result ≡ width_after last unused heavy }
    ensures some { WIDTH_MIN * WIDTH_PARTS ≤ result }
    ensures few { result ≤ SESSIONS_MAX * WIDTH_PARTS }
{
    if heavy >= WIDTH_MIN {
        return WIDTH_MIN * WIDTH_PARTS;
    }
    if unused == 0 && heavy == 0 {
        return (last + WIDENED_BY).min(SESSIONS_MAX * WIDTH_PARTS);
    }
    let width = last / WIDTH_PARTS;
    let next = if width.saturating_sub(unused) * 2 < width {
        last.saturating_sub(1)
    } else {
        last
    };
    next.max(WIDTH_MIN * WIDTH_PARTS)
}

/// Does nothing, and takes no memory. Its contract says that a key that waits is the next, or comes nearer.
pub(crate) fn law_each_comes_nearer()
    ensures { (waits : ℕ → Bool) (last next key : ℕ) → ComesNearer waits last next key }
{}
