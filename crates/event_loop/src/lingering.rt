//! Lingering close: connections whose session has left while the peer may still be sending.
//!
//! The system resets a connection that is closed while input is unread, and then replies that are under way are lost. So a connection that
//! ended in good order is shut down for writing, and what still comes in is read and dropped until the peer ends, within bounds of number
//! and bytes.
ghost use Rattle.std.specs.Prelude.{◌≡◌, ◌≤◌, length};
ghost use Rattle.std.specs.VecDeque.{deque_len, deque_capacity};
ghost use Rattle.event_loop.specs.declared.lingering.TheConstants.{LINGERING_MAX};
ghost use Rattle.stream_driver.specs.Traffic.{DepartAt, IsBeginning};
ghost use Rattle.event_loop.specs.Drops.{DropsUpTo, WhyDropped};

use crate::connections::LINGERER;
use crate::socket::Socket;
use sector::Sectors;
use socket_calls::CountedPoll;
use std::alloc::{AllocError, Global};
use std::collections::VecDeque;
use stream_driver::{ReadAnswer, Stream};

/// The most connections that linger. Where one more comes, the one that has lingered longest is closed.
pub const LINGERING_MAX: usize = 64;

/// The most bytes that are dropped of one connection.
pub const LINGERING_BYTES: usize = 67_108_864;

/// The most bytes that one turn drops of one connection.
pub const LINGERING_BYTES_A_TURN: usize = 65_536;

// The most bytes that one read asks for.
const READ_MAX: usize = 4_096;

/// How the dropping of input came out.
#[derive(Clone, Copy, PartialEq, Eq, Debug)]
pub enum Dropped {
    /// So many bytes were dropped, and none can come now.
    Blocked(usize),
    /// As many as were asked for; there may be more.
    All,
    /// A call failed, or no more will come.
    Over,
}

impl Dropped {
    ghost use Rattle.event_loop.specs.Lingerings.{is_all};

    // Was as much dropped as was asked for?
    fn is_all(self) -> bool
        ensures { result ≡ is_all self }
    {
        matches!(self, Dropped::All)
    }
}

/// Reads at most so many bytes and drops them; each read is shown the device. Takes no memory.
pub fn drop_input<D: Sectors, S: Stream>(device: &D, stream: &mut S, most: usize) -> Dropped
    ensures received { S.reports
        → DropsUpTo result most (length (S.traffic stream.old).received) (length (S.traffic stream.new).received) }
    ensures goes_on { S.reports → IsBeginning (S.traffic stream.old).received (S.traffic stream.new).received }
    ensures sent { S.reports → (S.traffic stream.new).sent ≡ (S.traffic stream.old).sent }
    ensures departed { S.reports → DepartAt (D.moment device.now) (S.traffic stream.old) (S.traffic stream.new) }
    ensures connection { (S.traffic stream.new).connection ≡ (S.traffic stream.old).connection }
    ensures why { WhyDropped result most (S.traffic stream.old) (S.traffic stream.new) }
{
    let mut buffer = [0u8; READ_MAX];
    let mut left = most;
    while left > 0 {
        let part = &mut buffer[..left.min(READ_MAX)];
        match stream.read(device, part) {
            ReadAnswer::Moved(n) => left -= n,
            ReadAnswer::Blocked => return Dropped::Blocked(most - left),
            ReadAnswer::Failed | ReadAnswer::Ended => return Dropped::Over,
        }
    }
    Dropped::All
}

// A connection that lingers, and how many bytes may still be dropped of it.
#[derive(Drop)]
struct Lingerer {
    socket: Socket,
    left: usize,
}

impl Lingerer {
    ghost use Rattle.event_loop.specs.Lingerings.{DropsInput};

    // Drops what came in, as far as one turn goes.
    fn drop_some<D: Sectors>(&mut self, device: &D) -> Dropped
        ensures { DropsInput (D.moment device.now) self.old result self.new }
    {
        let most = self.left.min(LINGERING_BYTES_A_TURN);
        let dropped = drop_input(device, &mut self.socket, most);
        match dropped {
            Dropped::Blocked(n) => self.left -= n,
            Dropped::All => self.left -= most,
            Dropped::Over => self.left = 0,
        }
        dropped
    }
}

/// The connections that linger, oldest first.
#[derive(Drop)]
pub(crate) struct Lingering {
    queue: VecDeque<Lingerer>,
    /// There may be input that no poll will report.
    has_more: bool,
    /// How often the system refused to let one linger. It stays at 2^64 - 1.
    refused: u64,
    ghost few: { deque_len queue ≤ LINGERING_MAX },
    ghost room: { LINGERING_MAX ≤ deque_capacity queue },
}

impl Lingering {
    ghost use Rattle.std.specs.Prelude.{[], IfOk};
    ghost use Rattle.event_loop.specs.Lingerings.{AreTurned, FirstTurned, LingersOrCloses, closed, lingers_in};
    ghost use Rattle.event_loop.specs.Lingerings.{with_one_more};

    /// A queue in which none lingers. It takes the memory for all that may.
    pub(crate) fn new(alloc: Global) -> Result<Lingering, AllocError>
        ensures { IfOk result (λ l. l.queue.items ≡ []) }
    {
        Ok(Lingering {
            queue: VecDeque::with_capacity(alloc, LINGERING_MAX)?,
            has_more: false,
            refused: 0,
        })
    }

    /// May there be input that no poll will report? Takes no memory.
    pub(crate) fn has_more(&self) -> bool
        ensures { result ≡ self.now.has_more }
    {
        self.has_more
    }

    /// A connection's session has left. It lingers where it ended in good order, and else is closed. Takes no memory.
    pub(crate) fn begin(&mut self, poll: &CountedPoll, mut socket: Socket)
        ensures { LingersOrCloses socket (lingers_in self.old) (lingers_in self.new) }
    {
        if !socket.is_in_order() {
            return;
        }
        if socket.half_close(poll, LINGERER).is_err() {
            self.refused = self.refused.saturating_add(1);
            return;
        }
        self.push(socket);
    }

    /// Closes all that linger.
    pub(crate) fn close(&mut self)
        ensures { lingers_in self.new ≡ closed (lingers_in self.old) }
    {
        self.queue.clear();
        self.has_more = false;
    }

    // One more lingers, and there may be input of it. Where there are as many as may be, the oldest is closed.
    fn push(&mut self, socket: Socket)
        ensures { lingers_in self.new ≡ with_one_more socket (lingers_in self.old) }
    {
        if self.queue.len() >= LINGERING_MAX {
            let _ = self.queue.pop_front();
        }
        self.queue.push_back_reserved(Lingerer {
            socket,
            left: LINGERING_BYTES,
        });
        self.has_more = true;
    }

    /// Drops what came in where the poll reported it or there may be more, and closes those that are over. It goes over all that linger,
    /// and drops at most `LINGERING_BYTES_A_TURN` of each. Takes no memory.
    pub(crate) fn turn<D: Sectors>(&mut self, device: &D, is_reported: bool)
        ensures { AreTurned (D.moment device.now) is_reported (lingers_in self.old) (lingers_in self.new) }
    {
        if !is_reported && !self.has_more {
            return;
        }
        self.has_more = false;
        for _ in 0..self.queue.len() {
            self.turn_first(device);
        }
    }

    // Drops what came in of the first. It is closed where its input is over or no more may be dropped, and else becomes the last.
    fn turn_first<D: Sectors>(&mut self, device: &D)
        ensures { FirstTurned (D.moment device.now) self.old.queue.items (lingers_in self.old) (lingers_in self.new) }
    {
        let Some(mut lingerer) = self.queue.pop_front() else {
            return;
        };
        let dropped = lingerer.drop_some(device);
        if lingerer.left > 0 {
            self.has_more = self.has_more || dropped.is_all();
            self.queue.push_back_reserved(lingerer);
        }
    }
}
