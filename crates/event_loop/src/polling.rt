//! The system's poll, with its last events and counts of how often it succeeded and failed.
ghost use Rattle.std.specs.Prelude.{◌≡◌, IfOk, OnOk};
ghost use Rattle.mio.specs.Events.{capacity as events_capacity, items};
ghost use Rattle.socket_calls.specs.HappenedCalls.{WasReported};
ghost use Rattle.event_loop.specs.Polls.{WasAskedOnce, after_wait, polls_of};

use mio::Events;
use socket_calls::CountedPoll;
use std::alloc::{AllocError, Global};
use std::io;
use std::time::Duration;

/// The system's poll, with what it reported last.
///
/// How often it succeeded and how often it failed is counted. A count is a u64: it rises with its answer, and once it stands at 2^64 - 1 it
/// stays. The kind of the last fault is kept. It leaves open what it reports.
#[derive(Drop)]
pub(crate) struct Poller {
    poll: CountedPoll,
    events: Events,
    succeeded: u64,
    failed: u64,
    /// The kind of the fault of the last poll, none where that succeeded.
    fault: Option<io::ErrorKind>,
    /// The wait that was asked of it last.
    waited: Option<Duration>,
}

impl Poller {
    /// A poll of which nothing has been counted. It takes the memory for so many events.
    pub(crate) fn new(
        alloc: Global,
        poll: CountedPoll,
        capacity: usize,
    ) -> Result<Poller, AllocError>
        ensures room { IfOk result (λ poller. events_capacity poller.events ≡ capacity) }
    {
        Ok(Poller {
            poll,
            events: Events::with_capacity(alloc, capacity)?,
            succeeded: 0,
            failed: 0,
            fault: None,
            waited: None,
        })
    }

    /// Where sources are registered. Takes no memory.
    pub(crate) fn poll(&self) -> &CountedPoll {
        &self.poll
    }

    /// The events that it reported last. Takes no memory.
    pub(crate) fn events(&self) -> &Events
        ensures { result.now ≡ self.now.events }
    {
        &self.events
    }

    /// Polls once: waits until there is an event or the time is up, without end where no time is given. A fault is the system's. Takes no
    /// memory.
    pub(crate) fn wait(&mut self, timeout: Option<Duration>) -> io::Result<()>
        ensures polls { polls_of self.new ≡ after_wait result (polls_of self.old) }
        ensures waited { self.new.waited ≡ timeout }
        ensures asked { WasAskedOnce self.old.poll self.new.waited self.new.poll }
        ensures reported { OnOk result (WasReported self.old.poll (items self.new.events)) }
        ensures room { events_capacity self.new.events ≡ events_capacity self.old.events }
    {
        self.waited = timeout;
        match self.poll.wait(&mut self.events, timeout) {
            Ok(()) => {
                self.succeeded = self.succeeded.saturating_add(1);
                self.fault = None;
                Ok(())
            }
            Err(fault) => {
                self.failed = self.failed.saturating_add(1);
                self.fault = Some(fault.kind());
                Err(fault)
            }
        }
    }
}
