//! The system's poll, with its waits counted.
ghost use Rattle.std.specs.Prelude.{◌≡◌, ◌+◌, ◌-◌, ◌^◌, max, min, IfOk, OnOk};
ghost use Rattle.mio.specs.Events.{capacity as events_capacity, items};

use mio::{Events, Poll, Registry};
use std::io;
use std::net::Net;
use std::time::Duration;

/// The system's poll, with the number of waits that were asked of it. Once the count is 2^64 - 1 it stays.
#[derive(Drop)]
pub struct CountedPoll {
    poll: Poll,
    waits: u64,
}

impl CountedPoll {
    ghost use Rattle.socket_calls.specs.HappenedCalls.{WasAskedToWait, WasReported};

    /// A poll of which no wait was asked. Answers the system's error. Takes no memory.
    pub fn new<R: Net>(rt: &R) -> io::Result<CountedPoll>
        ensures { IfOk result (λ poll. poll.waits ≡ 0) }
    {
        Ok(CountedPoll {
            poll: Poll::new(rt)?,
            waits: 0,
        })
    }

    // Where what it reports is registered.
    pub(crate) fn registry(&self) -> &Registry {
        self.poll.registry()
    }

    /// Waits once, until there is an event or the time is up, without end where no time is given, and puts the events there. Answers the
    /// system's error. Takes no memory.
    pub fn wait(&mut self, events: &mut Events, timeout: Option<Duration>) -> io::Result<()>
        ensures asked { WasAskedToWait self.old timeout }
        ensures once { self.new.waits ≡ max self.old.waits (min (self.old.waits + 1) (2 ^ 64 - 1)) }
        ensures reported { OnOk result (WasReported self.old (items events.new)) }
        ensures room { events_capacity events.new ≡ events_capacity events.old }
    {
        self.waits = self.waits.saturating_add(1);
        self.poll.poll(events, timeout)
    }
}
