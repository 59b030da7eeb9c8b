//! A hub with clients in memory.
ghost use Rattle.stream_driver.specs.Sessions.{Stands};

use crate::hubs::new_hub;
use commit_log::LogFault;
use sector::MemSectors;
use sessions::{Event, Hub, Status};
use std::alloc::Global;
use stream_driver::{Progress, Stream, drive};

/// A hub that stands for some state, as a drive requires.
#[derive(Drop)]
pub struct Driven {
    hub: Hub<MemSectors>,
    ghost stands: { Stands hub },
}

impl Driven {
    /// A hub over an empty log of 4,096 sectors; `Memory` where these are refused.
    pub fn new(alloc: Global) -> Result<Driven, LogFault> {
        let hub = new_hub(alloc, 4096)?;
        Ok(Driven { hub })
    }

    /// Lends the hub. Takes no memory.
    pub fn hub(&self) -> &Hub<MemSectors> {
        &self.hub
    }

    /// A session joins, where it may.
    pub fn join(&mut self, session: u64) {
        let _ = self.hub.step(&Event::Joined(session));
    }

    /// Is this session present? Takes no memory.
    pub fn is_present(&self, session: u64) -> bool {
        self.hub.status(session) != Status::Absent
    }

    /// Drives a session, and reports one that is not present as gone.
    pub fn drive<S: Stream>(&mut self, session: u64, stream: &mut S) -> Progress {
        if self.hub.status(session) == Status::Absent {
            return Progress::Gone;
        }
        drive(&mut self.hub, session, stream)
    }
}
