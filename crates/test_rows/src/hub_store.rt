//! A hub over the engine as a store.
use crate::stores::Store;
use model::Memory;
use sector::Sectors;
use sessions::{Event, Hub, Outcome};

/// A hub whose sessions 1 to 9 have joined.
#[derive(Drop)]
pub struct HubStore<D: Sectors> {
    pub hub: Hub<D>,
}

impl<D: Sectors> HubStore<D> {
    pub fn new(mut hub: Hub<D>) -> HubStore<D> {
        for session in 1..=9u64 {
            let _ = hub.step(&Event::Joined(session));
        }
        HubStore { hub }
    }
}

impl<D: Sectors> Store for HubStore<D> {
    fn answer(&mut self, session: u64, frame: &[u8], out: &mut Vec<u8>) -> Result<(), Memory> {
        let _ = self.hub.step(&Event::Bytes(session, frame));
        if let Outcome::Memory = self.hub.step(&Event::Serve(session)) {
            return Err(Memory);
        }
        let pending = self.hub.pending(session);
        let sent = pending.len();
        out.extend_from_slice(pending)?;
        let _ = self.hub.step(&Event::Sent(session, sent));
        Ok(())
    }
}
