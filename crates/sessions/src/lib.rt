//! Sessions over pieces of byte streams, above one engine.
//!
//! A `Hub` takes one event at a time: a session joins, a piece of its bytes comes in, one of its requests is served, bytes of its
//! replies were sent, it leaves. Requests and replies are RESP2 frames, as the grammar and the reply texts of `model` say.
//!
//! What each event does to each session's bytes and to the machine stands in `specs/SessionStreams.antt`, what holds of whole runs in
//! `specs/Laws.antt`, and what a crash during an event leaves in `specs/Crashes.antt`.
#![tactic(auto)]

mod buffer;
mod events;
mod hub;
mod laws;
mod opening;
mod present;
mod reply_buffer;
mod requests;
mod session;

pub use events::{
    Event, INBOX_MAX, OUTPUT_KEPT, OUTPUT_ROOM, Outcome, SESSIONS_MAX, SessionView, Status,
};
pub use hub::Hub;
pub use laws::{law_crashes_leave_the_last_map, law_replies_are_private};
