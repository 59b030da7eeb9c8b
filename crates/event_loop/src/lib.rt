//! Sessions over TCP, in one thread: a loop that polls, drives the connections that are ready, takes out those that have ended, and accepts
//! others.
//!
//! What the system's sockets do is left open: which bytes they move is a premise (`specs/Sockets.antt`). What a turn makes of the hub and
//! the table, given what the poll reported, stands in `specs/Turns.antt`: which entries become ready, that each that is ready and has its
//! turn is driven, which are taken out, and which come. A turn polls once, by `CountedPoll::wait`; that this calls the system's poll is to
//! be read there.
#![tactic(auto)]

mod connections;
mod laws;
mod lingering;
mod listener;
mod listening;
mod order;
mod polling;
mod server;
mod socket;
mod spare;
mod waiting;

pub use connections::{Backlog, Refusal, accept_some};
pub use laws::law_limits;
pub use lingering::{Dropped, LINGERING_BYTES, LINGERING_BYTES_A_TURN, LINGERING_MAX, drop_input};
pub use listener::{AcceptAnswer, Listener, Port};
pub use listening::Unbound;
pub use server::EventLoop;
pub use socket::Socket;
pub use socket_calls::{AcceptedSocket, CountedPoll};
pub use waiting::RETRY_AFTER_MILLIS;
