//! Where connections come from: a trait, and a listening TCP socket, with counts of its answers.
ghost use Rattle.std.specs.Prelude.{◌≡◌, IfOk};
ghost use Rattle.socket_calls.specs.HappenedCalls.{IsAddressOf};
ghost use Rattle.event_loop.specs.Outcomes.{AcceptsAs};

use crate::socket::would_wait;
use socket_calls::{AcceptedSocket, ListeningSocket};
use std::io;
use std::net::SocketAddr;

/// What an accept answers.
#[derive(Drop)]
pub enum AcceptAnswer {
    /// A connection was accepted.
    Accepted(AcceptedSocket),
    /// None waits now.
    Blocked,
    /// The call failed.
    Failed,
}

/// A source of connections whose calls don't wait.
///
/// How often it was asked is counted, and what it has answered by three counts, one of each answer. A count is a u64: once it stands at
/// 2^64 - 1 it stays.
pub trait Listener {
    ghost use Rattle.std.specs.Prelude.{⊤};
    ghost use Rattle.event_loop.specs.Accepts.{Accepts, after_accept};
    ghost use Rattle.event_loop.specs.declared.listener.AcceptAnswer.{AcceptAnswer};

    /// How often it was asked, and how often each answer was given.
    ghost accepts: { Self → Accepts };

    /// `answers before answer after`: one call of `accept`.
    ghost answers: { Self → AcceptAnswer → Self → Type 0 } = { λ _ _ _. ⊤ };

    /// Accepts the next connection that waits, or answers why none came. Takes no memory.
    fn accept(&mut self) -> AcceptAnswer
        ensures counted { accepts self.new ≡ after_accept result (accepts self.old) }
        ensures answers { answers self.old result self.new };
}

/// A listening TCP socket. Each accept is one call of the system, and gives the connection that this gave.
#[derive(Drop)]
pub struct Port {
    listener: ListeningSocket,
    accepted: u64,
    blocked: u64,
    failed: u64,
}

// What an accept answers where the system answers so.
fn accept_answer(outcome: io::Result<(AcceptedSocket, SocketAddr)>) -> AcceptAnswer
    ensures { AcceptsAs outcome result }
{
    match outcome {
        Ok((accepted, _address)) => AcceptAnswer::Accepted(accepted),
        Err(error) if would_wait(&error) => AcceptAnswer::Blocked,
        Err(_) => AcceptAnswer::Failed,
    }
}

impl Port {
    /// The listener, of which nothing has been counted. Takes no memory.
    pub fn new(listener: ListeningSocket) -> Port
        ensures { result.listener ≡ listener }
    {
        Port {
            listener,
            accepted: 0,
            blocked: 0,
            failed: 0,
        }
    }

    /// The address that it listens at. A fault is the system's. Takes no memory.
    pub fn address(&self) -> io::Result<SocketAddr>
        ensures { IfOk result (λ address. IsAddressOf self.now.listener address) }
    {
        self.listener.address()
    }
}

impl Listener for Port {
    ghost use Rattle.event_loop.specs.Accepts.{AsksOnce};

    ghost answers = { AsksOnce };

    ghost accepts = { λ p. record {
      asked = p.listener.accepts;
      accepted = p.accepted;
      blocked = p.blocked;
      failed = p.failed;
    } };

    fn accept(&mut self) -> AcceptAnswer {
        let answer = accept_answer(self.listener.accept());
        match &answer {
            AcceptAnswer::Accepted(_) => self.accepted = self.accepted.saturating_add(1),
            AcceptAnswer::Blocked => self.blocked = self.blocked.saturating_add(1),
            AcceptAnswer::Failed => self.failed = self.failed.saturating_add(1),
        }
        answer
    }
}
