//! Tests of the loop: sockets of the same process, what it accepts, a turn over a table of connections, and what it does while it is idle.
#![tactic(auto)]

#[cfg(test)]
mod accepts;
#[cfg(test)]
mod idle;
#[cfg(test)]
mod loops;
#[cfg(test)]
mod order;
#[cfg(test)]
mod turns;
