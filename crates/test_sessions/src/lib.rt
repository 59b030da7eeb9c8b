//! Tests of the sessions and of what carries their bytes. The hub: its events, and the worked rows over it, in any pieces. The driver:
//! peers in memory, of which one call meets trouble.
#![tactic(auto)]

#[cfg(test)]
mod buffers;
#[cfg(test)]
mod events;
#[cfg(test)]
mod looking;
#[cfg(test)]
mod streams;
#[cfg(test)]
mod tables;
