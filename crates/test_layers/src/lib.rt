//! Tests of the crates below the engine against values from outside: keys, requests, replies, devices, logs, versions, last readers,
//! transactions and the check of a commit.
#![tactic(auto)]

#[cfg(test)]
mod devices;
#[cfg(test)]
mod helpers;
#[cfg(test)]
mod kept;
#[cfg(test)]
mod keys;
#[cfg(test)]
mod log;
#[cfg(test)]
mod long_use;
#[cfg(test)]
mod numbers;
#[cfg(test)]
mod page_counts;
#[cfg(test)]
mod pages;
#[cfg(test)]
mod readers;
#[cfg(test)]
mod replies;
#[cfg(test)]
mod requests;
#[cfg(test)]
mod transactions;
#[cfg(test)]
mod verdicts;
