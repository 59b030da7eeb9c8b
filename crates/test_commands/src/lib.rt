//! Tests of the program's commands: their texts, their statuses and their files.
#![tactic(auto)]

#[cfg(test)]
mod copied;
#[cfg(test)]
mod created;
#[cfg(test)]
mod programs;
#[cfg(test)]
mod served;
