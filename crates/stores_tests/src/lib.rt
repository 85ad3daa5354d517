//! Tests of stores of any layout over a device in memory: how they are opened, read, committed to, tidied and upgraded, how their files get other lengths, what stands
//! after stops, and what is no store.
#![tactic(auto)]

#[cfg(test)]
mod bench;
#[cfg(test)]
mod changes;
#[cfg(test)]
mod commits;
#[cfg(test)]
mod lengths;
#[cfg(test)]
mod openings;
#[cfg(test)]
mod upgrading;
