//! Tests of journals of pools over a device in memory: what commits and openings ask of it, and which pages stand after stops and faults.
#![tactic(auto)]

#[cfg(test)]
mod bench;
#[cfg(test)]
mod blanking;
#[cfg(test)]
mod commits;
#[cfg(test)]
mod openings;
#[cfg(test)]
mod run_disk;
#[cfg(test)]
mod tidying;
