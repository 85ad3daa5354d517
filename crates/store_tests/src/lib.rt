//! Tests of devices, of stores on them, and of batches of their pages.
#![tactic(auto)]

#[cfg(test)]
mod bench;
#[cfg(test)]
mod commits;
#[cfg(test)]
mod disks;
#[cfg(test)]
mod formats;
#[cfg(test)]
mod pools;
#[cfg(test)]
mod requests;
#[cfg(test)]
mod upgrades;
