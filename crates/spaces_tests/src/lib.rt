//! Tests of the calls of processes on their spaces, over devices in memory.
#![tactic(auto)]

#[cfg(test)]
mod bench;
#[cfg(test)]
mod calls;
#[cfg(test)]
mod evictions;
#[cfg(test)]
mod fixtures;
#[cfg(test)]
mod lengths;
#[cfg(test)]
mod rows;
#[cfg(test)]
mod sharing;
#[cfg(test)]
mod wants;
