//! Tests of each call of a machine, and of the looks into one, over devices in memory.
#![tactic(auto)]

#[cfg(test)]
mod bench;
#[cfg(test)]
mod example;
#[cfg(test)]
mod looks;
#[cfg(test)]
mod machines;
#[cfg(test)]
mod store_lives;
