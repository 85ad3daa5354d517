//! Tests of plans over a device in memory: what they answer, and plans that are stopped before each of their calls.
#![tactic(auto)]

#[cfg(test)]
mod answers;
#[cfg(test)]
mod client;
#[cfg(test)]
mod pools;
#[cfg(test)]
mod resizing;
#[cfg(test)]
mod stops;
