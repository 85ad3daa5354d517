//! Requests from their bytes to those of their replies, on a machine over devices in memory.
#![tactic(auto)]

#[cfg(test)]
mod requests;
