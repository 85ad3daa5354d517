//! Tests of what a commit may change of the directory, and of room for files that grow.
#![tactic(auto)]

#[cfg(test)]
mod bench;
#[cfg(test)]
mod checks;
#[cfg(test)]
mod files;
#[cfg(test)]
mod rooms;
