//! Tests that cross crates: whole traces over simulated devices, with stops and faults, and over streams that fail.
#![tactic(auto)]

#[cfg(test)]
mod answers;
#[cfg(test)]
mod bench;
#[cfg(test)]
mod evictions;
#[cfg(test)]
mod failing_devices;
#[cfg(test)]
mod four_levels;
#[cfg(test)]
mod histories;
#[cfg(test)]
mod lengths;
#[cfg(test)]
mod limits;
#[cfg(test)]
mod many_files;
#[cfg(test)]
mod mappings;
#[cfg(test)]
mod private_memory;
#[cfg(test)]
mod processes;
#[cfg(test)]
mod shared_pages;
#[cfg(test)]
mod streams;
