//! Tests of what memory is made of: numbers, frames, entries, places of file pages, slots, the clock, and regions.
#![tactic(auto)]

#[cfg(test)]
mod bench;
#[cfg(test)]
mod hands;
#[cfg(test)]
mod notes;
#[cfg(test)]
mod places;
#[cfg(test)]
mod runs;
#[cfg(test)]
mod slots;
#[cfg(test)]
mod translations;
#[cfg(test)]
mod trees;
#[cfg(test)]
mod types;
#[cfg(test)]
mod walks;
