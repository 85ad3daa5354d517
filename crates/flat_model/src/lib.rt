//! A flat model of the machine, for tests: processes as lists of pages, and files as lengths and pages of bytes. It shares no code with the machine.
#![tactic(auto)]

mod files;
mod flat;
mod pages;

pub use flat::Flat;
