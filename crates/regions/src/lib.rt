//! The regions of one process: which pages are mapped, and what each is. They are kept as runs, the longest rows of
//! neighbouring pages with equal permission and equal backing, where pages of one file or object follow one another. At most 256 runs
//! stand in a fixed table, so nothing here takes memory, and a row of millions of pages costs as much as one page.
#![tactic(auto)]

mod attributes;
mod run;
mod table;

pub use run::Run;
pub use table::Regions;

/// The most runs of one process.
pub const RUNS: usize = 256;
