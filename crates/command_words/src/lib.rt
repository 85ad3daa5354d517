//! The words after the names of the programs, and what they ask for.
#![tactic(auto)]

mod arguments;
mod faults;
mod formatting;
mod numbers;
mod pools;
mod running;
mod showing;
mod stopping;

pub use faults::WordsFault;
pub use formatting::{FormatWords, NewWords, UpgradeWords, format_words};
pub use numbers::number;
pub use running::{DEFAULT_FRAMES, DEFAULT_SLOTS, RunWords, run_words};
pub use showing::{CatWords, cat_words};
pub use stopping::{StopWords, stop_words};
