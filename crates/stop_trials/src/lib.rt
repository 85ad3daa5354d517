//! Trials of stops: a trace is run over a simulated store, its device is stopped in each of its writes and syncs, and what is
//! left is recovered, and the msyncs that it stands for are counted.
#![tactic(auto)]

mod faults;
mod fillings;
mod parts;
mod program;
mod recovery;
mod runs;
mod standing;
mod stopping;
mod trials;

pub use program::pagestops;
pub use stopping::Event;
pub use trials::Trial;
