//! Processes over memory that evicts: their numbers, and how they come, are copied and go.
//!
//! A fork has two passes (fork(2), copy-on-write). The first makes the tables that the child wants, and gives frames up where none
//! is free; the second, which asks for no frame, gives the child a share of each page of which the parent has a copy of its own, in
//! a frame or in a slot.
#![tactic(auto)]

mod endings;
mod forking;
mod linking;
mod numbers;
mod sharing;
mod starts;
mod withdrawing;

pub use endings::exit;
pub use forking::fork;
pub use numbers::free_pid;
pub use starts::spawn;
