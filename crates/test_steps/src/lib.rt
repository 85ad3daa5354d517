//! Tables of what is done to programs and files, and of what has to come of it, for tests.
//!
//! A test is such a table, and holds no value of its own: each `?` is a way out, which lets go of all that a function holds,
//! and that takes long to prove. In the words, lines and names of files of a table, `@` stands for how the paths of that
//! test's files begin, so `@image` is a file in a temporary folder that no other test has.
#![tactic(auto)]

mod endings;
mod files;
mod looks;
mod names;
mod steps;
mod tables;

pub use endings::ran_over;
pub use looks::{repeated, same, same_number};
pub use names::path;
pub use steps::{FileStep, NEW, Program, ProgramCall, Step, TwoFiles, UNMADE};
pub use tables::{carry_out, carry_out_all, carry_out_for_each};
