//! A trace that is run while one looks inside: its replies, and between them comments, answers to questions, and what each command did.
#![tactic(auto)]

mod program;
mod viewer;

pub use program::pagelook;
