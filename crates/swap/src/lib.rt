//! The swap area: a device as a row of slots of 4,096 bytes, each with a share count. A slot gives back what was put.
#![tactic(auto)]

mod pages;
mod share_counts;
mod slots;

pub use slots::{PutFault, Swap};
