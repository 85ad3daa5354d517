//! What the files of a store are after any number of lives: machines that boot on it one after another, each until a stop.
//!
//! A life begins with a device that came up with what the stop before left, all of it synced. A machine starts on it, or a stop comes
//! meanwhile, or it does not start; it carries out commands, and a stop comes at any moment. Whatever the lives were, the files are then
//! what a first part of each one's msyncs left, life after life, each msync whole, with every one that was acknowledged.
//!
//! After Park, Kelly and Shen, "Failure-Atomic msync(): A Simple and Efficient Mechanism for Preserving the
//! Integrity of Durable Data" (EuroSys 2013).
#![tactic(auto)]

mod laws;
mod life;

pub use laws::{
    boot_after_lives, flat_run, formatted_lives, hardware_life, lives_boot, lives_in_a_row,
    new_store, one_content, one_more_life, trace_life, two_lives, upgraded_lives, upgraded_store,
};
pub use life::live;
