//! The machine: a trace's commands, carried out one after another over a store that survives stops.
//!
//! `Engine` is the machine of one mode of address spaces, a type parameter, and each of its functions is proved once for every mode.
//! `Machine` has the engine of the mode that `Config` names, and hands each call on to it.
#![tactic(auto)]

mod boot;
mod config;
mod engine;
mod fault_log;
mod laws;
mod machine;
mod syncs;

pub use boot::{BootFault, MAX_SLOTS};
pub use config::Config;
pub use engine::Engine;
pub use laws::{
    hardware_access, hardware_chance, hardware_fence, hardware_goes_on, hardware_run,
    hardware_store, hardware_tells,
};
pub use machine::Machine;
