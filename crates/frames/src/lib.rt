//! Physical memory: frames of 4,096 bytes with a role and a share count each. An edit of one frame leaves all others.
#![tactic(auto)]

mod laws;
mod memory;
mod role;

pub use laws::hardware_write;
pub use memory::Frames;
pub use role::Role;
