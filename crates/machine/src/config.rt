//! What a machine is booted with.
use vm_types::Mode;

/// The sizes of a machine, and the mode of its address spaces.
#[derive(Clone, Copy, Debug, PartialEq, Eq)]
pub struct Config {
    /// Frames of memory, 8 to 65,536, of 4,096 bytes.
    pub frames: u32,
    /// Slots of the swap device, 0 to 65,536, of 4,096 bytes.
    pub slots: u32,
    /// How many levels of page tables processes have, and so how far their user pages go.
    pub mode: Mode,
}
