//! Places of pages of files and objects.

use vm_types::{FrameNo, SlotNo};

/// Where the bytes of a page of a file or an object are.
#[derive(Clone, Copy, Debug, PartialEq, Eq)]
pub enum Place {
    /// In the store alone; those of a page of an object nowhere, since they are zeros.
    Home,
    /// In a frame of memory.
    Frame(FrameNo),
    /// In a slot of the swap device.
    Slot(SlotNo),
}

/// More touched pages than a list has room for.
#[derive(Clone, Copy, Debug, PartialEq, Eq)]
pub struct TooMany;
