//! A line of a buffer.
ghost use Rattle.std.specs.Prelude.{◌<◌, ◌^◌};
ghost use Rattle.sv39_walk.specs.Entry.{frame_of};

use sv39_walk::Pte;
use vm_types::{FrameNo, Vpn};

/// A translation that is kept: the tree, by its root table, the page, and its leaf, which names a frame by a number under 2^32.
#[derive(Clone, Copy, Debug, PartialEq, Eq)]
pub struct Line {
    pub root: FrameNo,
    pub page: Vpn,
    pub leaf: Pte,
    pub(crate) ghost small: { frame_of leaf.0 < 2 ^ 32 },
}
