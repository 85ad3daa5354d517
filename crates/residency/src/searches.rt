//! What is looked for in the tables, and whose tables these are.
ghost use Rattle.std.specs.Prelude.{◌<◌};

use crate::contents::Content;
use crate::leaves::Change;
use vm_types::FrameNo;

/// Entries over a frame that a change is for.
#[derive(Clone, Copy)]
pub(crate) struct LeafSearch {
    /// The frame.
    pub(crate) frame: FrameNo,
    /// What it holds.
    pub(crate) content: Content,
    /// The change.
    pub(crate) change: Change,
    /// It isn't the zero page.
    pub(crate) ghost above: { 0 < frame.0 },
}

/// A live process.
#[derive(Clone, Copy)]
pub(crate) struct LiveProcess {
    /// Its number.
    pub(crate) pid: usize,
    /// Its root table.
    pub(crate) root: FrameNo,
    pub(crate) ghost number: { pid < 65 },
}
