//! Where the entry of a page stands.
ghost use Rattle.std.specs.Prelude.{◌≡◌};
ghost use Rattle.residency.specs.Picture.{picture_of, entry};
ghost use Rattle.fault.specs.Changes.{StandsAt};

use memory::number_in;
use residency::Core;
use sv39_walk::{Pte, TABLE_ENTRIES};
use vm_types::{FrameNo, Levels, Pid, Vpn};

/// A page of a live process on whose way no table is missing, and the tables by which its entry is reached.
#[derive(Clone, Copy, Debug, PartialEq, Eq)]
pub(crate) struct Spot {
    /// The process.
    pub(crate) pid: Pid,
    /// The page.
    pub(crate) page: Vpn,
    /// The root table of the process.
    pub(crate) root: FrameNo,
    /// The lowest table on the way to the page, in which its entry stands.
    pub(crate) table: FrameNo,
}

/// The number that stands for the page.
pub(crate) fn number_at<D, E, M: Levels>(core: &Core<D, E, M>, spot: &Spot) -> Pte
    requires { StandsAt (picture_of core.now) spot.now }
    ensures { result.0 ≡ entry (picture_of core.now) spot.now.pid spot.now.page }
{
    let index = (spot.page.get() % TABLE_ENTRIES) as usize;
    number_in(&core.frames, spot.table, index)
}
