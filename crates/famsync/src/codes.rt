//! What an export returns, and the states of a handle. C takes no enum from a library, so these are numbers.
ghost use Rattle.famsync.specs.Codes.{TellsRefusal, TellsResizing};

use sync_plans::{Refusal, ResizeRefusal};

/// It was done as it was asked.
pub(crate) const OK: u32 = 0;

/// It is not the turn of this call: see `Handle`.
pub(crate) const TURN: u32 = 1;

/// The image has no layout of a store.
pub(crate) const BAD_LAYOUT: u32 = 2;

/// The journal that the gate of an image of layout 2 or 3 names has a map that no commit writes.
pub(crate) const BAD_JOURNAL: u32 = 3;

/// There is no page or there are more than the store takes, one is named twice, one does not begin inside its file, or there are not as
/// many pages as bytes for them. Of `famsync_resize`: no commit takes the sizes with these pages and as many bytes. Of `famsync_length`: the image has no such file.
pub(crate) const BAD_PAGES: u32 = 4;

/// The file of a page, or of a size, may only be read.
pub(crate) const READ_ONLY: u32 = 5;

/// The plan has more calls than the shortest of the lists has places, of which its list then holds as many.
pub(crate) const NO_ROOM: u32 = 6;

/// There was too little memory for what a store of layout 4 keeps there while it is open.
pub(crate) const NO_MEMORY: u32 = 7;

/// The image is of no store of layout 4: files of other stores keep their lengths.
pub(crate) const NO_POOL: u32 = 8;

/// There are not as many free homes in a row as a file lacks, or it has as many extents as a file may have.
pub(crate) const NO_HOMES: u32 = 9;

/// The image has to be opened.
pub(crate) const CLOSED: u32 = 0;

/// A plan may be asked for.
pub(crate) const READY: u32 = 1;

/// A plan is to be carried out.
pub(crate) const PENDING: u32 = 2;

/// The number of a refusal. A device that lists calls fails where it has no room.
pub(crate) fn number(refusal: Refusal) -> u32
    ensures { TellsRefusal refusal result }
{
    match refusal {
        Refusal::Device => NO_ROOM,
        Refusal::BadLayout => BAD_LAYOUT,
        Refusal::BadJournal => BAD_JOURNAL,
        Refusal::BadPages => BAD_PAGES,
        Refusal::ReadOnly => READ_ONLY,
        Refusal::Memory => NO_MEMORY,
    }
}

/// The number of a refusal of sizes.
pub(crate) fn number_of_resizing(refusal: ResizeRefusal) -> u32
    ensures { TellsResizing refusal result }
{
    match refusal {
        ResizeRefusal::Device => NO_ROOM,
        ResizeRefusal::NoPool => NO_POOL,
        ResizeRefusal::Memory => NO_MEMORY,
        ResizeRefusal::BadPages => BAD_PAGES,
        ResizeRefusal::ReadOnly => READ_ONLY,
        ResizeRefusal::NoHomes => NO_HOMES,
    }
}
