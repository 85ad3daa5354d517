//! Where pages of files and of shared anonymous memory lie.
ghost use Rattle.residency.specs.Picture.{picture_of};
ghost use Rattle.inspection.specs.Pages.{IsPageView};

use page_cache::Place;
use residency::Core;
use vm_types::{Levels, PageKey};

/// A page of a file or of shared anonymous memory as it is.
#[derive(Clone, Copy, Debug, PartialEq, Eq)]
pub struct PageView {
    pub place: Place,
    /// Whether it was stored to, or its file got longer within it, and it isn't durable yet.
    pub is_touched: bool,
}

/// Where a page of a file or of shared anonymous memory lies, and whether it is touched.
pub(crate) fn page_view<D, E, M: Levels>(core: &Core<D, E, M>, page: PageKey) -> PageView
    ensures { IsPageView (picture_of core.now) page result }
{
    PageView {
        place: core.cache.place(page),
        is_touched: core.cache.is_touched(page),
    }
}
