//! Other pages in the place of those of a row.
ghost use Rattle.std.specs.Prelude.{◌≡◌, ℕ, false};
ghost use Rattle.vm_types.specs.Rows.{in_row, IsUserMap};
ghost use Rattle.regions.specs.Permission.{IsReadableMap};
ghost use Rattle.regions.specs.RunList.{attr_at};
ghost use Rattle.residency.specs.Picture.{picture_of};
ghost use Rattle.residency.specs.Parts.{AreObjects};
ghost use Rattle.ranges.specs.Rows.{with_map};
ghost use Rattle.ranges.specs.RowsRemapped.{IsRowOf, RemapsPages};

use crate::clearing::clear_row;
use crate::forgetting::forget_row;
use regions::Regions;
use residency::Core;
use vm_types::{Levels, Pid};

/// Gives a live process these regions, which are the ones that it has but for the `pages` pages from `first` on. Those
/// have no own copies afterwards, in frames or in slots, and no entries: the next access to one finds what it is now (mmap(2), MAP_FIXED, and
/// munmap(2)). Pages of objects that none but this row named are forgotten.
pub fn remap<D, E, M: Levels>(
    core: &mut Core<D, E, M>,
    pid: Pid,
    first: u64,
    pages: u64,
    regions: &Regions<M>,
)
    requires row { IsRowOf (picture_of core.old) pid first pages }
    requires others { (page : ℕ) → in_row first pages page ≡ false → attr_at regions.now page ≡ (picture_of core.old).at pid page }
    requires user { IsUserMap M.mode (attr_at regions.now) }
    requires readable { IsReadableMap (attr_at regions.now) }
    requires objects { AreObjects (with_map (picture_of core.old).at pid (attr_at regions.now)) }
    ensures { RemapsPages core.old core.new pid first pages (attr_at regions.now) }
{
    clear_row(core, pid, first, pages);
    forget_row(core, pid, first, pages);
    core.remap(pid, regions);
}
