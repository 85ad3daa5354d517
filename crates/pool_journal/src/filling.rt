//! The pages of a commit, written to free slots.
ghost use Rattle.std.specs.Prelude.{◌<◌, ℕ, length};
ghost use Rattle.pool_journal.specs.Filling.{AreSlots, IsFilled, WritesSlots};
ghost use Rattle.pool_journal.specs.Sizes.{HasPool};

use crate::sizes::PoolSizes;
use crate::slot::Slot;
use disk_model::SectorDisk;
use sync_journal::{CommitFault, PageSource, write_page};

/// Writes the first pages that the source gives to these slots, one to each, and syncs nothing.
pub(crate) fn write_pages<D: SectorDisk, S: PageSource>(
    disk: &mut D,
    sizes: PoolSizes,
    slots: &[Slot],
    source: &mut S,
) -> Result<(), CommitFault>
    requires pool { HasPool D.SectorDisk sizes disk.old }
    requires slots { AreSlots sizes.blocks slots.now }
    requires gives { (i : ℕ) → i < length slots.now → S.gives source.old i }
    ensures { WritesSlots D.SectorDisk S.PageSource sizes.blocks slots.now (length slots.now) (IsFilled sizes.blocks slots.now (length slots.now))
        disk.old disk.new source.old source.new result }
{
    let mut page = [0; 4096];
    for j in 0..slots.len() {
        source.page(j, &mut page)?;
        write_page(disk, sizes.slot(slots[j]), &page)?;
    }
    Ok(())
}
