//! Homes made zeros, a row at a time.
ghost use Rattle.std.specs.Prelude.{◌≤◌, ◌+◌, ◌*◌};
ghost use Rattle.pool_journal.specs.Blanking.{IsBlanked, AreBlank, IsBlankedSlot, AreSlotsBlank};
ghost use Rattle.pool_journal.specs.Journal.{IsPoolJournal};
ghost use Rattle.pool_journal.specs.Maps.{entries_of};
ghost use Rattle.pool_journal.specs.Sizes.{HasPool};
ghost use Rattle.sync_journal.specs.Steps.{WritesInto};

use crate::pool::PoolJournal;
use crate::slot::Slot;
use disk_model::{DiskFault, SectorDisk, WriteZeros};
use sync_journal::write_page;

impl PoolJournal {
    /// Makes `count` homes from `first` on zeros, and each slot that is given to one of them, so that zeros stand for each; nothing is synced. All homes are below the
    /// pool's `homes`.
    ///
    /// # Errors
    ///
    /// An error comes exactly where the device failed. What stands for these homes is unknown then, and for all others what it was.
    pub fn blank<D: WriteZeros>(
        &self,
        disk: &mut D,
        first: u32,
        count: u32,
    ) -> Result<(), DiskFault>
        requires is { IsPoolJournal self.now }
        requires pool { HasPool D.SectorDisk self.now.sizes disk.old }
        requires homes { first + count ≤ self.now.sizes.homes }
        ensures { WritesInto D.SectorDisk (IsBlanked self.now.sizes.blocks (entries_of self.now.map) first count) (IsBlanked self.now.sizes.blocks (entries_of self.now.map) first count)
            (AreBlank self.now.sizes.blocks (entries_of self.now.map) first count (D.content disk.new)) disk.old disk.new result }
    {
        disk.write_zeros(self.sizes.home(first), u64::from(count))?;
        self.blank_slots(disk, false, first, count)?;
        self.blank_slots(disk, true, first, count)
    }

    // Writes zeros to the slots of a body that are given to one of these homes.
    fn blank_slots<D: SectorDisk>(
        &self,
        disk: &mut D,
        second: bool,
        first: u32,
        count: u32,
    ) -> Result<(), DiskFault>
        requires is { IsPoolJournal self.now }
        requires pool { HasPool D.SectorDisk self.now.sizes disk.old }
        ensures { WritesInto D.SectorDisk (IsBlankedSlot self.now.sizes.blocks second (entries_of self.now.map second) first count (504 * self.now.sizes.blocks))
            (IsBlankedSlot self.now.sizes.blocks second (entries_of self.now.map second) first count (504 * self.now.sizes.blocks))
            (AreSlotsBlank self.now.sizes.blocks second (entries_of self.now.map second) first count (504 * self.now.sizes.blocks) (D.content disk.new)) disk.old disk.new result }
    {
        for (place, number) in self.map.body(second).iter().enumerate() {
            if *number > first && *number - first <= count {
                let slot = Slot {
                    second,
                    place: place as u32,
                };
                write_page(disk, self.sizes.slot(slot), &[0; 4096])?;
            }
        }
        Ok(())
    }
}
