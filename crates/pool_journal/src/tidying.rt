//! Homes at idle: all pages that stand in slots, copied home.
ghost use Rattle.std.specs.Prelude.{◌≡◌};
ghost use Rattle.pool_journal.specs.Journal.{IsPoolJournal};
ghost use Rattle.pool_journal.specs.Maps.{entries_of};
ghost use Rattle.pool_journal.specs.Pools.{IsPoolRest};
ghost use Rattle.pool_journal.specs.Sizes.{HasPool};
ghost use Rattle.pool_journal.specs.Tidying.{BringsHome, TidiesPool};

use crate::copying::copy_home;
use crate::gate::name_map;
use crate::pool::PoolJournal;
use crate::recovering::put_map;
use disk_model::{DiskFault, SectorDisk};

impl PoolJournal {
    /// Copies all pages that stand in slots to their homes, so that every slot is free: `free_pages` is twice the pool's `places` then, and no
    /// commit has to copy a page home before it has taken as many pages as that. It takes 2 syncs: of the homes, with a map that gives no slot
    /// to a home beside the named one, and of the gate, which names that map then. Where no slot is given to a home nothing is done.
    ///
    /// At every moment the device stands for what it did. It may be called between any two commits.
    ///
    /// # Errors
    ///
    /// An error comes exactly where the device failed: every image that a stop might have left stands for the same pages, and the journal is read anew.
    pub fn tidy<D: SectorDisk>(&mut self, disk: &mut D) -> Result<(), DiskFault>
        requires is { IsPoolJournal self.old }
        requires pool { HasPool D.SectorDisk self.old.sizes disk.old }
        requires rest { D.keeps_model disk.old → IsPoolRest D.SectorDisk self.old.sizes.blocks self.old.sizes.homes self.old.second (entries_of self.old.map) disk.old }
        ensures { TidiesPool D.SectorDisk self.old self.new disk.old disk.new result }
    {
        if self.gives() {
            self.bring_home(disk)?;
            name_map(disk, !self.second)?;
            self.turn();
        }
        Ok(())
    }

    // Writes and syncs all of that but the gate: the homes, and an empty map beside the named one.
    fn bring_home<D: SectorDisk>(&mut self, disk: &mut D) -> Result<(), DiskFault>
        requires is { IsPoolJournal self.old }
        requires pool { HasPool D.SectorDisk self.old.sizes disk.old }
        ensures { BringsHome D.SectorDisk self.old self.new disk.old disk.new result }
    {
        copy_home(disk, self.sizes, &self.map)?;
        self.next.clear();
        put_map(disk, self.sizes, !self.second, &self.next)
    }
}
