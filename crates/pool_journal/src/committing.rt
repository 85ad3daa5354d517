//! Commits over the journal of a pool.
ghost use Rattle.pool_journal.specs.Committing.{GivesInPool, StagesCommit, CommitsInPool};
ghost use Rattle.pool_journal.specs.Journal.{IsPoolJournal};
ghost use Rattle.pool_journal.specs.Maps.{entries_of};
ghost use Rattle.pool_journal.specs.Pools.{IsPoolRest};
ghost use Rattle.pool_journal.specs.Sizes.{HasPool};

use crate::gate::name_map;
use crate::map_blocks::write_map;
use crate::pool::PoolJournal;
use disk_model::SectorDisk;
use sync_journal::{CommitFault, PageSource};

impl PoolJournal {
    /// Makes the pages that the source gives durable, all at once: page `i` stands for home `homes[i]`. They take slots that the named map gives to no home,
    /// in a row where one is that long, first of the body behind the other map. Any other page keeps its slot, unless these and theirs are more than a body's
    /// `places`: then all of them are copied home in the same sync. Then the gate names the other map. It takes 2 syncs.
    ///
    /// The homes rise, each is below the pool's `homes`, and there are `free_pages` of them at most: that is again the pool's `places` or more after a commit of no
    /// more pages than that.
    ///
    /// # Errors
    ///
    /// `Source` comes only where the source failed: the store then stands for what it did at every moment, and `commit` may be called again. `Device` comes only
    /// where the device failed: every image that a stop might have left stands for the pages before or for those after, and the journal is read anew.
    pub fn commit<D: SectorDisk, S: PageSource>(
        &mut self,
        disk: &mut D,
        homes: &[u32],
        source: &mut S,
    ) -> Result<(), CommitFault>
        requires is { IsPoolJournal self.old }
        requires pool { HasPool D.SectorDisk self.old.sizes disk.old }
        requires given { GivesInPool S.PageSource self.old homes.now source.old }
        requires rest { D.keeps_model disk.old → IsPoolRest D.SectorDisk self.old.sizes.blocks self.old.sizes.homes self.old.second (entries_of self.old.map) disk.old }
        ensures { CommitsInPool D.SectorDisk S.PageSource self.old self.new homes.now disk.old disk.new source.old source.new result }
    {
        self.stage(disk, homes, source)?;
        name_map(disk, !self.second)?;
        self.turn();
        Ok(())
    }

    // Writes and syncs all of a commit but the gate: pages that lose their slots to their homes, the new pages to free slots, and the next map beside the named one.
    fn stage<D: SectorDisk, S: PageSource>(
        &mut self,
        disk: &mut D,
        homes: &[u32],
        source: &mut S,
    ) -> Result<(), CommitFault>
        requires is { IsPoolJournal self.old }
        requires pool { HasPool D.SectorDisk self.old.sizes disk.old }
        requires given { GivesInPool S.PageSource self.old homes.now source.old }
        ensures { StagesCommit D.SectorDisk S.PageSource homes.now self.old self.new disk.old disk.new source.old source.new result }
    {
        self.make_room(disk, homes)?;
        self.fill(disk, homes, source)?;
        write_map(disk, self.sizes, !self.second, &self.next)?;
        disk.sync()?;
        Ok(())
    }
}
