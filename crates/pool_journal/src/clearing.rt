//! The pool of a new store.
ghost use Rattle.std.specs.Prelude.{OnOk};
ghost use Rattle.pool_journal.specs.Clearing.{IsEmptyPool, IsHeadOfPool};
ghost use Rattle.pool_journal.specs.Pools.{pool};
ghost use Rattle.pool_journal.specs.Sizes.{HasPool};
ghost use Rattle.sync_journal.specs.Steps.{WritesInto};

use crate::map_blocks::block_start;
use crate::pool::PoolJournal;
use crate::sizes::{POOL_GATE, PoolSizes};
use disk_model::{DiskFault, SECTOR_BYTES, SectorDisk};
use sync_journal::write_page;

impl PoolJournal {
    /// Empties the pool of a new store, and syncs nothing: the gate names the first map, and no block of that counts, so each home page stands
    /// in its home. A `PoolJournal::new` of these sizes is its journal.
    ///
    /// # Errors
    ///
    /// An error comes exactly where the device failed.
    pub fn clear<D: SectorDisk>(disk: &mut D, sizes: PoolSizes) -> Result<(), DiskFault>
        requires { HasPool D.SectorDisk sizes disk.old }
        ensures writes { WritesInto D.SectorDisk (IsHeadOfPool sizes.blocks) (IsHeadOfPool sizes.blocks) (IsEmptyPool sizes.blocks (D.content disk.new)) disk.old disk.new result }
        ensures closed { D.keeps_model disk.new → OnOk result ((pool sizes.blocks sizes.homes).IsClosed (D.content disk.new)) }
    {
        write_page(disk, block_start(sizes, false, 0), &[0; 4096])?;
        disk.write(POOL_GATE, &[0; SECTOR_BYTES])
    }
}
