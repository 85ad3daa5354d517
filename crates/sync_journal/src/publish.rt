//! Pages that stand in the journal once the gate is open.
ghost use Rattle.std.specs.Prelude.{◌<◌, length};
ghost use Rattle.sync_journal.specs.Layout.{home_count};
ghost use Rattle.sync_journal.specs.Commit.{IsQuiet};
ghost use Rattle.sync_journal.specs.Committing.{Publishes};
ghost use Rattle.sync_journal.specs.Source.{GivesFor};

use crate::faults::CommitFault;
use crate::gate::open_gate;
use crate::source::PageSource;
use crate::stage::stage;
use disk_model::SectorDisk;

/// Writes the pages that the source gives into the body and the homes into the map, and then opens the gate: from then
/// on the pages stand. It takes `8 n + 9` sector writes and 2 syncs for `n` pages.
pub(crate) fn publish<D: SectorDisk, S: PageSource>(
    disk: &mut D,
    homes: &[u32],
    source: &mut S,
) -> Result<(), CommitFault>
    requires some { 0 < length homes.now }
    requires given { GivesFor S.PageSource (home_count (D.sector_count disk.old)) homes.now source.old }
    requires quiet { D.keeps_model disk.old → IsQuiet D.SectorDisk disk.old }
    ensures { Publishes D.SectorDisk S.PageSource homes.now disk.old disk.new source.old source.new result }
{
    stage(disk, homes, source)?;
    open_gate(disk)?;
    Ok(())
}
