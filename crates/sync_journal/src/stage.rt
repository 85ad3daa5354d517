//! Pages and map of a commit, written to the journal before the gate is opened.
ghost use Rattle.std.specs.Prelude.{length};
ghost use Rattle.sync_journal.specs.Layout.{IsJournalSector, IsBodySector};
ghost use Rattle.sync_journal.specs.Standing.{HoldsPages};
ghost use Rattle.sync_journal.specs.Steps.{MayFill, FillsBody, FillsJournal, SyncsJournal};

use crate::faults::CommitFault;
use crate::layout::{BODY, MAP, PAGE_SECTORS};
use crate::map::write_map;
use crate::pages::write_page;
use crate::source::PageSource;
use disk_model::SectorDisk;

/// Writes the pages that the source gives into the body and the homes into the map, and syncs.
pub(crate) fn stage<D: SectorDisk, S: PageSource>(
    disk: &mut D,
    homes: &[u32],
    source: &mut S,
) -> Result<(), CommitFault>
    requires { MayFill D.SectorDisk S.PageSource (length homes.now) disk.old source.old }
    ensures { SyncsJournal D.SectorDisk S.PageSource homes.now disk.old disk.new source.old source.new result }
{
    fill_journal(disk, homes, source)?;
    disk.sync()?;
    Ok(())
}

// The same, but that nothing is synced.
fn fill_journal<D: SectorDisk, S: PageSource>(
    disk: &mut D,
    homes: &[u32],
    source: &mut S,
) -> Result<(), CommitFault>
    requires { MayFill D.SectorDisk S.PageSource (length homes.now) disk.old source.old }
    ensures { FillsJournal D.SectorDisk S.PageSource homes.now disk.old disk.new source.old source.new result }
{
    write_pages(disk, homes.len(), source)?;
    let mut map = [0; 4096];
    write_map(&mut map, homes);
    write_page(disk, MAP, &map)?;
    Ok(())
}

// Writes the first pages that the source gives into the body.
fn write_pages<D: SectorDisk, S: PageSource>(
    disk: &mut D,
    count: usize,
    source: &mut S,
) -> Result<(), CommitFault>
    requires { MayFill D.SectorDisk S.PageSource count disk.old source.old }
    ensures { FillsBody D.SectorDisk S.PageSource IsJournalSector (IsBodySector count) (HoldsPages count (S.pages source.old) (D.content disk.new)) disk.old disk.new source.old source.new result }
{
    let mut page = [0; 4096];
    for j in 0..count {
        source.page(j, &mut page)?;
        write_page(disk, BODY + PAGE_SECTORS * j as u64, &page)?;
    }
    Ok(())
}
