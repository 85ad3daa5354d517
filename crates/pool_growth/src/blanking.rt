//! New pages that nobody gives: zeros, a row of homes at a time.
ghost use Rattle.pool_growth.specs.Asked.{AreFileChanges};
ghost use Rattle.pool_growth.specs.Putting.{BlanksNewPages, BlanksPagesOf, BlanksPart, IsFileChange, LiesOn};
ghost use Rattle.pool_journal.specs.Journal.{IsPoolJournal};
ghost use Rattle.pool_journal.specs.Sizes.{HasPool};
ghost use Rattle.pool_store.specs.Store.{IsPoolOf};
ghost use Rattle.std.specs.Prelude.{◌+◌, ◌<◌, ◌≤◌};

use crate::lookups::pages_of;
use directories::Extent;
use disk_model::{DiskFault, WriteZeros};
use growth::Change;
use pool_journal::PoolJournal;
use pool_store::Directory;

/// Makes all new pages of changes zeros where they are to stand, and syncs nothing.
pub(crate) fn blank_new_pages<D: WriteZeros>(
    disk: &mut D,
    journal: &PoolJournal,
    directory: &Directory,
    changes: &[Change],
) -> Result<(), DiskFault>
    requires is { IsPoolOf D.SectorDisk journal.now directory.now disk.old }
    requires changes { AreFileChanges journal.now.sizes.homes directory.now changes.now }
    ensures { BlanksNewPages D.SectorDisk journal.now directory.now changes.now disk.old disk.new result }
{
    for change in changes {
        blank_pages_of(disk, journal, directory, change)?;
    }
    Ok(())
}

/// Makes the new pages of one change zeros. The pages of a file are the homes of its extents, in their order: of each extent those are new that lie past the pages that
/// the file had, and before its end then.
fn blank_pages_of<D: WriteZeros>(
    disk: &mut D,
    journal: &PoolJournal,
    directory: &Directory,
    change: &Change,
) -> Result<(), DiskFault>
    requires on { LiesOn D.SectorDisk journal.now directory.now disk.old }
    requires change { IsFileChange journal.now.sizes.homes directory.now change.now }
    ensures { BlanksPagesOf D.SectorDisk journal.now directory.now change.now disk.old disk.new result }
{
    let Some(entry) = &change.entry else {
        return Ok(());
    };
    let before = pages_of(directory.entry(change.file as usize));
    let pages = pages_of(Some(entry));
    let mut passed = 0;
    for extent in entry.extents() {
        let count = u64::from(extent.count);
        let low = before.saturating_sub(passed);
        let high = pages.saturating_sub(passed).min(count);
        blank_part(disk, journal, extent, low, high)?;
        passed += count;
    }
    Ok(())
}

/// Makes the homes of an extent zeros from place `low` up to place `high`, if there are any.
fn blank_part<D: WriteZeros>(
    disk: &mut D,
    journal: &PoolJournal,
    extent: &Extent,
    low: u64,
    high: u64,
) -> Result<(), DiskFault>
    requires is { IsPoolJournal journal.now }
    requires pool { HasPool D.SectorDisk journal.now.sizes disk.old }
    requires homes { low < high → extent.now.first + high ≤ journal.now.sizes.homes }
    ensures { BlanksPart D.SectorDisk journal.now extent.now low high disk.old disk.new result }
{
    if high <= low {
        return Ok(());
    }
    journal.blank(disk, extent.first + low as u32, (high - low) as u32)
}
