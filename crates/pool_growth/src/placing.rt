//! New pages, written where they are to stand.
ghost use Rattle.std.specs.Prelude.{◌≡◌, ◌<◌, ◌≤◌, ◌^◌, ℕ, IsErrOf, length, None};
ghost use Rattle.pool_growth.specs.Asked.{AreFileChanges, AreNewPages};
ghost use Rattle.pool_growth.specs.Putting.{HoldsNewPages, IsPutSector, LiesOn, PutsNewPages};
ghost use Rattle.pool_journal.specs.Journal.{IsPoolJournal};
ghost use Rattle.pool_journal.specs.Maps.{entries_of};
ghost use Rattle.pool_journal.specs.Pools.{pool_home, pool_stands, slot_by};
ghost use Rattle.pool_store.specs.Store.{info_by, IsPoolOf};
ghost use Rattle.sync_journal.specs.Steps.{FillsBody};
ghost use Rattle.sync_journal.specs.declared.faults.CommitFault.TheVariants.{Source};

use crate::blanking::blank_new_pages;
use crate::lookups::{added_count, home_then, inside_then};
use disk_model::{SectorDisk, WriteZeros};
use file_store::trim;
use growth::Change;
use pool_journal::PoolJournal;
use pool_store::Directory;
use sync_journal::{CommitFault, PageSource, write_page};
use vm_types::FilePage;

/// New pages of changes, of which the first `count` are put where they are to stand.
#[derive(Clone, Copy)]
pub(crate) struct NewPages<'a> {
    pub changes: &'a [Change],
    pub fresh: &'a [FilePage],
    pub count: usize,
}

/// Writes new pages, which the source gives first, where they are to stand, and zeros in the place of those that it doesn't give, and syncs. Where there are none of
/// either nothing is done.
pub(crate) fn put_new_pages<D: WriteZeros, S: PageSource>(
    disk: &mut D,
    journal: &PoolJournal,
    directory: &Directory,
    pages: NewPages<'_>,
    source: &mut S,
) -> Result<(), CommitFault>
    requires is { IsPoolOf D.SectorDisk journal.now directory.now disk.old }
    requires changes { AreFileChanges journal.now.sizes.homes directory.now pages.changes.now }
    requires fresh { AreNewPages (info_by directory.now) pages.changes.now pages.fresh.now }
    requires few { pages.count ≤ length pages.fresh.now }
    requires gives { (i : ℕ) → i < pages.count → S.gives source.old i }
    ensures { PutsNewPages D.SectorDisk S.PageSource journal.now directory.now pages.entry.changes.now pages.entry.fresh.now pages.entry.count disk.old disk.new source.old source.new result }
{
    let sparse = pages.fresh.len() < added_count(directory, pages.changes);
    if pages.count == 0 && !sparse {
        return Ok(());
    }
    if sparse {
        blank_new_pages(disk, journal, directory, pages.changes)?;
    }
    write_new_pages(disk, journal, directory, pages, source)?;
    disk.sync()?;
    Ok(())
}

/// Writes them, and syncs nothing.
fn write_new_pages<D: SectorDisk, S: PageSource>(
    disk: &mut D,
    journal: &PoolJournal,
    directory: &Directory,
    pages: NewPages<'_>,
    source: &mut S,
) -> Result<(), CommitFault>
    requires on { LiesOn D.SectorDisk journal.now directory.now disk.old }
    requires changes { AreFileChanges journal.now.sizes.homes directory.now pages.changes.now }
    requires fresh { AreNewPages (info_by directory.now) pages.changes.now pages.fresh.now }
    requires few { pages.count ≤ length pages.fresh.now }
    requires gives { (i : ℕ) → i < pages.count → S.gives source.old i }
    ensures fills { FillsBody D.SectorDisk S.PageSource (IsPutSector journal.now directory.now pages.entry.changes.now pages.entry.fresh.now pages.entry.count)
        (IsPutSector journal.now directory.now pages.entry.changes.now pages.entry.fresh.now pages.entry.count)
        (HoldsNewPages journal.now directory.now pages.entry.changes.now pages.entry.fresh.now (S.pages source.old) pages.entry.count (D.content disk.new)) disk.old disk.new source.old source.new result }
    ensures some { IsErrOf result Source → pages.entry.count ≡ 0 → ⊥ }
{
    let given = journal.homes_given();
    let mut bytes = [0; 4096];
    for i in 0..pages.count {
        let page = pages.fresh[i];
        source.page(i, &mut bytes)?;
        trim(&mut bytes, inside_then(directory, pages.changes, page));
        let home = home_then(directory, pages.changes, page);
        write_page(disk, stands_at(journal, given, home), &bytes)?;
    }
    Ok(())
}

/// The first sector of the page that stands for a home, where those from `given` on have no slots. New pages mostly have such homes, for which the map is not looked
/// through.
fn stands_at(journal: &PoolJournal, given: u32, home: u32) -> u64
    requires is { IsPoolJournal journal.now }
    requires home { home < 2 ^ 30 }
    requires none { (h : ℕ) → given ≤ h → slot_by journal.now.sizes.blocks (entries_of journal.now.map) h ≡ None }
    ensures at { result ≡ pool_stands journal.now.sizes.blocks home (slot_by journal.now.sizes.blocks (entries_of journal.now.map) home) }
    ensures inside { result ≤ pool_home journal.now.sizes.blocks home }
{
    if home < given {
        journal.stands_at(home)
    } else {
        journal.sizes().home(home)
    }
}
