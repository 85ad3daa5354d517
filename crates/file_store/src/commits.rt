//! Pages of files changed all at once.
ghost use Rattle.std.specs.Prelude.{◌≡◌, ◌<◌, ◌≤◌, ℕ, Some, length, slice_get, slice_index};
ghost use Rattle.vm_types.specs.declared.file.FilePage.{FilePage};
ghost use Rattle.sync_journal.specs.Layout.{page_limit};
ghost use Rattle.file_store.specs.Store.{files_of, home_of, IsEntryPage, IsReadyStore};
ghost use Rattle.file_store.specs.Commit.{ArePages, CommitsPages};

use crate::directory::Directory;
use crate::store::FileStore;
use crate::trimmed::Trimmed;
use disk_model::SectorDisk;
use sync_journal::{CommitFault, PAGE_LIMIT, PageSource};
use vm_types::FilePage;

impl<D: SectorDisk> FileStore<D> {
    /// Makes pages of files durable all at once, in all files of the list: page `pages[i]` becomes page `i` of the
    /// source, with zeros past its file's end. There are 1 to 1,023 pages, none twice, each of which begins inside its
    /// file; whether a file may only be read is not looked at.
    ///
    /// `Source` comes only where the source failed: the store then stands for what it did, at every moment, and commit
    /// may be called again. `Device` comes only where the device failed: every image that a stop might have left stands
    /// for the files before or for those after, and the store is not ready until it is opened again.
    pub fn commit<S: PageSource>(
        &mut self,
        pages: &[FilePage],
        source: &mut S,
    ) -> Result<(), CommitFault>
        requires ready { IsReadyStore D.SectorDisk self.old }
        requires pages { ArePages (files_of self.old) pages.now }
        requires gives { (i : ℕ) → i < length pages.now → S.gives source.old i }
        ensures { CommitsPages D.SectorDisk S.PageSource self.old self.new pages.now source.old source.new result }
    {
        let mut homes = [0; PAGE_LIMIT];
        fill_homes(&self.directory, pages, &mut homes);
        let mut source = Trimmed {
            source,
            pages,
            directory: &self.directory,
        };
        self.journal
            .commit(&mut self.disk, &homes[..pages.len()], &mut source)
    }
}

/// Puts the home pages of these pages, which begin inside their files, to the front of a list, one after the other.
fn fill_homes(directory: &Directory, pages: &[FilePage], homes: &mut [u32; PAGE_LIMIT])
    requires few { length pages.now ≤ page_limit }
    requires inside { (i : ℕ) (p : FilePage) → slice_get pages.now i ≡ Some p → IsEntryPage directory.now p }
    ensures long { length homes.new ≡ page_limit }
    ensures homes { (i : ℕ) (p : FilePage) → slice_get pages.now i ≡ Some p → slice_index homes.new i ≡ home_of directory.now p }
{
    for i in 0..pages.len() {
        homes[i] = directory.home_of(pages[i]);
    }
}
