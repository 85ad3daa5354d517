//! Pages of files changed all at once.
ghost use Rattle.std.specs.Prelude.{◌<◌, ℕ, length};
ghost use Rattle.stores.specs.Store.{files_of, free_of, IsReadyStore};
ghost use Rattle.stores.specs.Commit.{ArePages, CommitsPages};

use crate::store::Store;
use disk_model::SectorDisk;
use sync_journal::{CommitFault, PageSource};
use vm_types::FilePage;

impl<D: SectorDisk> Store<D> {
    /// Makes pages of files durable all at once, in all files of the list: page `pages[i]` becomes page `i` of the
    /// source, with zeros past its file's end. There are 1 to `free_pages` pages, none twice, each of which begins inside
    /// its file; whether a file may only be read is not looked at. The source is asked for them in an order of the store's.
    ///
    /// # Errors
    ///
    /// `Source` comes only where the source failed: the store then stands for what it did, at every moment, and `commit`
    /// may be called again. `Device` comes only where the device failed: every image that a stop might have left stands
    /// for the files before or for those after, and the store is not ready until it is opened again.
    pub fn commit<S: PageSource>(
        &mut self,
        pages: &[FilePage],
        source: &mut S,
    ) -> Result<(), CommitFault>
        requires ready { IsReadyStore D.SectorDisk self.old }
        requires pages { ArePages (files_of self.old) (free_of self.old) pages.now }
        requires gives { (i : ℕ) → i < length pages.now → S.gives source.old i }
        ensures { CommitsPages D.SectorDisk S.PageSource self.old self.new pages.now source.old source.new result }
    {
        match self {
            Store::Journal(store) => store.commit(pages, source),
            Store::Pool(store) => store.commit(pages, source),
        }
    }
}
