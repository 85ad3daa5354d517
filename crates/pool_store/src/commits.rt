//! Pages of files changed all at once.
ghost use Rattle.std.specs.Prelude.{◌≡◌, ◌<◌, ◌*◌, ℕ, length};
ghost use Rattle.pool_journal.specs.Journal.{free_count};
ghost use Rattle.pool_journal.specs.Maps.{entries_of};
ghost use Rattle.pool_store.specs.Store.{IsReadyPool};
ghost use Rattle.pool_store.specs.Commit.{ArePoolPages, CommitsToPool};

use crate::placed::Placed;
use crate::store::PoolStore;
use disk_model::SectorDisk;
use sync_journal::{CommitFault, PageSource};
use vm_types::FilePage;

impl<D: SectorDisk> PoolStore<D> {
    /// How many pages the next commit may take: at least as many as a body of the pool has slots, after commits of no
    /// more pages than that.
    pub fn free_pages(&self) -> usize
        requires { IsReadyPool D.SectorDisk self.now }
        ensures { result ≡ free_count self.now.journal.sizes.blocks (entries_of self.now.journal.map) }
    {
        self.journal.free_pages()
    }

    /// How many pages every commit may take, as long as none took more: as many as a body of the pool has slots.
    pub fn body_pages(&self) -> usize
        requires { IsReadyPool D.SectorDisk self.now }
        ensures { result ≡ 504 * self.now.journal.sizes.blocks }
    {
        self.journal.sizes().places() as usize
    }

    /// Makes pages of files durable all at once, in all files of the list: page `pages[i]` becomes page `i` of the
    /// source, with zeros past its file's end. There are up to `free_pages` pages, none twice, each of which begins inside
    /// its file; whether a file may only be read is not looked at. They are sorted by their homes, so the source is asked
    /// for them in that order. Where no slot is free, a commit of no pages makes room for the next.
    ///
    /// # Errors
    ///
    /// `Source` comes only where the source failed: the store then stands for what it did, at every moment, and `commit`
    /// may be called again. `Device` comes only where the device failed: every image that a stop might have left stands
    /// for the files before or for those after, and the store is not ready until it is opened again.
    pub fn commit<S: PageSource>(
        &mut self,
        pages: &[FilePage],
        source: &mut S,
    ) -> Result<(), CommitFault>
        requires ready { IsReadyPool D.SectorDisk self.old }
        requires pages { ArePoolPages self.old pages.now }
        requires gives { (i : ℕ) → i < length pages.now → S.gives source.old i }
        ensures { CommitsToPool D.SectorDisk S.PageSource self.old self.new pages.now source.old source.new result }
    {
        self.room.place(&self.directory, pages);
        let mut source = Placed {
            source,
            places: &self.room.places[..pages.len()],
            pages,
            directory: &self.directory,
        };
        self.journal.commit(&mut self.disk, &self.room.homes[..pages.len()], &mut source)
    }
}
