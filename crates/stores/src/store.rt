//! An open store.
ghost use Rattle.std.specs.Prelude.{◌≡◌, ◌<◌, IsSome};
ghost use Rattle.vm_types.specs.Limits.{file_limit};
ghost use Rattle.file_store.specs.Standing.{IsPageOf};
ghost use Rattle.stores.specs.Store.{disk_of, kept_of, files_of, free_of, always_free_in, capacity_in, IsReadyStore, ReadsFilePage};

use disk_model::{DiskFault, SectorDisk};
use file_store::FileStore;
use pool_store::PoolStore;
use sync_journal::PAGE_LIMIT;
use vm_types::{FileInfo, FilePage};

/// Up to 64 files of fixed lengths on a device, or of layout 4 up to 4,096.
#[derive(Drop)]
pub enum Store<D> {
    /// Of layout 2: with a journal of one commit.
    Journal(FileStore<D>),
    /// Of layout 4: with a pool.
    Pool(PoolStore<D>),
}

impl<D: SectorDisk> Store<D> {
    /// The facts of file `n`, or none where the store has no such file.
    pub fn file(&self, n: u16) -> Option<FileInfo>
        ensures { result ≡ files_of self.now n }
    {
        match self {
            Store::Journal(store) => store.file(n),
            Store::Pool(store) => store.file(n),
        }
    }

    /// The facts of the file of any number, or none where the store has no such file.
    pub fn info(&self, n: u64) -> Option<FileInfo>
        ensures info { result ≡ files_of self.now n }
        ensures number { IsSome result → n < file_limit }
    {
        match self {
            Store::Journal(store) => store.info(n),
            Store::Pool(store) => store.info(n),
        }
    }

    /// The device.
    pub fn disk(&self) -> &D
        ensures { result.now ≡ disk_of self.now }
    {
        match self {
            Store::Journal(store) => store.disk(),
            Store::Pool(store) => store.disk(),
        }
    }

    /// The device, given back.
    pub fn into_disk(self) -> D
        ensures { result ≡ disk_of self }
    {
        match self {
            Store::Journal(store) => store.into_disk(),
            Store::Pool(store) => store.into_disk(),
        }
    }

    /// How many pages the next commit may take: of layout 2 always 1,023; of layout 4 as many as are free, which are at least as many as a
    /// body of the pool has slots, after commits of no more pages than that.
    pub fn free_pages(&self) -> usize
        requires { IsReadyStore D.SectorDisk self.now }
        ensures { result ≡ free_of self.now }
    {
        match self {
            Store::Journal(_) => PAGE_LIMIT,
            Store::Pool(store) => store.free_pages(),
        }
    }

    /// How many pages every commit may take, as long as none took more: of layout 2 1,023, of layout 4 as many as a body of the pool has slots.
    pub fn always_free_pages(&self) -> usize
        requires { IsReadyStore D.SectorDisk self.now }
        ensures { result ≡ always_free_in (kept_of self.now) }
    {
        match self {
            Store::Journal(_) => PAGE_LIMIT,
            Store::Pool(store) => store.body_pages(),
        }
    }

    /// How many pages a commit may take where no page stands in a slot: of layout 2 1,023, of layout 4 as many as both bodies of the pool have slots.
    pub fn capacity_pages(&self) -> usize
        requires { IsReadyStore D.SectorDisk self.now }
        ensures { result ≡ capacity_in (kept_of self.now) }
    {
        match self {
            Store::Journal(_) => PAGE_LIMIT,
            Store::Pool(store) => 2 * store.body_pages(),
        }
    }

    /// Reads a page that begins inside its file: the file's bytes, and zeros past its end. A fault comes only where
    /// the device failed, and nothing is then said of `to`.
    pub fn read_page(&mut self, page: FilePage, to: &mut [u8; 4096]) -> Result<(), DiskFault>
        requires ready { IsReadyStore D.SectorDisk self.old }
        requires inside { IsPageOf (files_of self.old) page.file page.page }
        ensures { ReadsFilePage D.SectorDisk self.old self.new page to.new result }
    {
        match self {
            Store::Journal(store) => store.read_page(page, to),
            Store::Pool(store) => store.read_page(page, to),
        }
    }
}
