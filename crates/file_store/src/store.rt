//! An open store.
ghost use Rattle.std.specs.Prelude.{◌≡◌, ◌<◌, IsSome};
ghost use Rattle.file_store.specs.Layout.{listed_files};
ghost use Rattle.file_store.specs.Standing.{IsPageOf};
ghost use Rattle.file_store.specs.Store.{files_of, IsReadyStore, ReadsFilePage};

use crate::directory::Directory;
use crate::pages::trim;
use disk_model::{DiskFault, SectorDisk};
use sync_journal::Journal;
use vm_types::{FileInfo, FilePage};

/// Up to 64 files of fixed lengths on a device.
#[derive(Debug, Drop)]
pub struct FileStore<D> {
    pub(crate) disk: D,
    pub(crate) journal: Journal,
    pub(crate) directory: Directory,
}

impl<D: SectorDisk> FileStore<D> {
    /// The facts of file `n`, or none where the store has no such file.
    pub fn file(&self, n: u16) -> Option<FileInfo>
        ensures { result ≡ files_of self.now n }
    {
        self.directory.entry(usize::from(n)).map(|entry| entry.info)
    }

    /// The facts of the file of any number, or none where the store has no such file.
    pub fn info(&self, n: u64) -> Option<FileInfo>
        ensures info { result ≡ files_of self.now n }
        ensures number { IsSome result → n < listed_files }
    {
        self.directory.entry(n as usize).map(|entry| entry.info)
    }

    /// The device.
    pub fn disk(&self) -> &D
        ensures { result.now ≡ self.now.disk }
    {
        &self.disk
    }

    /// The device, given back.
    pub fn into_disk(self) -> D
        ensures { result ≡ self.disk }
    {
        self.disk
    }

    /// Reads a page that begins inside its file: the file's bytes, and zeros past its end. A fault comes only where
    /// the device failed, and nothing is then said of `to`.
    pub fn read_page(&mut self, page: FilePage, to: &mut [u8; 4096]) -> Result<(), DiskFault>
        requires ready { IsReadyStore D.SectorDisk self.old }
        requires inside { IsPageOf (files_of self.old) page.file page.page }
        ensures { ReadsFilePage D.SectorDisk self.old self.new page to.new result }
    {
        let Some(entry) = self.directory.entry(usize::from(page.file)) else {
            unreachable!();
        };
        self.journal
            .read(&mut self.disk, self.directory.home_of(page), to)?;
        trim(to, entry.info.bytes_inside(page.page));
        Ok(())
    }
}
