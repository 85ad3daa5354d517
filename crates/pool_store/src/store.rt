//! An open store.
ghost use Rattle.std.specs.Prelude.{◌≡◌, ◌<◌, IsSome};
ghost use Rattle.vm_types.specs.Limits.{file_limit};
ghost use Rattle.file_store.specs.Standing.{IsPageOf};
ghost use Rattle.pool_store.specs.Store.{files_of, IsReadyPool, ReadsPoolPage};

use crate::directory::Directory;
use crate::room::CommitRoom;
use disk_model::{DiskFault, SectorDisk};
use file_store::trim;
use pool_journal::PoolJournal;
use vm_types::{FileInfo, FilePage};

/// Up to 4,096 files of fixed lengths in a pool on a device.
#[derive(Drop)]
pub struct PoolStore<D> {
    pub disk: D,
    pub journal: PoolJournal,
    pub directory: Directory,
    pub room: CommitRoom,
}

impl<D: SectorDisk> PoolStore<D> {
    /// The facts of file `n`, or none where the store has no such file.
    pub fn file(&self, n: u16) -> Option<FileInfo>
        ensures { result ≡ files_of self.now n }
    {
        self.directory.info(usize::from(n))
    }

    /// The facts of the file of any number, or none where the store has no such file.
    pub fn info(&self, n: u64) -> Option<FileInfo>
        ensures info { result ≡ files_of self.now n }
        ensures number { IsSome result → n < file_limit }
    {
        self.directory.info(n as usize)
    }

    /// The device.
    pub fn disk(&self) -> &D
        ensures { result.now ≡ self.now.disk }
    {
        &self.disk
    }

    /// The device, given back.
    pub fn into_disk(self) -> D
        ensures { result ≡ self.disk }
    {
        self.disk
    }

    /// Reads a page that begins inside its file: the file's bytes, and zeros past its end. A fault comes only where
    /// the device failed, and nothing is then said of `to`.
    pub fn read_page(&mut self, page: FilePage, to: &mut [u8; 4096]) -> Result<(), DiskFault>
        requires ready { IsReadyPool D.SectorDisk self.old }
        requires inside { IsPageOf (files_of self.old) page.file page.page }
        ensures { ReadsPoolPage D.SectorDisk self.old self.new page to.new result }
    {
        let Some(info) = self.directory.info(usize::from(page.file)) else {
            unreachable!();
        };
        self.journal
            .read(&mut self.disk, self.directory.home_of(page), to)?;
        trim(to, info.bytes_inside(page.page));
        Ok(())
    }
}
