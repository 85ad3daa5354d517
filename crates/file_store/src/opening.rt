//! A store found on a device.
ghost use Rattle.std.specs.Prelude.{◌≡◌, ◌≤◌, ℕ, IfOk, IfErr, MatchResult, OnOk};
ghost use Rattle.file_store.specs.Layout.{listed_files};
ghost use Rattle.disk_model.specs.Stop.{Image, NamesOnce};
ghost use Rattle.file_store.specs.Directory.{IsBadDirectory, AreGood};
ghost use Rattle.file_store.specs.Opened.{LooksFor, IsDirectoryIn, IsRefusedFor, Mounts, OpensFrom, RefusesToOpen};
ghost use Rattle.file_store.specs.Standing.{IsBadLayoutIn, IsHeadIn, StandsAs};
ghost use Rattle.file_store.specs.Stops.{LeftInARow};
ghost use Rattle.file_store.specs.Versions.{homes_of, home_pages_of, directory_of};
ghost use Rattle.file_store.specs.Store.{IsMounted};

use crate::directory::Directory;
use crate::faults::OpenFault;
use crate::layout::MARK_SECTOR;
use crate::store::FileStore;
use crate::version::{directory_sector, marks};
use disk_model::{SECTOR_BYTES, SectorDisk};
use sync_journal::{Journal, Version, recover};

impl<D: SectorDisk> FileStore<D> {
    /// Opens the store on a device, as a stop left it or as whoever had it last in this program: what he wrote may be
    /// unsynced still. The layout is looked at first, then all is synced, and then an open journal is carried out. What
    /// the device did at first is what it does now, and after every stop from now on; and where nothing was unsynced, so
    /// does every image that a stop might leave meanwhile, any number of times in a row.
    ///
    /// # Errors
    ///
    /// `BadLayout` and `BadJournal` come exactly where the image is so, unless the device fails first; nothing was
    /// written then. `Device` comes exactly where the device failed. Each fault hands the device back.
    pub fn open(disk: D) -> Result<FileStore<D>, (OpenFault, D)>
        ensures { MatchResult result (λ store. OpensFrom D.SectorDisk disk store) (λ e. RefusesToOpen D.SectorDisk disk e.0 e.1) }
    {
        let mut disk = disk;
        match mount(&mut disk) {
            Ok(directory) => Ok(FileStore {
                disk,
                journal: Journal::closed(),
                directory,
            }),
            Err(fault) => Err((fault, disk)),
        }
    }
}

/// It does nothing: its contract is a law. Whatever image any number of stops in a row leave, each within an opening of
/// what the one before left, stands for the files of the first image.
pub fn stops_in_a_row<D: SectorDisk>(_disk: &D)
    ensures { (sectors n : ℕ) (first last : Image) → LeftInARow D.SectorDisk sectors n first last → StandsAs sectors first last }
{}

/// Reads the directory and carries out an open journal.
fn mount<D: SectorDisk>(disk: &mut D) -> Result<Directory, OpenFault>
    ensures run { Mounts D.SectorDisk disk.old disk.new }
    ensures ok { IfOk result (λ directory. IsMounted D.SectorDisk disk.old disk.new directory) }
    ensures err { IfErr result (λ fault. IsRefusedFor D.SectorDisk disk.old fault disk.new) }
{
    let mut sector = [0; SECTOR_BYTES];
    let directory = read_layout(disk, Version::Two, &mut sector)?;
    recover(disk)?;
    Ok(directory)
}

/// Reads the directory of a store of this layout. Its bytes are then in `sector`.
fn read_directory<D: SectorDisk>(
    disk: &mut D,
    version: Version,
    sector: &mut [u8; SECTOR_BYTES],
) -> Result<Directory, OpenFault>
    requires room { homes_of version ≤ D.sector_count disk.old }
    ensures looks { LooksFor D.SectorDisk (IsBadDirectory (home_pages_of version (D.sector_count disk.old)) (D.content disk.old (directory_of version))) disk.old disk.new result }
    ensures once { NamesOnce (λ k. k ≡ directory_of version) (D.asked disk.old) (D.asked disk.new) }
    ensures found { IfOk result (λ directory. IsDirectoryIn D.SectorDisk version disk.old disk.new sector.new directory) }
    ensures good { D.keeps_model disk.new → OnOk result (AreGood (home_pages_of version (D.sector_count disk.old)) (D.content disk.old (directory_of version)) listed_files) }
{
    disk.read(directory_sector(version), sector)?;
    let directory = Directory::from_sector(sector, version.home_count(disk.sectors()))?;
    Ok(directory)
}

/// Reads mark and directory of a store of this layout, which is only read. The directory's bytes are then in `sector`.
pub(crate) fn read_layout<D: SectorDisk>(
    disk: &mut D,
    version: Version,
    sector: &mut [u8; SECTOR_BYTES],
) -> Result<Directory, OpenFault>
    ensures looks { LooksFor D.SectorDisk (IsBadLayoutIn version (D.sector_count disk.old) (D.content disk.old)) disk.old disk.new result }
    ensures once { NamesOnce (IsHeadIn version) (D.asked disk.old) (D.asked disk.new) }
    ensures room { OnOk result (homes_of version ≤ D.sector_count disk.old) }
    ensures found { IfOk result (λ directory. IsDirectoryIn D.SectorDisk version disk.old disk.new sector.new directory) }
    ensures good { D.keeps_model disk.new → OnOk result (IsBadLayoutIn version (D.sector_count disk.old) (D.content disk.old) → ⊥) }
{
    if disk.sectors() < version.first_home() {
        return Err(OpenFault::BadLayout);
    }
    disk.read(MARK_SECTOR, sector)?;
    if !marks(version, sector) {
        return Err(OpenFault::BadLayout);
    }
    read_directory(disk, version, sector)
}
