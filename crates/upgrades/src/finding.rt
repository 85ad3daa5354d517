//! The store that is upgraded, found on its device.
ghost use Rattle.std.specs.Prelude.{◌≡◌, IfOk};
ghost use Rattle.disk_model.specs.Stop.{NamesOnce};
ghost use Rattle.file_store.specs.{Format.{IsKindSector}, Opened.{LooksFor}};
ghost use Rattle.upgrades.specs.{Finding.{FindsOld}, Old.{version_in, version_of, IsBadLayout}};

use disk_model::{SECTOR_BYTES, SectorDisk};
use file_store::{KIND_SECTOR, OldStore, OpenFault, marks};
use sync_journal::Version;

/// Finds the store of layout 2 or 3 on a device, which is only read: what stands in a journal stays there. Sector 1 says which layout it is.
///
/// # Errors
///
/// `BadLayout` and `BadJournal` come exactly where the image is so, unless the device fails first. `Device` comes exactly where the device
/// failed.
pub(crate) fn find<D: SectorDisk>(disk: &mut D) -> Result<OldStore, OpenFault>
    ensures { FindsOld D.SectorDisk disk.old disk.new result }
{
    let version = read_version(disk)?;
    OldStore::find(disk, version)
}

/// Reads which layout the store has.
fn read_version<D: SectorDisk>(disk: &mut D) -> Result<Version, OpenFault>
    ensures looks { LooksFor D.SectorDisk (IsBadLayout (D.sector_count disk.old) (D.content disk.old)) disk.old disk.new result }
    ensures once { NamesOnce IsKindSector (D.asked disk.old) (D.asked disk.new) }
    ensures version { D.keeps_model disk.new → IfOk result (λ version. version_in (D.content disk.old) ≡ version) }
{
    if disk.sectors() <= KIND_SECTOR {
        return Err(OpenFault::BadLayout);
    }
    let mut sector = [0; SECTOR_BYTES];
    disk.read(KIND_SECTOR, &mut sector)?;
    Ok(version_told(&sector))
}

/// The layout of a store with this sector 1.
fn version_told(sector: &[u8; 512]) -> Version
    ensures { result ≡ version_of sector.now }
{
    if marks(Version::Three, sector) {
        Version::Three
    } else {
        Version::Two
    }
}
