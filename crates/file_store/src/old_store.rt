//! A store from which an upgrade makes one of a later layout, and which is only read.
ghost use Rattle.std.specs.Prelude.{◌≡◌, ◌<◌, ◌+◌, Some, IfOk, OnOk, OnErr, IsErrOf};
ghost use Rattle.disk_model.specs.Stop.{Names, NamesOnce};
ghost use Rattle.sync_journal.specs.Layout.{IsPageSector};
ghost use Rattle.sync_journal.specs.OldLayouts.{old_home_count, old_place, old_standing, IsBadOld};
ghost use Rattle.file_store.specs.Opened.{LooksAt, IsOldFound};
ghost use Rattle.file_store.specs.Store.{entry_of};
ghost use Rattle.file_store.specs.Standing.{IsBadLayoutIn, page_standing_in};
ghost use Rattle.file_store.specs.Upgrade.{IsOldStore, IsOldHead};
ghost use Rattle.file_store.specs.Upgraded.{ReadsOldPage};

use crate::directory::{Directory, Entry};
use crate::faults::OpenFault;
use crate::opening::read_layout;
use crate::pages::trim;
use disk_model::{SECTOR_BYTES, SectorDisk};
use sync_journal::{OldJournal, Version};

/// A store of layout 1, 2 or 3. It holds no device: each call takes it.
#[derive(Debug, Drop)]
pub struct OldStore {
    pub(crate) directory: Directory,
    /// The sector of the directory.
    pub(crate) sector: [u8; SECTOR_BYTES],
    pub(crate) journal: OldJournal,
}

impl OldStore {
    /// Reads mark and directory, and then gate and map. That sector 1 holds the mark of layout 3, too, is for the caller to look at.
    ///
    /// # Errors
    ///
    /// `BadLayout` and `BadJournal` come exactly where the image is so, unless the device fails first. `Device` comes
    /// exactly where the device failed.
    pub fn find<D: SectorDisk>(disk: &mut D, version: Version) -> Result<OldStore, OpenFault>
        ensures looks { LooksAt D.SectorDisk disk.old disk.new result }
        ensures once { D.keeps_model disk.new → NamesOnce (IsOldHead version (D.content disk.old)) (D.asked disk.old) (D.asked disk.new) }
        ensures found { IfOk result (λ store. IsOldFound D.SectorDisk version disk.old disk.new store) }
        ensures bad_layout { D.keeps_model disk.new → IsErrOf result OpenFault.BadLayout → IsBadLayoutIn version (D.sector_count disk.old) (D.content disk.old) }
        ensures bad_journal { D.keeps_model disk.new → IsErrOf result OpenFault.BadJournal
            → IsBadOld version (D.sector_count disk.old) (D.content disk.old) × (IsBadLayoutIn version (D.sector_count disk.old) (D.content disk.old) → ⊥) }
    {
        let mut sector = [0; SECTOR_BYTES];
        let directory = read_layout(disk, version, &mut sector)?;
        let journal = OldJournal::find(disk, version)?;
        Ok(OldStore {
            directory,
            sector,
            journal,
        })
    }

    /// The directory's entry of file `f`, or none where the store has no such file.
    pub fn entry(&self, f: usize) -> Option<Entry>
        ensures { result ≡ entry_of self.now.directory f }
    {
        self.directory.entry(f)
    }

    /// Reads page `k` of a file: the file's bytes, and zeros past its end.
    ///
    /// # Errors
    ///
    /// `Device`, only where the device failed. Nothing is then said of `to`.
    pub fn read_page<D: SectorDisk>(
        &self,
        disk: &mut D,
        entry: Entry,
        k: u32,
        to: &mut [u8; 4096],
    ) -> Result<(), OpenFault>
        requires home { entry.first + k < old_home_count self.now.journal.version (D.sector_count disk.old) }
        requires found { D.keeps_model disk.old → IsOldStore self.now.journal.version (D.content disk.old) self.now }
        ensures reads { ReadsOldPage D.SectorDisk disk.old disk.new result }
        ensures asks { D.keeps_model disk.new → Names (IsPageSector (old_place self.now.journal.version (D.content disk.old) (entry.first + k))) (D.asked disk.old) (D.asked disk.new) }
        ensures device { OnErr result (IsErrOf result OpenFault.Device) }
        ensures page { D.keeps_model disk.new → OnOk result (to.new ≡ page_standing_in (old_standing self.now.journal.version (D.content disk.old)) k (Some entry)) }
    {
        self.journal.read(disk, entry.first + k, to)?;
        trim(to, entry.info.bytes_inside(k));
        Ok(())
    }
}
