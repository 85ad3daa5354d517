//! Pages of eight sectors, each in one call of the device.
ghost use Rattle.std.specs.Prelude.{◌≡◌, ◌<◌, ◌≤◌, ◌+◌, ◌^◌, ◌⊎◌, ℕ, OnOk, IsErr};
ghost use Rattle.disk_model.specs.Stop.{Names};
ghost use Rattle.sync_journal.specs.Layout.{IsPageSector};
ghost use Rattle.sync_journal.specs.Runs.{RunsOnDevice};
ghost use Rattle.disk_model.specs.Sectors.{part_of};
ghost use Rattle.sync_journal.specs.Steps.{ReadsSectors, WritesInto};

use disk_model::{DiskFault, SectorDisk};

/// Writes a page into the eight sectors from `first` on, and syncs nothing.
///
/// # Errors
///
/// Only where the device failed in this call. The eight sectors then hold unknown bytes.
pub fn write_page<D: SectorDisk>(
    disk: &mut D,
    first: u64,
    page: &[u8; 4096],
) -> Result<(), DiskFault>
    requires room { first + 8 ≤ D.sector_count disk.old }
    requires fits { first < 2 ^ 60 }
    ensures run { RunsOnDevice D.SectorDisk (IsPageSector first) disk.old disk.new }
    ensures asks { Names (IsPageSector first) (D.asked disk.old) (D.asked disk.new) }
    ensures failed { IsErr result → D.failures disk.old < D.failures disk.new }
    ensures calm { OnOk result (D.failures disk.new ≡ D.failures disk.old) }
    ensures written { D.keeps_model disk.new → OnOk result ((i : ℕ) → i < 8 → D.content disk.new (first + i) ≡ part_of page.now i) }
{
    disk.write_page(first, page)
}

/// Reads the page in the eight sectors from `first` on.
///
/// # Errors
///
/// Only where the device failed in this call. Nothing is then said of `to`.
pub fn read_page<D: SectorDisk>(
    disk: &mut D,
    first: u64,
    to: &mut [u8; 4096],
) -> Result<(), DiskFault>
    requires room { first + 8 ≤ D.sector_count disk.old }
    requires fits { first < 2 ^ 60 }
    ensures { ReadsSectors D.SectorDisk first disk.old disk.new to.new result }
{
    disk.read_page(first, to)
}

/// Copies the eight sectors from `from` on to those from `to` on, which lie after them.
pub(crate) fn copy_page<D: SectorDisk>(disk: &mut D, from: u64, to: u64) -> Result<(), DiskFault>
    requires after { from + 8 ≤ to }
    requires room { to + 8 ≤ D.sector_count disk.old }
    requires fits { to < 2 ^ 60 }
    ensures { WritesInto D.SectorDisk (IsPageSector to) (λ k. IsPageSector from k ⊎ IsPageSector to k)
        ((i : ℕ) → i < 8 → D.content disk.new (to + i) ≡ D.content disk.old (from + i)) disk.old disk.new result }
{
    let mut page = [0; 4096];
    disk.read_page(from, &mut page)?;
    disk.write_page(to, &page)
}
