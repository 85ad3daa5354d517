//! Mark and kind: what sectors 0 and 1 say of a store.
ghost use Rattle.std.specs.Prelude.{◌≡◌, ◌<◌, ℕ, IfOk, OnOk, IsErrOf};
ghost use Rattle.disk_model.specs.Stop.{NamesOnce};
ghost use Rattle.directories.specs.Kinds.{SaysKind, IsSized};
ghost use Rattle.file_store.specs.Layout.{pool_mark};
ghost use Rattle.pool_store.specs.Reading.{LooksFor};
ghost use Rattle.pool_store.specs.Resume.{IsNoPool, ReadsHead};
ghost use Rattle.pool_store.specs.declared.faults.OpenFault.TheVariants.{BadLayout, Memory};

use crate::faults::OpenFault;
use directories::{Kind, KindFault};
use disk_model::{SECTOR_BYTES, SectorDisk};
use file_store::{KIND_SECTOR, MARK_SECTOR, is_pool_mark};
use pool_journal::PoolSizes;

impl From<KindFault> for OpenFault {
    ghost from_gives = { λ _ fault. fault ≡ BadLayout };

    fn from(_: KindFault) -> Self {
        OpenFault::BadLayout
    }
}

/// Reads mark and kind, and looks whether the device has room for the pool that the kind says and for its directory, of so many pages.
pub(crate) fn read_head<D: SectorDisk>(disk: &mut D) -> Result<(PoolSizes, u32), OpenFault>
    ensures { ReadsHead D.SectorDisk disk.old disk.new result }
{
    let kind = read_kind(disk)?;
    let sizes = PoolSizes::of(kind.map_blocks, disk.sectors());
    if sizes.homes < kind.directory_pages {
        return Err(OpenFault::BadLayout);
    }
    Ok((sizes, kind.directory_pages))
}

/// Reads mark and kind.
fn read_kind<D: SectorDisk>(disk: &mut D) -> Result<Kind, OpenFault>
    ensures looks { LooksFor D.SectorDisk (IsNoPool (D.sector_count disk.old) (D.content disk.old)) disk.old disk.new result }
    ensures once { NamesOnce (λ k. k < 2) (D.asked disk.old) (D.asked disk.new) }
    ensures mark { D.keeps_model disk.new → OnOk result (D.content disk.old 0 ≡ pool_mark) }
    ensures kind { D.keeps_model disk.new → IfOk result (SaysKind (D.content disk.old 1)) }
    ensures sized { IfOk result IsSized }
    ensures memory { IsErrOf result Memory → ⊥ }
{
    // No store lies on a device without these sectors.
    if disk.sectors() <= KIND_SECTOR {
        return Err(OpenFault::BadLayout);
    }
    let mut sector = [0; SECTOR_BYTES];
    disk.read(MARK_SECTOR, &mut sector)?;
    if !is_pool_mark(&sector) {
        return Err(OpenFault::BadLayout);
    }
    disk.read(KIND_SECTOR, &mut sector)?;
    let kind = Kind::parse(&sector)?;
    Ok(kind)
}
