//! The pages of a journal, copied to their homes.
ghost use Rattle.std.specs.Prelude.{◌≡◌, ℕ, length, OnOk};
ghost use Rattle.sync_journal.specs.Layout.{gate_sector, home_count, IsHomeSector, IsCopied, IsReplayed, IsFinished};
ghost use Rattle.sync_journal.specs.Gate.{closed_sector};
ghost use Rattle.sync_journal.specs.Map.{AreHomes};
ghost use Rattle.sync_journal.specs.Standing.{IsOpenFor, AreCopied};
ghost use Rattle.sync_journal.specs.Steps.{IsSyncedStore, WritesInto, SyncsInto, MovesHome};

use crate::gate::close_gate;
use crate::layout::{BODY, FIRST_HOME, PAGE_SECTORS};
use crate::pages::copy_page;
use disk_model::{DiskFault, SectorDisk};

/// Copies the pages of an open journal to their homes, and then closes the gate.
pub(crate) fn replay<D: SectorDisk>(disk: &mut D, homes: &[u32]) -> Result<(), DiskFault>
    requires on { IsSyncedStore D.SectorDisk disk.old }
    requires homes { AreHomes (home_count (D.sector_count disk.old)) homes.now }
    requires opened { D.keeps_model disk.old → IsOpenFor homes.now (D.content disk.old) }
    ensures home { MovesHome D.SectorDisk (IsReplayed homes.now) (IsFinished homes.now) disk.old disk.new result }
    ensures zeros { D.keeps_model disk.new → OnOk result (D.content disk.new gate_sector ≡ closed_sector) }
    ensures all_synced { D.keeps_model disk.new → OnOk result ((k : ℕ) → D.unsynced disk.new k → ⊥) }
{
    copy_homes(disk, homes)?;
    close_gate(disk)
}

/// Copies the pages of the body to their homes, and syncs.
fn copy_homes<D: SectorDisk>(disk: &mut D, homes: &[u32]) -> Result<(), DiskFault>
    requires { AreHomes (home_count (D.sector_count disk.old)) homes.now }
    ensures { SyncsInto D.SectorDisk (IsHomeSector homes.now) (IsCopied homes.now (length homes.now))
        (AreCopied homes.now (length homes.now) (D.content disk.old) (D.content disk.new)) disk.old disk.new result }
{
    copy_each(disk, homes)?;
    disk.sync()
}

fn copy_each<D: SectorDisk>(disk: &mut D, homes: &[u32]) -> Result<(), DiskFault>
    requires { AreHomes (home_count (D.sector_count disk.old)) homes.now }
    ensures { WritesInto D.SectorDisk (IsHomeSector homes.now) (IsCopied homes.now (length homes.now))
        (AreCopied homes.now (length homes.now) (D.content disk.old) (D.content disk.new)) disk.old disk.new result }
{
    for j in 0..homes.len() {
        let home = FIRST_HOME + PAGE_SECTORS * u64::from(homes[j]);
        copy_page(disk, BODY + PAGE_SECTORS * j as u64, home)?;
    }
    Ok(())
}
