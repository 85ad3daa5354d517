//! Pages of slots, copied to their homes.
ghost use Rattle.std.specs.Prelude.{◌≡◌, ◌≤◌, ◌<◌, ◌+◌, ◌*◌, ◌^◌, ◌⊎◌, ℕ, Bool, length, get_or};
ghost use Rattle.pool_journal.specs.Copying.{IsHomeOf, IsCopyOf, HoldsCopy, IsBodyHome, IsBodyCopy, HoldsBody, IsSingleBody, IsCopiedHome, HoldsHomes, CopiesHome};
ghost use Rattle.pool_journal.specs.Maps.{entries_of, IsMapOf};
ghost use Rattle.pool_journal.specs.Pools.{IsLooseHome, IsSingle};
ghost use Rattle.pool_journal.specs.Sizes.{HasPool};
ghost use Rattle.sync_journal.specs.Layout.{IsPageSector};
ghost use Rattle.sync_journal.specs.Steps.{WritesInto};

use crate::map::SlotMap;
use crate::sizes::PoolSizes;
use crate::slot::Slot;
use disk_model::{DiskFault, SectorDisk};

/// Copies the pages that stand in slots to their homes, and syncs nothing. The last slot comes first, so where a home has two, the first of them counts.
pub(crate) fn copy_home<D: SectorDisk>(
    disk: &mut D,
    sizes: PoolSizes,
    map: &SlotMap,
) -> Result<(), DiskFault>
    requires pool { HasPool D.SectorDisk sizes disk.old }
    requires size { IsMapOf sizes.blocks map.now }
    requires homes { (body : Bool) (r : ℕ) → entries_of map.now body r ≤ sizes.homes }
    ensures { CopiesHome D.SectorDisk (IsLooseHome sizes.blocks (entries_of map.now)) (IsCopiedHome sizes.blocks (entries_of map.now)) (IsSingle sizes.blocks (entries_of map.now))
        (HoldsHomes sizes.blocks (entries_of map.now) (D.content disk.old) (D.content disk.new)) disk.old disk.new result }
{
    copy_body(disk, sizes, true, &map.second)?;
    copy_body(disk, sizes, false, &map.first)
}

// Copies those of a body, from its last slot to its first.
fn copy_body<D: SectorDisk>(
    disk: &mut D,
    sizes: PoolSizes,
    second: bool,
    numbers: &[u32],
) -> Result<(), DiskFault>
    requires pool { HasPool D.SectorDisk sizes disk.old }
    requires size { length numbers.now ≡ 504 * sizes.blocks }
    requires homes { (r : ℕ) → get_or numbers.now r 0 ≤ sizes.homes }
    ensures { CopiesHome D.SectorDisk (IsBodyHome sizes.blocks numbers.now) (IsBodyCopy sizes.blocks second numbers.now 0) (IsSingleBody numbers.now)
        (HoldsBody sizes.blocks second numbers.now (D.content disk.old) (D.content disk.new)) disk.old disk.new result }
{
    for place in (0..numbers.len()).rev() {
        copy_slot(
            disk,
            sizes,
            Slot {
                second,
                place: place as u32,
            },
            numbers[place],
        )?;
    }
    Ok(())
}

// Copies the page of a slot to the home that it is given to, if any.
fn copy_slot<D: SectorDisk>(
    disk: &mut D,
    sizes: PoolSizes,
    slot: Slot,
    number: u32,
) -> Result<(), DiskFault>
    requires pool { HasPool D.SectorDisk sizes disk.old }
    requires inside { slot.place < 504 * sizes.blocks }
    requires home { number ≤ sizes.homes }
    ensures { WritesInto D.SectorDisk (IsHomeOf sizes.blocks number) (IsCopyOf sizes.blocks slot.second slot.place number)
        (HoldsCopy sizes.blocks slot.second slot.place number (D.content disk.old) (D.content disk.new)) disk.old disk.new result }
{
    if number > 0 {
        copy_page(disk, sizes.slot(slot), sizes.home(number - 1))
    } else {
        Ok(())
    }
}

// Copies the eight sectors from `from` on to those from `to` on, which lie after them.
fn copy_page<D: SectorDisk>(disk: &mut D, from: u64, to: u64) -> Result<(), DiskFault>
    requires after { from + 8 ≤ to }
    requires room { to + 8 ≤ D.sector_count disk.old }
    requires fits { to < 2 ^ 60 }
    ensures { WritesInto D.SectorDisk (IsPageSector to) (λ k. IsPageSector from k ⊎ IsPageSector to k)
        ((i : ℕ) → i < 8 → D.content disk.new (to + i) ≡ D.content disk.old (from + i)) disk.old disk.new result }
{
    let mut page = [0; 4096];
    disk.read_page(from, &mut page)?;
    disk.write_page(to, &page)
}
