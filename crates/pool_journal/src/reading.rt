//! The page that stands for a home.
ghost use Rattle.std.specs.Prelude.{◌≡◌, ◌≤◌, ◌<◌, ◌-◌, ◌^◌, ℕ, true, false, get_or, IsSome, None};
ghost use Rattle.pool_journal.specs.Journal.{IsPoolJournal};
ghost use Rattle.pool_journal.specs.Maps.{entries_of, IsMapOf};
ghost use Rattle.pool_journal.specs.Pools.{pool_home, slot_by, pool_stands};
ghost use Rattle.pool_journal.specs.Reading.{ReadsHome};
ghost use Rattle.pool_journal.specs.Sizes.{HasPool, IsSized};

use crate::map::SlotMap;
use crate::pool::PoolJournal;
use crate::searches::{FIRST_HOMES, greatest, mark_homes};
use crate::sizes::PoolSizes;
use disk_model::{DiskFault, SectorDisk};
use sync_journal::read_page;

impl PoolJournal {
    /// Reads the page that stands for a home between two commits: what the first slot holds that the journal's map gives to the home, or where it gives none, what
    /// the home itself holds. The home is below the pool's `homes`. Nothing is written.
    ///
    /// # Errors
    ///
    /// An error comes exactly where the device failed; of the bytes nothing is promised then.
    pub fn read<D: SectorDisk>(
        &self,
        disk: &mut D,
        home: u32,
        to: &mut [u8; 4096],
    ) -> Result<(), DiskFault>
        requires is { IsPoolJournal self.now }
        requires pool { HasPool D.SectorDisk self.now.sizes disk.old }
        requires home { home < self.now.sizes.homes }
        ensures { ReadsHome D.SectorDisk self.now.sizes.blocks (entries_of self.now.map) home disk.old disk.new to.new result }
    {
        read_page_of(disk, self.sizes, &self.map, home, to)
    }

    /// The first sector of the page that stands for a home, which is below 2^30, between two commits: of a slot, or of the home itself.
    pub fn stands_at(&self, home: u32) -> u64
        requires is { IsPoolJournal self.now }
        requires home { home < 2 ^ 30 }
        ensures at { result ≡ pool_stands self.now.sizes.blocks home (slot_by self.now.sizes.blocks (entries_of self.now.map) home) }
        ensures inside { result ≤ pool_home self.now.sizes.blocks home }
    {
        stands_at(self.sizes, &self.map, home)
    }

    /// From which home on the map gives no slot: each home from there on stands where it is. Where that is not 0, the home before it has a slot.
    pub fn homes_given(&self) -> u32
        requires is { IsPoolJournal self.now }
        ensures none { (home : ℕ) → result ≤ home → slot_by self.now.sizes.blocks (entries_of self.now.map) home ≡ None }
        ensures last { 0 < result → IsSome (slot_by self.now.sizes.blocks (entries_of self.now.map) (result - 1)) }
    {
        greatest(&self.map.first).max(greatest(&self.map.second))
    }

    /// Which of the first homes, so many and 256 at most, the map gives a slot to. Each of the others among them stands where it is.
    pub fn first_given(&self, homes: u32) -> [bool; FIRST_HOMES]
        requires is { IsPoolJournal self.now }
        requires few { homes ≤ 256 }
        ensures given { (home : ℕ) → home < homes → get_or result home false ≡ true → IsSome (slot_by self.now.sizes.blocks (entries_of self.now.map) home) }
        ensures none { (home : ℕ) → home < homes → get_or result home false ≡ false → slot_by self.now.sizes.blocks (entries_of self.now.map) home ≡ None }
    {
        let mut given = [false; FIRST_HOMES];
        mark_homes(&mut given, &self.map.first, homes);
        mark_homes(&mut given, &self.map.second, homes);
        given
    }
}

/// Reads the page that stands for a home under a map.
pub(crate) fn read_page_of<D: SectorDisk>(
    disk: &mut D,
    sizes: PoolSizes,
    map: &SlotMap,
    home: u32,
    to: &mut [u8; 4096],
) -> Result<(), DiskFault>
    requires pool { HasPool D.SectorDisk sizes disk.old }
    requires size { IsMapOf sizes.blocks map.now }
    requires home { home < sizes.homes }
    ensures { ReadsHome D.SectorDisk sizes.blocks (entries_of map.now) home disk.old disk.new to.new result }
{
    read_page(disk, stands_at(sizes, map, home), to)
}

// The first sector of the page that stands for a home.
fn stands_at(sizes: PoolSizes, map: &SlotMap, home: u32) -> u64
    requires sized { IsSized sizes }
    requires size { IsMapOf sizes.blocks map.now }
    requires low { home < 2 ^ 30 }
    ensures at { result ≡ pool_stands sizes.blocks home (slot_by sizes.blocks (entries_of map.now) home) }
    ensures inside { result ≤ pool_home sizes.blocks home }
{
    match map.slot_of(home) {
        Some(slot) => sizes.slot(slot),
        None => sizes.home(home),
    }
}
