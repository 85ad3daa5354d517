//! The journal of a pool, between two commits and as one begins and ends.
ghost use Rattle.std.specs.Prelude.{◌≡◌, ◌≤◌, ◌<◌, ◌^◌, ℕ, Bool, length, get_or, IfOk};
ghost use Rattle.pool_journal.specs.Maps.{entries_of};
ghost use Rattle.pool_journal.specs.Giving.{AreRising};
ghost use Rattle.pool_journal.specs.Journal.{IsPoolJournal, IsNewJournal, BeginsMap, TurnsMap, free_count};
ghost use Rattle.pool_journal.specs.Room.{MakesRoom, FillsSlots};
ghost use Rattle.pool_journal.specs.Sizes.{HasPool, IsSized};

use crate::copying::copy_home;
use crate::filling::write_pages;
use crate::forgetting::forget;
use crate::giving::give_all;
use crate::map::SlotMap;
use crate::sizes::PoolSizes;
use crate::slot::Slot;
use crate::taking::TakenSlots;
use disk_model::{DiskFault, SectorDisk};
use std::alloc::{AllocError, Global};
use std::mem::swap;
use sync_journal::{CommitFault, PageSource};

/// The journal of a store whose pages stay in a pool of slots: layout 4.
#[derive(Drop)]
pub struct PoolJournal {
    pub(crate) sizes: PoolSizes,
    /// Whether the gate names the second map.
    pub(crate) second: bool,
    /// What the map says that the gate names.
    pub(crate) map: SlotMap,
    /// Room for the map of the next commit.
    pub(crate) next: SlotMap,
    /// How many slots the named map gives to no home.
    pub(crate) free: usize,
    /// Room for those of them that the next commit takes.
    pub(crate) taken: TakenSlots,
}

impl PoolJournal {
    /// A journal whose map is the first one and gives no slot to a home.
    pub fn new(alloc: Global, sizes: PoolSizes) -> Result<PoolJournal, AllocError>
        requires { IsSized sizes }
        ensures { IfOk result (IsNewJournal sizes) }
    {
        let map = SlotMap::new(alloc, sizes.blocks)?;
        let next = SlotMap::new(alloc, sizes.blocks)?;
        let taken = TakenSlots::room(alloc, sizes)?;
        let free = 2 * sizes.places() as usize;
        Ok(PoolJournal {
            sizes,
            second: false,
            map,
            next,
            free,
            taken,
        })
    }

    /// How large the pool is, and how many homes the device has.
    pub fn sizes(&self) -> PoolSizes
        ensures { result ≡ self.now.sizes }
    {
        self.sizes
    }

    /// How many pages the next commit may take.
    pub fn free_pages(&self) -> usize
        requires { IsPoolJournal self.now }
        ensures { result ≡ free_count self.now.sizes.blocks (entries_of self.now.map) }
    {
        self.free
    }

    // The map of the next commit begins as the map, but its homes keep no slot. It answers whether slots for these and for the others are
    // more than a body has: then the others are to be copied home.
    pub(crate) fn begin(&mut self, homes: &[u32]) -> bool
        requires is { IsPoolJournal self.old }
        requires rising { AreRising homes.now }
        requires few { length homes.now < 2 ^ 32 }
        ensures { BeginsMap homes.now self.old self.new result }
    {
        self.next.copy_from(&self.map);
        let places = self.sizes.places() as usize;
        let live = 2 * places - self.free;
        let gone = forget(&mut self.next, homes);
        live - gone + homes.len() > places
    }

    // Begins the map of the next commit, and where a body has too few slots for it, copies the pages of other homes home, so that it gives none.
    pub(crate) fn make_room<D: SectorDisk>(
        &mut self,
        disk: &mut D,
        homes: &[u32],
    ) -> Result<(), DiskFault>
        requires is { IsPoolJournal self.old }
        requires pool { HasPool D.SectorDisk self.old.sizes disk.old }
        requires rising { AreRising homes.now }
        requires few { length homes.now < 2 ^ 32 }
        ensures { MakesRoom D.SectorDisk homes.now self.old self.new disk.old disk.new result }
    {
        if self.begin(homes) {
            copy_home(disk, self.sizes, &self.next)?;
            self.next.clear();
        }
        Ok(())
    }

    // Writes the pages that the source gives to free slots, and gives these to the homes.
    pub(crate) fn fill<D: SectorDisk, S: PageSource>(
        &mut self,
        disk: &mut D,
        homes: &[u32],
        source: &mut S,
    ) -> Result<(), CommitFault>
        requires is { IsPoolJournal self.old }
        requires pool { HasPool D.SectorDisk self.old.sizes disk.old }
        requires few { length homes.now ≤ free_count self.old.sizes.blocks (entries_of self.old.map) }
        requires low { (j : ℕ) → get_or homes.now j 0 < 2 ^ 30 }
        requires gives { (i : ℕ) → i < length homes.now → S.gives source.old i }
        ensures { FillsSlots D.SectorDisk S.PageSource homes.now self.old self.new disk.old disk.new source.old source.new result }
    {
        self.taken.list(&self.map, !self.second, homes.len());
        let slots = &self.taken.slots;
        write_pages(disk, self.sizes, slots, source)?;
        give_all(&mut self.next, slots, homes);
        Ok(())
    }

    // The next map is the one that the gate names.
    pub(crate) fn turn(&mut self)
        requires is { IsPoolJournal self.old }
        requires homes { (body : Bool) (r : ℕ) → entries_of self.old.next body r ≤ self.old.sizes.homes }
        ensures { TurnsMap self.old self.new }
    {
        swap(&mut self.map, &mut self.next);
        self.second = !self.second;
        self.free = self.map.free_count();
    }
}
