//! The journal of a pool, taken up from a device.
ghost use Rattle.std.specs.Prelude.{◌≡◌, ◌≤◌, ◌<◌, ◌*◌, ℕ, Bool, true, false};
ghost use Rattle.pool_journal.specs.Blocks.{IsNotedMap};
ghost use Rattle.pool_journal.specs.Journal.{IsPoolJournal, HasRoom};
ghost use Rattle.pool_journal.specs.Maps.{entries_of, IsMapOf};
ghost use Rattle.pool_journal.specs.Pools.{pool_entry, IsPoolMap, IsPoolRest};
ghost use Rattle.pool_journal.specs.Recovering.{GivesNone, TakesNext, FacesMap, ResumesPool, WritesAnew, RecoversPool};
ghost use Rattle.pool_journal.specs.Sizes.{HasPool, IsSized};
ghost use Rattle.sync_journal.specs.Steps.{SyncsInto};

use crate::gate::{name_map, named};
use crate::map::SlotMap;
use crate::map_blocks::{read_map, write_map};
use crate::pool::PoolJournal;
use crate::sizes::PoolSizes;
use disk_model::{DiskFault, SectorDisk};
use std::mem::swap;
use sync_journal::RecoverFault;

impl PoolJournal {
    /// Syncs, and takes the journal up as gate and maps have it; what it said before is forgotten. Where the map that the gate names gives
    /// slots to homes, it is written anew in the place of the other one, and the gate names that. No page is copied. It may be stopped at any
    /// moment, any number of times in a row.
    ///
    /// # Errors
    ///
    /// `Device` comes exactly where the device failed. No map is bad, so `BadJournal` never comes.
    pub fn recover<D: SectorDisk>(&mut self, disk: &mut D) -> Result<(), RecoverFault>
        requires is { IsPoolJournal self.old }
        requires pool { HasPool D.SectorDisk self.old.sizes disk.old }
        ensures { RecoversPool D.SectorDisk self.old self.new disk.old disk.new result }
    {
        disk.sync()?;
        self.resume(disk)?;
        self.renew(disk)?;
        Ok(())
    }

    /// Takes the journal up as it stands on a device of which nothing is unsynced, and writes nothing: the next commit goes on from the map
    /// that the gate names. Nothing is synced first: the bytes of a gate that is not on the device yet may name either map after a stop, so
    /// that they are is for the caller to know; who doesn't takes `recover`.
    ///
    /// # Errors
    ///
    /// An error comes exactly where the device failed.
    pub fn resume<D: SectorDisk>(&mut self, disk: &mut D) -> Result<(), DiskFault>
        requires is { IsPoolJournal self.old }
        requires pool { HasPool D.SectorDisk self.old.sizes disk.old }
        requires synced { D.keeps_model disk.old → (k : ℕ) → D.unsynced disk.old k → ⊥ }
        ensures { ResumesPool D.SectorDisk self.old self.new disk.old disk.new result }
    {
        let second = named(disk)?;
        read_map(disk, self.sizes, second, &mut self.next)?;
        self.take_next(second);
        Ok(())
    }

    /// Writes gate and map anew, which an opening has only read: where the map gives a slot to a home, it is written in the place of the other one and synced, and
    /// then the gate names it and is synced. Where it gives none, nothing is done. No page is copied, and at every moment the device stands for what it did.
    ///
    /// It is the last step of an opening, after a sync, `resume`, and whatever the caller looks at before the first write: nothing is unsynced then. `recover` is
    /// these steps in one. What is read after a stop need not be what the device keeps, since a system may show bytes whose sync had failed.
    ///
    /// # Errors
    ///
    /// An error comes exactly where the device failed: every image that a stop might have left stands for the same pages, and the journal is read anew.
    pub fn renew<D: SectorDisk>(&mut self, disk: &mut D) -> Result<(), DiskFault>
        requires is { IsPoolJournal self.old }
        requires pool { HasPool D.SectorDisk self.old.sizes disk.old }
        requires rest { D.keeps_model disk.old → IsPoolRest D.SectorDisk self.old.sizes.blocks self.old.sizes.homes self.old.second (entries_of self.old.map) disk.old }
        requires synced { D.keeps_model disk.old → (k : ℕ) → D.unsynced disk.old k → ⊥ }
        ensures { WritesAnew D.SectorDisk self.old self.new disk.old disk.new result }
    {
        if self.gives() {
            let other = !self.second;
            put_map(disk, self.sizes, other, &self.map)?;
            name_map(disk, other)?;
            self.face(other);
        }
        Ok(())
    }

    /// Whether the map gives a slot to a home.
    pub(crate) fn gives(&self) -> bool
        requires { IsPoolJournal self.now }
        ensures some { result ≡ true → GivesNone self.now.sizes.blocks (entries_of self.now.map) → ⊥ }
        ensures none { result ≡ false → GivesNone self.now.sizes.blocks (entries_of self.now.map) }
    {
        self.free_pages() < 2 * self.sizes.places() as usize
    }

    // The next map is the one that the gate names, in this place.
    fn take_next(&mut self, second: bool)
        requires is { IsPoolJournal self.old }
        requires homes { (body : Bool) (r : ℕ) → entries_of self.old.next body r ≤ self.old.sizes.homes }
        ensures { TakesNext second self.old self.new }
    {
        swap(&mut self.map, &mut self.next);
        self.face(second);
    }

    // The gate names the map in this place.
    fn face(&mut self, second: bool)
        requires sized { IsSized self.old.sizes }
        requires maps { IsMapOf self.old.sizes.blocks self.old.map × IsMapOf self.old.sizes.blocks self.old.next }
        requires homes { (body : Bool) (r : ℕ) → entries_of self.old.map body r ≤ self.old.sizes.homes }
        requires room { HasRoom self.old.sizes.blocks self.old.taken }
        ensures { FacesMap second self.old self.new }
    {
        self.second = second;
        self.free = self.map.free_count();
    }
}

/// Writes a map in this place, and syncs.
pub(crate) fn put_map<D: SectorDisk>(
    disk: &mut D,
    sizes: PoolSizes,
    second: bool,
    map: &SlotMap,
) -> Result<(), DiskFault>
    requires pool { HasPool D.SectorDisk sizes disk.old }
    requires size { IsMapOf sizes.blocks map.now }
    requires homes { (body : Bool) (r : ℕ) → entries_of map.now body r ≤ sizes.homes }
    ensures { SyncsInto D.SectorDisk (IsPoolMap sizes.blocks second) (IsNotedMap sizes.blocks second (entries_of map.now))
        ((body : Bool) (r : ℕ) → r < 504 * sizes.blocks → pool_entry sizes.blocks sizes.homes second (D.content disk.new) body r ≡ entries_of map.now body r) disk.old disk.new result }
{
    write_map(disk, sizes, second, map)?;
    disk.sync()
}
