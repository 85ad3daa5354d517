//! A store found on a device.
ghost use Rattle.std.specs.Prelude.{ℕ, MatchResult};
ghost use Rattle.disk_model.specs.Stop.{Image};
ghost use Rattle.pool_store.specs.Files.{StandsAs};
ghost use Rattle.pool_store.specs.Opened.{OpensPool, RefusesPool, LeftInARow};
ghost use Rattle.pool_store.specs.Resume.{pool_on, store_on};

use crate::faults::OpenFault;
use crate::resuming::{Found, take_up};
use crate::store::PoolStore;
use disk_model::SectorDisk;
use std::alloc::Global;

impl<D: SectorDisk> PoolStore<D> {
    /// Opens the store on a device, as a stop left it or as whoever had it last in this program: what he wrote may be unsynced still. All is synced first; then
    /// mark, kind, map and directory are looked at, and where slots were given to homes the map is written anew in the place of the other one, which the gate
    /// then names: what is read after a stop need not be what the device keeps. No page is copied. What the device did at first is what it does now, and after every
    /// stop from now on; and where nothing was unsynced, so does every image that a stop might leave meanwhile, any number of times in a row.
    ///
    /// # Errors
    ///
    /// `BadLayout` comes exactly where the image is of no store of layout 4, unless memory is short or the device fails first, and `Memory` where mark and
    /// kind are those of one and there is too little for two maps, the directory and a commit's homes; nothing was written then. `Device` comes exactly where the
    /// device failed. Each fault hands the device back.
    pub fn open(alloc: Global, disk: D) -> Result<PoolStore<D>, (OpenFault, D)>
        ensures { MatchResult result (λ store. OpensPool D.SectorDisk disk store) (λ e. RefusesPool D.SectorDisk disk e.0 e.1) }
    {
        let mut disk = disk;
        match mount(alloc, &mut disk) {
            Ok(found) => Ok(PoolStore::on(disk, found)),
            Err(fault) => Err((fault, disk)),
        }
    }
}

/// It does nothing: its contract is a law. Whatever image any number of stops in a row leave, each within an opening of
/// what the one before left, stands for the files of the first image.
pub fn stops_in_a_row<D: SectorDisk>(_disk: &D)
    ensures { (m d sectors n : ℕ) (first last : Image) → LeftInARow D.SectorDisk m d sectors n first last → StandsAs (pool_on m d sectors) sectors first last }
{}

/// Syncs, finds the store, and writes anew what says where its pages stand.
fn mount<D: SectorDisk>(alloc: Global, disk: &mut D) -> Result<Found, OpenFault>
    ensures { MatchResult result (λ found. OpensPool D.SectorDisk disk.old (store_on found disk.new)) (λ fault. RefusesPool D.SectorDisk disk.old fault disk.new) }
{
    disk.sync()?;
    let mut found = take_up(alloc, disk)?;
    found.journal.renew(disk)?;
    Ok(found)
}
